//! What a node's process prints of its start.
ghost use Rattle.std.specs.Prelude.{◌≡◌, Some};
ghost use Rattle.node_folder.specs.NoteText.{start_fault_name, note_text, note_line};

use node_state_file::{FileFault, StartFault};
use std::fmt;

/// What a node's process says on standard output.
#[derive(Clone, Copy)]
pub enum Note {
    /// What it starts from: its stored state or, because of this fault, the default state.
    Started(Option<StartFault>),
    /// All of its sockets listen.
    Ready,
}

impl fmt::Display for Note {
    ghost output = { λ note. Some (note_text note) };

    fn fmt<W: fmt::Write>(&self, f: &mut fmt::Formatter<W>) -> fmt::Result {
        match *self {
            Note::Started(None) => f.write_str("start loaded"),
            Note::Started(Some(fault)) => {
                f.write_str("start default ")?;
                f.write_str(fault_name(fault))
            }
            Note::Ready => f.write_str("ready"),
        }
    }
}

/// The name of the fault that kept a stored state from being used.
fn fault_name(fault: StartFault) -> &'static str
    ensures { result.now ≡ start_fault_name fault }
{
    match fault {
        StartFault::Absent => "Absent",
        StartFault::Device => "Device",
        StartFault::File(FileFault::Short) => "Short",
        StartFault::File(FileFault::Magic) => "Magic",
        StartFault::File(FileFault::Shape) => "Shape",
        StartFault::File(FileFault::Range) => "Range",
        StartFault::File(FileFault::Long) => "Long",
        StartFault::File(FileFault::Memory) => "Memory",
    }
}

/// A note as a line without its newline. The node's id is in front if the node is named, as one
/// that `up` started is.
#[derive(Clone, Copy)]
pub struct NoteLine {
    /// The node that is named.
    pub named: Option<u16>,
    /// What it says.
    pub note: Note,
}

impl fmt::Display for NoteLine {
    ghost output = { λ line. Some (note_line line.named line.note) };

    fn fmt<W: fmt::Write>(&self, f: &mut fmt::Formatter<W>) -> fmt::Result {
        let note = self.note;
        match self.named {
            None => f.write(note),
            Some(id) => write!(f, "node {id} {note}"),
        }
    }
}
