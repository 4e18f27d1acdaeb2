//! The lines which say that a node is left alone, or has ended as asked.
ghost use Rattle.std.specs.Prelude.{Some};
ghost use Rattle.up_process.specs.Texts.{last_line, last_end};

use process_parts::End;
use std::fmt;

/// The line which says how a node that is not started again ended.
#[derive(Clone, Copy)]
pub enum LastLine {
    /// The node failed at its start for the third time, and is left alone.
    Left { id: u16, end: End },
    /// The node was asked to end.
    Gone { id: u16, end: End },
}

impl fmt::Display for LastLine {
    ghost output = { λ line. Some (last_line line) };

    fn fmt<W: fmt::Write>(&self, f: &mut fmt::Formatter<W>) -> fmt::Result {
        match *self {
            LastLine::Left { id, end } => {
                let end = LastEnd(end);
                write!(
                    f,
                    "node {id} {end} for the third time at its start, and is left alone; mend what it \
                    says, and start up again"
                )
            }
            LastLine::Gone {
                id,
                end: End::Status(0),
            } => write!(f, "node {id} has ended"),
            LastLine::Gone { id, end } => {
                let end = LastEnd(end);
                write!(f, "node {id} {end}")
            }
        }
    }
}

/// The last end of a node.
#[derive(Drop)]
struct LastEnd(End);

impl fmt::Display for LastEnd {
    ghost output = { λ end. Some (last_end end.0) };

    fn fmt<W: fmt::Write>(&self, f: &mut fmt::Formatter<W>) -> fmt::Result {
        match self.0 {
            End::Status(status) => write!(f, "ended with status {status}"),
            End::Signal(signal) => write!(f, "was ended by signal {signal}"),
            End::Unknown => f.write_str("ended"),
            End::Unstarted => f.write_str("cannot be started"),
        }
    }
}
