//! Where the records of a network's nodes are read from.
ghost use Rattle.std.specs.Prelude.{ℕ};
ghost use Rattle.flight_recorder.specs.declared.recorder.Side.{Side};
ghost use Rattle.gather_command.specs.declared.records.Opened.{Opened};
ghost use Rattle.gather_command.specs.Reading.{OpensNoMore};

use flight_recorder::Side;
use record_pages::Source;

/// What became of opening a file.
pub enum Opened<F> {
    /// It is open.
    File(F),
    /// There is no such file.
    Absent,
    /// It cannot be opened.
    Unreadable,
    /// Memory ran out.
    NoMemory,
}

/// Where the files of records are.
pub trait Records {
    /// A file of a record, as the bytes that it gives.
    type File: Source + Drop;

    /// What may come of opening a file of a node's record.
    ghost opens: { Self → ℕ → Side → Opened Self.File → Type 0 };

    /// Opens a file of a node's record, at its start.
    fn open(&mut self, node: u16, side: Side) -> Opened<Self::File>
        ensures opened { opens self.old node side result }
        // Whatever may be opened afterwards could also be opened before.
        ensures same { OpensNoMore (opens self.old) (opens self.new) };
}
