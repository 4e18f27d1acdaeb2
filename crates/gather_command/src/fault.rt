//! Why records give no list of events.
use flight_recorder::Side;

/// A file of a node's record.
#[derive(Clone, Copy)]
pub struct RecordFile {
    /// The node.
    pub node: u16,
    /// Which of its two files it is.
    pub side: Side,
}

/// Why records give no list of events. Nothing has been written then, except that with `Output`, `Memory`
/// and `TooMany` the beginning of the list may have been.
#[derive(Clone, Copy, Drop)]
pub enum GatherFault {
    /// A node has no record, or an empty one.
    Absent(u16),
    /// A file cannot be read.
    Unreadable(RecordFile),
    /// A file is no record: it does not begin with the start of a state.
    NoRecord(RecordFile),
    /// A file is the record of a node of another network.
    OtherNetwork(RecordFile),
    /// A file is the record of another node, which has this id.
    OtherNode(RecordFile, u16),
    /// What takes the events failed.
    Output,
    /// Memory ran out.
    Memory,
    /// There are more entries than a 64-bit number can count.
    TooMany,
}

/// Where a file was not read to its end.
#[derive(Clone, Copy)]
pub struct Flaw {
    /// The file.
    pub file: RecordFile,
    /// What is wrong with it.
    pub kind: FlawKind,
    /// The instant of the last entry that was read from it, in microseconds of its node's clock.
    pub instant: u64,
}

/// What is wrong with a file.
#[derive(Clone, Copy)]
pub enum FlawKind {
    /// It ends within an entry.
    Torn,
    /// What comes after the last entry that was read is no entry, or stands for a frame that was
    /// not noted before.
    Spoiled,
    /// It could not be read any further.
    Unreadable,
}
