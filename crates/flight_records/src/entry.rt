//! The entries of a record.

use topology::{Frame, Payload};

/// One entry: what was noted, and when.
#[derive(Clone, Copy, PartialEq, Eq)]
pub struct Entry {
    /// When that was, in microseconds of the clock that the writer of the record uses.
    pub instant: u64,
    /// What was noted.
    pub noted: Noted,
}

/// What an entry notes of its node.
#[derive(Clone, Copy, PartialEq, Eq)]
pub enum Noted {
    /// A part of the state in which the node is.
    State(StatePart),
    /// What the node did, or what came to it.
    Deed(Deed),
}

/// A part of a node's whole state. A record begins with all of them: `Start`, `Own`, a `Port` for
/// each neighbour, `Waits` for each ticket that waits, in their order, `Loan`, `Whole`.
#[derive(Clone, Copy, PartialEq, Eq)]
pub enum StatePart {
    /// The state of a node begins, in the network with this checksum.
    Start {
        network: u32,
        node: u16,
    },
    /// The node's distance and parent.
    Own {
        distance: u16,
        parent: Option<u16>,
    },
    /// The port to a neighbour, and the value of the machine that comes in from there.
    Port {
        neighbour: u16,
        seq: u16,
        last: u16,
        staged: Payload,
        copy: Payload,
        value: u16,
    },
    /// A ticket waits, after those noted before it.
    Waits {
        ticket: u16,
    },
    /// The desk's loan: the ticket that it lends to, the ticks left, and whether a loan ended since
    /// the last full tick.
    Loan {
        lent: Option<u16>,
        left: u16,
        served: bool,
    },
    /// The state is noted whole.
    Whole,
}

/// What a node did, or what came to it.
#[derive(Clone, Copy, PartialEq, Eq)]
pub enum Deed {
    /// The node ticked.
    Ticks,
    /// It took a frame of a neighbour.
    Takes { from: u16, frame: Frame },
    /// It took the frame of a neighbour that it last took from there.
    TakesAgain { from: u16 },
    /// The link to a neighbour accepted a frame.
    Sends { to: u16, frame: Frame },
    /// The link to a neighbour accepted the frame that it last accepted.
    SendsAgain { to: u16 },
    /// A ticket asked for the lock.
    Asks { ticket: u16 },
    /// A ticket left.
    Leaves { ticket: u16 },
    /// The node has an edge to a neighbour now.
    Joins { neighbour: u16 },
    /// The node has no edge to a neighbour any more.
    Parts { neighbour: u16 },
    /// A connection with a neighbour began.
    Connects { neighbour: u16 },
    /// A connection with a neighbour ended.
    Disconnects { neighbour: u16 },
}
