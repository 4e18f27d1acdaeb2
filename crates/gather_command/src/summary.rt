//! What a recording shows, in numbers.
use record_gathering::EventCounts;

/// A loan that ended.
#[derive(Clone, Copy)]
pub struct Lasted {
    /// The node that lent the lock.
    pub node: u16,
    /// The ticket that it was lent to.
    pub ticket: u16,
    /// How long it lasted, in microseconds.
    pub time: u64,
}

/// What a recording shows, in numbers.
#[derive(Clone, Copy)]
pub struct RecordingSummary {
    /// How many nodes have a record.
    pub nodes: u16,
    /// From the least to the greatest instant of the entries, by the clocks of their nodes, in
    /// microseconds.
    pub stretch: u64,
    /// How many events of each kind were written. If the list begins in the middle, the frames that were
    /// under way then do not count as frames that nobody sent.
    pub found: EventCounts,
    /// How many fields differed from what their nodes' records led to.
    pub differences: u64,
    /// The longest time from one tick of a node to its next one, in microseconds.
    pub longest_turn: u64,
    /// The longest time from the turn in which a link accepted a frame to the turn in which it was
    /// taken, in microseconds, each by its node's clock. If the latter is the earlier, this counts
    /// as 0.
    pub longest_delay: u64,
    /// How many loans began: entries after which a node lends to a ticket to which it did not lend
    /// after its entry before. If the list begins in the middle, a loan that had begun then counts
    /// too.
    pub loans: u64,
    /// The longest loan that ended, if one did.
    pub longest_loan: Option<Lasted>,
}
