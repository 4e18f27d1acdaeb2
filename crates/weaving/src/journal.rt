//! What a node notes in its run, and what it puts on a link.

use link_model::Item;
use run_model::Event;
use std::alloc::{Allocator, Global};

/// An event of one node, with the time of that node's clock. If one event waited for another, it
/// has the greater stamp.
#[derive(Clone, Copy, Debug, PartialEq, Eq)]
pub struct JournalEntry {
    /// The clock's time.
    pub stamp: u64,
    /// What the node did.
    pub event: Event,
}

/// An item of a link, with the time of its sender's clock when it was sent; or, as an item that was
/// taken, with the time of its receiver's clock then.
#[derive(Clone, Copy, Debug, PartialEq, Eq)]
pub struct Stamped {
    /// The clock's time.
    pub stamp: u64,
    /// What was sent.
    pub item: Item,
}

/// What one node did, in order.
#[derive(Drop)]
pub struct Journal<A: Allocator = Global> {
    /// Its entries. To be woven, their stamps must rise strictly.
    pub entries: Vec<JournalEntry, A>,
}
