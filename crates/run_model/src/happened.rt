//! What an event did.

/// What an accepted event did: which node ticked, and what became of the items of a link.
#[derive(Clone, Copy, Debug, PartialEq, Eq)]
pub enum Happened {
    /// The node ticked, and afterwards lends the lock to nobody.
    FullTick { node: u16 },
    /// The node ticked, and afterwards lends the lock.
    LendingTick { node: u16 },
    /// The node `to` took the oldest item of the link from `from`.
    Taken { from: u16, to: u16 },
    /// `to` found no item on the link from `from`.
    NothingTaken { from: u16, to: u16 },
    /// An item of a link was lost; 0 was the oldest.
    Lost { from: u16, to: u16, item: u16 },
    /// A transient fault wrote one part of the world, or added or removed one edge.
    Damaged,
    /// A frame was sent, or a client asked for the lock or released it: no node ticked, and no
    /// link lost an item.
    Other,
}
