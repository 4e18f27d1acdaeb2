//! What a tick did.

use lock_desk::DeskAct;

/// What one tick of a node did.
#[derive(Clone, Copy, Debug, PartialEq, Eq)]
pub struct Ticked {
    /// What it did with the lock.
    pub act: DeskAct,
    /// It was a full tick: the node lends to nobody after it, so its machines moved if they
    /// might.
    pub full: bool,
}
