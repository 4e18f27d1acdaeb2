//! What a tick does at a desk.

/// What a tick did with the lock.
#[derive(Clone, Copy, Debug, PartialEq, Eq)]
pub enum DeskAct {
    /// No loan began and none ended.
    Quiet,
    /// The lock was lent to this ticket.
    Granted(u16),
    /// The loan to this ticket ended.
    Lost(u16),
}
