//! What a client asks for.

/// A line of a client.
#[derive(Clone, Copy, Debug, PartialEq, Eq)]
pub enum ClientLine {
    /// `lock`: the client asks for the lock.
    Lock,
    /// `unlock`: it gives the lock back, or waits no longer.
    Unlock,
    /// `status`: it asks for the status of the node.
    Status,
    /// Any other line.
    Unknown,
}
