//! Why no entry is read.

/// Why no entry is read.
#[derive(Clone, Copy, Debug, PartialEq, Eq)]
pub enum Stop {
    /// The record has ended: no bytes are left.
    End,
    /// The record ends within an entry.
    Torn,
    /// No entry begins with the bytes that come next.
    Invalid,
    /// The source failed.
    Failed,
}
