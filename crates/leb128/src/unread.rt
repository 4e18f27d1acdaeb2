//! Why nothing was read.

/// Why nothing is read from the front of some bytes.
#[derive(Clone, Copy, Debug, PartialEq, Eq)]
pub enum Unread {
    /// The bytes end within what they begin, or there are none.
    Short,
    /// Nothing begins like this.
    Invalid,
}
