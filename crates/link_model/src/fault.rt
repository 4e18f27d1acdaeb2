//! Why a link refuses a call.

/// A link holds as many items as its capacity.
#[derive(Clone, Copy, Debug, PartialEq, Eq)]
pub struct Full;

/// A link has no item at an index.
#[derive(Clone, Copy, Debug, PartialEq, Eq)]
pub struct NoItem;
