//! Why a write is refused.

/// A value is outside the range of the field that it is written to.
#[derive(Clone, Copy, Debug, PartialEq, Eq)]
pub struct OutOfRange;
