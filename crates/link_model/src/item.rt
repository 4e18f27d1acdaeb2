//! What a link carries.

use topology::Frame;

/// What is on a link.
#[derive(Clone, Copy, Debug, PartialEq, Eq)]
pub enum Item {
    /// A frame as a neighbour sent it, or as a fault wrote it.
    Frame(Frame),
    /// Something that is no frame: its receiver takes it and ignores it.
    Noise,
}
