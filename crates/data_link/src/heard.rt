//! What a frame did to a port.

/// What a frame did to the port that took it.
#[derive(Clone, Copy, Debug, PartialEq, Eq)]
pub struct Heard {
    /// It acknowledged the port's number, which moved on.
    pub moved: bool,
    /// Its number was not the last one, so its payload was copied.
    pub accepted: bool,
}
