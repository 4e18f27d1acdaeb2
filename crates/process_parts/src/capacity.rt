//! A warning if a network's links hold too few frames for sockets.
use node_keeping::{CapacityLine, SOCKET_FRAMES};

/// Warns if links hold fewer frames than a socket may.
pub fn warn_of_capacity<R: Eprint>(rt: &R, capacity: u16) {
    if capacity < SOCKET_FRAMES {
        let _ = rt.eprintln(CapacityLine(capacity));
    }
}
