//! The sockets of a node.
use mio::net::UnixListener;

/// The listening sockets of a node.
#[derive(Drop)]
pub struct Listeners {
    /// For neighbours.
    pub links: UnixListener,
    /// For clients.
    pub clients: UnixListener,
    /// For lookers.
    pub looks: UnixListener,
}
