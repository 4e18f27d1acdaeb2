//! The sockets of nodes in a folder: where a node's desk listens, where lookers connect, and which nodes
//! have a desk there.
//!
//! ```
//! let path = desk_path(alloc, "run", 1)?;       // run/desk-1.sock
//! let node = node_of(b"desk-1.sock");           // Some(1)
//! let nodes = nodes_in(rt, "run")?;             // by ascending id
//! ```
//!
//! The trap: the socket of a node that has ended may still be there.
#![tactic(auto)]

mod sockets;

pub use sockets::{desk_path, look_path, node_of, nodes_in};
