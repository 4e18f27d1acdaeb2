//! Networks of the lock: connected undirected graphs with a root, read from TOML or made from
//! values, with the distance and the true parent of each node, and the numbers that follow from the
//! size: the counters' modulus, the ring's, and the sweeps after which the system is legitimate.
//! Also the plain data that neighbours send each other, and their ranges.
//!
//! It is not a general graph library: a [`Net`] has at most 64 nodes and 256 edges, and is
//! connected at all times. One edge at a time may `join` it or `part` from it; its nodes, root,
//! capacity and lease never change.
//!
//! ```text
//! let net = Net::read(alloc, "nodes = 2\nroot = 0\ncapacity = 1\nlease = 0\nedges = [[0, 1]]")?;
//! net.parent(1)   // Some(0)
//! net.bound()     // 69 sweeps
//! ```
//!
//! `make`, `read` and `copy` reserve all memory; `join`, `part` and `copy_from` take none (the
//! contracts do not say so).
//!
//! A trap: a parent here follows from the true distances. What a node takes to be its parent while
//! the system settles is in the node's state, not here.
//!
//! Distances are those of graph theory; the tree by distances with the smallest parents is that of
//! Dolev, Israeli and Moran (1993).
#![tactic(auto)]

mod fault;
mod file;
mod frame;
mod graph;
pub mod laws;
mod layout;
mod net;
mod values;

pub use fault::NetFault;
pub use frame::{Frame, Payload, Ranges};
pub use net::Net;
