//! One step of a breadth-first spanning tree with a fixed root.
//!
//! A node knows its neighbours' distances only as copies, which links brought in and which may be
//! wrong. One step computes the node's own distance and its parent from these copies: the root is
//! at distance 0 and has no parent; any other node is one further than its least copy, and its
//! parent is the neighbour of smallest id with that copy.
//!
//!     let (distance, parent) = recompute(is_root, nodes, &neighbours, |w| copies[w]);
//!
//! This is no search, and no node sees the network. If every node steps repeatedly, and the copies
//! follow, wrong distances grow until only true ones are left: `laws` has one round of that.
//!
//! Copies are read through a closure from the ports that keep them, so a tick copies no state.
//!
//! The trap: a step reads nothing of the node's old distance and parent. A caller that kept an old
//! parent, if as good as the new one, would break the rule for ties.
//!
//! Source: Dolev, Israeli, Moran, Self-stabilization of dynamic systems assuming only read/write
//! atomicity, Distributed Computing 7, 1993.
#![tactic(auto)]

pub mod laws;
mod step;

pub use step::recompute;
