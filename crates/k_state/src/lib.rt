//! Dijkstra's K-state machines: their two moves, their privilege, and the laws of a ring in which
//! values are copied.
//!
//! A ring is a list of values below a modulus; the first is the head's. A value is copied to its
//! right, written over its right neighbour or removed, and the head moves on by one if the last
//! value equals its own. The laws say that such a ring becomes *good* (some items `a`, then only
//! `a - 1`) after as many head moves as it had items, if these are no more than the modulus.
//!
//! This is not a ring of machines that runs: a caller keeps its values where it likes (the numbers
//! of a link, the machines of a tree) and shows that what happens to them is a list of changes.
//!
//! The trap: a good ring needs as many values to count with as it has *places*. Values on their way
//! between two machines are places too.
//!
//! Source: E. W. Dijkstra, Self-stabilizing systems in spite of distributed control, 1974.
#![tactic(auto)]

pub mod laws;
mod machine;

pub use machine::{copy_move, privileged, root_move};
