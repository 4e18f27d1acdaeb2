//! A node's place on the Euler tour of a tree.
//!
//! The tour walks round a tree and goes along each edge once in each direction. A node sees none of
//! it but its own tree neighbours, and needs no more: what came in from one of them goes out to the
//! next, in ascending cyclic order of ids. `TreeNeighbours` answers that.
//!
//!     let tree = tree_neighbours(parent, id, &neighbours, |w| copies[w]);   // say 1, 4 and 9
//!     tree.next_after(4);    // 9
//!     tree.next_after(9);    // 1: after the largest the smallest
//!     tree.source_for(1);    // 9: what leaves towards 1 came in from 9
//!
//! The trap: the tree neighbours are what the node *believes*. Before the tree is reached they need
//! not agree with those of its neighbours, and the pairs that they give are no tour; `laws` says
//! what holds once they do.
//!
//! Source: the Euler tour of a tree as a virtual ring (Dolev, Self-Stabilization, 2000).
#![tactic(auto)]

pub mod laws;
mod mask;
mod neighbours;

pub use neighbours::{TreeNeighbours, tree_neighbours};
