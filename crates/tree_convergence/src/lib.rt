//! Links become stable, payloads fresh, and the breadth-first tree is reached: from every state of
//! a network, over every list of events without damage, in any order (Dolev, Israeli, Moran 1993;
//! Dolev, Self-Stabilization, 2000).
//!
//! Each law is for the number of sweeps that it uses, and holds at every later moment too: 4(C + 1)
//! sweeps for the links, or six; on stable links three sweeps for all that is staged and copied,
//! four for a stage of the tree, 4(n + 1) for the whole tree. No law claims that sweeps occur.
//!
//! The statements are in `specs/Laws.antt`; a proof that needs one calls the law function and cites
//! its clause:
//!
//! ```
//! tree_convergence::laws::tree();     // its clauses: reached, reached_by_depth, stay
//! ```
//!
//! Nothing is computed here, and no proof looks into a port or a desk: edges are known by the laws
//! of `data_link`, a step of the tree by those of `bfs_tree`.
#![tactic(auto)]

pub mod laws;
