//! Worked rows: what each layer below a whole network does, as its caller sees it. Every expected
//! value was computed by hand.
//!
//! It has only tests, one module for each layer, named after the layer's crate: `bfs_tree_rows` for
//! `bfs_tree`. They have a crate of their own, since testing a crate proves all of that crate once
//! more. The rows of whole networks are in `worked_runs`, those of commands in `worked_commands`
//! and `worked_scripts`.
#![tactic(auto)]

#[cfg(test)]
mod tests;
