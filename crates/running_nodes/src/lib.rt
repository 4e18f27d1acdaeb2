//! What nodes that run did over many turns.
#![tactic(auto)]

pub mod laws;
