//! The law of what a node did, by deeds, for the crates above.
pub use node_core::laws::accounts;
