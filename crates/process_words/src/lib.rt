//! The words of `node` and `up`: what they take, their help, and what they do with their words. Each has
//! a file here, and so have the options that they share.
//!
//! ```
//! let words = ["tokentree", "node", "ring.toml", "1", "run"];
//! let status = run_words(rt, &words, &NodeProcess); // runs until the node ends
//! ```
//!
//! The work of `up` is in `up_process`. What runs a node is a parameter, so that this crate does not
//! depend on all that a node needs; programs hand in `node_process::NodeProcess`. `command_words` has what
//! the command lines of all commands share.
//!
//! The traps: a node runs until it is stopped, and `up` until it is asked to end. And the parser decides
//! which words a command takes, and no contract covers it; tests try command lines.
#![tactic(auto)]

mod commands;
pub mod node;
pub mod options;
pub mod up;

pub use commands::run_words;
