//! The words of `bound` and `network`: what they take, their help, and what they do with their
//! words. Each has a file here.
//!
//! ```
//! let status = run_words(rt, &["tokentree", "bound", "two-nodes.toml"]); // prints, status 0
//! let status = run_words(rt, &["tokentree", "bound"]);                   // status 2
//! ```
//!
//! The work of a command is in `network_commands`; `command_words` has what the command lines of all
//! commands share.
//!
//! The trap: the parser decides which words a command takes, and no contract covers it; tests try
//! command lines.
#![tactic(auto)]

pub mod bound;
mod commands;
pub mod network;

pub use commands::run_words;
