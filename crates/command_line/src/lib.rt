//! The command lines of `tokentree`: what each command takes, its help, and what it does with its
//! words. Each command has a file here, or, if it serves a lock, in
//! `network_words`, `client_words` or `process_words`.
//!
//! ```
//! let status = run_words(rt, &["tokentree", "bound", "two-nodes.toml"], false); // prints, status 0
//! let status = run_words(rt, &["tokentree", "bound"], false);                   // status 2
//! ```
//!
//! The work of a command is in `subcommands`, `live_commands`, `run_picture` or `gather_command`.
//!
//! The trap: the parser decides which words a command takes, and no contract covers it; tests try
//! command lines.
#![tactic(auto)]

mod commands;
mod cut;
mod draw;
mod film;
mod gather;
mod junk;
mod measure;
mod schedule;
mod scramble;
mod seeds;
mod simulate;
mod threads;
mod worst;

pub use command_words::begin;
pub use command_words::program::Runtime;
pub use commands::run_words;
