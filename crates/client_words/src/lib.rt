//! The words of the commands that ask running nodes: what `lock`, `status` and `stop` take, their help, and
//! what they do with their words. Each command has a file here. Other files have what is read of `lock`'s
//! words in front of its command: which words are left out, what stands in for them, and how long `lock`
//! waits.
//!
//! ```
//! let status = run_words(rt, &["tokentree", "status", "run"]); // prints, status 0
//! let status = run_words(rt, &["tokentree", "lock"]);          // TOKENTREE_DIR may stand in for a folder
//! ```
//!
//! The work of a command is in `lock_command`, `status_command` or `node_stopping`; `command_words`
//! has what the lines of all commands share.
//!
//! The trap: the parser decides which words a command takes, and no contract covers it; tests try
//! command lines.
#![tactic(auto)]

mod commands;
mod limit;
pub mod lock;
mod reading;
pub mod status;
pub mod stop;
mod whole;

pub use commands::run_words;
