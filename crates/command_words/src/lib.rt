//! What the command lines of all commands share: words that several commands take, how a line is read, why
//! it fails, and how it ends. Each has a file here, except that `line` has both how a line is read and how
//! it ends.
//!
//! ```
//! let matches = matches_of(rt, words, HELP, &COMMANDS)?; // or the status of a line that showed help
//! ends(rt, act(rt, &matches), &matches, false)           // 0, or 1 or 2 after a line on standard error
//! ```
//!
//! The words of each command are in `network_words`, `client_words`, `process_words` and
//! `command_line`; `program_ends` prints why a program fails.
//!
//! The trap: the parser decides which words a command takes, and no contract covers it; tests try
//! command lines.
#![tactic(auto)]

mod line;
pub mod program;
pub mod refusal;

pub use line::{asks_for_lock, asks_for_version, ends, is_of_service, matches_of, say_version};
pub use program_ends::{begin, explain_id, explain_network, explain_swap};
