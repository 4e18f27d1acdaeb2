//! What a process waits for: its listening sockets, and the end of its standard input.
//!
//! ```
//! watch_input(poll.registry(), token, true)?;          // the poll reports it from now on
//! if read_input(rt) == InputSight::Ended { return; }   // after a report
//! ```
//!
//! The trap: a poll reports standard input once, so it is watched again after each read.
#![tactic(auto)]

mod input;
mod listeners;

pub use input::{InputSight, read_input, watch_input};
pub use listeners::Listeners;
