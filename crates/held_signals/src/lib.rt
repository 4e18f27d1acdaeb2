//! The signals that a process holds back: which have come, by the lines of `/proc/self/status`.
//!
//! A program without handlers starts under `env --block-signal`. Signals that come then stay with
//! the system, and its lines show them.
//!
//! ```
//! let state = state_said(lines);                       // SigPnd, ShdPnd, SigBlk and SigIgn
//! let new = state.heeded().first_besides(seen);        // Some(Signal::Interrupt), say
//! ```
//!
//! The trap: a signal that is held back comes once, however often it is sent.
#![tactic(auto)]

mod process;
mod signals;
mod status_lines;

pub use process::state_now;
pub use signals::{Signal, Signals};
pub use status_lines::{SignalState, StatusEntry, StatusReader, state_said};
