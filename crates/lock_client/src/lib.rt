//! A client of the lock: what it writes to a node's desk, what the answers mean, and what it does
//! next.
//!
//! A program that runs a command under the lock holds a [`LockClient`] and reports to it what
//! happens: a line came, the node is gone, the time is up, the command ended. Each call returns
//! what to do now. It opens no socket, starts no command and reads no clock; its caller does.
//!
//! ```
//! let mut client = LockClient::new(false);            // `lock` is written first
//! client.step(ClientEvent::Line(Answer::Granted));          // ClientDeed::Start: start the command
//! client.step(ClientEvent::Ended(CommandEnd::Exited(0)));   // ClientDeed::GiveBack: write `unlock`
//! client.step(ClientEvent::Line(Answer::Released));         // ClientDeed::Finish(..), whose status is 0
//! ```
//!
//! The trap: it is not enough that the command has ended. Its own status is returned only if the
//! node then says `released`, or if the command may run on without the lock. Otherwise the lock may
//! have been lost while the command ran.
//!
//! Its statuses are the command's, and those of `timeout`, `env` and a shell, with one of its own
//! for a lock that was lost: 122, or another that the caller chose.
#![tactic(auto)]

mod answer;
mod client;
mod ends;
mod guard;
pub mod laws;
mod lines;
mod outcome;
mod processes;
mod words;

pub use answer::Answer;
pub use client::{ClientDeed, ClientEvent, ClientStage, LockClient};
pub use ends::{UNKNOWN_STATUS, command_end, spawn_end};
pub use guard::{Guard, GuardDeed, GuardEvent, GuardSight, GuardStage, QUIET_LOOKS};
pub use lines::{AnswerReader, spelled};
pub use outcome::{CommandEnd, Outcome};
pub use processes::has_entry;
pub use words::{GuardWord, WordReader};
