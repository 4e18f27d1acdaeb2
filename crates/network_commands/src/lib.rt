//! The work of the commands of `tokentree` about networks alone: `bound` and `network`.
//!
//! A command is a module here, and its `run` takes the words that it was given. Every failure is one
//! [`Fault`](command_faults::Fault).
//!
//! ```
//! let status = bound::run(rt, "two-nodes.toml", false, None)?;      // prints eight lines
//! let status = bound_json::run(rt, "two-nodes.toml", true, None)?;  // as an object, and `sharp`
//! let status = network::run(rt, wanted)?;                           // prints a network file
//! ```
//!
//! The trap: what was printed before a fault stays printed.
#![tactic(auto)]

pub mod bound;
pub mod bound_json;
pub mod network;

pub use command_faults::Fault;
