//! How the program `tokentree` begins and ends: with which words and streams, with which status, and with
//! which lines on standard error. The last line names the fault. The line before it is a hint: which file
//! it is, which key and place in it, and what the system said about it. No status depends on a hint.
//!
//! ```
//! let words = begin(rt)?;                              // before anything is opened
//! let status = fails(rt, Fault::NoNode, 1);            // prints `tokentree: the network has no such node`
//! let status = fault_status(true);                     // 125: `lock` keeps 1 for its command
//! let status = fails(rt, Fault::Closed, 1);            // prints nothing: 141
//! explain_network(rt, "x.toml", fault);                // tokentree: x.toml: no key 'lease'
//! let status = shows(rt, &error, false, Some("bound")); // 0 for help, 2 for a refused line
//! ```
//!
//! The traps: what standard error does not take is left out; the status is the same. And a file is read again
//! for a hint, so it may be a different one by then.
#![tactic(auto)]

mod arguments;
mod ends;
mod fault_line;
mod files;
mod mistakes;
mod path_fault_line;
mod streams;

pub use arguments::begin;
pub use command_faults::{Fault, PathFault};
pub use ends::{INVALID_ARGUMENTS, fails, fault_status, print_status, shows};
pub use fault_line::FaultLine;
pub use files::{explain_id, explain_network, explain_reading, explain_swap, explain_writing};
pub use path_fault_line::PathFaultLine;
