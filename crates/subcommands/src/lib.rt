//! The work of the commands of `tokentree`: their files and texts, and how they end.
//!
//! Each command is a module here, and its `run` takes the arguments of the command. The crates
//! below work out the answers; here files are read and answers printed. Every failure is one
//! [`Fault`](command_parts::Fault), or a [`PathFault`](command_parts::PathFault) if a command
//! changes a file. `bound` and `network` are in `network_commands`, `draw` is in `run_picture`,
//! `threads` in `live_commands`.
//!
//! ```
//! // prints what the events lead to, and what has settled then; "-" is standard input
//! let status = simulate::run(rt, "two-nodes.toml", "events.txt", true)?;
//! // writes a state file of node 1, of seed 7; cuts it; prints ten lines of junk
//! let status = scramble::run(rt, "two-nodes.toml", 1, "node-1.state", 7)?;
//! let status = cut::run(rt, "node-1.state", 33)?;
//! let status = junk::run(rt, 7, 10)?;
//! // prints a scramble, and the events of 100 rounds after it
//! let status = schedule::run(rt, "two-nodes.toml", Some(7), Some(1), Turns::Rounds(100))?;
//! // prints after how many sweeps 1000 scrambled worlds served
//! let status = measure::run(rt, "two-nodes.toml", plan, Form::Lines)?;
//! ```
//!
//! The trap: what was printed before a fault stays printed. By then, `simulate` has named the
//! refused lines among all that it had read.
#![tactic(auto)]

pub mod cut;
pub mod junk;
pub mod layers_text;
pub mod measure;
pub mod measure_csv;
pub mod measure_json;
pub mod measure_plot;
pub mod schedule;
pub mod scramble;
mod side_by_side;
pub mod simulate;
pub mod worst;

pub use command_parts::{Fault, PathFault, simulation_fault};
pub use experiments::{Chances, Scheduler};
