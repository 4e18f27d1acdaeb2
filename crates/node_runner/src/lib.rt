//! One node on its own thread: its ends of the links, what it does in a turn, and the gate that
//! holds it back.
//!
//! A node sends over an [`Outgoing`] and takes from an [`Incoming`], its ends of the two links to
//! a neighbour. Each link is a ring of `rtrb` for items, and one for the places that items leave
//! free. Each item and each place has the stamp of the event that sent it. A [`Runner`] is a node
//! with its [`RunnerPort`]s, its clock, and the journal of what it did.
//!
//! ```
//! let mut runner = Runner { id, node, ports, clock: 0, journal };
//! runner.run(&gate, 4000);      // what it did stands in runner.journal
//! ```
//!
//! Stamps are the logical clocks of Lamport (1978).
//!
//! The trap: a gate promises only that its calls return. A node that gives up waiting goes on, and
//! the gate says so (`gave_up`).
#![tactic(auto)]

mod gates;
pub mod laws;
mod ports;
mod runner;

pub use gates::{Gate, Meet, Open, Pace};
pub use ports::{Incoming, Outgoing, StampBound};
pub use runner::{Runner, RunnerPort};
pub use weaving::{Journal, Stamped, weave};
