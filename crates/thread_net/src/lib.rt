//! Nodes that each run on a thread of their own, over rings between neighbours.
//!
//! A directed link is two rings of `rtrb`: one carries items to its receiver, the other carries the
//! places that these leave free back to its sender. The sender also counts what is left of the
//! places that were free at the start. Items and places are together no more than the link's
//! capacity, so no send meets a full link. Each item and each place has the stamp of the event that
//! sent it. What one node does on its thread is in `node_runner`, whose gates are offered here too.
//!
//! What nodes do is a run, whatever the scheduler does; a [`Gate`] only holds them back.
//!
//! ```
//! let gate = Pace::new(net.nodes());
//! let woven = run_threads(rt, alloc, world, 4000, &gate)?;      // woven.world, woven.events
//! ```
//!
//! The trap: no gate makes a promise. A node that has waited for too long goes on, and the gate
//! reports this (`gave_up`).
#![tactic(auto)]

mod cables;
pub mod prepare;
mod run;
mod seats;
mod settle;
mod threads;

pub use node_runner::{Gate, Meet, Open, Pace};
pub use run::{RunFault, Woven, prepare_world, run_threads};
