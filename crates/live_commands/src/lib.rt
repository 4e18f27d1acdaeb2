//! The command `threads`: runs each node on its own thread and shows what they did.
//!
//! ```
//! let status = threads::run(rt, "two-nodes.toml", 100, None, false)?;   // 100 turns of each node
//! ```
//!
//! The trap: what threads do differs from run to run. The events file of a run is fixed, and
//! `simulate` and `draw` replay it.
#![tactic(auto)]

pub mod threads;
