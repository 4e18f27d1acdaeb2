//! Ends nodes that run as processes by their stop files, and waits until they have ended.
//!
//! ```
//! let status = run(rt, "/run/nodes", &[1], 10);        // prints `node 1 has ended`; 0
//! warn_of_runner(rt, "/run/nodes/state-1.tkt");         // says so if node 1 runs there
//! ```
//!
//! A node runs if its lock file is held. [`next`] decides what is done with a node that should end, by what
//! was seen of that file; the rest asks the system.
//!
//! The trap: a user who may not open the lock file of a node cannot see whether it runs. [`run`]
//! prints a line that says so; [`warn_of_runner`] then warns of nothing.
#![tactic(auto)]

mod lines;
mod runner;
mod steps;
mod stopping;

pub use lines::{Ending, EndingLine};
pub use runner::{RunnerLine, warn_of_runner};
pub use steps::{LockSight, StopStep, next};
pub use stopping::run;
