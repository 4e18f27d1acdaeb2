//! The process that keeps all nodes of a network running, each as a process of its own.
//!
//! ```
//! let words = UpWords { file: "ring.toml", dir: "run", manner, turn, rights, log, record_size };
//! let program = OwnProgram::new(rt, words)?;
//! run(rt, &program, words.file, words.dir)?;           // until it is asked to end
//! ```
//!
//! `node_keeping` decides what it does with a node that ended. Contracts know nothing of the system's
//! answers, so the functions that call the system promise little: the order of a start, the fault that
//! ends it, and the words that a child is given.
//!
//! The trap: however it ends, its nodes end after it, by the end of their input.
#![tactic(auto)]

mod asks;
mod left;
mod up;

pub use left::LastLine;
pub use process_parts::UpWords;
pub use up::{NodeProgram, OwnProgram, run};
