//! Where bytes are read from, and where they are written to.
//!
//! [`Source`] and [`Sink`] are the two ends, as traits: a program implements them with files, a test
//! uses the forms over memory. Each counts its failures, and may show its bytes to contracts. About
//! the bytes of one that does not, such as a file, contracts say nothing.
//!
//! ```
//! let mut sink = MemorySink::new(alloc, 4096)?;
//! write_all(&mut sink, b"tick 0\n")?;      // in as many writes as that takes
//! ```
//!
//! [`Fused`] is a source or a sink that fails once, after a chosen number of calls: it tests what
//! becomes of a call that fails. The [`Fuse`] in it counts the calls, and other traits can be fused
//! with it too.
//!
//! The trap: a failed [`write_all`] has written a beginning of its bytes, and does not say how long
//! that is.
#![tactic(auto)]

mod fuse;
mod fused;
pub mod laws;
mod memory;
mod streams;

pub use fuse::Fuse;
pub use fused::Fused;
pub use memory::{MemorySink, MemorySource};
pub use streams::{Failed, Sink, Source, write_all};
