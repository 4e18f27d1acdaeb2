//! The source of a run's events and the sink of its text, re-exported for users of just this crate.

pub use byte_streams::{Failed, Fuse, Fused, MemorySink, MemorySource, Sink, Source, write_all};
