//! The tests, by subject, and what they share.
mod calls;
mod changed_bytes;
mod heaps;
mod plain_files;
mod plans;
mod refused_memory;
mod stores;
