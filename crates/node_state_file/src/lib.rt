//! A node's state as the bytes of a file, and where it is kept.
//!
//! [`encode`] writes a state in the layout `TKT2`. It comes from the crate `state_writing`, as does
//! the trait [`Store`]. [`decode`] reads those bytes, and those of the older `TKT1`, which has no
//! capacity; anything else is reported as a [`FileFault`].
//!
//! [`start`] returns a node at its start: the state that a [`Store`] holds, or the default state
//! and why no stored state was used. A program gives it a [`FileStore`]; a test gives it a
//! [`MemoryStore`] or a [`FusedStore`], which fails once.
//!
//! ```
//! let mut store = FileStore::new(&rt, "node-1.state");
//! let mut started = start(alloc, &mut store, &net, 1)?;
//! let count = encode(&started.state, &net, &mut bytes);
//! let saved = store.save(&bytes[..count]);
//! ```
//!
//! This is neither a journal nor a backup: the file may hold any bytes, and every state in range is
//! a possible start, from which the network recovers.
//!
//! The trap: a file that is accepted may be old. Its ports to nodes that are no longer neighbours
//! are dropped, and nothing shows its age.
#![tactic(auto)]

mod fault;
mod file_store;
pub mod laws;
mod layout;
mod memory_store;
mod number;
mod reading;
mod saved;
mod starting;

pub use byte_streams::Fused as FusedStore;
pub use fault::FileFault;
pub use file_store::FileStore;
pub use memory_store::MemoryStore;
pub use reading::decode;
pub use starting::{StartFault, Started, start};
pub use state_writing::{LOADED_BYTES, MOST_BYTES, Node, NodeState, Store, StoreFault, encode};
