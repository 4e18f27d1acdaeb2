//! A node's state as bytes when it is written, and what keeps those bytes.
//!
//! [`encode`] writes a state: `TKT2`, then numbers of two bytes, the higher byte first: the number
//! of nodes, the node's id, the capacity of links, the number of neighbours, distance, parent
//! (`ffff` is none), and for each neighbour, ascending, its id, the port's number, the last number
//! accepted, the payloads staged and copied, and the machine's value. The desk is not kept: a lock
//! that was lent is forgotten. A [`Store`] keeps the bytes of one state.
//!
//! ```
//! let mut bytes = [0; MOST_BYTES];
//! let count = encode(&state, &net, &mut bytes);
//! let saved = store.save(&bytes[..count]);
//! ```
//!
//! Nothing is read here, and no bytes are kept: a program that runs a node writes its state, and
//! needs no more. `node_state_file` reads the bytes again, and has the stores. A store in a `Fused`
//! of `byte_streams` fails once.
//!
//! The trap: a save that fails may have changed what was stored, to any bytes.
#![tactic(auto)]

mod layout;
mod number;
mod store;
mod writing;

pub use layout::{FileLayout, LOADED_BYTES, MOST_BYTES};
pub use node_core::{Node, NodeState};
pub use number::NO_PARENT;
pub use store::{Store, StoreFault};
pub use writing::encode;
