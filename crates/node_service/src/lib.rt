//! What a node does for its clients in a turn: it reads their lines, answers them, ticks, and has
//! tickets leave. What it does is noted for whoever keeps a record.
//!
//! ```
//! let has_more = service::serve_all(&mut node, &mut notes, &mut clients);    // each client is read once
//! service::leave_absent(&mut node, &mut notes, &clients);
//! let ticked = service::tick(&mut node, &mut notes, &mut clients);           // `granted` or `lost` is answered
//! service::write_all(&mut node, &mut notes, &mut clients);
//! ```
//!
//! Neighbours are not served here: the crate `node_loop` has the rest of a turn. The contracts name
//! the deeds of the node's account (`node_core`), and the notes hold just these, as far as there is room.
//!
//! The trap: a client is closed if there is no room for its answer, and its ticket leaves then. So a
//! client that sends lines and reads no answers loses the lock.
#![tactic(auto)]

mod answer;
mod notes;
pub mod service;

pub use notes::Notes;
