//! One order of what many nodes did, each by a record of its own.
//!
//! What nodes did has an order of its own: a frame is taken after it was sent, and each node did one
//! thing after the other. Their clocks are not one clock, so instants alone may put a take before
//! its send. A [`Step`] is an entry of a record, as far as its place in the order depends on it: its
//! instant, and how far another node's record must have come before it.
//!
//! [`next_ready`] chooses, of the next steps of all records, the earliest that is ready. A reader
//! that goes on by one chosen step after the other needs only the next step of each record:
//!
//! ```
//! while let Some(node) = next_ready(&heads, &read) {
//!     read[node] += 1;                // what node did comes next in the order
//!     heads[node] = ..;               // its next step, none at the record's end
//! }
//! ```
//!
//! If all records were read to their ends, this is an order; and if some were not, no order of these
//! records has every step after what it needs: `laws` says so.
//!
//! Source: the order is L. Lamport's *happened before*, Time, clocks, and the ordering of events in a
//! distributed system, 1978; the choice, A. B. Kahn, Topological sorting of large networks, 1962.
//!
//! The trap: a step that is not ready holds back all that its node did after it, however early.
#![tactic(auto)]

pub mod laws;
mod ready;

pub use ready::{Need, Step, next_ready};
