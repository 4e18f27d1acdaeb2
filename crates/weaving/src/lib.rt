//! Journals of nodes that run side by side, and the one list of events that is woven from them.
//!
//! Nodes on threads of their own have no common order. Each keeps a clock and a [`Journal`] of
//! what it did. It passes its clock's time on with each item that it sends and each free place
//! that it gives back, so an event has a greater stamp than what it waited for. [`weave`] makes
//! one list of all journals, by stamp, then by node:
//!
//! ```
//! weave(&journals, &mut events);      // room for all entries is reserved in `events`
//! ```
//!
//! The law `laws::weave` says when that list is a run from a world in range: if each journal
//! reports its node's own steps, and on each link what was taken is what was there and then what
//! was sent, in order, a take is later than its send, and a send that needs a place is later than
//! the take that freed it. It speaks only of lists, not of threads.
//!
//! Source: L. Lamport, Time, clocks, and the ordering of events in a distributed system, 1978.
//!
//! The trap: a stamp says nothing about time. If neither of two events waited for the other,
//! either may come first in the list.
#![tactic(auto)]

mod journal;
pub mod laws;
mod woven;

pub use journal::{Journal, JournalEntry, Stamped};
pub use woven::weave;
