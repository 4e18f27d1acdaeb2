//! What a node's turns become in its record, as a pure machine over a recorder of pages.
//!
//! A [`NodeRecorder`] has a page of entries and a second node. At the end of each turn it is shown
//! the node and the deeds that were noted in the turn. They wait while the node is busy: to note
//! and check them then would hold up whoever waits for the lock. As soon as they may not wait, or
//! 512 do, all are noted, and the second node does them. If its state then differs from the node's,
//! the node's whole state is noted as well, and the second node takes it over. At the start of a
//! file, and when the node's neighbours have changed, the second node's whole state is noted first.
//! So what is noted since a whole state is an account of the node, as long as no other whole state
//! follows: these deeds lead it from there, by its own steps, to the state in which it was after
//! the last of them.
//!
//! ```
//! let is_quiet = is_quiet(notes.deeds());
//! recorder.turn_ended(run.node(), notes.deeds(), notes.has_all(), !is_quiet, now);
//! if recorder.pages().is_due(is_quiet) { /* write it, as flight_recorder says */ }
//! ```
//!
//! A second node whose neighbours differ from the node's cannot take its state over; then the whole
//! state alone is noted at each turn, until [`NodeRecorder::rewire`] gives it the node's new
//! neighbours. That needs a turn before it in which no deed waits.
//!
//! The traps: it notes the deeds that it is shown. A frame that came again changes nothing, so it
//! does not see whether such a deed is missing. The loop of a node notes each one. And what waits
//! is lost if the process is killed, as the page is.
#![tactic(auto)]

mod backlog;
mod name;
mod quiet;
mod recorder;

pub use flight_recorder::{Deed, LEAST_SIZE, Recorder, Side, record_name};
pub use name::network_name;
pub use node_follower::Node;
pub use quiet::is_quiet;
pub use recorder::{NodeRecorder, network_mark};
