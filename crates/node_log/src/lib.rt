//! What a node says of itself while it runs, for whoever keeps its lines: when a link comes and goes, who is
//! granted the lock, loses it or gives it back, when so many wait that further clients are refused, or so many
//! are connected that further ones are closed, and when it has been out of its place for two seconds.
//!
//! ```
//! let mut log = NodeLog::new(Some(Level::Info));       // None says nothing
//! for event in log.turn_ended(sight, now).into_iter().flatten() {
//!     if let Some(left_out) = log.admit(event, now) {  // at most 20 in a second
//!         let line = LogLine { id, event, left_out, has_priority };
//!     }
//! }
//! ```
//!
//! The trap: each turn looks at one link, so a link that goes and comes again between two looks is not
//! reported; nor is a desk that is full within a turn, but not at its end.
#![tactic(auto)]

mod event;
pub mod laws;
mod line;
mod log;
mod place;
mod rate;

pub use event::{Level, NodeEvent};
pub use line::LogLine;
pub use log::{NodeLog, TurnSight};
pub use place::PlaceSeen;
pub use rate::{LineRate, MOST_LINES};
