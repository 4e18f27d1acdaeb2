//! The window into a node: what it notes about itself, which lookers are shown how it stands, and what
//! they are shown.
//!
//! Whoever connects to a node's socket for lookers gets one line, a JSON object; then the connection is
//! closed. Nothing is read from lookers.
//!
//! ```
//! let mut window = LookNotes::open(rt, USUAL_LIMIT, "0.1.0", now);
//! window.turn_ended(&node, ports, net.nodes(), has_granted, now);  // after each turn
//! let line = window.line(alloc, &node, now)?;                      // the node's own line, as it stands now
//! for place in 0..COMERS {
//!     let Some(mut looker) = doors.looker() else { break };
//!     if is_let_in(place) {
//!         show(&mut looker, line.as_bytes());
//!     }
//! }                                                           // each looker is closed as it is dropped
//! ```
//!
//! Of the lookers that come between two turns, 64 are shown the line, and up to 64 further ones are
//! closed; the others wait. A new socket on Linux takes 100 KB at once, and no line has more than
//! 8 KB. So each line goes out in one write, a looker that reads nothing keeps nothing waiting, and
//! no looker that was let in is kept from one turn to the next.
//!
//! The trap: a looker that reads nothing before the end came after the first 64. It should ask again.
#![tactic(auto)]

mod counted;
pub mod laws;
mod line;
mod lookers;
mod window;

pub use lookers::{COMERS, LOOKERS, is_let_in, show};
pub use turn_watch::USUAL_LIMIT;
pub use window::LookNotes;
