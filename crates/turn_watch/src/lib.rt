//! What a node notes of its own turns, loans and links, and of the token, for whoever looks.
//!
//! The theorems on time rest on premises: that each node takes a turn in each stretch of a given length,
//! that connections stand, that loans end. These records say what was true of them so far.
//!
//! ```
//! let mut turns = TurnTimes::begin(0);
//! turns.note(2_000, 2_200);                           // a turn ended 2.0 ms after the start
//! turns.note(4_300, 2_200);                           // the next 2.3 ms later: it is late
//! (turns.count, turns.longest, turns.late);           // (2, 2_300, 1)
//! turns.longest_lately(70_000_000);                   // 2_300: of the last minute, or little more
//! turns.longest_lately(90_000_000);                   // 0
//! ```
//!
//! A note takes a few nanoseconds, whatever was noted before; it takes no memory and reads no clock. All
//! times are microseconds of one clock that never goes back.
//!
//! The trap: a note is as exact as the turns are. A loan that ends in a turn counts as ended at that
//! turn's end, and a link is noted when its port's turn comes.
#![tactic(auto)]

pub mod laws;
mod links;
mod loans;
mod notes;
mod rounds;
mod turns;

pub use links::{LinkSight, LinkTimes};
pub use loans::{DeskSight, LoanTimes};
pub use notes::TurnNotes;
pub use rounds::{MachineSight, RoundCount};
pub use turns::{Lately, TurnTimes, USUAL_LIMIT};
