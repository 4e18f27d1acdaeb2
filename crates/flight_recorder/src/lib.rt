//! A node's recorder, as a pure machine: what is noted where, and when it is written.
//!
//! A record is kept in two files of a fixed size, which are written in turn, so that the previous file and
//! what is written of the present one are always there. A [`Recorder`] keeps a page of entries. What the
//! node did is noted. At the end of a turn in which the page has become due, whoever drives the recorder
//! writes the page to the end of the present file, and reports to the recorder that it was written or that
//! the write failed. After a quiet turn, in which nobody needed the node, the page is due sooner than after
//! a busy one: whoever waits for a lock should not wait for a write.
//!
//! ```
//! recorder.note(now, Noted::Deed(Deed::Ticks));
//! if recorder.is_due(is_quiet) {
//!     match file(recorder.side()).append(recorder.page()) {
//!         Ok(()) => if recorder.wrote() { /* empty the other file, and note the whole state */ }
//!         Err(_) => recorder.failed(),
//!     }
//! }
//! ```
//!
//! A file that has no room for one more page is left, and the other one begins. It begins with the
//! start of a state: until that is noted, nothing else is. A write that failed stops the record,
//! and nothing else: from then on nothing is noted, and nothing is due.
//!
//! A node that starts again goes on in the file that was written last: [`Recorder::resumed`] looks at what
//! that file holds, and goes on after the whole entries at its front, with the start of a state. What comes
//! after them, such as half an entry that was not written to its end, must be cut off first.
//!
//! The trap: what is in the page is not yet in a file. A process that is killed loses up to one
//! page of what it did last.
#![tactic(auto)]

mod front;
pub mod laws;
mod name;
mod recorder;

pub use flight_records::{Deed, Noted, StatePart};
pub use name::record_name;
pub use recorder::{LEAST_SIZE, ROOM, Recorder, Side};
