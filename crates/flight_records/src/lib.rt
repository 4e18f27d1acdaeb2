//! The records of nodes, as bytes: what a node did, deed by deed, each with its instant.
//!
//! A record is entries in a row. An [`Entry`] is spelled as numbers in LEB128 (its kind, the
//! microseconds since the entry before it, its fields), and then one byte that checks it. A tick
//! takes 3 bytes, and a frame that is sent or taken again 4, if the last entry was less than 128
//! microseconds ago; if that was longer ago, they take more. [`write_entry`] writes an entry at the
//! end of a buffer, and an [`EntryReader`] reads one after the other, from a buffer that may hold a
//! part of the record.
//!
//! ```
//! write_entry(last, &entry, &mut page);                // at most 121 bytes
//! let mut reader = EntryReader::new();
//! while let Ok((entry, rest)) = reader.next(bytes) {
//!     bytes = rest;
//! }
//! ```
//!
//! If a record is cut, the reader gives the whole entries in front of the cut, and then says that
//! the bytes are `Short`: none are left, or a part of an entry. `laws` says so. A caller that has
//! more of the record gives the reader what was left again, with more after it.
//!
//! The trap: the check is one byte. It finds each change of one byte of an entry that keeps the
//! entry's length, and of other damage all but one case in 256.
#![tactic(auto)]

mod again;
mod entry;
mod fields;
pub mod laws;
mod reading;
mod writing;

pub use again::LastFrames;
pub use entry::{Deed, Entry, Noted, StatePart};
pub use leb128::Unread;
pub use reading::EntryReader;
pub use writing::write_entry;
