//! The record of a node, read a page at a time.
//!
//! A [`PageReader`] has a source of bytes, such as a file, and keeps at most one page of them. It
//! returns the entries of the record one after the other, as if all of its bytes were at hand:
//!
//! ```
//! let mut reader = PageReader::new(alloc, source)?;
//! while let Ok(entry) = reader.next() { /* .. */ }
//! ```
//!
//! When it stops, it says why: a [`Stop`] is the record's end, an entry of which a part is missing,
//! bytes that are no entry, or a source that failed. A source that failed may be read again.
//!
//! The trap: frames are in the short forms in which they were written; `flight_records::LastFrames`
//! says which frames they are.
#![tactic(auto)]

mod page;
mod page_reader;
mod stop;

pub use byte_streams::{Failed, MemorySource, Source};
pub use flight_records::{Deed, Entry, LastFrames, Noted, StatePart};
pub use page_reader::PageReader;
pub use stop::Stop;
