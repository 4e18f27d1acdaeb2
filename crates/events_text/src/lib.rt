//! Events as a text spells them, a line each.
//!
//! A line is `send U V`, `take U V`, `lose U V I`, `tick V`, `ask V T`, `leave V T`, or one of the
//! lines that begin with `harm` and write a part of the world, as a fault would. Words are
//! separated by exactly one space, and a number is decimal, at most 65535, with no leading zero. An
//! empty line and one that begins with `#` are passed over.
//!
//! A text is read by an [`EventReader`], in pieces of any size: `take` until a piece is used up,
//! and `last` at the end. Each answer is a [`TextLine`], and they come in the order of the lines,
//! so counting them from 1 gives the numbers of the lines. The reader keeps at most 64 bytes, and
//! takes no memory:
//!
//! ```
//! let mut reader = EventReader::new();
//! let taken = reader.take(piece);     // up to the end of the next line: taken.used bytes, and taken.line
//! let last = reader.last();           // at the end of the text: a line that no newline ended
//! ```
//!
//! An [`EventLine`] prints as the line of its event, so whoever makes events may write them:
//!
//! ```
//! writeln!(writer, "{}", EventLine(Event::Tick { node: 0 }))?;      // tick 0
//! ```
//!
//! The trap: a line that is passed over is an answer too, since it counts in the numbers of the
//! lines.
#![tactic(auto)]

mod event_line;
mod harm;
pub mod laws;
mod line;
mod numbers;
mod payload;
mod reader;
mod text_line;
mod usual;

pub use event_line::EventLine;
pub use line::parse_line;
pub use reader::{EventReader, PieceTaken};
pub use text_line::TextLine;
