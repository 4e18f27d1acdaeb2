//! The events text, re-exported for users of just this crate.

pub use events_text::{EventReader, PieceTaken, TextLine, laws, parse_line};
