//! The lines of a byte text, read in whatever pieces it comes.
//!
//! A line is the text between two newlines, or from the start of the text to the first one; what
//! comes after the last newline is a half line. Between two pieces a [`HalfLine`] keeps at most the
//! first `N` bytes of the half line, and takes no memory. A [`LineReading`] says what a line is
//! read as; a line of more than `N` bytes is read from its first `N` alone.
//!
//! ```
//! let mut half: HalfLine<16> = HalfLine::new();
//! let taken = half.take(b"lock\nst", &Commands);      // 5 bytes, and what `lock` is read as
//! let taken = half.take(b"st", &Commands);            // 2 bytes, and no line
//! let line = half.push(b'\n', &Commands);             // what `st` is read as
//! ```
//!
//! The trap: one call of `take` ends at the first newline of its piece; take again from the byte
//! after it.
#![tactic(auto)]

mod half_line;
pub mod laws;
mod reading;
mod split;

pub use half_line::{HalfLine, Taken};
pub use reading::LineReading;
pub use split::split_line;
