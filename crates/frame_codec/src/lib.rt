//! Frames as lines of text, found in any stream of bytes in whatever pieces it comes.
//!
//! A frame is 22 bytes: `F`, then its number, acknowledgement, distance, parent and ring value as
//! four lower-case hexadecimal digits each, and a newline; the parent `ffff` is none. A line is a
//! frame exactly if it is the spelling of a frame whose fields are in range on the network.
//! Every other line is noise, of whatever length: junk spoils the line that it joins, up to its
//! newline, and no part of that line is read as a frame.
//!
//! ```
//! let mut reader = LineReader::new();
//! reader.feed(b"junkF000", &net, &mut frames)?;              // no line has ended yet
//! // one frame: junk spoiled the line before it
//! reader.feed(b"0\nF0000000000010000000c\n", &net, &mut frames)?;
//! ```
//!
//! It is no checksum: noise that happens to spell a frame in range is read as one. A stream that
//! starts over, for instance after a lost connection, needs `drop_half`; else its first bytes join
//! the half line of the old stream.
#![tactic(auto)]

mod digits;
mod frame_line;
mod hello;
pub mod laws;
mod reader;

pub use frame_line::{decode, encode};
pub use hello::{decode_hello, encode_hello};
pub use reader::LineReader;
