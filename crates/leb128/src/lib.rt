//! Numbers as LEB128, "little-endian base 128": seven bits a byte, the lowest first, and the high
//! bit of each byte but the last is set.
//!
//! ```
//! push_number(&mut out, 300);                          // the bytes 172 and 2
//! let (number, rest) = number_at(&[172, 2, 7])?;       // 300, and the byte 7
//! ```
//!
//! Each number below 2^64 is spelled in one way, in at most ten bytes. What was written is read
//! again, whatever follows; a front of it is `Short`; and what LEB128 spells more shortly, such as
//! 128 and 0 for 0, is `Invalid`.
//!
//! Source: DWARF Debugging Information Format, version 5, 2017, section 7.6 (unsigned LEB128).
//!
//! The trap: a row of numbers does not say where it ends.
#![tactic(auto)]

pub mod laws;
mod reading;
mod unread;
mod writing;

pub use reading::number_at;
pub use unread::Unread;
pub use writing::push_number;
