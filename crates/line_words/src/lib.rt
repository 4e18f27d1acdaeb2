//! The words of a line, and the numbers that they spell.
//!
//! Words are separated by exactly one space, so two spaces in a row have an empty word between them.
//! A number is decimal, with no sign and no leading zero; so each number has one spelling.
//!
//! ```
//! let mut words = Words::of(b"ask 1 7");
//! let verb = words.next();                    // Some(b"ask")
//! let node = words.number();                  // Some(1)
//! let ticket = words.number_or_none();        // Some(Some(7))
//! let done = words.end(());                   // Some(()): no word is left
//! let id = decimal_number("1", 63);           // Some(1); none of "01", "+1" and "64"
//! let part = digits_up_to(b"05", 59);         // Some(5); none of "60" and ""
//! ```
//!
//! The trap: a line has at least one word. The only word of an empty line is empty.
#![tactic(auto)]

mod decimal;
pub mod laws;
mod numbers;
mod words_left;

pub use decimal::decimal_number;
pub use numbers::{digits_up_to, number, number_or_none, yes_or_no};
pub use words_left::Words;
