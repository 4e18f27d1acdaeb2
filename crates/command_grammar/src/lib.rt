//! The grammar of a program's command lines as data, and the parser that it makes.
//!
//! A command is a [`Grammar`]: its name, its help and what it takes; what its table leaves out, it takes
//! from [`FREE`]. [`parser`] makes clap's parser of a [`Program`] and its commands.
//!
//! ```
//! const BOUND: Grammar<'static> = Grammar {
//!     name: "bound",
//!     about: "Shows a network's numbers",
//!     help: "Statuses: 0 done; 2 invalid arguments.",
//!     parameters: &[Parameter::Place("FILE", "The network file"), Parameter::Flag("sharp", "..")],
//!     ..FREE
//! };
//! ```
//!
//! A word is read as a number by [`Number`], which says its range.
//!
//! The trap: a table is not checked. It is left to the parser to refuse a name that is in it twice.
#![tactic(auto)]

mod building;
mod grammar;
mod number;
mod words;

pub use building::parser;
pub use grammar::{Choice, FREE, Grammar, Parameter, Program};
pub use number::Number;
pub use words::{WordFault, given_number, number_if_given, word};
