//! What is wrong with the text of a network file, in words that lead to the place: which key, which
//! edge, or which line and column.
//!
//! ```
//! let said = hint(alloc, "x.toml", "nodes = 2\nleese = 0\n..")?;   // Some("x.toml: no key 'lease'; ..")
//! ```
//!
//! `topology` decides whether a text is a network, and which fault it has. This crate has only what
//! is shown to a person besides. It is meant to look for the places in the same order, but no
//! contract says so.
//!
//! The trap: this does not look at whether the edges join all nodes. A text whose only fault is that they
//! do not has no hint here.
#![tactic(auto)]

mod flaw;
mod key;
mod likeness;
mod reading;
mod text;
mod values;

pub use flaw::{Hint, ValueFlaw};
pub use key::Key;
pub use text::hint;
