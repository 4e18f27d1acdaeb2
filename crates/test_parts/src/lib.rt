//! What the crates of tests share: how a test ends, depending on what it found; heaps of any size,
//! and heaps that refuse every growth; a writer with little room; and lines as they are read. A
//! test is one call, such as `as_expected(sweeps_of(rt.alloc(), 3), &3)`, and holds nothing itself.
//!
//! It is no part of the program.
#![tactic(auto)]

mod expected;
mod full_heap;
mod lines;
mod shelf;

pub use expected::{as_expected, is_expected};
pub use full_heap::{fill, on_full, on_heap};
pub use lines::read_line;
pub use shelf::Shelf;
