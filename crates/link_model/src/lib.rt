//! A directed link between two neighbours: at most `capacity` items under way, oldest first.
//!
//! A link keeps the order of its items. It may lose any of them (`lose`), and a fault may put noise
//! among them, but it neither copies an item nor lets one overtake another. It is a list with a
//! limit, not a channel between threads: one owner both puts and takes.
//!
//! ```
//! let mut link = Link::new(alloc, 2)?;
//! link.put(Item::Noise)?;        // Err(Full) if two items stand
//! let oldest = link.take();      // None if no item stands
//! ```
//!
//! All places are reserved by `new`: no other call takes memory. A full link refuses an item and
//! never overwrites one.
//!
//! Source: the bounded links without reordering of Dolev, Israeli and Moran, "Self-Stabilization of
//! Dynamic Systems Assuming Only Read/Write Atomicity" (1993), and Dolev, Self-Stabilization
//! (2000), chapter 4.
#![tactic(auto)]

mod fault;
mod item;
mod link;

pub use fault::{Full, NoItem};
pub use item::Item;
pub use link::Link;
pub use topology;
pub use topology::{Frame, Payload, Ranges};
