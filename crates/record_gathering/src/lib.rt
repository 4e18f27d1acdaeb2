//! What the records of all nodes of a network say, as one list of events.
//!
//! A [`Gathering`] has a world, which begins as the network starts. It is given the entries of all
//! nodes' records, in an order in which each frame is taken after it was sent, as far as there is
//! such an order. Each entry becomes events of the world. A deed of a node becomes that deed of the
//! world's node, or an edge that joins or parts, which is a harm. A state that is noted becomes
//! harms wherever the world's node differs from it; if other tickets wait at its desk, these leave,
//! and those that were noted ask. So a reader who replays the events finds each node in the states
//! that were noted, as far as they are in range, and apart from edges finds a harm only if what was
//! noted before does not lead there.
//!
//! ```
//! let mut gathering = Gathering::new(alloc, &net, 0)?;
//! let mut events = Vec::new(alloc);
//! gathering.notes(1, &Noted::Deed(Deed::Ticks), &mut events)?;     // tick 1
//! ```
//!
//! A frame that was taken is the earliest equal one that is under way: those in front of it are
//! lost. [`Gathering::is_ready`] says whether there is one. If there is none, because the frame was
//! forged or because a part of a record is missing, a harm puts it on the link.
//!
//! Before an entry becomes events, [`Gathering::fields`] says which fields of the node differ from
//! it.
//!
//! The facts of a world, which [`facts`] lists, set up another gathering in the state of that
//! world: [`Gathering::sets`] turns each of them into events. So a list of events can begin in the
//! middle of a run.
//!
//! The trap: the loss of a frame shows only when a later frame is taken, or when one is sent on a
//! link that is full.
#![tactic(auto)]

mod differences;
mod entries;
pub mod facts;
mod fields;
mod found;
mod frames;
mod gathering;
pub mod laws;
mod order;
mod parts;
mod queue;

pub use configuration::{Configuration, Event, Harm, Item};
pub use facts::Fact;
pub use fields::Field;
pub use found::{EventCounts, any_written};
pub use gathering::Gathering;
