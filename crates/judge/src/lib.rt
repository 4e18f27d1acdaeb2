//! Judging a network's run: how many sweeps it has had since the last damage. The network's
//! guarantee is stated in sweeps.
//!
//! A [`World`] is a network at one moment, with all memory that its run and its judge need.
//! `World::new` reserves it; each `step` is one event, and takes none.
//!
//! A [`Judge`] lets events happen one by one, counts sweeps and refusals, and shows the
//! configuration, the nodes and links as they are now. Judging takes no memory, since its room is
//! the world's:
//!
//! ```
//! let mut judge = Judge::new(world);
//! // An event that is refused is counted, and changes nothing else.
//! judge.step(&Event::Tick { node: 0 })?;
//! let sweeps = judge.sweeps();
//! ```
//!
//! The crate `world`, which knows the theorem, says what a number of sweeps leads to.
//!
//! To run the nodes by other means, on threads for example, take a world apart and put it together
//! again:
//!
//! ```
//! let Parts { nodes, links, room } = world.into_parts();      // links.net() is the network
//! let world = World::from_parts(Parts { nodes, links, room });
//! ```
//!
//! The trap: the parts must belong to one world, each node at the place of its id.
#![tactic(auto)]

mod judge;
pub mod laws;
mod parts;
mod stretch;
mod tallies;
mod visited;
mod world;

pub use configuration::{
    Configuration, Event, EventFault, Frame, Happened, Harm, Item, Links, NoItem, Node, Payload,
    serves, serves_after, touched_sight,
};
pub use judge::Judge;
pub use parts::Parts;
pub use stretch::Stretch;
pub use tallies::Tally;
pub use world::World;
