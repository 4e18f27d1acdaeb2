//! The world of a network, and the events text, which says what happens in it.
//!
//! [`events`] reads that text, in pieces of any size: a line is `send U V`, `take U V`, `tick V`
//! and so on, or begins with `harm` and writes a part of the world, as a fault would.
//!
//! A [`World`] is a network at one moment: its nodes, and what is under way on each link.
//! `World::new` reserves all memory; each `step` is one event, and takes none:
//!
//! ```
//! use world::{Event, Net, World};
//!
//! let net = Net::make(alloc, 3, 0, 1, 0, &[(0, 1), (1, 2)])?;
//! let mut world = World::new(alloc, &net)?;
//! world.step(&Event::Tick { node: 0 })?;      // an event that is refused changes nothing
//! ```
//!
//! The trap: a send on a full link is not refused; the frame is lost, and the step is `Ok`.
//!
//! [`laws`] has what is proved for every world and every list of events, for proofs about
//! programs: convergence from any state, and closure.
//!
//! [`report::judge`] lets a list of events happen, counts its sweeps and refusals, and says which
//! nodes were privileged. If there are at least as many sweeps since the last damage as
//! `Net::bound` says, the returned world serves, whatever state the run began in:
//!
//! ```
//! let report = report::judge(world, &events);      // report.world, .sweeps, .refused, .visited
//! ```
//!
//! A [`Judge`] does the same event by event, and shows the [`Configuration`], the nodes and links
//! as they are now. Judging takes no memory, since its room is the world's.
//!
//! To run the nodes by other means, on threads for example, take a world apart and put it together
//! again:
//!
//! ```
//! let Parts { nodes, links, room } = world.into_parts();      // links.net() is the network
//! let world = World::from_parts(Parts { nodes, links, room });
//! ```
//!
//! The trap: the parts must be one world's, each node at the place of its id.
//!
//! [`simulation::simulate`] does the same from bytes to bytes: it reads an events text from a
//! source, in pieces, and writes the outcome to a sink. `streams` has sources and sinks over
//! memory; a program implements the two traits with files:
//!
//! ```
//! let Summary { refused, sweeps, .. } = simulate(alloc, &net, &mut source, &mut sink)?;
//! ```
#![tactic(auto)]

pub mod events;
pub mod laws;
pub mod report;
pub mod simulation;
pub mod streams;

pub use events_text::{EventLine, EventReader, TextLine};
pub use judge::{
    Configuration, Event, EventFault, Frame, Happened, Harm, Item, Judge, Links, NoItem, Node,
    Parts, Payload, Stretch, Tally, World,
};
pub use topology::{Net, NetFault};
