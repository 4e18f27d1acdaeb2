//! What a run of the network is: the statement that this project proves, and the laws of runs.
//!
//! A *world* is a network with the state of each node and the items under way on each link. An
//! *event* changes it by one atomic step; a *run* is such steps along a list of events. A *sweep*
//! is a stretch of a run, without damage, in which every node made a full tick and every link
//! handed over an item that was sent inside the stretch (Dolev, Self-Stabilization, 2000).
//!
//! The definitions are in `specs/`. The headline rests on World, Step, Run, Sweep, Privilege and
//! Headline; `docs/trusted` prints all that these use. The others serve the proofs: Count and
//! Greedy (how many sweeps a list holds), Stretch (a stretch event by event), Touched, Ticks and
//! Project (a run node by node and edge by edge), Tree and Links (how far it has come), Visited,
//! Strict. Here are the plain data types of events, and the laws, each as the contract of a
//! function that does nothing. What each event keeps, a run keeps: no clause can say that for
//! every property of a world, so it is a lemma, in `proofs/Along.antt`. No step is computed here:
//! the crate `configuration` does that.
//!
//! The trap: a refused event changes nothing and is no damage. A frame that is sent on a full link
//! is lost without a refusal.
#![tactic(auto)]

mod event;
mod happened;
pub mod laws;

pub use event::{Event, EventFault, Harm};
pub use happened::Happened;
pub use link_model::topology::Net;
pub use link_model::{Frame, Item, Link, NoItem, Payload};
pub use node_core::{AskFault, Node, NodeState, OutOfRange, Stranger};
