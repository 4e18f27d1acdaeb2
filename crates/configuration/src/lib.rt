//! What a network is at one moment: the state of each node, and what is under way on each link;
//! and whether the network serves at that moment.
//!
//! A [`Configuration`] has all nodes and links. [`Configuration::new`] reserves all memory that any
//! step needs; each [`Configuration::step`] is one event, and takes none:
//!
//! ```
//! let mut configuration = Configuration::new(alloc, &net)?;
//! configuration.step(&Event::Tick { node: 0 })?;      // an event that is refused changes nothing
//! ```
//!
//! Its contracts use the run's model: as functions of the nodes' ids, the nodes and links are a
//! world, and a step here is a step there.
//!
//! Its [`Links`] are a link each way for each edge, and spare pairs of links, each for one more
//! edge. [`Links::with_spares`] reserves all memory: putting, taking and losing items, and `join`
//! and `part` of edges, need no more. A [`PairTable`] has a number for each pair of nodes: the
//! place of something that belongs to the two.
//!
//! From any state, a network serves after as many sweeps as its bound says, and from then on until
//! something is damaged. [`serves`] says whether it does at one moment, exactly as the headline
//! says it. To ask after each event of a run, keep the answer: [`serves_after`] looks only at the
//! node that the event touched, by [`touched_sight`] before and after it, and at the whole network
//! only if that node looks different or the event is a harm.
//!
//! ```
//! let before = touched_sight(&configuration, &event);
//! let _answer = configuration.step(&event);
//! served = serves_after(&configuration, &event, served, before);
//! ```
//!
//! The traps: a send on a full link is not refused; the frame is lost, and the step is `Ok`. A
//! network may serve by chance, and not at the next moment: only a legitimate one keeps serving.
#![tactic(auto)]

mod configuration;
pub mod laws;
mod links;
mod pair_table;
mod sight;
mod whole;

pub use configuration::Configuration;
pub use links::Links;
pub use pair_table::PairTable;
pub use run_model::{Event, EventFault, Frame, Happened, Harm, Item, NoItem, Node, Payload};
pub use sight::{Sight, serves_after, touched_sight};
pub use whole::serves;
