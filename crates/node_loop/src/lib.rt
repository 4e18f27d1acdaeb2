//! The loop of a node's process: what one turn does, over doors, connections and a store that may
//! fail.
//!
//! A [`NodeRun`] has a node, its links to neighbours and its clients, which are those of the crate
//! `node_connections`. Its [`Doors`] bring connections, and its store keeps its state.
//!
//! ```
//! let mut run = NodeRun::new(alloc, net, node, doors, store, Manner::usual())?;
//! let mut notes = Notes::none();                      // or with_room, if someone keeps a record
//! run.wait(clock.microseconds());                     // at most 2 milliseconds
//! let now = clock.microseconds();
//! if run.is_turn_due(now) {
//!     let turned = run.turn(now, &mut notes);
//!     if turned.is_to_look() { /* each 256th turn, also if the save failed */ }
//! } else {
//!     run.attend(now, &mut notes);                    // while a loan with a lease runs
//! }
//! ```
//!
//! A turn takes what came, in this order: connections, hellos, frames of neighbours, lines of
//! clients. Clients that are gone leave. Then the node ticks once; frames go out on the ports of
//! the plan, and answers to clients. Each 256th turn saves the state. If a door, a connection or
//! the store fails, the turn goes on. The next turn asks the doors again, and the store is given
//! the state again 256 turns later. A turn takes no memory (that is tested, and not part of the
//! contracts).
//!
//! The contract of a turn names its account: one list of all that the node did, in order. At each
//! port it took exactly the frames that were pulled there, and it sent exactly the frames that the
//! link accepted. How many frames are pulled at a port is not part of the contract.
//!
//! A tick uses up a part of a loan's lease, so a lease stands for a time only if ticks are not too
//! dense. While such a loan runs, the loop calls `attend` in place of a turn for 2 milliseconds
//! after each tick.
//!
//! The trap: a turn does not wait, and never says that there was nothing to do. A loop that calls it
//! without `wait` burns a core.
#![tactic(auto)]

mod run;
mod sight;
mod turned;

pub use node_connections::{Door, Doors};
pub use node_core::Node;
pub use node_service::Notes;
pub use run::{NodeRun, Unmade};
pub use turned::Turned;
