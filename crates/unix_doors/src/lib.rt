//! The doors of a node over Unix sockets, and its clock.
//!
//! ```
//! let mut doors = UnixDoors::new(rt, alloc, listeners, addresses)?;
//! let mut watch = Stopwatch::start(rt)?;
//! let mut run = NodeRun::new(alloc, net, state, doors, store, manner)?;
//! run.wait(watch.now());                               // until something comes, or is due
//! ```
//!
//! The crate `node_loop` has what a turn of a node does, over doors. Contracts know nothing of the
//! system's answers, so the functions that call the system promise little: that failures are
//! counted, that an end is no `later`, and that the clock never goes back.
//!
//! The trap: a poll reports a socket once, when something new comes.
#![tactic(auto)]

mod clock;
mod doors;
mod notify;
mod pipe;
mod seats;

pub use clock::Stopwatch;
pub use doors::UnixDoors;
pub use node_connections::port::{NodePort, link_at};
pub use node_connections::{Doors, Pipe};
pub use notify::tell_ready;
pub use pipe::UnixPipe;
pub use seats::ClientSight;
