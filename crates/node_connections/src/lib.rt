//! What a node knows of its connections: to its neighbours, from visitors that have not said who they
//! are, and from its clients.
//!
//! ```
//! let (mut ports, mut lobby, mut clients) = reserve(alloc, net.nodes())?;     // all memory for them
//! if let Door::Came(pipe) = doors.link() { lobby.admit(pipe); }
//! if let Some((id, pipe)) = lobby.listen(place, &net) { ports[id as usize].attach(pipe); }
//! if ports[id as usize].speak(&frame, true) { /* the frame was accepted */ }
//! let answer = clients.read(ticket, &mut bytes);       // Later, if nothing came
//! let is_there = clients.write(ticket);                // false: its pipe failed
//! ```
//!
//! A [`port::NodePort`] has the frames of one neighbour and the hello before them, a
//! [`lobby::Lobby`] the visitors, and [`clients::Clients`] the clients with the answers that wait
//! for them. [`Doors`] bring connections. Nothing here knows the node: what it answers and when it
//! speaks is up to the caller.
//!
//! The trap: when a read or a write says that a client is gone, that client stays in the table, and
//! keeps its ticket, until the caller closes it.
#![tactic(auto)]

pub mod clients;
mod doors;
mod greeting;
pub mod lobby;
mod memory;
pub mod port;

pub use doors::{Door, Doors};
pub use memory::{Reserved, reserve};
pub use socket_links::{Pipe, Pull, ReadAnswer, WriteAnswer};
