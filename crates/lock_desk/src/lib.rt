//! The lock desk of one node, and the lines of the clients that come to it.
//!
//! A `Desk` has the tickets that wait for the lock at one node, at most 64 and the next one first,
//! and the loan of the lock to a ticket that does not wait. `ask` puts a ticket last, `leave` takes
//! it out or ends its loan, and `tick`, once in each tick of the node, ends a loan or begins the
//! next. A `ClientReader` reads what one client writes: `lock`, `unlock` and `status`.
//!
//! A desk alone does not give mutual exclusion: it lends whenever its node says that it is
//! privileged. It is the network that ensures that only one node is privileged. Nor does a ticket
//! prove anything to others: there are no fencing numbers.
//!
//! The trap: a loan does not outlast the first tick without privilege, so `tick` must be given the
//! privilege of that very moment, and a `Lost` must be handed on to the client. After a loan no
//! ask, leave or tick begins another until a tick has ended with no loan, even if others wait: that
//! tick lets the token pass.
//!
//! Its rules are this project's own; the token that it relies on is that of Dijkstra,
//! Self-stabilizing systems in spite of distributed control, 1974.
#![tactic(auto)]

mod act;
mod client;
mod client_line;
mod desk;
mod fault;
pub mod laws;
mod tickets;

pub use act::DeskAct;
pub use client::ClientReader;
pub use client_line::ClientLine;
pub use desk::Desk;
pub use fault::{AskFault, OutOfRange, Stranger};
