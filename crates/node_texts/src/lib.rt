//! Texts of nodes that run: the names of their files, the lines that their processes print, and the
//! status lines in which they report their status.
//!
//! ```
//! let paths = NodePaths::new(alloc, "run", 1)?;        // run/state-1.tkt, run/desk-1.sock, ..
//! let line = StatusLine::read(b"node 1 distance 1 parent 0 token no lent none waiting 0");
//! ```
//!
//! Nothing here reads a file or a socket.
//!
//! The trap: the nodes are asked for their statuses one after the other while the lock goes round.
//! So two of them, or none, may be seen with the token.
#![tactic(auto)]

pub mod laws;
mod lines;
mod look;
mod look_parts;
mod paths;
mod status_line;
mod thousandths;

pub use lines::{CapacityLine, End, EndLine, SOCKET_FRAMES};
pub use look::{LookAnswer, link_parts, look_line};
pub use look_parts::{LinkPart, LoanPart, ProcessPart, TurnPart};
pub use paths::{LONGEST_SOCKET_NAME, NodePaths, links_name, longest_socket_name};
pub use status_line::{MOST_STATUS_BYTES, StatusLine, StatusReading};
pub use thousandths::Thousandths;
