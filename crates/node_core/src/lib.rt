//! One node of the network: its distance and parent, its ports, its machines and its lock desk, and
//! what it does with them.
//!
//! A [`Node`] is moved by four calls: it takes an item that a neighbour sent (`take`), it ticks
//! (`tick`), and its clients `ask` and `leave`. What it sends to a neighbour is `frame_for` that
//! neighbour. All that it knows of the network is its own id, whether it is the root, the ranges of
//! numbers, the length of a loan, and its neighbours' ids.
//!
//! ```
//! let mut node = Node::new(alloc, &net, 1)?;
//! let ticked = node.tick();              // ticked.full: node 1 lends to nobody now
//! node.take(0, &Item::Frame(frame));     // what neighbour 0 sent
//! ```
//!
//! There is no network and no thread here: other crates say who makes these calls and when, and
//! what becomes of a frame under way. Every state in range is a possible start, so no call rests on
//! how the state came about.
//!
//! A node's *account* is the list of what it did, in order: it took and sent frames, it ticked, and
//! its clients asked and left. No code computes one: the contracts of the code that drives a node
//! name it. While a node keeps its neighbours, the account of many turns is that of the first, then
//! that of the second, and so on (`laws::accounts`). A send is the moment at which the link accepts
//! the whole frame.
//!
//! The traps: what a node says to a neighbour is what it had to say *before* the frame that it
//! takes; and a node that lends does not let the token go, so its machines stand still until a tick
//! after which it lends to nobody.
//!
//! `Node::new` reserves all memory. No other call takes any (that is tested, and not part of the
//! contracts), and none copies the state. `rewire` gives a node the neighbours that it has in a
//! network whose edges have changed.
//!
//! Source: Dijkstra, Self-stabilizing systems in spite of distributed control, 1974; Dolev,
//! Self-Stabilization, 2000.
#![tactic(auto)]

pub mod laws;
mod machines;
mod node;
mod own;
mod status;
mod ticked;

pub use data_link::Item;
pub use lock_desk::{AskFault, DeskAct, Stranger};
pub use node::{Node, NodeState};
pub use registers::{Frame, Net, OutOfRange, Payload, Ranges};
pub use ticked::Ticked;
