//! One edge: two ports that exchange numbered frames over two bounded lossy links, and its laws.
//!
//! A [`Port`] is one end of an edge: what a node keeps about one neighbour. It sends its staged
//! payload under a number, again and again, until the neighbour acknowledges that number; then it
//! stages the payload that is present and takes the next number, modulo `2C + 3` for links of
//! capacity `C`. A frame is accepted if its number is not the last one that was accepted.
//!
//! ```text
//! let mut port = Port::new(&net);
//! let heard = port.on_frame(&frame, present);    // heard.accepted: the frame was news
//! ```
//!
//! Whatever is in the ports and on the links at first, if it is in range, an edge is *stable* after
//! six sweeps and stays so: then each payload that is copied is the one that the neighbour has
//! staged ([`laws`]).
//!
//! This is not a reliable transport: a payload that is replaced before it is staged is never sent,
//! and nothing says when a frame arrives.
//!
//! The traps: `on_frame` needs the payload that was present *before* the frame; with one that is
//! made from the new copy it would be a different protocol. And until an edge has been stable for a
//! sweep, a copy may be anything that fits.
//!
//! Source: S. Dolev, Self-Stabilization, 2000 (token passing over bounded links, by counters).
#![tactic(auto)]

mod fault;
mod heard;
pub mod laws;
mod port;

pub use fault::OutOfRange;
pub use heard::Heard;
pub use k_state::{copy_move, privileged, root_move};
pub use link_model::topology::Net;
pub use link_model::{Frame, Item, Payload, Ranges};
pub use port::Port;
