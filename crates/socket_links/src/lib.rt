//! Frames over a connection that may fail: what a node sends to one neighbour and takes from it, as
//! lines on a pipe.
//!
//! A [`SocketLink`] keeps one frame that is on its way out, and what it read of the frames that
//! come. It has a [`Pipe`] or is loose. `offer` accepts a frame, `push_out` writes it, and `pull`
//! reads the next frame; none of them waits, and none takes memory.
//!
//! ```
//! let old = link.attach(pipe);            // the pipe that stood there before, if any
//! if link.offer(&frame) == Offer::Taken { /* sent */ }
//! let flow = link.push_out();             // Done; Later: again, later; Broken: it is loose now
//! if let Pull::Frame(frame) = link.pull(&net) { /* taken */ }
//! ```
//!
//! A pipe that closed or failed is let go, with all that was read and not yet pulled and with what
//! is left of the line on its way out: the next pipe's bytes are read as from the start.
//!
//! The trap: a frame that was accepted may be lost with its pipe. Nobody notices that, so whoever
//! needs the frame sends it again.
#![tactic(auto)]

mod link;
mod memory;
mod pipe;
mod writing;

pub use byte_streams::Fused as FusedPipe;
pub use frame_codec::{decode_hello, encode_hello};
pub use link::{Offer, Pull, SocketLink};
pub use memory::MemoryPipe;
pub use pipe::{Pipe, ReadAnswer, WriteAnswer};
pub use writing::Flow;
