//! All ports of one node, and the value of the machine that comes in from each neighbour.
//!
//! They are kept by the neighbour's id: a place for each node of the network, so that a look-up is
//! one index and scans nothing, and a list of the ids that are neighbours. No port ever moves. The
//! ports cost at most 64 places of 26 bytes a node. A port in a signature is always a neighbour's
//! id.
//!
//! ```
//! let registers = Registers::new(alloc, &net, 3)?;
//! let frame = registers.frame_for(5);      // what node 3 sends to its neighbour 5
//! ```
//!
//! This is no node: nothing here knows a distance, a tree or a tour, and the payload that a port
//! stages is handed in.
//!
//! The trap: the place of a node that is no neighbour may be read, and reads like a port that knows
//! nothing yet.
//!
//! `new` reserves all places. No other call takes memory (that is tested, and not part of the
//! contracts); none but `rewire` changes more than one port.
#![tactic(auto)]

mod registers;

pub use data_link::{
    Frame, Heard, Net, OutOfRange, Payload, Ranges, copy_move, privileged, root_move,
};
pub use registers::Registers;
