//! The record of a node that runs, in two files: their names, the pages with which it begins, what is
//! written to them after each turn, and the text of the network beside them.
//!
//! ```
//! let mut tape = Tape::open(rt, &words, USUAL_SIZE, &net, &node, now)?;    // run/record-1.0 and run/record-1.1
//! tape.turn_ended(&node, ports, deeds, true, false, now);                  // after each turn
//! tape.rewired(&words, &net, &node);                                       // other neighbours
//! tape.end();
//! ```
//!
//! `node_recorder` has what a node's turns become in a record, and `process_parts` how to make a
//! file that its owner alone may read. Contracts know nothing of what is in files. So they say
//! which pages a record may begin with, whatever the files answer; that a page that is due is
//! written or the record stops; and that the text kept is the network's, apart from edges.
//!
//! The trap: a start goes on in the file that was written last by the system's clock. If the clock was
//! set back in between, that may be the wrong one of the two.
#![tactic(auto)]

mod instants;
mod kept_network;
mod names;
mod pages;
mod tape;
mod writing;

pub use node_recorder;
pub use process_parts;
pub use tape::Tape;
