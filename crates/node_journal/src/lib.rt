//! What a node says about itself on standard error while it runs: a line for each event that its log admits.
//!
//! ```
//! let mut journal = NodeJournal::begin(rt, &words, now);                               // `node 1 begins`, if asked for
//! journal.turn_ended(&node, &net, ports, turned.ticked.act, clients, now);         // after each turn
//! journal.say(NodeEvent::Ends, now);
//! ```
//!
//! `node_log` decides which events a turn has, and how many lines a second go out.
//!
//! The trap: a line that standard error does not take is lost, and the node runs on.
#![tactic(auto)]

mod journal;

pub use journal::NodeJournal;
pub use process_parts::NodeEvent;
