//! What the commands of `tokentree` that read or write events share: the ends of what they read and
//! write, a simulation between such ends, and a line that shows their progress. Their faults, networks
//! of files, and numbers as words come from the crates below.
//!
//! ```
//! let id = decimal_number("1", 65535);                 // Some(1); none of "01" or "+1"
//! let mut source = ReadSource::new(reader(rt));        // what a simulation reads
//! let mut sink = WriteSink::new(BufWriter::new(alloc, writer(rt))?);
//! let fault = sink.fault(rt, Fault::Output);           // `Fault::Closed` if the reader is gone
//! ```
//!
//! The trap: a [`WriteSink`] and an [`EventText`] have written all that they took only after a
//! flush.
#![tactic(auto)]

mod event_text;
mod giving;
pub mod laws;
mod progress;
mod returns;
mod simulation;
mod streams;

pub use command_faults::{
    Fault, NetworkFault, PathFault, network_of, output_fault, printed, read_network,
};
pub use event_text::EventText;
pub use giving::give_events;
pub use line_words::decimal_number;
pub use progress::Progress;
pub use returns::{Returns, return_hint, say_hint};
pub use schedules::{EventSink, junk_line, scramble_node};
pub use simulation::{STANDARD_INPUT, events_status, simulate_between, simulation_fault};
pub use streams::{Flush, ReadSource, WriteSink};
pub use world::report::judge;
pub use world::simulation::{Simulated, Summary, state_text};
pub use world::{Event, World};
