//! The records of all nodes of a network, woven into one list of events.
//!
//! [`gather_stretch`] opens the records of all nodes, reads them a page at a time, and turns each
//! entry into events. A frame that was taken comes once it is under way, unless no other entry can
//! come next. A reader that plays the events finds each node in the states that were noted, as far
//! as they are in range. The records come through a door, [`Records`], which is a folder in a
//! program and memory in a test:
//!
//! ```
//! let (all, mut records) = (TimeStretch::Whole, FolderRecords::new(rt, "run"));
//! let gathered = gather_stretch(alloc, &net, &mut records, all, &mut sink)?;
//! println!("{}", StretchLine(gathered.summary));      // nodes 3, events 1200, time 5000000 microseconds
//! let status = command::run(rt, "run", None, all)?;       // prints the events; 1 if a record is damaged
//! ```
//!
//! A [`TimeStretch`] may be shorter than the records: it begins a given number of seconds after the earliest
//! entry of all records, or before the latest one, and goes on to the end. Then the list begins with events
//! that set up the network as it stood when the first entry of the stretch came next: edges that had joined
//! or parted, as far as they can be set so, each node's state, and what was under way. So a reader that
//! plays the list needs only the network. All that comes before the stretch is woven too, but its events go
//! nowhere. For the last seconds the records are read twice.
//!
//! A record that is missing or empty is a [`GatherFault`], and so is a file that cannot be read, is
//! no record, or is of another network or node. These are found before anything is written. A file
//! of a record that ends within an entry after its first one, is spoiled from some place on, or can
//! be read no further, is read up to there, and counts as a [`Flaw`] of what was gathered. If there
//! is a later file of that record, it is read after it.
//!
//! The trap: instants are those of each node's machine. The list shows the order in which things
//! happened only in two ways: what one node did is in order, and a frame is taken after it was
//! sent, unless it had to be put on its link by a harm. A stretch begins with the first entry, in
//! this order, that is of its instant or later. So if a node's clock is slow, earlier entries of
//! that node may come after that entry, and are gathered too.
#![tactic(auto)]

mod begun_file;
pub mod command;
mod damage;
mod delays;
mod fault;
mod folder;
mod gathered;
pub mod laws;
mod lines;
mod network;
mod node_record;
mod part;
mod records;
mod scene;
mod sight;
mod stretch;
mod summary;
mod watch;
mod weaving;

pub use damage::Difference;
pub use fault::{Flaw, FlawKind, GatherFault, RecordFile};
pub use flight_recorder::Side;
pub use folder::FolderRecords;
pub use gathered::Gathered;
pub use lines::{
    DifferenceLine, DifferencesLine, FlawLine, FoundLine, GatherFaultLine, LoansLine, StretchLine,
};
pub use part::gather_stretch;
pub use record_gathering::Field;
pub use records::{Opened, Records};
pub use stretch::TimeStretch;
pub use summary::{Lasted, RecordingSummary};
