//! What a node's process decides after each 256th turn, and what `up` decides about the nodes that
//! it keeps running.
//!
//! Nothing here reads a file, starts a process or knows the time: the caller passes in what was
//! seen, and gets back what to do.
//!
//! ```
//! let mut keeper = Keeper::new();
//! keeper.step(Seen::Nothing);                          // KeeperDeed::Start
//! keeper.step(Seen::Started);                          // KeeperDeed::Rest
//! keeper.step(Seen::Ended(End::Status(0)));            // KeeperDeed::SayAgain: it is started again
//! let word = course.step(sights);                      // Some(Seen::Asked), as Ctrl-C came to `up`
//! after_save(Sights { place: FileSight::NotOwn, ..sights });   // AfterSave::Displaced
//! ```
//!
//! The trap: a keeper counts looks and knows no clock. How long a look takes is for the caller to
//! choose: 50 milliseconds while nodes run, 10 while they end.
#![tactic(auto)]

mod course;
mod keeper;
pub mod laws;
mod saved;
mod sight;

pub use course::{UpCourse, UpSights, UpStage};
pub use keeper::{Keeper, KeeperDeed, KeeperStage, LOOKS_BEFORE_KILL, LOOKS_BEFORE_START, Seen};
pub use node_texts::{
    CapacityLine, End, EndLine, LONGEST_SOCKET_NAME, NodePaths, ProcessPart, SOCKET_FRAMES,
    links_name, longest_socket_name,
};
pub use saved::{AfterSave, Complaint, Lost, Sights, StopSight, after_save, looks_for_stop};
pub use sight::{FileId, FileSight, sight_of};
