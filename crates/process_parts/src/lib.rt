//! What the processes of a network (those of its nodes, and the one that keeps these running)
//! share: what their command lines say, why they do not run, the folder and a place in it, the
//! order in which they start, and who may use what they make.
//!
//! ```
//! let mut stage = StartStage::Checked;
//! make_folder(rt, "run", Rights::Usual, &mut stage)?;              // `StartStage::Entered`
//! let place = hold_place(rt, "run/lock-1", &mut stage)?;           // `StartStage::Held`, while `place` lives
//! let refusal = ProcessRefusal { file: "ring.toml", dir: "run", id: 1, fault: NodeFault::Running };
//! ```
//!
//! Contracts know nothing of the system's answers. So functions that call the system promise the
//! order of a start, and which fault ends it.
//!
//! The trap: whoever can open the sockets can take the lock. With `Rights::Usual` the folder is
//! made so that only its owner can enter it.
#![tactic(auto)]

mod capacity;
mod fault;
mod folder;
mod record_size;
mod rights;
mod start;
mod words;
mod work;

pub use capacity::warn_of_capacity;
pub use fault::{NodeFault, ProcessRefusal, fault_of};
pub use folder::{
    FolderPlace, Listener, NodeSockets, addresses_of, bind_again, check_names, file_up_to,
    hold_place, make_folder, make_sockets, new_file, remove, set_mode, sight_at,
};
pub use network_file::{NetworkFault, network_of, read_network};
pub use node_keeping::{
    AfterSave, Complaint, End, EndLine, FileId, FileSight, Keeper, KeeperDeed, Lost, NodePaths,
    ProcessPart, Seen, Sights, StopSight, UpCourse, UpSights, after_save, looks_for_stop,
};
pub use node_log::{LogLine, NodeEvent, NodeLog, TurnSight};
pub use record_size::{RecordSize, USUAL_SIZE};
pub use rights::Rights;
pub use start::StartStage;
pub use unix_ends::{InputSight, Listeners, read_input, watch_input};
pub use words::{NodeWords, UpWords};
pub use work::NodeWork;
