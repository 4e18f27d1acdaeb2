//! A node of a network as a process: its files, its sockets, its turns.
//!
//! ```
//! let words = NodeWords { file: "ring.toml", id: 1, dir: "run", manner, turn, version, is_child: false };
//! node::run(rt, &words)?;                         // prints `start default Absent`, then `ready`
//! ```
//!
//! Node U of a network uses these files of a folder, and touches nothing outside it: `state-U.tkt` (its
//! state), `node-U.sock` (nodes with greater ids connect to it), `desk-U.sock` (clients do), `look-U.sock`
//! (lookers do), `stop-U` (making it ends the node) and `lock-U` (held while the node runs, so that no
//! second process is node U there). If it keeps a record, it writes that to `record-U.0` and `record-U.1`
//! in turn. With a record it also writes its network's text to `record.toml`, at its start and when it has
//! other neighbours, under the name `record.toml.U` first.
//!
//! The crate `node_loop` has the turn of a node, over doors; `node_folder` has the node's place, its
//! sockets and its doors, `record_files` its record, and `node_texts` the names of files and the lines
//! that are printed. `node_keeping` decides what a node does after each 256th turn; `look_window`
//! decides what lookers are shown. Contracts know nothing of the system's answers, so the functions
//! that call it promise little: the order of a start, the fault that ends it, and what watches a turn.
//!
//! The trap: whoever can open the sockets can take the lock. The folder is made so that only its
//! owner can enter it.
#![tactic(auto)]

pub mod node;
mod observer;
mod start;
mod work;

pub use look_window::USUAL_LIMIT;
pub use record_files::process_parts::{
    NodeFault, NodeWords, ProcessRefusal, RecordSize, Rights, USUAL_SIZE,
};
pub use work::NodeProcess;
