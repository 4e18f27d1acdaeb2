//! A node's place in its folder: its lock, its sockets and their names, its doors, and what it says of
//! them.
//!
//! ```
//! let mut stage = StartStage::Begun;
//! let net = check_words(rt, &words, &mut stage)?;                 // nothing is made yet
//! let (paths, place) = take_place(rt, &words, &mut stage)?;       // `StartStage::Held`, while `place` lives
//! let (doors, files) = opener.open(&net, &mut stage)?;            // `StartStage::Listening`
//! let mut names = Names::new(&paths, &place, words.rights, files);
//! let sights = see(rt, &words, &names, &mut doors);               // after each 256th turn
//! names.take_back(rt, &mut doors, lost);                          // a name that leads elsewhere
//! ```
//!
//! Nothing here knows the node and its turns: `node_process` runs them. `node_keeping` decides what a node
//! does once it has seen its files. Contracts know nothing of the system's answers, so the functions that
//! call the system promise little: the order of a start, the fault that ends it, and that a name that is not
//! lost stays.
//!
//! The trap: a name that leads to another's file is not this node's any more, and must not be removed.
#![tactic(auto)]

mod doors;
mod names;
mod note;
mod opening;
mod place;
mod ready;
mod sights;

pub use doors::ProcessDoors;
pub use names::{Name, NameFiles, Names, Whom};
pub use network_file::FileNews;
pub use node_state_file::{FileStore, Started, Store, start};
pub use note::{Note, NoteLine};
pub use opening::{FolderOpener, Opener};
pub use place::{Seat, check_words, take_place};
pub use ready::say_ready;
pub use sights::{remove_own_sockets, say_news, see};
pub use unix_doors::{ClientSight, Stopwatch};
