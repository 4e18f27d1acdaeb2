//! A second node that does what a record says of a node, deed by deed.
//!
//! A record says in which state a node was, and what it did from then on. A [`Follower`] is a node
//! of its own, which does the same: [`Follower::follow`] has it do each deed by the node's own
//! steps, and says no at a deed that no node in that state does, such as sending a frame that is
//! not the one of its port. It also says no at a deed that does not say by itself what the node
//! did: a frame in its short form, or an edge that joined or parted. Whether its state is then the
//! node's is for [`Follower::stands_as`] to say.
//!
//! ```
//! let mut follower = Follower::new(alloc, &net, 1)?;
//! let _same = follower.take_over(&node);              // as the node stands now
//! // .. the node takes a turn ..
//! follower.follow(&deeds) && follower.stands_as(&node)   // these deeds led it to where it stands
//! ```
//!
//! So deeds that were noted are known to be an account of the node: they lead it from the one state
//! to the other by its own steps. A writer of a record asks before it is written, and a reader asks
//! at the next state that is noted whole.
//!
//! [`start_part`], [`own_part`], [`port_part`] and [`loan_part`] are the parts of a node's state that a
//! record begins with.
//!
//! The traps: a frame that came again changes nothing. So if such a deed is missing, the follower
//! is in the node's state all the same: ask the one that notes the deeds whether all are there. And
//! after a no the follower has done the deeds before that one: have it take over a state again.
#![tactic(auto)]

mod follower;
pub mod laws;
mod parts;

pub use follower::Follower;
pub use node_core::Node;
pub use parts::{loan_part, own_part, port_part, start_part};
