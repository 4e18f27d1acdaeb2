//! The order in which a node, or `up`, starts.
//!
//! Each function that changes the folder says in its `requires` how far the start must have come.
//! So the prover checks at each call that nothing is made before the words are right, that no
//! socket is made before the place is held, and that no node says `ready` before its sockets
//! listen.

/// How far a start has come.
#[derive(Clone, Copy)]
pub enum StartStage {
    /// Nothing is known to be right, and nothing is made.
    Begun,
    /// The network, the id and the folder's name are right. Nothing is made.
    Checked,
    /// The folder is there.
    Entered,
    /// The place in it is held, so no other process can hold it.
    Held,
    /// All sockets listen.
    Listening,
    /// The node has said that it is ready.
    Ready,
}
