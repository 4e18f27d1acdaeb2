//! What a command line asks for that is done in a crate above it.
use crate::fault::NodeFault;
use crate::words::NodeWords;

/// What runs a node as a process. Because of this trait, the command line of `node` need not depend
/// on all parts of a node.
pub trait NodeWork<R> {
    /// Runs the node that the words name, until it must end.
    ///
    /// # Errors
    /// Why it does not run, or why it ends.
    fn run(&self, rt: &R, words: &NodeWords<'_>) -> Result<(), NodeFault>;
}
