//! What holds for a node's rounds: a law is the contract of a function that does nothing.
ghost use Rattle.node_runner.specs.Laws.{EachRoundTicks};

pub use weaving::laws::weave;

/// A node ticks once in each round: each round is one turn.
pub fn rounds()
    ensures { EachRoundTicks }
{}
