//! What holds of damage that is drawn: each law is the contract of a function that does nothing.
ghost use Rattle.damage_tool.specs.Laws.{ScrambleIsAccepted, ScrambleKeepsNetwork, DrawsAreBelow};

/// Every harm of a scramble is accepted if no client waits: what it writes is in range, and no link
/// gets more items than it can hold. The network is the same at the end. Code that lets the harms
/// happen need not check for refusals, and may take the network after them to be the one before.
pub fn scramble()
    ensures accepted { ScrambleIsAccepted }
    ensures network { ScrambleKeepsNetwork }
{
    topology::laws::limits();
}

/// A draw from a count of numbers gives one of them. Drawing a node or an edge by its place relies
/// on this.
pub fn draws()
    ensures { DrawsAreBelow }
{}
