//! What one step makes of copies that are right so far: how a breadth-first tree forms, round by
//! round.
ghost use Rattle.bfs_tree.specs.Laws.{StageRises, StageIncludes, FirstStage, LastStage};
ghost use Rattle.bfs_tree.specs.Laws.{ExactDistance, ExactParent, StepDistanceFits, StepParentFits};

use topology::laws as topology_laws;

/// One round of the tree. Copies that are exact below k and at least k elsewhere give a distance
/// that is exact below k + 1 and at least k + 1 elsewhere. Everything is of stage 0, and what is of
/// stage n is exact, so n rounds suffice from any start. What is of a later stage is of each
/// earlier one too, so no step undoes a round.
pub fn one_round()
    ensures rises { StageRises }
    ensures includes { StageIncludes }
    ensures first { FirstStage }
    ensures last { LastStage }
{
    topology_laws::tree();
    topology_laws::neighbours();
    topology_laws::joined();
}

/// Exact copies give the true distance and the true parent: the neighbour of smallest id that is
/// one nearer to the root. So a tree that is reached stays.
pub fn exact_step()
    ensures distance { ExactDistance }
    ensures parent { ExactParent }
{
    topology_laws::tree();
    topology_laws::neighbours();
    topology_laws::joined();
}

/// Whatever the copies, a step's distance is at most n, and its parent is a node or none. Code that
/// keeps both needs this.
pub fn step_in_range()
    ensures distance { StepDistanceFits }
    ensures parent { StepParentFits }
{}
