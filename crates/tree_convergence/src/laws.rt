//! How links become stable, payloads fresh and the tree reached: each law is the contract of a
//! function that does nothing.
ghost use Rattle.tree_convergence.specs.Laws.{LinksStayStable, LinksOutlastRuns, LinksTurnStable};
ghost use Rattle.tree_convergence.specs.Laws.{LinksTurnStableInSix, NumbersMove, StagedTurnsFresh};
ghost use Rattle.tree_convergence.specs.Laws.{CopyTurnsStaged};
ghost use Rattle.tree_convergence.specs.Laws.{StagedIsPresent, CopyIsStaged, PayloadsTurnFresh};
ghost use Rattle.tree_convergence.specs.Laws.{StageZero};
ghost use Rattle.tree_convergence.specs.Laws.{StageStays, StageRises, ParentsTurnTrue};
ghost use Rattle.tree_convergence.specs.Laws.{TreeIsReached};
ghost use Rattle.tree_convergence.specs.Laws.{TreeIsReachedByDepth, TreeStays};

use bfs_tree::laws as bfs_tree_laws;
use run_model::laws as run_model_laws;
use topology::laws as topology_laws;

/// Links: from any state, each is stable after 4(C + 1) sweeps, and after six whatever its
/// capacity, and stays so; and any two sweeps move the number of each sender. All layers above the
/// links rest on this.
pub fn links()
    ensures stay { LinksStayStable }
    ensures stay_in_runs { LinksOutlastRuns }
    ensures turn { LinksTurnStable }
    ensures turn_in_six { LinksTurnStableInSix }
    ensures numbers_move { NumbersMove }
{
    run_model_laws::stays_stable();
    run_model_laws::turns_stable();
    run_model_laws::six_sweeps();
    run_model_laws::sweeps();
    run_model_laws::runs();
    run_model_laws::in_range();
    run_model_laws::edges();
}

/// Payloads: what is staged was present, what a stable link copies was staged, and after
/// three sweeps both are what was present at some moment of them: after two what is staged, and one
/// later the copy. The tree needs this for
/// distances and parents, the token ring for ring values.
pub fn payloads()
    ensures staged { StagedIsPresent }
    ensures copied { CopyIsStaged }
    ensures turn_fresh { PayloadsTurnFresh }
    ensures staged_turns { StagedTurnsFresh }
    ensures copy_turns { CopyTurnsStaged }
{
    run_model_laws::payloads();
    run_model_laws::sweeps();
    run_model_laws::runs();
    run_model_laws::in_range();
    run_model_laws::edges();
    topology_laws::joined();
}

/// The stages of the tree, on stable links: every world is at stage 0, each stage stays, and four
/// sweeps raise it by one.
pub fn stages()
    ensures zero { StageZero }
    ensures stay { StageStays }
    ensures rise { StageRises }
{
    links();
    payloads();
    run_model_laws::runs();
    run_model_laws::in_range();
    bfs_tree_laws::one_round();
    topology_laws::joined();
}

/// Parents, on stable links: once every distance is exact, four sweeps make every parent true: the
/// nodes' own, the staged and the copied ones.
pub fn parents()
    ensures { ParentsTurnTrue }
{
    links();
    payloads();
    stages();
    run_model_laws::runs();
    run_model_laws::in_range();
    bfs_tree_laws::one_round();
    bfs_tree_laws::exact_step();
    topology_laws::joined();
}

/// The tree, on stable links: 4(n + 1) sweeps reach it from any state, four for each stage and
/// four for the parents; so do 4(e + 2), with e the greatest distance from the root; and it stays
/// reached. It carries the token ring.
pub fn tree()
    ensures reached { TreeIsReached }
    ensures reached_by_depth { TreeIsReachedByDepth }
    ensures stay { TreeStays }
{
    links();
    payloads();
    stages();
    parents();
    run_model_laws::runs();
    run_model_laws::in_range();
    run_model_laws::sweep_numbers();
    bfs_tree_laws::one_round();
    bfs_tree_laws::exact_step();
    topology_laws::joined();
    topology_laws::tree();
    topology_laws::eccentricity();
}
