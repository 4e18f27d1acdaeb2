//! Laws of what a node's process and `up` decide, each the contract of a function that does nothing.
ghost use Rattle.node_keeping.specs.Laws.{EndsWhereDisplaced, RunsOnInPlace, StopsWhenAsked};
ghost use Rattle.node_keeping.specs.Laws.{NobodyStartsAfterTheEnd, IsStartedAgain};
ghost use Rattle.node_keeping.specs.Laws.{IsLeftAfterThreeFailures, IsKilledOnce, IsKilledInTime};
ghost use Rattle.node_keeping.specs.Laws.{IsNamedAtItsEnd, IsKilledAtOnce};
ghost use Rattle.node_keeping.specs.CourseLaws.{RunsUnasked, AsksOnce, UrgesOnce};

/// A node ends after the save at which it sees that its lock file is gone or another's. It does not
/// end for this reason if the system does not say. A node that runs on did not see its place lost,
/// saw no stop file and was not asked to end. Whoever removes the folder of a network and makes
/// another there relies on this.
#[tactic(auto, using(crate::proofs::AfterSaving::displaced))]
pub fn a_node_runs_on_in_its_place()
    ensures displaced { EndsWhereDisplaced }
    ensures on { RunsOnInPlace }
    ensures asked { StopsWhenAsked }
{}

/// A node that ended, or for which there was no process, is started again, unless it failed at its
/// start for the third time in a row. Only then it is left alone. Whoever runs nodes under `up`
/// relies on this.
pub fn a_node_is_started_again()
    ensures again { IsStartedAgain }
    ensures left { IsLeftAfterThreeFailures }
{}

/// Once `up` is asked to end, no node is started, each node that then ends before it is killed is
/// named, and one that does not end is killed once: by the look after those that it was given, or
/// as soon as `up` is asked again.
pub fn up_leaves_nobody()
    ensures nobody { NobodyStartsAfterTheEnd }
    ensures once { IsKilledOnce }
    ensures in_time { IsKilledInTime }
    ensures named { IsNamedAtItsEnd }
    ensures at_once { IsKilledAtOnce }
{}

/// `up` asks no node to end as long as nothing asks it to end. Whatever it sees, it asks its nodes
/// to end at most once, and urges them at most once.
#[tactic(auto, using(crate::proofs::Coursing::unasked, crate::proofs::Coursing::said_once))]
pub fn up_ends_when_asked()
    ensures unasked { RunsUnasked }
    ensures asks { AsksOnce }
    ensures urges { UrgesOnce }
{}
