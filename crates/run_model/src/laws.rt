//! What holds for runs and sweeps, for the crates above: each law is the contract of a function
//! that does nothing.
ghost use Rattle.run_model.specs.Ticks.{NodesMoveInTicks, TicksAreAccepted};
ghost use Rattle.run_model.specs.Laws.{RefusedChangesNothing, NetworkStays, FrameStays, RunsJoin};
ghost use Rattle.run_model.specs.Laws.{UndamagedJoins, UndamagedSplits, StartIsInRange, RangesStay};
ghost use Rattle.run_model.specs.Laws.{EdgesAreInRange, EdgeSteps, EdgeRuns, EdgeIsRenewed};
ghost use Rattle.run_model.specs.Laws.{EdgeSweeps, SweepGrows, SweepsSplit, SweepsJoin};
ghost use Rattle.run_model.specs.Laws.{FewerSweeps, SweepsGrow, StrictSweepsAreSweeps, TicksGoOn};
ghost use Rattle.run_model.specs.Laws.{RenewedGoesOn, OldItemsStart, OldItemsGoOn};
ghost use Rattle.run_model.specs.Laws.{OldItemsAreThere, EarliestIsBest, GreedyCount, NoSweepCount};
ghost use Rattle.run_model.specs.Laws.{CountedIsGreatest, CountStarts, CountStays, CountRises};
ghost use Rattle.run_model.specs.Laws.{OneCount, OwnNodeAlone, OwnLinkAlone, MomentLeads};
ghost use Rattle.run_model.specs.Laws.{MomentStays, MomentMoves, VisitsGoOn};

use link_model::topology::laws as topology_laws;
use node_core::laws as node_core_laws;
pub use node_core::laws::{
    loans_need_privilege, one_loan_a_stay, payloads, round_a_node, six_sweeps, stays_stable,
    sweeps, the_tour, true_view, turns_stable, waiting_tickets_are_served,
};

/// A refused event changes nothing. A list without damage leaves the network unchanged, and every
/// list its nodes, root, capacity and lease. The run of two lists is the run of the second from
/// where the first one led, and is without damage if both are. Proofs about a moment of a run need
/// these.
pub fn runs()
    ensures refused { RefusedChangesNothing }
    ensures network { NetworkStays }
    ensures frame { FrameStays }
    ensures join { RunsJoin }
    ensures undamaged_joins { UndamagedJoins }
    ensures undamaged_splits { UndamagedSplits }
{}

/// The world in which every node is as at its start and nothing is under way is in range, however
/// many pairs of links are spare.
pub fn start()
    ensures { StartIsInRange }
{}

/// A world in range leads only to worlds in range: what holds for every world in range holds at
/// each moment of a run.
pub fn in_range()
    ensures { RangesStay }
{
    topology_laws::neighbours();
    topology_laws::changes();
    node_core_laws::ports();
    node_core_laws::step_in_range();
    node_core_laws::ranges_are_kept();
}

/// An event leaves each node and each link unchanged that is not its own. An event has at most one
/// node and one link of its own; but if an edge joins or goes, both its nodes and both its links
/// are the event's own, and the network and the spare pairs change too. So proofs about one node or
/// one edge skip all other events.
pub fn own_changes()
    ensures node { OwnNodeAlone }
    ensures link { OwnLinkAlone }
{}

/// One edge of a world: an event that is no damage is one event of the edge, so a run is a run of
/// the edge and a sweep is a sweep of it. So the laws of one edge hold for every edge of a world.
pub fn edges()
    ensures in_range { EdgesAreInRange }
    ensures steps { EdgeSteps }
    ensures runs { EdgeRuns }
    ensures renewed { EdgeIsRenewed }
    ensures sweeps { EdgeSweeps }
{
    topology_laws::joined();
    topology_laws::neighbours();
    in_range();
}

/// Lists that hold sweeps: r + s sweeps are r and then s, and conversely if the first list is
/// without damage; a list that holds some holds fewer; more events without damage before, or any
/// more after, remove none. Convergence goes in stages, each with its own sweeps.
pub fn sweep_numbers()
    ensures grows { SweepGrows }
    ensures split { SweepsSplit }
    ensures join { SweepsJoin }
    ensures fewer { FewerSweeps }
    ensures grow { SweepsGrow }
{
    topology_laws::joined();
}

/// A sweep that counts the items that a link hands over, more than it can hold, is a sweep too.
pub fn strict_sweeps()
    ensures { StrictSweepsAreSweeps }
{
    topology_laws::joined();
    topology_laws::neighbours();
    node_core_laws::sweeps();
    in_range();
}

/// A stretch event by event: which nodes have had a full tick, and which links are renewed,
/// follows from the event and from how many of a link's items were there before the stretch. Those
/// are the oldest, so only their number must be kept.
pub fn stretches()
    ensures ticks { TicksGoOn }
    ensures renewed { RenewedGoesOn }
    ensures old_start { OldItemsStart }
    ensures old_go_on { OldItemsGoOn }
    ensures old_are_there { OldItemsAreThere }
{
    topology_laws::joined();
}

/// The greatest number of sweeps of a list without damage is found greedily: end each sweep at the
/// first event that completes it. So a reader of a run keeps only the count and the unfinished
/// stretch. And a list has at most one sweep count.
pub fn sweep_counts()
    ensures earliest { EarliestIsBest }
    ensures greedy { GreedyCount }
    ensures none { NoSweepCount }
    ensures counted { CountedIsGreatest }
    ensures starts { CountStarts }
    ensures stays { CountStays }
    ensures rises { CountRises }
    ensures one { OneCount }
{
    topology_laws::joined();
    in_range();
}

/// The moment after the last damage, and the nodes that the privilege has visited since, event by
/// event. Sweeps and visits are counted from there.
pub fn moments()
    ensures leads { MomentLeads }
    ensures stays { MomentStays }
    ensures moves { MomentMoves }
    ensures visits { VisitsGoOn }
{
    in_range();
}

/// An event that is no damage keeps the values of a node's machines, and lets it lend only if it
/// lent before; or it makes of the node what a tick does. The tick of a node of the network does
/// the latter. So proofs about when a node's machines move, or when it begins to lend, look only at
/// ticks.
pub fn ticks()
    ensures moves { NodesMoveInTicks }
    ensures accepted { TicksAreAccepted }
{
    node_core_laws::only_ticks_lend();
}
