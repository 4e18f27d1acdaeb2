//! What holds of the events that entries become: each law is the contract of a function that does
//! nothing.
ghost use Rattle.record_gathering.specs.Laws.{AcceptedIsEnough, HarmsMeanDifferences, FactsJoin};
ghost use Rattle.record_gathering.specs.Laws.{ReplaysFollowRecords, FieldsMeanDifferences};
ghost use Rattle.record_gathering.specs.SetUps.{SetUpsAreReached};
ghost use Rattle.record_gathering.specs.States.{WholeStatesAreReached};

use configuration::laws as configuration_laws;
pub use configuration::laws::{in_range, runs, start};
use topology::laws as topology_laws;

/// Leaving out the events that are refused changes nothing: the same world is reached.
pub fn accepted_is_enough()
    ensures { AcceptedIsEnough }
{}

/// There is no damage in what a part of a state becomes if the node is as it was noted. There is
/// none if a frame is taken that is under way, or if one is sent that is the one of the node's
/// port.
pub fn harms_mean_differences()
    ensures { HarmsMeanDifferences }
{}

/// A field that is named as different is different. For a part of a node's state, none is named
/// exactly if the node is as it was noted; for a port, this holds if it leads to a neighbour.
/// Showing a reader the places of damage rests on this.
pub fn fields_mean_differences()
    ensures { FieldsMeanDifferences }
{}

/// A replay of the events finds each node in the states that were noted, if they are in range, and
/// each frame that was noted as taken or sent, if it may be on its link.
pub fn replays_follow_records()
    ensures { ReplaysFollowRecords }
{
    topology_laws::joined();
    configuration_laws::runs();
}

/// A node whose whole state is noted, and is in range, is in that state afterwards: each of its
/// fields, its desk, and its port to each neighbour. Nothing else changes. There is damage in the
/// list of events exactly if the node was in a different state before. The search for damage in a
/// recording rests on this.
pub fn whole_states_are_reached()
    ensures { WholeStatesAreReached }
{
    topology_laws::joined();
    configuration_laws::runs();
    configuration_laws::in_range();
}

/// Facts that are set in two parts lead to the same world as facts that are set together, and none
/// of the events that they become is refused. Setting up a world piece by piece rests on this.
pub fn facts_join()
    ensures { FactsJoin }
{
    configuration_laws::runs();
}

/// A network that is set up like a world in range, with the same nodes, root, capacity and lease,
/// is in the state of that world: each node is in its state, and each link holds its items. This
/// holds if the same nodes are joined once the edges are set. The replay of a list of events that
/// begins in the middle of a run rests on this.
pub fn set_ups_are_reached()
    ensures { SetUpsAreReached }
{
    topology_laws::joined();
    configuration_laws::runs();
    configuration_laws::start();
    configuration_laws::in_range();
}
