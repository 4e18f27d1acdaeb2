//! What holds of schedules: each law is the contract of a function that does nothing.
ghost use Rattle.schedules.specs.Below.{Below};
ghost use Rattle.schedules.specs.Laws.{RoundIsSweep, RoundsAreSweeps, IdleRoundsAreSweeps};
ghost use Rattle.schedules.specs.Laws.{RoundsAreAccepted, RoundIsUndamaged, HasEdge};
ghost use Rattle.schedules.specs.Laws.{IdleSlowRoundsHoldSweeps, SlowRoundIsUndamaged};
ghost use Rattle.schedules.specs.Taking.{TakesOn};

use crate::event_sink::EventSink;
use configuration::laws as configuration_laws;
pub use damage_tool::laws::{draws, scramble};
use topology::laws as topology_laws;

/// The laws of networks and of runs that the laws of rounds rest on.
fn below()
    ensures { Below }
{
    topology_laws::joined();
    configuration_laws::runs();
    configuration_laws::own_changes();
    configuration_laws::ticks();
    configuration_laws::in_range();
    configuration_laws::strict_sweeps();
    configuration_laws::sweep_numbers();
}

/// A round is a sweep in every world in which each tick is full, and n rounds are n sweeps if that
/// holds at the start of each. It does in a network in which no client waits and no node lends, as
/// damage may have made one lend. So the rounds of this schedule can be counted to see how fast a
/// network recovers under it.
pub fn rounds()
    ensures sweep { RoundIsSweep }
    ensures sweeps { RoundsAreSweeps }
    ensures idle { IdleRoundsAreSweeps }
{
    below();
}

/// No event of a round is refused, and none is damage, in whatever state the world is.
pub fn accepted()
    ensures accepted { RoundsAreAccepted }
    ensures undamaged { RoundIsUndamaged }
{
    configuration_laws::runs();
}

/// Rounds with a slow link or node are without damage. In a network in which no client waits and no
/// node lends, and with a share of at most 100, n rounds hold a sweep for each of them in which the
/// slow one has its part. So a run under this schedule then reaches any number of sweeps if the
/// share is at least 1.
pub fn slow_rounds()
    ensures undamaged { SlowRoundIsUndamaged }
    ensures sweeps { IdleSlowRoundsHoldSweeps }
{
    below();
}

/// An accepted network has an edge. Drawing one relies on this.
pub fn edges()
    ensures { HasEdge }
{
    topology_laws::tree();
}

/// If a sink has taken all of a list but what is left, and then takes the first part of what is
/// left, it has taken all but the rest. Giving a sink a list part by part relies on this.
pub fn taking<S: EventSink>()
    ensures { TakesOn S.takes }
{}
