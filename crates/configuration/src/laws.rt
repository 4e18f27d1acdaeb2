//! What holds for networks that serve: each law is the contract of a function that does nothing.
ghost use Rattle.configuration.specs.Sight.{SightsDecide};

use run_model::laws as run_model_laws;
pub use run_model::laws::{
    in_range, moments, own_changes, runs, start, stretches, strict_sweeps, sweep_counts,
    sweep_numbers, ticks,
};

/// An event that is not damage, and leaves the sight of what it touches unchanged, does not change
/// whether the network serves. So along a run it is enough to look at one node for each event, and
/// at the whole network only if that node's sight has changed.
pub fn sights()
    ensures { SightsDecide }
{
    run_model_laws::own_changes();
    run_model_laws::runs();
}
