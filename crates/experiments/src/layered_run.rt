//! One run, and when each layer of the proof stood in it permanently.
ghost use Rattle.std.specs.Prelude.{IfOk};
ghost use Rattle.experiments.specs.Layered.{IsSettlingOf};

use crate::layers_seen::sweeps_after;
use crate::measured_run::{Scheduler, watched_run};
use run_model::laws as run_model_laws;
use std::alloc::{AllocError, Allocator};
use topology::Net;

/// When each layer of the proof stood permanently in a run, in sweeps since its start. A layer's
/// number is one more than `seen` if it failed at some moment after the last sweep.
#[derive(Clone, Copy)]
pub struct Settling {
    /// The seed of the run.
    pub seed: u64,
    /// How many events there were.
    pub events: u64,
    /// After how many sweeps every link was stable at each moment of the run.
    pub links: u64,
    /// After how many sweeps the tree was reached at each moment of the run.
    pub tree: u64,
    /// After how many sweeps the token ring was good at each moment of the run.
    pub ring: u64,
    /// After how many sweeps the network served at each moment of the run.
    pub served: u64,
    /// How many sweeps there were.
    pub seen: u64,
}

/// Makes the run that [`measure_run`](crate::measure_run) makes, and says for each layer of the
/// proof after how many sweeps it stood permanently. Until all layers stand, the whole network is
/// looked at after each event, so this takes longer.
///
/// # Errors
/// `AllocError` if the memory of the world or of its harms is refused.
pub fn measure_layers<A: Allocator + Copy>(
    alloc: A,
    net: &Net<A>,
    scheduler: Scheduler,
    seed: u64,
) -> Result<Settling, AllocError>
    // Each number is that of the scheduler's run from the world that the seed scrambles, by the
    // layer's definition in the proof; and none is above what the theorem says.
    ensures { IfOk result (IsSettlingOf net.now scheduler seed) }
{
    run_model_laws::runs();
    run_model_laws::moments();
    run_model_laws::sweep_numbers();
    layers::laws::sharp();
    let watch = watched_run(alloc, net, scheduler, seed, true)?;
    let layers = watch.layers().unwrap();
    Ok(Settling {
        seed,
        events: layers.events,
        links: sweeps_after(layers.links),
        tree: sweeps_after(layers.tree),
        ring: sweeps_after(layers.ring),
        served: watch.served_after(),
        seen: watch.sweeps(),
    })
}
