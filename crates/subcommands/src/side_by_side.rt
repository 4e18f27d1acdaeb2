//! The measured runs of a plan, side by side.
ghost use Rattle.std.specs.Prelude.{◌≡◌, ◌+◌, IfOk, ℕ};
ghost use Rattle.experiments.specs.Layered.{IsSettlingOf};
ghost use Rattle.experiments.specs.Shown.{IsRunOf};
ghost use Rattle.experiments.specs.declared.measured_run.Scheduler.{Scheduler};
ghost use Rattle.topology.specs.Network.{Network};
ghost use Rattle.subcommands.specs.Measured.{AreRunsOf};

use crate::measure::MeasurePlan;
use command_parts::Progress;
use experiments::{Recovery, Scheduler, Settling, measure_layers, measure_run};
use rayon::prelude::*;
use std::alloc::{AllocError, Global};
use std::thread::Threads;
use std::time::Clock;
use topology::Net;

/// What is measured of a run.
pub trait Measurement: Send + Drop + Sized {
    /// It is what a run of a network shows, by its scheduler and its seed.
    ghost is_of: { Network → Scheduler → ℕ → Self → Type 0 };

    /// Makes the run of a seed, and measures it.
    ///
    /// # Errors
    /// `AllocError` if memory runs out.
    fn measure(
        alloc: Global,
        net: &Net,
        scheduler: Scheduler,
        seed: u64,
    ) -> Result<Self, AllocError>
        ensures { IfOk result (is_of net.now scheduler seed) };
}

/// After how many sweeps the network served.
impl Measurement for Recovery {
    ghost is_of = { IsRunOf };

    fn measure(
        alloc: Global,
        net: &Net,
        scheduler: Scheduler,
        seed: u64,
    ) -> Result<Recovery, AllocError> {
        measure_run(alloc, net, scheduler, seed)
    }
}

/// When each layer stood permanently.
impl Measurement for Settling {
    ghost is_of = { IsSettlingOf };

    fn measure(
        alloc: Global,
        net: &Net,
        scheduler: Scheduler,
        seed: u64,
    ) -> Result<Settling, AllocError> {
        measure_layers(alloc, net, scheduler, seed)
    }
}

/// Makes the runs of a plan, on as many threads as there are processors. Run i has the first seed
/// plus i.
///
/// # Errors
/// `AllocError` if memory runs out.
pub fn measured<R: Eprint + Clock + Threads + Sync, M: Measurement>(
    rt: &R,
    alloc: Global,
    net: &Net,
    plan: MeasurePlan,
) -> Result<Vec<M>, AllocError>
    ensures { IfOk result (λ runs. AreRunsOf (M.is_of net.now plan.scheduler) plan runs.items) }
{
    let progress = if plan.progress {
        Progress::begin(rt, "runs", plan.runs)
    } else {
        None
    };
    let runs = make_runs(rt, alloc, net, plan, &progress);
    if let Some(progress) = &progress {
        progress.end(rt);
    }
    runs
}

/// Makes the runs of a plan, and shows how many are done.
fn make_runs<R: Eprint + Clock + Threads + Sync, M: Measurement>(
    rt: &R,
    alloc: Global,
    net: &Net,
    plan: MeasurePlan,
    progress: &Option<Progress>,
) -> Result<Vec<M>, AllocError>
    ensures { IfOk result (λ runs. AreRunsOf (M.is_of net.now plan.scheduler) plan runs.items) }
{
    (0..plan.runs)
        .into_par_iter()
        .map(
            // Run i has its own seed, and starts from the world that this seed scrambles.
            |i: u32| -> Result<M, AllocError>
                ensures { IfOk result (M.is_of net.entry.now plan.scheduler (plan.seed + i)) }
            {
                let seed = u64::from(plan.seed) + u64::from(i);
                let run = M::measure(alloc, net, plan.scheduler, seed);
                if let Some(progress) = progress {
                    progress.advance(rt);
                }
                run
            },
        )
        .collect(rt, alloc)?
}
