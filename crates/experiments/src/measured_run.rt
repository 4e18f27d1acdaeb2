//! One run: a scrambled world, and a schedule up to the sharper bound.
ghost use Rattle.std.specs.Prelude.{◌≡◌, ◌+◌, ◌*◌, length, IfOk};
ghost use Rattle.run_model.specs.Run.{run};
ghost use Rattle.judge.specs.configuration.ConfigurationView.{world_of};
ghost use Rattle.experiments.specs.Shown.{scrambled, seeded, IsRunOf};
ghost use Rattle.schedules.specs.Rounds.{round};
ghost use Rattle.schedules.specs.Slow.{slow_round};
ghost use Rattle.experiments.specs.Scheduled.{plain_steps, stretch_of, lent_at, leave_at, leaves};
ghost use Rattle.experiments.specs.Watched.{GoesOn, GoesOnBy, GoesOnScheduled};
ghost use Rattle.experiments.specs.Runs.{IsRunWatched};

use crate::watch::ServiceWatch;
use judge::{Configuration, World};
use rand_core::SeedableRng;
use rand_pcg::Lcg64Xsh32;
use run_model::{Event, laws as run_model_laws};
use schedules::{
    Chances, EventSink, Slow, draw_step, give_round, give_slow_round, laws as schedules_laws,
    scramble_world, slow_link, slow_node,
};
use std::alloc::{AllocError, Allocator};
use topology::Net;

/// Who moves when in a run that is measured.
#[derive(Clone, Copy)]
pub enum Scheduler {
    /// Each round ticks every node and has every link carry its items.
    Rounds,
    /// Each step is drawn: a tick, a send or a take.
    Random,
    /// Rounds in which one link, which the seed names, carries its items only in `share` of a
    /// hundred rounds.
    SlowLink { share: u16 },
    /// Rounds in which one node, which the seed names, ticks only in `share` of a hundred rounds.
    SlowNode { share: u16 },
}

/// What a run has shown.
#[derive(Clone, Copy, PartialEq, Eq)]
pub struct Recovery {
    /// The seed of the run.
    pub seed: u64,
    /// After how many sweeps the network served at each moment of the run. This is one more than
    /// `seen` if it did not serve at some moment after the last sweep.
    pub sweeps: u64,
    /// How many sweeps there were.
    pub seen: u64,
}

/// The most stretches that a run may have for each sweep of the bound. With rounds one is enough,
/// and with a slow link or node 100 are; with random steps a sweep takes a random number of
/// stretches.
const STRETCHES_A_SWEEP: u64 = 1000;

/// A run of random steps draws nothing but ticks, sends and takes.
const PLAIN: Chances = Chances {
    loss: 0,
    clients: false,
};

/// Scrambles a world by a seed, and lets the scheduler's events happen until there have been as
/// many sweeps as the sharper bound says, or 1000 stretches for each of them. A stretch is a round,
/// or a number of random steps: as many as there are nodes, plus four for each edge. After each
/// stretch, whoever has the lock gives it back. A slow link or node has its part in the rounds that
/// [`has_part`](schedules::has_part) says.
///
/// # Errors
/// `AllocError` if the memory of the world or of its harms is refused.
pub fn measure_run<A: Allocator + Copy>(
    alloc: A,
    net: &Net<A>,
    scheduler: Scheduler,
    seed: u64,
) -> Result<Recovery, AllocError>
    // What is shown is shown by the scheduler's run, which is without damage, from the world that
    // the seed scrambles; and no run serves later than the theorem says.
    ensures { IfOk result (IsRunOf net.now scheduler seed) }
{
    let watch = watched_run(alloc, net, scheduler, seed, false)?;
    Ok(Recovery {
        seed,
        sweeps: watch.served_after(),
        seen: watch.sweeps(),
    })
}

/// The run of a seed on a network under a scheduler, as a watch has seen it. `layered` says whether
/// the watch looks at the layers of the proof.
pub(crate) fn watched_run<A: Allocator + Copy>(
    alloc: A,
    net: &Net<A>,
    scheduler: Scheduler,
    seed: u64,
    layered: bool,
) -> Result<ServiceWatch<A>, AllocError>
    ensures { IfOk result (λ watch. IsRunWatched net.now scheduler seed layered watch.judge watch.last) }
{
    run_model_laws::runs();
    run_model_laws::start();
    run_model_laws::moments();
    run_model_laws::sweep_numbers();
    layers::laws::sharp();
    schedules_laws::scramble();
    schedules_laws::draws();
    schedules_laws::accepted();
    schedules_laws::slow_rounds();
    schedules_laws::edges();
    let _known_nodes = net.nodes();
    let start = scrambled_world(alloc, net, seed)?;
    let mut watch = ServiceWatch::begin(start, layered);
    let mut generator = Lcg64Xsh32::seed_from_u64(seed);
    give_stretches(net, scheduler, &mut generator, &mut watch);
    Ok(watch)
}

/// The default world with the harms that a scramble draws from a seed.
fn scrambled_world<A: Allocator + Copy>(
    alloc: A,
    net: &Net<A>,
    seed: u64,
) -> Result<World<A>, AllocError>
    ensures { IfOk result (λ world. world_of world ≡ scrambled net.now (seeded seed)) }
{
    let mut world = World::new(alloc, net)?;
    let mut generator = Lcg64Xsh32::seed_from_u64(seed);
    let mut harms = Vec::new(alloc);
    scramble_world(net, &mut generator, &mut harms)?;
    happen(&mut world, harms.as_slice());
    Ok(world)
}

/// Lets harms happen. Those that a scramble draws are not refused if no client waits.
pub(crate) fn happen<A: Allocator + Copy>(world: &mut World<A>, harms: &[Event])
    ensures { world_of world.new ≡ run (world_of world.old) harms.now }
{
    for harm in harms {
        let _answer = world.step(harm);
    }
}

/// Gives the watch stretches until it has seen as many sweeps as the sharper bound says, or has had
/// 1000 stretches for each of them.
fn give_stretches<A: Allocator + Copy>(
    net: &Net<A>,
    scheduler: Scheduler,
    generator: &mut Lcg64Xsh32,
    watch: &mut ServiceWatch<A>,
)
    ensures { GoesOnScheduled scheduler net.now generator.old watch.old.judge watch.old.last
        watch.new.judge watch.new.last }
{
    let bound = u64::from(net.sharp_bound());
    for stretch in 0..bound * STRETCHES_A_SWEEP {
        if watch.sweeps() >= bound {
            return;
        }
        give_stretch(net, scheduler, stretch, generator, watch);
        leave_all(watch);
    }
}

/// Gives the watch the stretch that comes after `before` others.
fn give_stretch<A: Allocator + Copy>(
    net: &Net<A>,
    scheduler: Scheduler,
    before: u64,
    generator: &mut Lcg64Xsh32,
    watch: &mut ServiceWatch<A>,
)
    ensures watched { GoesOn watch.old.judge watch.old.last
        (stretch_of scheduler net.now before generator.old).0 watch.new.judge watch.new.last }
    ensures generator { generator.new ≡ (stretch_of scheduler net.now before generator.old).1 }
{
    match scheduler {
        Scheduler::Rounds => give_one_round(net, watch),
        Scheduler::Random => give_steps(net, generator, watch),
        Scheduler::SlowLink { share } => {
            let slow = slow_link(net, generator);
            give_one_slow_round(net, slow, share, before, watch)
        }
        Scheduler::SlowNode { share } => {
            let slow = slow_node(net, generator);
            give_one_slow_round(net, slow, share, before, watch)
        }
    }
}

/// Gives the watch one round.
fn give_one_round<A: Allocator + Copy>(net: &Net<A>, watch: &mut ServiceWatch<A>)
    ensures { GoesOn watch.old.judge watch.old.last (round net.now) watch.new.judge
        watch.new.last }
{
    // A watch never fails.
    let _given = give_round(net, watch);
}

/// Gives the watch round `round` with a slow link or node.
fn give_one_slow_round<A: Allocator + Copy>(
    net: &Net<A>,
    slow: Slow,
    share: u16,
    round: u64,
    watch: &mut ServiceWatch<A>,
)
    ensures { GoesOn watch.old.judge watch.old.last (slow_round net.now slow share round)
        watch.new.judge watch.new.last }
{
    // A watch never fails.
    let _given = give_slow_round(net, slow, share, round, watch);
}

/// Gives the watch as many random steps as there are nodes, plus four for each edge.
fn give_steps<A: Allocator + Copy>(
    net: &Net<A>,
    generator: &mut Lcg64Xsh32,
    watch: &mut ServiceWatch<A>,
)
    ensures watched { GoesOn watch.old.judge watch.old.last
        (plain_steps net.now (net.now.nodes + 4 * length net.now.edges) generator.old).0
        watch.new.judge watch.new.last }
    ensures generator { generator.new
        ≡ (plain_steps net.now (net.now.nodes + 4 * length net.now.edges) generator.old).1 }
{
    let nodes = u64::from(net.nodes());
    for step in 0..nodes + 4 * net.edges().len() as u64 {
        let event = draw_step(net, PLAIN, generator);
        let _taken = watch.take(&event);
    }
}

/// Whoever has the lock gives it back.
fn leave_all<A: Allocator + Copy>(watch: &mut ServiceWatch<A>)
    ensures { GoesOnBy leaves watch.old.judge watch.old.last watch.new.judge watch.new.last }
{
    for node in 0..watch.configuration().net().nodes() {
        leave(node, watch);
    }
}

/// Whoever has the lock at a node gives it back. If there is no such node, nothing happens.
fn leave<A: Allocator + Copy>(node: u16, watch: &mut ServiceWatch<A>)
    ensures { GoesOnBy (λ w. leave_at w node) watch.old.judge watch.old.last watch.new.judge
        watch.new.last }
{
    if let Some(ticket) = lent_at(watch.configuration(), node) {
        let _taken = watch.take(&Event::Leave { node, ticket });
    }
}

/// The ticket that a node lends to, if the node exists and lends.
fn lent_at<A: Allocator + Copy>(configuration: &Configuration<A>, node: u16) -> Option<u16>
    ensures { result ≡ lent_at (world_of configuration.now) node }
{
    if node < configuration.net().nodes() {
        configuration.node(node).lent()
    } else {
        None
    }
}
