//! Judging a whole run: here the code meets the theorem.
ghost use Rattle.std.specs.Prelude.{◌≡◌, ◌+◌, ◌-◌, ◌*◌, ◌≤◌, ℕ};
ghost use Rattle.topology.specs.Network.{bound_of};
ghost use Rattle.topology.specs.Eccentricity.{sharp_of};
ghost use Rattle.judge.specs.run_model.Links.{AreLinksStable};
ghost use Rattle.judge.specs.run_model.Tree.{IsTreeReached};
ghost use Rattle.judge.specs.run_model.Headline.{IsServing};
ghost use Rattle.judge.specs.run_model.Run.{run, IsUndamaged};
ghost use Rattle.judge.specs.run_model.Count.{IsSweepCount};
ghost use Rattle.convergence.specs.Ring.{IsTokenRingGood};
ghost use Rattle.convergence.specs.Legitimate.{IsLegitimate};
ghost use Rattle.convergence.specs.Closure.{IsLegitimateThroughout};
ghost use Rattle.convergence.specs.Payloads.{ArePayloadsFresh};
ghost use Rattle.world.specs.Numbers.{DoNumbersMove};
ghost use Rattle.judge.specs.Judging.{refused_in, counted_up_to};
ghost use Rattle.judge.specs.Visited.{AreVisited, AreAllVisited};
ghost use Rattle.judge.specs.configuration.ConfigurationView.{world_of};

use convergence::laws as convergence_laws;
use judge::{Event, Judge, World, laws as judge_laws};
use std::alloc::{Allocator, Global};

/// What a judge has counted along a run, and where the run has led.
#[derive(Drop)]
pub struct Report<A: Allocator + Copy = Global> {
    /// The world now.
    pub world: World<A>,
    /// The sweeps since the last accepted damage, or since the start if there was none; the count
    /// stops at its greatest value.
    pub sweeps: u64,
    /// The refused events; the count stops at its greatest value.
    pub refused: u64,
    /// The nodes that were privileged at some moment since the last accepted damage, including the
    /// moment right after it, or since the start if there was none. Bit v stands for node v.
    pub visited: u64,
}

/// Lets events happen one after the other, from this world on, and counts sweeps and refusals.
///
/// From any state, the last two sweeps move the number of each sender. After 4(C + 1) sweeps the
/// links are stable. Three sweeps later, and from then on, all that is staged and copied is what
/// its node would have said at some moment of the last three. The tree is reached 4(n + 1) sweeps
/// after the links are stable, and after as many sweeps as `Net::bound` says, the world is
/// legitimate: each distance is the least length of a walk and each parent the true one, and at
/// most one node is privileged and at most one lends. `Net::sharp_bound` is never more than that,
/// and is enough too. C, n and the bounds are those of the network at the end. The sweeps are those
/// since the last damage: how the world came to its state does not matter. From a legitimate world,
/// events without damage lead only through legitimate worlds, and in 16(n - 1) sweeps each node is
/// privileged at some moment. From any world, in that many sweeps more than either of the bounds,
/// each node is privileged at some moment since the last damage. The world need not be legitimate
/// yet at that moment.
pub fn judge<A: Allocator + Copy>(start: World<A>, events: &[Event]) -> Report<A>
    ensures world { world_of result.world ≡ run (world_of start) events.now }
    // the counts are exact, up to the greatest value of their type
    ensures sweeps { (count : ℕ) × IsSweepCount (world_of start) events.now count
        × (result.sweeps ≡ counted_up_to count) }
    ensures refused { result.refused ≡ counted_up_to (refused_in (world_of start) events.now) }
    // what the counted sweeps have achieved, stage by stage
    ensures links { 4 * ((world_of result.world).net.capacity + 1) ≤ result.sweeps
        → AreLinksStable (world_of result.world) }
    ensures payloads { ArePayloadsFresh (world_of start) events.now (world_of result.world) }
    ensures numbers { DoNumbersMove (world_of start) events.now (world_of result.world) }
    ensures tree { 4 * ((world_of result.world).net.capacity + 1)
        + 4 * ((world_of result.world).net.nodes + 1)
        ≤ result.sweeps → IsTreeReached (world_of result.world) }
    ensures token_ring { bound_of (world_of result.world).net - 1 ≤ result.sweeps
        → IsTokenRingGood (world_of result.world) }
    // the headline
    ensures legitimate { bound_of (world_of result.world).net ≤ result.sweeps
        → IsLegitimate (world_of result.world) }
    ensures serving { bound_of (world_of result.world).net ≤ result.sweeps
        → IsServing (world_of result.world) }
    // the same after far fewer sweeps, however great the capacity
    ensures sharp_legitimate { sharp_of (world_of result.world).net ≤ result.sweeps
        → IsLegitimate (world_of result.world) }
    ensures sharp_serving { sharp_of (world_of result.world).net ≤ result.sweeps
        → IsServing (world_of result.world) }
    // the mask is exact
    ensures visited { AreVisited (world_of start) events.now result.visited }
    // service: since the last damage each node was privileged at some moment; if the world was not
    // legitimate at first, it need not have been so at that moment
    ensures visits { IsLegitimate (world_of start) → IsUndamaged (world_of start) events.now
        → 16 * ((world_of start).net.nodes - 1) ≤ result.sweeps
        → AreAllVisited (world_of start).net result.visited }
    ensures each_state_visits { bound_of (world_of result.world).net
        + 16 * ((world_of result.world).net.nodes - 1) ≤ result.sweeps
        → AreAllVisited (world_of result.world).net result.visited }
    ensures sharp_visits { sharp_of (world_of result.world).net
        + 16 * ((world_of result.world).net.nodes - 1) ≤ result.sweeps
        → AreAllVisited (world_of result.world).net result.visited }
    // and it stays so
    ensures closure { IsLegitimate (world_of start) → IsUndamaged (world_of start) events.now
        → IsLegitimateThroughout (world_of start) events.now }
{
    judge_laws::runs();
    judge_laws::in_range();
    judge_laws::moments();
    judge_laws::sweep_numbers();
    convergence_laws::links();
    convergence_laws::closure();
    convergence_laws::converge();
    convergence_laws::sharp();
    convergence_laws::service();
    topology::laws::eccentricity();
    let mut judge = Judge::new(start);
    for event in events {
        let _answer = judge.step(event);
    }
    let sweeps = judge.sweeps();
    let refused = judge.refused();
    let visited = judge.visited();
    Report {
        world: judge.into_world(),
        sweeps,
        refused,
        visited,
    }
}
