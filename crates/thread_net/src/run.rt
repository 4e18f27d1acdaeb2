//! Runs the nodes of a world on threads; what they do is a run.
ghost use Rattle.std.specs.Prelude.{◌≡◌, ◌≤◌, [], IfOk, IfErr, vec_len, vec_capacity};
ghost use Rattle.judge.specs.run_model.World.{IsWorldInRange};
ghost use Rattle.judge.specs.configuration.ConfigurationView.{world_of};
ghost use Rattle.thread_net.specs.Outcomes.{runners_in, have_run};
ghost use Rattle.thread_net.specs.Done.{CanGather, Gathers};
ghost use Rattle.thread_net.specs.ThreadRun.{IsThreadRun};
ghost use Rattle.thread_net.specs.Prepared.{IsPrepared};
ghost use Rattle.thread_net.specs.Fault.{IsFault};

use crate::prepare::{Prepared, prepare};
use crate::seats::{RunnerSeats, unseat_all};
use crate::settle::settle_all;
use crate::threads::{ReturnedRunner, run_all};
use judge::{Event, Links, Parts, Stretch, World};
use node_runner::{Gate, Runner, laws as node_runner_laws, weave};
use std::alloc::{AllocError, Allocator, Global};
use std::sync::Wait;
use std::thread::Threads;

/// What nodes did on threads of their own: the world that resulted, and the events that led to it,
/// in one order.
#[derive(Drop)]
pub struct Woven<A: Allocator + Copy = Global> {
    /// The world that resulted.
    pub world: World<A>,
    /// What the nodes did, by stamps, then by nodes.
    pub events: Vec<Event, A>,
}

/// Why nodes did not run all their turns.
#[derive(Drop)]
pub enum RunFault {
    /// Memory was refused before the first turn. The world is as it was.
    Memory(World),
    /// A thread was refused. This is what the nodes did: each did all its turns or none, and at
    /// least one did none. A node whose thread had been started may have done none, too.
    Spawn(Woven),
}

/// Empty tables for what each thread returns, and for the runners that came back.
fn new_tables(alloc: Global, count: usize) -> Result<(Vec<ReturnedRunner>, Vec<Runner>), AllocError>
    ensures done { IfOk result (λ r. (r.0.items ≡ []) × (count ≤ vec_capacity r.0)) }
    ensures back { IfOk result (λ r. (r.1.items ≡ []) × (count ≤ vec_capacity r.1)) }
{
    let done = Vec::with_capacity(alloc, count)?;
    let back = Vec::with_capacity(alloc, count)?;
    Ok((done, back))
}

/// Moves the runners to a table, and returns whether all of them ran.
fn collect(outcomes: Vec<ReturnedRunner>, runners: &mut Vec<Runner>) -> bool
    requires { (runners.old.items ≡ []) × (vec_len outcomes ≤ vec_capacity runners.old) }
    ensures runners { runners.new.items ≡ runners_in outcomes.items }
    ensures all { result ≡ have_run outcomes.items }
{
    let mut all_ran = true;
    for outcome in outcomes {
        let ReturnedRunner { runner, ran } = outcome;
        runners.push_reserved(runner);
        all_ran = all_ran && ran;
    }
    all_ran
}

/// The world and the events of runners that are done.
fn gather<A: Allocator + Copy>(
    runners: Vec<Runner<A>, A>,
    links: Links<A>,
    room: Stretch<A>,
    seats: RunnerSeats<A>,
    events: Vec<Event, A>,
) -> Woven<A>
    requires { CanGather runners.items links room seats events }
    ensures { Gathers runners.items links room seats events result.events.items
        (world_of result.world) }
{
    node_runner_laws::weave();
    node_runner_laws::rounds();
    judge::laws::in_range();
    let mut links = links;
    let mut seats = seats;
    let mut events = events;
    unseat_all(runners, &mut seats);
    let RunnerSeats {
        nodes,
        journals,
        mut rows,
    } = seats;
    weave(&journals, &mut events);
    settle_all(&mut links, &mut rows);
    Woven {
        world: World::from_parts(Parts { nodes, links, room }),
        events,
    }
}

/// Makes everything that a run of a world needs. If memory is refused for any of it, the world
/// comes back as it was.
pub fn prepare_world<A: Allocator + Copy>(
    alloc: A,
    world: World<A>,
    turns: u32,
) -> Result<Prepared<A>, World<A>>
    ensures range { IsWorldInRange (world_of world) }
    ensures ready { IfOk result (IsPrepared (world_of world) turns) }
    ensures unchanged { IfErr result (λ back. back ≡ world) }
{
    world.ranges_hold();
    match prepare(alloc, world.into_parts(), turns) {
        Ok(prepared) => Ok(prepared),
        Err(parts) => Err(World::from_parts(parts)),
    }
}

/// Runs each node of a world on a thread of its own, for `turns` turns each, and waits for all. A
/// turn is a tick, then to each neighbour at most one send, then from each at most two takes; the
/// gate holds a node before and after each turn. What the nodes did, in one list, is a run from the
/// world handed in to the one that comes back, whatever the scheduler did.
///
/// All memory is taken before the first thread starts, except what the start of a thread takes.
///
/// # Errors
/// [`RunFault::Memory`] if memory is refused, before the first turn; the world comes back as it
/// was. [`RunFault::Spawn`] if a thread is refused, with what the nodes did: each all its turns or
/// none, and at least one none.
pub fn run_threads<R: Threads + Wait + Sync, G: Gate>(
    rt: &R,
    alloc: Global,
    world: World,
    turns: u32,
    gate: &G,
) -> Result<Woven, RunFault>
    // Each node did all its turns.
    ensures ok { IfOk result (λ woven.
        IsThreadRun (λ v. turns) (world_of world) woven.events.items (world_of woven.world)) }
    ensures err { IfErr result (IsFault turns world) }
{
    let count = usize::from(world.net().nodes());
    let Ok((done, mut back)) = new_tables(alloc, count) else {
        return Err(RunFault::Memory(world));
    };
    match prepare_world(alloc, world, turns) {
        Err(back) => Err(RunFault::Memory(back)),
        Ok(prepared) => {
            let Prepared {
                runners,
                links,
                room,
                seats,
                events,
            } = prepared;
            let outcomes = run_all(rt, gate, runners, turns, done);
            let all_ran = collect(outcomes, &mut back);
            let woven = gather(back, links, room, seats, events);
            if all_ran {
                Ok(woven)
            } else {
                Err(RunFault::Spawn(woven))
            }
        }
    }
}
