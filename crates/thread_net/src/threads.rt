//! Starts runners, each on a thread of its own, and takes them back.
ghost use Rattle.std.specs.Prelude.{◌≡◌, ◌≤◌, [], reverse, vec_len, vec_capacity, All};
ghost use Rattle.std.specs.List.{AllZip};
ghost use Rattle.std.specs.Vec.Iter.{into_iter_items, into_iter_len};
ghost use Rattle.std.specs.declared.alloc.Global.{Global};
ghost use Rattle.thread_net.specs.Outcomes.{Keeps, MayRun, IsStartOf, IsOutcomeOf};

use node_runner::{Gate, Runner};
use std::snapshot::Snapshot;
use std::sync::Wait;
use std::sync::atomic::{AtomicBool, Ordering};
use std::thread;
use std::thread::{Promise, PromisedHandle, Scope, Threads};
use std::vec::IntoIter;

/// A runner that came back, and whether it ran.
#[derive(Drop)]
pub(crate) struct ReturnedRunner {
    pub(crate) runner: Runner,
    pub(crate) ran: bool,
}

/// The runner that was handed to a thread, and for how many turns.
#[derive(Drop)]
pub(crate) struct Was {
    runner: Snapshot<Runner>,
    turns: u32,
}

impl Was {
    fn of(runner: &Runner, turns: u32) -> Was
        ensures { (result.runner.value ≡ runner.now) × (result.turns ≡ turns) }
    {
        Was {
            runner: Snapshot::of(runner),
            turns,
        }
    }
}

impl Promise<ReturnedRunner> for Was {
    ghost use Rattle.thread_net.specs.Keeps.{Keeps};

    ghost kept_by = { λ p o. Keeps p.turns p.runner.value o.runner o.ran };
}

/// A runner whose thread was started, or that came back at once.
#[derive(Drop)]
pub(crate) enum StartedRunner {
    Running(PromisedHandle<ReturnedRunner, Was>),
    Back(ReturnedRunner),
}

/// Does the turns of a runner, unless a start was refused before.
fn run_one<G: Gate>(runner: Runner, gate: &G, stop: &AtomicBool, turns: u32) -> ReturnedRunner
    requires { MayRun turns runner }
    ensures { Keeps turns runner result.runner result.ran }
{
    let mut runner = runner;
    if stop.load(Ordering::SeqCst) {
        return ReturnedRunner { runner, ran: false };
    }
    runner.run(gate, turns);
    ReturnedRunner { runner, ran: true }
}

/// Starts a runner on a thread of its own. If there is no thread for it, it comes back as it was, and
/// no other runner begins.
fn start<'s, E, G: Gate>(
    scope: &Scope<'s, E>,
    gate: &'s G,
    stop: &'s AtomicBool,
    runner: Runner,
    turns: u32,
) -> StartedRunner
    requires { MayRun turns runner }
    ensures { IsStartOf turns runner result }
{
    let was = Was::of(&runner, turns);
    let body = move || -> ReturnedRunner
        requires { MayRun turns runner }
        ensures { Keeps turns runner result.runner result.ran }
    { run_one(runner, gate, stop, turns) };
    match scope.spawn_with(was, body) {
        Ok(handle) => StartedRunner::Running(handle),
        Err(refused) => {
            stop.store(true, Ordering::SeqCst);
            StartedRunner::Back((refused.value)())
        }
    }
}

/// Waits for a runner.
fn finish<R: Threads>(rt: &R, turns: u32, started: StartedRunner) -> ReturnedRunner
    ensures { (r : Runner Global) → IsStartOf turns r started → IsOutcomeOf turns r result }
{
    match started {
        StartedRunner::Running(handle) => handle.join(rt),
        StartedRunner::Back(outcome) => outcome,
    }
}

/// Starts the runners in their order, and then waits for them, the last one first.
fn run_each<'s, E, R: Threads, G: Gate>(
    rt: &R,
    scope: &Scope<'s, E>,
    gate: &'s G,
    stop: &'s AtomicBool,
    runners: &mut IntoIter<Runner>,
    turns: u32,
    done: &mut Vec<ReturnedRunner>,
)
    requires may { All (MayRun turns) (into_iter_items runners.old) }
    requires empty { done.old.items ≡ [] }
    requires room { into_iter_len runners.old ≤ vec_capacity done.old }
    ensures outcomes { AllZip (IsOutcomeOf turns) (into_iter_items runners.old)
        (reverse done.new.items) }
    ensures all { vec_len done.new ≡ into_iter_len runners.old }
    ensures capacity { vec_capacity done.new ≡ vec_capacity done.old }
{
    if let Some(runner) = runners.next() {
        let started = start(scope, gate, stop, runner, turns);
        run_each(rt, scope, gate, stop, runners, turns, done);
        done.push_reserved(finish(rt, turns, started));
    }
}

/// Lets each runner do its turns on a thread of its own. A runner for which there is no thread
/// comes back as it was.
pub(crate) fn run_all<R: Threads + Wait + Sync, G: Gate>(
    rt: &R,
    gate: &G,
    runners: Vec<Runner>,
    turns: u32,
    done: Vec<ReturnedRunner>,
) -> Vec<ReturnedRunner>
    requires may { All (MayRun turns) runners.items }
    requires done { (done.items ≡ []) × (vec_len runners ≤ vec_capacity done) }
    ensures { AllZip (IsOutcomeOf turns) runners.items result.items }
{
    let refused = AtomicBool::new(false);
    let stop = &refused;
    thread::scope(
        thread::scope_env(),
        rt,
        |scope| -> Vec<ReturnedRunner>
            requires may { All (MayRun turns) runners.items }
            requires done { (done.items ≡ []) × (vec_len runners ≤ vec_capacity done) }
            ensures { AllZip (IsOutcomeOf turns) runners.items result.items }
        {
            let mut runners = runners.into_iter();
            let mut done = done;
            run_each(rt, scope, gate, stop, &mut runners, turns, &mut done);
            done.reverse();
            done
        },
    )
}
