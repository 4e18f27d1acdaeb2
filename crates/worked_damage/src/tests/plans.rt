//! Schedules and measured runs when memory is refused, and schedules with an event that is not
//! taken.
ghost use Rattle.std.specs.Prelude.{⊤};

use super::calls::two;
use super::heaps::{End, meets_each_refusal};
use experiments::{
    Chances, EventSink, Order, PlanFault, Recovery, Scheduler, give_plan, measure_run,
};
use linked_list_allocator::LocalHeap;
use rand_core::SeedableRng;
use rand_pcg::Lcg64Xsh32;
use std::alloc::{AllocError, Allocator, Global};
use std::test::Fail;
use test_parts::as_expected;
use topology::{Net, NetFault};
use world::Event;
use world::streams::{Failed, Fuse};

/// Keeps the events that it takes, and fails once.
#[derive(Drop)]
struct Keeper {
    events: Vec<Event>,
    fuse: Fuse,
    failures: u64,
}

impl Keeper {
    /// A keeper that takes `calls` events and fails at the next.
    fn new(alloc: Global, calls: u64) -> Keeper {
        Keeper {
            events: Vec::new(alloc),
            fuse: Fuse::new(calls),
            failures: 0,
        }
    }
}

impl EventSink for Keeper {
    ghost takes = { λ _ _ _. ⊤ };

    ghost failures = { λ keeper. keeper.failures };

    fn take(&mut self, event: &Event) -> Result<(), Failed> {
        if self.fuse.pass().is_ok() && self.events.push(*event).is_ok() {
            return Ok(());
        }
        self.failures = self.failures.saturating_add(1);
        Err(Failed)
    }

    ghost takes_none = { λ _. tt };

    ghost takes_both = { λ _ _ _ _ _ _ _. tt };
}

/// A schedule for two nodes: whether it is a scramble with the seed 7 and three rounds, or sixty random
/// steps with the seed 3, with losses and clients; and how many ticks its loans last, if they end.
type Plan = (bool, Option<u16>);

const ROUNDS: Plan = (true, None);

const GIVEN_BACK: Plan = (true, Some(1));

const RANDOM: Plan = (false, Some(2));

/// The scramble of a schedule, and its steps.
fn parts(is_rounds: bool) -> (Option<Lcg64Xsh32>, Order) {
    if is_rounds {
        return (
            Some(Lcg64Xsh32::seed_from_u64(7)),
            Order::Rounds { count: 3 },
        );
    }
    let order = Order::Random {
        steps: 60,
        chances: Chances {
            loss: 20,
            clients: true,
        },
        generator: Lcg64Xsh32::seed_from_u64(3),
    };
    (None, order)
}

/// Gives a keeper the schedule.
fn given<A: Allocator + Copy>(
    alloc: A,
    net: &Net<A>,
    (is_rounds, loan): Plan,
    keeper: &mut Keeper,
) -> Result<(), PlanFault> {
    let (scramble, order) = parts(is_rounds);
    give_plan(alloc, net, scramble, loan, order, keeper)
}

/// The events of a whole schedule.
fn whole(alloc: Global, net: &Net, plan: Plan) -> Result<Vec<Event>, PlanFault> {
    let mut keeper = Keeper::new(alloc, u64::MAX);
    given(alloc, net, plan, &mut keeper)?;
    Ok(keeper.events)
}

/// The events of a whole schedule for two nodes.
fn whole_of_two(alloc: Global, plan: Plan) -> Result<Vec<Event>, Fail> {
    let net = two(alloc)?;
    Ok(whole(alloc, &net, plan)?)
}

/// Gives the schedule to a keeper that fails after `calls` events. Returns whether the answer is right,
/// and the keeper has exactly the events before the failure; none if there was no further event.
fn is_cut_short(
    alloc: Global,
    net: &Net,
    plan: Plan,
    calls: usize,
    whole: &[Event],
) -> Option<bool> {
    let mut keeper = Keeper::new(alloc, calls as u64);
    let answer = given(alloc, net, plan, &mut keeper);
    if !keeper.fuse.has_failed() {
        return None;
    }
    Some(
        answer == Err(PlanFault::Sink)
            && keeper.events.as_slice() == &whole[..calls.min(whole.len())],
    )
}

/// The first number of events after which the schedule is not cut short, or is cut short at its
/// end.
fn first_uncut(alloc: Global, plan: Plan, whole: &[Event]) -> Result<Option<usize>, NetFault> {
    let net = two(alloc)?;
    for calls in 0..=whole.len() {
        let want = (calls < whole.len()).then_some(true);
        if is_cut_short(alloc, &net, plan, calls, whole) != want {
            return Ok(Some(calls));
        }
    }
    Ok(None)
}

/// Whether a schedule has at least `least` events, and is cut short at each of them in turn.
fn is_cut_after_each(alloc: Global, plan: Plan, least: usize) -> Result<bool, Fail> {
    let events = whole_of_two(alloc, plan)?;
    Ok(events.len() >= least && first_uncut(alloc, plan, &events)?.is_none())
}

/// The schedules, and the least number of events of each.
const PLANS: [(Plan, usize); 3] = [(ROUNDS, 44), (GIVEN_BACK, 44), (RANDOM, 60)];

/// The place of the first schedule for which that is wrong.
fn first_not_cut(alloc: Global) -> Result<Option<usize>, Fail> {
    for (at, (plan, least)) in PLANS.iter().enumerate() {
        if !is_cut_after_each(alloc, *plan, *least)? {
            return Ok(Some(at));
        }
    }
    Ok(None)
}

#[test]
fn each_event_of_a_schedule_is_once_not_taken(rt: HostRuntime) -> Result<(), Fail> {
    as_expected(first_not_cut(rt.alloc()), &None)
}

/// Gives a schedule to a keeper that has its own memory. Returns how that ends.
fn given_whole<A: Allocator + Copy>(
    alloc: Global,
    on: A,
    net: &Net<A>,
    plan: Plan,
    whole: &[Event],
) -> End {
    let mut keeper = Keeper::new(alloc, u64::MAX);
    match given(on, net, plan, &mut keeper) {
        Ok(()) if keeper.events.as_slice() == whole => End::Done,
        // All memory is taken before the first event.
        Err(PlanFault::Memory) if keeper.events.is_empty() => End::Refused,
        _ => End::Wrong,
    }
}

/// The same for two nodes on a heap.
fn given_on(alloc: Global, heap: &LocalHeap, plan: Plan, whole: &[Event]) -> End {
    match two(heap) {
        Ok(net) => given_whole(alloc, heap, &net, plan, whole),
        Err(_) => End::NoRoom,
    }
}

/// Whether a schedule is given on ever larger heaps.
fn given_in_turn(alloc: Global, plan: Plan) -> Result<bool, Fail> {
    let events = whole_of_two(alloc, plan)?;
    Ok(meets_each_refusal(alloc, 21, |heap| given_on(alloc, heap, plan, &events))?)
}

/// The same for rounds, and for random steps.
fn both_in_turn(alloc: Global) -> Result<[bool; 2], Fail> {
    Ok([given_in_turn(alloc, ROUNDS)?, given_in_turn(alloc, RANDOM)?])
}

#[test]
fn a_schedule_meets_each_refusal(rt: HostRuntime) -> Result<(), Fail> {
    as_expected(both_in_turn(rt.alloc()), &[true; 2])
}

/// The run with the seed 7.
fn measured<A: Allocator + Copy>(
    alloc: A,
    net: &Net<A>,
    scheduler: Scheduler,
) -> Result<Recovery, AllocError> {
    measure_run(alloc, net, scheduler, 7)
}

/// The same for two nodes with ample memory.
fn measured_of_two(alloc: Global, scheduler: Scheduler) -> Result<Recovery, Fail> {
    let net = two(alloc)?;
    Ok(measured(alloc, &net, scheduler)?)
}

/// Measures a run that should be this one. Returns how that ends.
fn measured_again<A: Allocator + Copy>(
    alloc: A,
    net: &Net<A>,
    scheduler: Scheduler,
    run: Recovery,
) -> End {
    match measured(alloc, net, scheduler) {
        Err(AllocError) => End::Refused,
        Ok(again) if again == run => End::Done,
        Ok(_) => End::Wrong,
    }
}

/// The same for two nodes on a heap.
fn measured_on(heap: &LocalHeap, scheduler: Scheduler, run: Recovery) -> End {
    match two(heap) {
        Ok(net) => measured_again(heap, &net, scheduler, run),
        Err(_) => End::NoRoom,
    }
}

/// The seed of a run, its sweeps with ample memory, and whether it is measured on ever larger heaps.
fn measured_in_turn(alloc: Global, scheduler: Scheduler) -> Result<(u64, u64, bool), Fail> {
    let run = measured_of_two(alloc, scheduler)?;
    let same = meets_each_refusal(alloc, 21, |heap| measured_on(heap, scheduler, run))?;
    Ok((run.seed, run.seen, same))
}

/// The same for rounds, for random steps, and for rounds with a slow link.
fn all_in_turn(alloc: Global) -> Result<[(u64, u64, bool); 3], Fail> {
    Ok([
        measured_in_turn(alloc, Scheduler::Rounds)?,
        measured_in_turn(alloc, Scheduler::Random)?,
        measured_in_turn(alloc, Scheduler::SlowLink { share: 50 })?,
    ])
}

/// The sharper bound for two nodes and links of one place is 35 sweeps.
#[test]
fn measured_runs_meet_each_refusal(rt: HostRuntime) -> Result<(), Fail> {
    as_expected(all_in_turn(rt.alloc()), &[(7, 35, true); 3])
}
