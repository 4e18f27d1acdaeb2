//! A judge takes no memory.
use super::*;
use crate::tests::texts::FORGED;
use crate::tests::worlds::happen;
use linked_list_allocator::LocalHeap;
use std::test::Fail;
use test_parts::{as_expected, on_full, on_heap};
use topology::Net;

/// An event of each kind that is not in a round.
const OTHERS: &str = "\
ask 1 7
ask 1 8
leave 1 8
leave 0 5
harm counters 1 0 3 4
harm value 1 0 5
harm junk 0 1
lose 0 1 0
harm frame 0 1 4 3 0 none 6
harm empty 0 1
";

/// Whether both nodes of a world lend with forged tokens, also after a round, and each other kind
/// of event then happens.
fn takes_each_kind<A: Allocator + Copy>(world: &mut World<A>) -> bool {
    happen(world, FORGED)
        && happen(world, ROUND)
        && (world.privileged(), world.lending()) == (2, 2)
        && happen(world, OTHERS)
}

/// The same for a world on a heap, and how much the heap had left.
fn takes_each_kind_on_full(alloc: Global, heap: &LocalHeap) -> Result<(bool, usize), Fail> {
    let mut world = world_of_two(alloc, heap)?;
    on_full(alloc, heap, || takes_each_kind(&mut world))
}

#[test]
fn a_world_takes_no_memory(rt: HostRuntime) -> Result<(), Fail> {
    as_expected(
        on_heap(rt.alloc(), 16384, takes_each_kind_on_full),
        &((true, 0), 0),
    )
}

/// What happens after a round; the last event leads to one loan.
const LENDING: [&str; 3] = ["ask 0 5", "tick 0", "harm junk 0 1"];

/// Whether a judge accepts each of these events.
fn all_happen<A: Allocator + Copy>(judge: &mut Judge<A>) -> bool {
    let mut accepted = true;
    for line in LENDING {
        accepted &= looked(judge, line).is_some();
    }
    accepted
}

/// Whether they happen to a world, and lead to one loan.
fn lends_one<A: Allocator + Copy>(world: World<A>) -> bool {
    let mut judge = Judge::new(world);
    all_happen(&mut judge) && judge.into_world().lending() == 1
}

/// Whether a round of a world counts as one sweep, with nothing refused, and then these events
/// happen and lead to one loan.
fn is_judged_right<A: Allocator + Copy>(world: World<A>, round: &[Event]) -> bool {
    let report = judged(world, round);
    (report.sweeps, report.refused) == (1, 0) && lends_one(report.world)
}

/// The same for a world on a heap, and how much the heap had left; none if the heap refuses the
/// world.
fn judged_on_full(
    alloc: Global,
    heap: &LocalHeap,
    net: &Net,
    round: &[Event],
) -> Result<Option<(bool, usize)>, Fail> {
    let Ok(world) = start(heap, net) else {
        return Ok(None);
    };
    let found = on_full(alloc, heap, || is_judged_right(world, round))?;
    Ok(Some(found))
}

/// Whether the smallest heap that does not refuse a world has more than 40 units of 16 bytes, what
/// is found there, and how much of it stays taken.
type LeastHeap = (bool, (bool, usize), usize);

/// What is found on the smallest heap that does not refuse a world; none if all refuse it, or one
/// that does keeps something.
fn least_heap(alloc: Global, net: &Net, round: &[Event]) -> Result<Option<LeastHeap>, Fail> {
    for units in 1..400usize {
        match on_heap(
            alloc,
            units * 16,
            |alloc, heap| judged_on_full(alloc, heap, net, round),
        )? {
            (Some(found), used) => return Ok(Some((units > 40, found, used))),
            (None, 0) => {}
            (None, _) => return Ok(None),
        }
    }
    Ok(None)
}

/// The same for two nodes.
fn least_heap_of_two(alloc: Global, round: &[Event]) -> Result<Option<LeastHeap>, Fail> {
    let net = two_nodes(alloc)?;
    least_heap(alloc, &net, round)
}

/// The same for their round.
fn least_heap_of_round(alloc: Global) -> Result<Option<LeastHeap>, Fail> {
    let round = events_after(alloc, 1, "")?;
    least_heap_of_two(alloc, &round)
}

#[test]
fn each_growth_of_a_world_may_be_refused_and_judging_takes_none(
    rt: HostRuntime,
) -> Result<(), Fail> {
    as_expected(least_heap_of_round(rt.alloc()), &Some((true, (true, 0), 0)))
}
