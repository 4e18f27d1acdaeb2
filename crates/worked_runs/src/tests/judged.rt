//! Judged runs of events: what they lead to was worked out by hand. A row gives its events as a
//! text, a line each.
use super::texts::ROUND;
use super::worlds::{event_of, start, two_nodes};
use run_model::Event;
use std::alloc::{AllocFailed, Allocator, Global};
use std::test::Fail;
use test_parts::as_expected;
use world::report::{Report, judge};
use world::{Judge, World};

mod memory;
mod parts;
mod replay;

/// Lets the event of a line happen to a judge's world, and returns how many tallies the judge
/// looked at; none if the event is refused, or the line spells none.
fn looked<A: Allocator + Copy>(judge: &mut Judge<A>, line: &str) -> Option<u32> {
    judge.step(&event_of(line)?).ok()?;
    Some(judge.looked())
}

/// The default world of two nodes over links of one place.
fn world_of_two<A: Allocator + Copy>(alloc: Global, of: A) -> Result<World<A>, Fail> {
    let net = two_nodes(alloc)?;
    Ok(start(of, &net)?)
}

/// Judges a run.
fn judged<A: Allocator + Copy>(world: World<A>, events: &[Event]) -> Report<A> {
    judge(world, events)
}

/// Adds the events of a text; skips a line that spells none.
fn push_events(events: &mut Vec<Event>, text: &str) -> Result<(), AllocFailed<Event>> {
    for line in text.lines() {
        if let Some(event) = event_of(line) {
            events.push(event)?;
        }
    }
    Ok(())
}

/// The events of `rounds` rounds of two nodes over links of one place, then of a text.
fn events_after(alloc: Global, rounds: usize, text: &str) -> Result<Vec<Event>, Fail> {
    let mut events = Vec::new(alloc);
    for _ in 0..rounds {
        push_events(&mut events, ROUND)?;
    }
    push_events(&mut events, text)?;
    Ok(events)
}

/// The numbers of events, of sweeps and of refusals, and the visited nodes.
type Counts = (usize, u64, u64, u64);

/// The counts of events of two nodes.
fn counts_of(alloc: Global, events: &[Event]) -> Result<Counts, Fail> {
    let report = judged(world_of_two(alloc, alloc)?, events);
    Ok((events.len(), report.sweeps, report.refused, report.visited))
}

/// The counts of rounds and a text after them.
fn counts(alloc: Global, rounds: usize, text: &str) -> Result<Counts, Fail> {
    let events = events_after(alloc, rounds, text)?;
    counts_of(alloc, &events)
}

/// The place of the first row of rounds and a text with other counts, if any.
fn first_miscounted(alloc: Global, rows: &[(usize, &str, Counts)]) -> Result<Option<usize>, Fail> {
    for (at, (rounds, text, want)) in rows.iter().enumerate() {
        if counts(alloc, *rounds, text)? != *want {
            return Ok(Some(at));
        }
    }
    Ok(None)
}

/// Only rounds, of ten events each.
const ROUNDS: [(usize, &str, Counts); 8] = [
    (0, "", (0, 0, 0, 0)),
    (1, "", (10, 1, 0, 1)),
    (2, "", (20, 2, 0, 1)),
    (3, "", (30, 3, 0, 3)),
    (69, "", (690, 69, 0, 3)),
    (70, "", (700, 70, 0, 3)),
    (71, "", (710, 71, 0, 3)),
    (72, "", (720, 72, 0, 3)),
];

#[test]
fn each_round_is_a_sweep_and_the_third_visits_the_other_node(rt: HostRuntime) -> Result<(), Fail> {
    as_expected(first_miscounted(rt.alloc(), &ROUNDS), &None)
}

/// Rounds with damage after them.
const DAMAGED: [(usize, &str, Counts); 4] = [
    // the token is at node 1
    (3, "harm empty 0 1", (31, 0, 0, 2)),
    // a refused harm is no damage
    (3, "harm empty 0 2", (31, 3, 1, 3)),
    // the machine of node 1 gets the value that it sees, and the token is gone
    (3, "harm value 1 0 1", (31, 0, 0, 0)),
    // the root had the token right after the damage, and its tick passes it on
    (1, "harm empty 0 1\ntick 0", (12, 0, 0, 1)),
];

#[test]
fn damage_leaves_those_visited_that_are_privileged(rt: HostRuntime) -> Result<(), Fail> {
    as_expected(first_miscounted(rt.alloc(), &DAMAGED), &None)
}

/// Short runs; some are sweeps.
const SERVING: [(usize, &str, Counts); 5] = [
    // a round without its last line is a sweep
    (
        0,
        "tick 0\ntick 1\nsend 0 1\ntake 0 1\nsend 0 1\ntake 0 1\nsend 1 0\ntake 1 0\nsend 1 0",
        (9, 1, 0, 1),
    ),
    // items from before the stretch renew nothing
    (
        0,
        "harm junk 0 1\nharm junk 1 0\ntick 0\ntick 1\ntake 0 1\ntake 1 0",
        (6, 0, 0, 0),
    ),
    (
        0,
        "harm junk 0 1\nharm junk 1 0\ntick 0\ntick 1\ntake 0 1\ntake 1 0\nsend 0 1\ntake 0 1\nsend 1 0\ntake 1 0",
        (10, 1, 0, 1),
    ),
    // an item that is lost makes room for a new one
    (
        0,
        "harm junk 0 1\ntick 0\ntick 1\nlose 0 1 0\nsend 0 1\ntake 0 1\nsend 1 0\ntake 1 0",
        (8, 1, 0, 1),
    ),
    // takes from empty links renew nothing, and there is no node 2
    (
        0,
        "tick 0\ntick 1\ntake 0 1\ntake 1 0\ntick 2",
        (5, 0, 1, 0),
    ),
];

#[test]
fn what_serves_and_what_does_not(rt: HostRuntime) -> Result<(), Fail> {
    as_expected(first_miscounted(rt.alloc(), &SERVING), &None)
}

/// A round and a harm after it, each event with the number of tallies that a judge looks at.
const LOOKS: [(&str, u32); 11] = [
    ("tick 0", 0),
    ("tick 1", 0),
    ("send 0 1", 0),
    ("take 0 1", 2),
    ("send 0 1", 0),
    ("take 0 1", 2),
    ("send 1 0", 0),
    ("take 1 0", 4),
    ("send 1 0", 0),
    ("take 1 0", 2),
    ("harm junk 0 1", 2),
];

/// The place of the first event at which a judge looks at a different number of tallies, if any.
fn first_other_look(judge: &mut Judge) -> Option<usize> {
    for (at, (line, looks)) in LOOKS.iter().enumerate() {
        if looked(judge, line) != Some(*looks) {
            return Some(at);
        }
    }
    None
}

/// How many tallies a judge of two nodes looks at first, and the place of the first event at which
/// it looks at a different number.
fn looks(alloc: Global) -> Result<(u32, Option<usize>), Fail> {
    let mut judge = Judge::new(world_of_two(alloc, alloc)?);
    Ok((judge.looked(), first_other_look(&mut judge)))
}

#[test]
fn a_step_looks_at_two_tallies_unless_a_sweep_ends(rt: HostRuntime) -> Result<(), Fail> {
    as_expected(looks(rt.alloc()), &(0, None))
}
