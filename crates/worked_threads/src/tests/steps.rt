//! Runs in which nodes wait for one another.
use super::ran::{LINE, Tree, happen, judged_right, line, made, ran, ticks, tree};
use super::sameness::is_same_world;
use std::alloc::Global;
use std::sync::Wait;
use std::test::Fail;
use std::thread::Threads;
use test_parts::as_expected;
use thread_net::{Meet, Pace, Woven};
use world::{Event, World};

/// How often each of three nodes ticked in ten turns, and whether the gate at which all meet before
/// their first turn gave up.
fn ten_turns<R: Threads + Wait + Sync>(rt: &R, alloc: Global) -> Result<([usize; 3], bool), Fail> {
    let gate = Meet::new(3);
    let woven = made(ran(rt, alloc, line(alloc, 0)?, 10, &gate))?;
    Ok((ticks(&woven.events), gate.gave_up()))
}

/// All nodes are at the gate at the same time, so each has its own thread.
#[test]
fn nodes_meet_before_their_first_turn(rt: HostRuntime) -> Result<(), Fail> {
    as_expected(ten_turns(&rt, rt.alloc()), &([10; 3], false))
}

/// Whether a default line accepts each of these events, and the last leads to the final world, in
/// every field of every node and every item under way.
fn replayed_right(alloc: Global, events: &[Event], came: World) -> Result<[bool; 2], Fail> {
    let mut replayed = line(alloc, 0)?;
    let accepted = happen(&mut replayed, events);
    Ok([accepted, is_same_world(alloc, replayed, came)])
}

/// How often each node ticked, the tree in the end, and whether the events lead there, by a judge
/// and by single steps.
type Said = ([usize; 3], Option<Tree>, [bool; 3], [bool; 2]);

/// The report of a run.
fn said_of(alloc: Global, woven: Woven) -> Result<Said, Fail> {
    let Woven { world, events } = woven;
    let tree = tree(&world);
    let judged = judged_right(alloc, line(alloc, 0)?, &events, &world)?;
    let replayed = replayed_right(alloc, &events, world)?;
    Ok((ticks(&events), tree, judged, replayed))
}

/// The report of 4,000 turns in which no node is more than one turn ahead of another, and whether
/// the gate gave up.
fn in_step<R: Threads + Wait + Sync>(rt: &R, alloc: Global) -> Result<(Said, bool), Fail> {
    let gate = Pace::new(3);
    let woven = made(ran(rt, alloc, line(alloc, 0)?, 4000, &gate))?;
    Ok((said_of(alloc, woven)?, gate.gave_up()))
}

/// From the default state, 217 sweeps are enough for the line, and 4,000 turns in step hold them.
#[test]
fn a_line_of_three_in_step_converges(rt: HostRuntime) -> Result<(), Fail> {
    let want = ([4000; 3], Some(LINE), [true; 3], [true; 2]);
    as_expected(in_step(&rt, rt.alloc()), &(want, false))
}
