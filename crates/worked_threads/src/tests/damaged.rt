//! Damage between runs.
use super::ran::{LINE, happen, judged_right, line, made, ran, tree};
use damage_tool::scramble_world;
use rand_core::SeedableRng;
use rand_pcg::Lcg64Xsh32;
use std::alloc::{AllocError, Global};
use std::sync::Wait;
use std::test::Fail;
use std::thread::Threads;
use test_parts::as_expected;
use thread_net::{Pace, Woven};
use topology::Net;
use world::{Event, World};

/// Harms for every part of a network's world, drawn from a seed.
fn scrambled(alloc: Global, net: &Net, seed: u64) -> Result<Vec<Event>, AllocError> {
    let mut generator = Lcg64Xsh32::seed_from_u64(seed);
    let mut harms = Vec::new(alloc);
    scramble_world(net, &mut generator, &mut harms)?;
    Ok(harms)
}

/// Damages a world, and adds the harms to the history. Returns whether there are as many as there
/// should be (2 for a node, 4 for a port, and 1 or 2 for a link), and each is accepted.
fn damage(
    alloc: Global,
    seed: u64,
    world: &mut World,
    history: &mut Vec<Event>,
) -> Result<[bool; 2], AllocError> {
    let harms = scrambled(alloc, world.net(), seed)?;
    history.extend_from_slice(&harms)?;
    Ok([(26..=30).contains(&harms.len()), happen(world, &harms)])
}

/// The findings of a run: on its damage, whether the gate held, what a judge says of the history
/// including the run, from the default world, and of the final world: whether node 0 is the root of
/// the line and the others follow, and at most one is privileged and lends.
type Held = ([bool; 2], bool, [bool; 3], [bool; 3]);

/// The findings if all is right.
const RIGHT: Held = ([true; 2], true, [true; 3], [true; 3]);

/// Adds what the nodes did to the history. Returns what a judge says of it, and of the world.
fn held_of(
    alloc: Global,
    woven: &Woven,
    history: &mut Vec<Event>,
) -> Result<([bool; 3], [bool; 3]), Fail> {
    history.extend_from_slice(&woven.events)?;
    let world = &woven.world;
    let judged = judged_right(alloc, line(alloc, 3)?, history, world)?;
    let is_line = tree(world) == Some(LINE);
    Ok((
        judged,
        [is_line, world.privileged() <= 1, world.lending() <= 1],
    ))
}

/// Damages a world, and then runs it for 4,000 turns in step. Returns the final world, and the
/// findings.
fn run_damaged<R: Threads + Wait + Sync>(
    rt: &R,
    alloc: Global,
    seed: u64,
    mut world: World,
    history: &mut Vec<Event>,
) -> Result<(World, Held), Fail> {
    let damaged = damage(alloc, seed, &mut world, history)?;
    let gate = Pace::new(3);
    let woven = made(ran(rt, alloc, world, 4000, &gate))?;
    let (judged, right) = held_of(alloc, &woven, history)?;
    Ok((woven.world, (damaged, !gate.gave_up(), judged, right)))
}

/// The findings of five runs, each from the final world of the one before, with the seeds 1 to 5.
/// The first world is the default one of a line with a lease of three ticks.
fn five_runs<R: Threads + Wait + Sync>(
    rt: &R,
    alloc: Global,
    history: &mut Vec<Event>,
) -> Result<[Option<Held>; 5], Fail> {
    let mut all = [None; 5];
    let mut world = line(alloc, 3)?;
    for (seed, place) in (1..=5).zip(&mut all) {
        let (came, held) = run_damaged(rt, alloc, seed, world, history)?;
        world = came;
        *place = Some(held);
    }
    Ok(all)
}

/// Each of five runs begins with a scrambled world, and ends with one that serves.
#[test]
fn runs_recover_from_damage(rt: HostRuntime) -> Result<(), Fail> {
    let mut history = Vec::new(rt.alloc());
    as_expected(five_runs(&rt, rt.alloc(), &mut history), &[Some(RIGHT); 5])
}
