//! Memory that is refused before the first turn.
use super::ran::{happen, is_shown_as, lend, net_of, shown, start};
use linked_list_allocator::LocalHeap;
use std::alloc::{Allocator, Global};
use std::test::Fail;
use test_parts::is_expected;
use thread_net::prepare_world;
use topology::Net;
use world::simulation::SimFault;
use world::{Event, World};

/// How far a run gets on a heap, in words.
type Reached = &'static str;

/// There is no room for the world.
const NOTHING: Reached = "nothing";
/// The world comes back unchanged.
const SAME_WORLD: Reached = "the same world";
/// All that the run needs is made.
const RUN: Reached = "a run";

/// A client asks, and each link has a frame under way.
const EVENTS: [Event; 3] = [
    Event::Tick { node: 0 },
    Event::Send { from: 0, to: 1 },
    Event::Send { from: 1, to: 0 },
];

/// How far it got, by the world that was sent back, if any, and the text that showed it before.
fn reach_of<A: Allocator + Copy>(
    alloc: Global,
    back: Option<&World<A>>,
    text: &[u8],
) -> Result<Reached, SimFault> {
    match back {
        None => Ok(RUN),
        Some(world) if is_shown_as(alloc, world, text)? => Ok(SAME_WORLD),
        Some(_) => Ok("another world"),
    }
}

/// How far a run of a world on a heap gets there.
fn prepared<A: Allocator + Copy>(
    alloc: Global,
    on: A,
    world: World<A>,
) -> Result<Reached, SimFault> {
    let text = shown(alloc, &world)?;
    lend(
        prepare_world(on, world, 2),
        |prepared| reach_of(alloc, prepared.as_ref().err(), text.taken()),
    )
}

/// How far a run of two nodes gets on a heap.
fn tried(alloc: Global, heap: &LocalHeap, net: &Net) -> Result<Reached, SimFault> {
    let Ok(mut world) = start(heap, net) else {
        return Ok(NOTHING);
    };
    if !happen(&mut world, &EVENTS) {
        return Ok("a refused event");
    }
    prepared(alloc, heap, world)
}

/// How far it gets on a heap of this many units of 16 bytes; it must keep nothing there.
fn tried_within(alloc: Global, units: usize, net: &Net) -> Result<Reached, Fail> {
    let heap = LocalHeap::new(alloc, units.saturating_mul(16))?;
    let reached = tried(alloc, &heap, net)?;
    Ok(if heap.used() == 0 {
        reached
    } else {
        "something was kept"
    })
}

/// How far it gets on the first of ever larger heaps that has room for a world and does not send
/// it back unchanged, and how many sent it back before.
fn tried_in_turn(alloc: Global) -> Result<(Reached, u32), Fail> {
    let net = net_of(alloc, 2, 0, &[(0, 1)])?;
    let mut came_back = 0u32;
    for units in 1..4000usize {
        match tried_within(alloc, units, &net)? {
            NOTHING => {}
            SAME_WORLD => came_back = came_back.saturating_add(1),
            reached => return Ok((reached, came_back)),
        }
    }
    Ok((NOTHING, came_back))
}

/// Ever larger heaps refuse each growth in turn, until one has room for all. Each time the world
/// comes back unchanged, and in the end nothing is kept.
#[test]
fn each_growth_before_a_run_is_refused_in_turn(rt: HostRuntime) -> Result<(), Fail> {
    let (reached, came_back) = tried_in_turn(rt.alloc())?;
    is_expected(&(reached, came_back > 0), &(RUN, true))
}
