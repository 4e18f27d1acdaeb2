//! A world that was taken apart and put together goes on as if it had not been.
use super::*;
use crate::tests::worlds::said;
use linked_list_allocator::LocalHeap;
use std::test::Fail;
use test_parts::{as_expected, on_full, on_heap};

/// The distance and parent of the far one of two nodes, and whether it is privileged.
fn far<A: Allocator + Copy>(world: &World<A>) -> Option<(u16, Option<u16>, bool)> {
    if world.net().nodes() < 2 {
        return None;
    }
    let node = world.node(1);
    Some((node.distance(), node.parent(), node.privileged()))
}

/// Takes a world apart and puts it together again. Returns how many nodes and edges its parts had.
fn taken_apart<A: Allocator + Copy>(world: World<A>) -> (World<A>, usize, usize) {
    let parts = world.into_parts();
    let nodes = parts.nodes.len();
    let edges = parts.links.net().edges().len();
    (World::from_parts(parts), nodes, edges)
}

/// Lets the event of a line happen and takes the world apart. Returns whether it happened and the
/// parts were those of two nodes.
fn stepped<A: Allocator + Copy>(mut world: World<A>, line: &str) -> (World<A>, bool) {
    let has_happened = said(&mut world, line) == Some(Ok(()));
    let (whole, nodes, edges) = taken_apart(world);
    (whole, has_happened && nodes == 2 && edges == 1)
}

/// Does three rounds and takes the world apart after each event. Returns whether each event
/// happened and the parts were always those of two nodes.
fn three_rounds<A: Allocator + Copy>(mut world: World<A>) -> (World<A>, bool) {
    let mut well = true;
    for _ in 0..3 {
        for line in ROUND.lines() {
            let (whole, is_whole) = stepped(world, line);
            well &= is_whole;
            world = whole;
        }
    }
    (world, well)
}

/// The same, and whether the token is at the far node then.
fn goes_over<A: Allocator + Copy>(world: World<A>) -> bool {
    let (world, well) = three_rounds(world);
    well && far(&world) == Some((1, Some(0), true))
}

/// The same for two nodes.
fn goes_over_at_two(alloc: Global) -> Result<bool, Fail> {
    Ok(goes_over(world_of_two(alloc, alloc)?))
}

#[test]
fn the_token_goes_over_in_three_rounds_of_a_world_taken_apart_after_each_event(
    rt: HostRuntime,
) -> Result<(), Fail> {
    as_expected(goes_over_at_two(rt.alloc()), &true)
}

/// The same for a world on a heap, and how much the heap had left.
fn goes_over_on_full(alloc: Global, heap: &LocalHeap) -> Result<(bool, usize), Fail> {
    let world = world_of_two(alloc, heap)?;
    on_full(alloc, heap, || goes_over(world))
}

#[test]
fn a_world_is_taken_apart_and_put_together_without_memory(rt: HostRuntime) -> Result<(), Fail> {
    as_expected(
        on_heap(rt.alloc(), 16384, goes_over_on_full),
        &((true, 0), 0),
    )
}
