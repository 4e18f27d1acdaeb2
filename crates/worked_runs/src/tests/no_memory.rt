//! Edges that join and go, and the text of a world, on a heap without a free byte: they take no
//! memory.
use super::texts::SQUARE_AT_START;
use super::worlds::{event_of, first_unlike, square};
use linked_list_allocator::LocalHeap;
use run_model::EventFault;
use std::alloc::{Allocator, Global};
use std::test::Fail;
use test_parts::{as_expected, on_full, on_heap};
use world::simulation::{SimFault, state_text};
use world::streams::MemorySink;
use world::{Judge, World};

/// What happens on the square with one spare pair of links, and the answers: edges join and go,
/// and items are sent over them.
const CHANGES: [(&str, Result<(), EventFault>); 14] = [
    ("harm join 1 1", Err(EventFault::OutOfRange)),
    ("harm join 0 4", Err(EventFault::NoNode)),
    ("harm join 0 1", Err(EventFault::OutOfRange)),
    ("harm join 0 3", Ok(())),
    ("harm join 1 2", Err(EventFault::NoSpare)),
    ("harm part 1 2", Err(EventFault::NoLink)),
    ("harm part 1 3", Ok(())),
    ("harm join 1 2", Ok(())),
    ("harm part 2 3", Ok(())),
    ("harm part 0 3", Err(EventFault::Apart)),
    ("send 1 2", Ok(())),
    ("send 3 2", Err(EventFault::NoLink)),
    ("send 0 3", Ok(())),
    ("take 0 3", Ok(())),
];

/// What is shown after them and after the nodes, with 5 sweeps.
const LINKS_SHOWN: &str = "\
link 0 1 items 0
link 0 2 items 0
link 0 3 items 0
link 1 0 items 0
link 1 2 items 1
link 2 0 items 0
link 2 1 items 0
link 3 0 items 0
privileged 0 lending 0
sweeps 5 of 461
";

/// Whether a text shows the square with these links.
fn is_shown(text: &[u8]) -> bool {
    text.strip_prefix(SQUARE_AT_START.as_bytes()) == Some(LINKS_SHOWN.as_bytes())
}

/// The default world of the square with one spare pair of links.
fn with_a_spare<A: Allocator + Copy>(alloc: Global, of: A) -> Result<World<A>, Fail> {
    let net = square(alloc)?;
    Ok(World::with_spares(of, &net, 1)?)
}

/// A judge's answer to the event of a line; none if the line spells none.
fn judged<A: Allocator + Copy>(judge: &mut Judge<A>, line: &str) -> Option<Result<(), EventFault>> {
    let event = event_of(line)?;
    Some(judge.step(&event))
}

/// Whether a judge answers each change right, and counts those that are refused.
fn all_judged_by<A: Allocator + Copy>(judge: &mut Judge<A>) -> bool {
    let mut well = true;
    for (line, answer) in CHANGES {
        well &= judged(judge, line) == Some(answer);
    }
    well && judge.refused() == 7 && judge.sweeps() == 0
}

/// The same for a judge of a world.
fn all_judged<A: Allocator + Copy>(world: World<A>) -> bool {
    let mut judge = Judge::new(world);
    all_judged_by(&mut judge)
}

/// Shows a world.
fn show<A: Allocator + Copy>(world: &World<A>, sink: &mut MemorySink<A>) -> Result<(), SimFault> {
    state_text(world, 5, sink)
}

/// Whether a world answers each change right, and is then shown right.
fn is_shown_after_changes<A: Allocator + Copy>(
    world: &mut World<A>,
    sink: &mut MemorySink<A>,
) -> bool {
    first_unlike(world, &CHANGES).is_none() && show(world, sink) == Ok(()) && is_shown(sink.taken())
}

/// The same for a world on a heap, and how much the heap had left.
fn shown_on_full(alloc: Global, heap: &LocalHeap) -> Result<(bool, usize), Fail> {
    let mut world = with_a_spare(alloc, heap)?;
    let mut sink = MemorySink::new(heap, SQUARE_AT_START.len() + LINKS_SHOWN.len())?;
    on_full(
        alloc,
        heap,
        || is_shown_after_changes(&mut world, &mut sink),
    )
}

#[test]
fn a_world_changes_its_edges_and_is_shown_without_memory(rt: HostRuntime) -> Result<(), Fail> {
    as_expected(on_heap(rt.alloc(), 65536, shown_on_full), &((true, 0), 0))
}

/// The same for a judge of a world on a heap, and how much the heap had left.
fn judged_on_full(alloc: Global, heap: &LocalHeap) -> Result<(bool, usize), Fail> {
    let world = with_a_spare(alloc, heap)?;
    on_full(alloc, heap, || all_judged(world))
}

#[test]
fn a_judge_sees_edges_change_without_memory(rt: HostRuntime) -> Result<(), Fail> {
    as_expected(on_heap(rt.alloc(), 65536, judged_on_full), &((true, 0), 0))
}
