//! The text that shows a world, in a sink without room for all of it.
use crate::tests::worlds::{happen, start, two_nodes};
use std::alloc::{AllocError, Global};
use std::test::Fail;
use test_parts::as_expected;
use world::World;
use world::simulation::{SimFault, state_text};
use world::streams::MemorySink;

/// A world of two nodes with a frame under way and a ticket that waits, shown with 7 sweeps.
const SHOWN: &str = "\
node 0 distance 2 parent none token no lent none waiting 0
node 1 distance 2 parent none token no lent none waiting 1
link 0 1 items 1
link 1 0 items 0
privileged 0 lending 0
sweeps 7 of 69
";

/// Shows a world.
fn show(world: &World, sink: &mut MemorySink) -> Result<(), SimFault> {
    state_text(world, 7, sink)
}

/// The answer if a world is shown into `room` bytes, and whether the front of its text fills them.
fn shown_into(
    alloc: Global,
    world: &World,
    room: usize,
) -> Result<(Result<(), SimFault>, bool), AllocError> {
    let mut sink = MemorySink::new(alloc, room)?;
    let answer = show(world, &mut sink);
    let is_filled = sink.taken().len() == room && SHOWN.as_bytes().starts_with(sink.taken());
    Ok((answer, is_filled))
}

/// The first number of bytes that the front of the text does not fill.
fn first_wrong_room(alloc: Global, world: &World) -> Result<Option<usize>, AllocError> {
    for room in 0..=SHOWN.len() {
        let want = if room < SHOWN.len() {
            Err(SimFault::Write)
        } else {
            Ok(())
        };
        if shown_into(alloc, world, room)? != (want, true) {
            return Ok(Some(room));
        }
    }
    Ok(None)
}

/// Two nodes at their start.
fn world_of_two(alloc: Global) -> Result<World, Fail> {
    let net = two_nodes(alloc)?;
    Ok(start(alloc, &net)?)
}

/// Whether a frame of two nodes gets under way and a ticket waits, and the first number of bytes
/// that the front of the text does not fill then.
fn shown_as_far(alloc: Global) -> Result<(bool, Option<usize>), Fail> {
    let mut world = world_of_two(alloc)?;
    let accepted = happen(&mut world, "send 0 1\nask 1 9\n");
    Ok((accepted, first_wrong_room(alloc, &world)?))
}

#[test]
fn a_world_is_shown_as_far_as_there_is_room(rt: HostRuntime) -> Result<(), Fail> {
    as_expected(shown_as_far(rt.alloc()), &(true, None))
}
