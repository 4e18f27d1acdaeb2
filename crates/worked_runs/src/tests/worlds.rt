//! Networks, worlds and events as rows give them. Rows need nothing of the contracts of these
//! calls; called from here, they do not burden the prover.
use run_model::{Event, EventFault};
use std::alloc::{AllocError, Allocator, Global};
use topology::{Net, NetFault};
use world::World;
use world::events::parse_line;

/// Two nodes over links of one place.
pub fn two_nodes(alloc: Global) -> Result<Net, NetFault> {
    Net::make(alloc, 2, 0, 1, 0, &[(0, 1)])
}

/// A square over links of one place: node 3 lies opposite the root.
pub fn square(alloc: Global) -> Result<Net, NetFault> {
    Net::make(alloc, 4, 0, 1, 0, &[(0, 1), (0, 2), (1, 3), (2, 3)])
}

/// A network's default world.
pub fn start<A: Allocator + Copy>(alloc: A, net: &Net) -> Result<World<A>, AllocError> {
    World::new(alloc, net)
}

/// The event that a line spells.
pub fn event_of(line: &str) -> Option<Event> {
    parse_line(line.as_bytes())
}

/// Lets an event happen to a world.
pub fn step<A: Allocator + Copy>(world: &mut World<A>, event: &Event) -> Result<(), EventFault> {
    world.step(event)
}

/// A world's answer to the event of a line; none if the line spells none.
pub fn said<A: Allocator + Copy>(
    world: &mut World<A>,
    line: &str,
) -> Option<Result<(), EventFault>> {
    let event = event_of(line)?;
    Some(step(world, &event))
}

/// Whether each line of a text spells an event that is accepted.
pub fn happen<A: Allocator + Copy>(world: &mut World<A>, text: &str) -> bool {
    let mut accepted = true;
    for line in text.lines() {
        accepted &= said(world, line) == Some(Ok(()));
    }
    accepted
}

/// The place of the first line that a world answers differently, if any.
pub fn first_unlike<A: Allocator + Copy>(
    world: &mut World<A>,
    rows: &[(&str, Result<(), EventFault>)],
) -> Option<usize> {
    for (at, (line, answer)) in rows.iter().enumerate() {
        if said(world, line) != Some(*answer) {
            return Some(at);
        }
    }
    None
}
