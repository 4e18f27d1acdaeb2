//! Networks, worlds and runs as tests use them. Tests need nothing of the contracts of these
//! calls; called from here, they do not burden the prover.
use std::alloc::{AllocError, Allocator, Global};
use std::sync::Wait;
use std::test::Fail;
use std::thread::Threads;
use thread_net::{Gate, RunFault, Woven, run_threads};
use topology::{Net, NetFault};
use world::report::{Report, judge};
use world::simulation::{SimFault, state_text};
use world::streams::MemorySink;
use world::{Event, EventFault, World};

/// A network whose links hold one item, with node 0 as its root and a lease in ticks, if not 0.
pub fn net_of(
    alloc: Global,
    nodes: i64,
    lease: i64,
    edges: &[(i64, i64)],
) -> Result<Net, NetFault> {
    Net::make(alloc, nodes, 0, 1, lease, edges)
}

/// The tree of a line of three nodes: each node's distance from the root, and its parent.
pub type Tree = [(u16, Option<u16>); 3];

/// The tree that this line converges to.
pub const LINE: Tree = [(0, None), (1, Some(0)), (2, Some(1))];

/// A network's default world.
pub fn start<A: Allocator + Copy>(alloc: A, net: &Net) -> Result<World<A>, AllocError> {
    World::new(alloc, net)
}

/// The default world of a line of three nodes, with a lease in ticks, if not 0.
pub fn line(alloc: Global, lease: i64) -> Result<World, Fail> {
    let net = net_of(alloc, 3, lease, &[(0, 1), (1, 2)])?;
    Ok(start(alloc, &net)?)
}

/// Lends something to a deed, drops it, and returns the deed's answer.
///
/// A function that knows what it drops (a world, say) is expensive to prove at each return; this
/// one does not know.
pub fn lend<H: Drop, T, F: FnOnce(&H) -> T>(held: H, deed: F) -> T
    requires { F.IsAlwaysCallable deed }
{
    deed(&held)
}

/// What was made; any error is dropped.
pub fn made<M: Drop, E: Drop>(made: Result<M, E>) -> Result<M, Fail> {
    match made {
        Ok(made) => Ok(made),
        Err(_refused) => Err(Fail::new("the run was refused")),
    }
}

/// Runs each node of a world on its own thread.
pub fn ran<R: Threads + Wait + Sync, G: Gate>(
    rt: &R,
    alloc: Global,
    world: World,
    turns: u32,
    gate: &G,
) -> Result<Woven, RunFault> {
    run_threads(rt, alloc, world, turns, gate)
}

/// Judges a run.
fn judged(world: World, events: &[Event]) -> Report {
    judge(world, events)
}

/// Lets an event happen to a world.
fn step<A: Allocator + Copy>(world: &mut World<A>, event: &Event) -> Result<(), EventFault> {
    world.step(event)
}

/// Whether each of these events is accepted.
pub fn happen<A: Allocator + Copy>(world: &mut World<A>, events: &[Event]) -> bool {
    let mut accepted = true;
    for event in events {
        accepted &= step(world, event).is_ok();
    }
    accepted
}

/// Writes the text that shows a world, with no sweeps.
fn show<A: Allocator + Copy>(world: &World<A>, sink: &mut MemorySink) -> Result<(), SimFault> {
    state_text(world, 0, sink)
}

/// The text that shows a world, with no sweeps, in at most 4,096 bytes.
pub fn shown<A: Allocator + Copy>(alloc: Global, world: &World<A>) -> Result<MemorySink, SimFault> {
    let mut sink = MemorySink::new(alloc, 4096)?;
    show(world, &mut sink)?;
    Ok(sink)
}

/// Whether this is the text that shows a world.
pub fn is_shown_as<A: Allocator + Copy>(
    alloc: Global,
    world: &World<A>,
    text: &[u8],
) -> Result<bool, SimFault> {
    let sink = shown(alloc, world)?;
    Ok(sink.taken() == text)
}

/// Whether a judge accepts each of these events, sees at least the 217 sweeps that a line of three
/// nodes needs from any state, and reaches the final world.
pub fn judged_right(
    alloc: Global,
    from: World,
    events: &[Event],
    came: &World,
) -> Result<[bool; 3], SimFault> {
    let report = judged(from, events);
    let is_same = is_shown_as(alloc, &report.world, shown(alloc, came)?.taken())?;
    Ok([report.refused == 0, report.sweeps >= 217, is_same])
}

/// The tree of three nodes; none if there are other nodes.
pub fn tree(world: &World) -> Option<Tree> {
    if world.net().nodes() != 3 {
        return None;
    }
    let (first, second, third) = (world.node(0), world.node(1), world.node(2));
    Some([
        (first.distance(), first.parent()),
        (second.distance(), second.parent()),
        (third.distance(), third.parent()),
    ])
}

/// How often a list has an event.
fn count(event: Event, events: &[Event]) -> usize {
    let mut found = 0usize;
    for other in events {
        if *other == event {
            found = found.saturating_add(1);
        }
    }
    found
}

/// How often the nodes 0, 1 and 2 ticked.
pub fn ticks(events: &[Event]) -> [usize; 3] {
    [
        count(Event::Tick { node: 0 }, events),
        count(Event::Tick { node: 1 }, events),
        count(Event::Tick { node: 2 }, events),
    ]
}
