//! A node's loop takes all its memory at the start, and none in its turns.
ghost use Rattle.std.specs.Prelude.{◌≡◌};
ghost use Rattle.node_core.specs.Site.{site_of};
ghost use Rattle.node_core.specs.View.{site_in};

use super::nodes::{on_stage, row, stored, with_made};
use super::stage::{Stage, StageDoors};
use linked_list_allocator::LocalHeap;
use node_core::Node;
use node_loop::{NodeRun, Notes};
use node_state_file::MemoryStore;
use pace::{Manner, TurnPace};
use std::alloc::Global;
use std::test::Fail;
use test_parts::{as_expected, fill};
use topology::Net;

/// A node that runs on a heap.
type RunOn<'a, 'h> = NodeRun<StageDoors<'a>, MemoryStore, &'h LocalHeap>;

/// What came of a node on a heap, in words.
type Outcome = &'static str;

/// The heap has no room for the node.
const NO_NODE: Outcome = "no room for the node";
/// The loop was refused: node and network came back, and nothing else kept memory.
const CAME_BACK: Outcome = "all came back";
/// It ran, and no turn took memory.
const RAN: Outcome = "it ran";

/// Begins the loop of node 0 on a heap, or says why there is none.
fn looped<'a, 'h>(
    heap: &'h LocalHeap,
    stage: &'a Stage,
    net: Net,
    node: Node<&'h LocalHeap>,
    store: MemoryStore,
) -> Result<RunOn<'a, 'h>, Outcome>
    requires { site_in node ≡ site_of net (site_in node).id }
{
    let (nodes, used) = (net.nodes(), heap.used());
    let doors = StageDoors {
        node: 0,
        stage,
        failures: 0,
    };
    match NodeRun::new(heap, net, node, doors, store, Manner::usual()) {
        Ok(run) => Ok(run),
        Err(back) if back.node.id() == 0 && back.net.nodes() == nodes && heap.used() == used => {
            Err(CAME_BACK)
        }
        Err(_back) => Err("something kept memory"),
    }
}

/// Begins the root of a network on a heap.
fn begun<'a, 'h>(
    heap: &'h LocalHeap,
    stage: &'a Stage,
    net: Net,
    store: MemoryStore,
) -> Result<RunOn<'a, 'h>, Outcome> {
    if net.nodes() == 0 {
        return Err(NO_NODE);
    }
    match Node::new(heap, &net, 0) {
        Ok(node) => looped(heap, stage, net, node, store),
        Err(_) => Err(NO_NODE),
    }
}

/// One turn at the node's own pace.
fn turn_at(run: &mut RunOn<'_, '_>, now: u64) {
    run.wait(now);
    run.turn(now, &mut Notes::none());
}

/// What the node does before the next turn.
fn attend_at(run: &mut RunOn<'_, '_>, now: u64) {
    run.attend(now, &mut Notes::none());
}

/// Turns a node 256 times, 10 milliseconds apart, on a heap that has nothing left. Returns whether
/// it takes nothing.
fn takes_nothing(alloc: Global, heap: &LocalHeap, run: &mut RunOn<'_, '_>) -> Result<bool, Fail> {
    let _full = fill(alloc, heap)?;
    let used = heap.used();
    for turn in 0..256u64 {
        turn_at(run, turn.saturating_mul(10_000));
        attend_at(run, turn.saturating_mul(10_000));
    }
    Ok(heap.used() == used)
}

/// What a client that leaves before it is granted the lock hears.
const ANSWERS: &[u8] = b"released\nnode 0 distance 2 parent none token no lent none waiting 0\n";

/// What the root of two nodes does on a heap of this size once a neighbour and a client come, and
/// whether the client then has all answers.
fn tried(alloc: Global, stage: &Stage, size: usize) -> Result<(Outcome, bool), Fail> {
    let (Some(links), Some(clients)) = (stage.links.first(), stage.clients.first()) else {
        return Ok((NO_NODE, false));
    };
    links.greet(b"H0001\nF000000000002ffff0000\n");
    let client = clients.greet(b"lock\nunlock\nstatus\n");
    let heap = LocalHeap::new(alloc, size)?;
    let outcome = tried_on(alloc, stage, &heap)?;
    let has_answers = client.is_some_and(|client| client.down.gives(ANSWERS));
    Ok((outcome, has_answers))
}

/// What the root of two nodes does on this heap.
fn tried_on(alloc: Global, stage: &Stage, heap: &LocalHeap) -> Result<Outcome, Fail> {
    let made = begun(heap, stage, row(alloc, 2, 1, 0)?, stored(alloc, b"")?);
    match with_made(made, |run| takes_nothing(alloc, heap, run)) {
        Ok(answer) => Ok(if answer? { RAN } else { "a turn took memory" }),
        Err(outcome) => Ok(outcome),
    }
}

/// Tries ever larger heaps. Returns whether more than 100 refused the loop, what happened on the
/// first that did not refuse properly, and whether its client had all answers.
fn first_to_run(alloc: Global) -> Result<(bool, Outcome, bool), Fail> {
    let mut refused = 0u32;
    for units in 1..4000usize {
        let size = units * 128;
        let (outcome, has_answers) = on_stage(alloc, 1, 1, |stage| tried(alloc, stage, size))?;
        match outcome {
            NO_NODE => {}
            CAME_BACK => refused = refused.saturating_add(1),
            _ => return Ok((refused > 100, outcome, has_answers)),
        }
    }
    Ok((refused > 100, "a larger heap is needed", false))
}

#[test]
fn only_new_asks_for_memory(rt: HostRuntime) -> Result<(), Fail> {
    as_expected(first_to_run(rt.alloc()), &(true, RAN, true))
}

/// A network of three nodes for the root: how many frames its links hold, its edges, whether the
/// node takes it over, and whether node 2 is welcome then.
type Handed = (i64, &'static [(i64, i64)], bool, bool);

/// A row.
const ROW: &[(i64, i64)] = &[(0, 1), (1, 2)];

/// A ring.
const RING: &[(i64, i64)] = &[(0, 1), (1, 2), (0, 2)];

/// Networks for the root of a row: the row, a ring with other links, the ring, and the row.
const HANDED: [Handed; 4] = [
    (1, ROW, true, false),
    (2, RING, false, false),
    (1, RING, true, true),
    (1, ROW, true, false),
];

/// Takes over a network, and hides the contract of that call. Returns whether the node did so.
fn is_taken_up(run: &mut RunOn<'_, '_>, net: &Net) -> bool {
    run.rewire(net)
}

/// Lets node 2 knock, and then a node take over a network, turn and attend. Returns whether the node
/// does what it should, in its turn sends its first frame to node 2 exactly if node 2 is welcome,
/// and leaves its full heap as it is.
fn is_rewired(
    alloc: Global,
    heap: &LocalHeap,
    run: &mut RunOn<'_, '_>,
    stage: &Stage,
    (capacity, edges, is_taken, is_welcome): Handed,
) -> Result<bool, Fail> {
    let net = Net::make(alloc, 3, 0, capacity, 0, edges)?;
    let Some(pair) = stage
        .links
        .first()
        .and_then(|links| links.greet(b"H0002\n"))
    else {
        return Ok(false);
    };
    let has_taken = is_taken_up(run, &net);
    let frame: &[u8] = if is_welcome {
        b"F000000000003ffff0000\n"
    } else {
        b""
    };
    turn_at(run, 0);
    let is_as_said = pair.down.gives(frame) && pair.down.is_closed.get() != is_welcome;
    attend_at(run, 0);
    Ok(has_taken == is_taken && is_as_said && heap.free() == 0)
}

/// Hands these networks, one after the other, to a node on a heap that has nothing left. The node
/// offers a frame on each port at any time. Returns the place of the first network with which the
/// node does something else, and whether the third connection is closed in the end.
fn rewired(
    alloc: Global,
    heap: &LocalHeap,
    run: &mut RunOn<'_, '_>,
    stage: &Stage,
) -> Result<(Option<usize>, bool), Fail> {
    let _full = fill(alloc, heap)?;
    run.set_pace(TurnPace::new(Manner { hold: 0, repeat: 0 }));
    for (place, handed) in HANDED.iter().enumerate() {
        if !is_rewired(alloc, heap, run, stage, *handed)? {
            return Ok((Some(place), false));
        }
    }
    let third = stage.links.first().and_then(|links| links.pairs.get(2));
    Ok((None, third.is_some_and(|pair| pair.down.is_closed.get())))
}

/// What the root of a row does with these networks on this heap.
fn rewired_on(
    alloc: Global,
    stage: &Stage,
    heap: &LocalHeap,
) -> Result<(Option<usize>, bool), Fail> {
    let made = begun(heap, stage, row(alloc, 3, 1, 0)?, stored(alloc, b"")?);
    match with_made(made, |run| rewired(alloc, heap, run, stage)) {
        Ok(found) => found,
        Err(outcome) => Err(Fail::new(outcome)),
    }
}

/// The same on a heap of its own.
fn rewired_alone(alloc: Global, stage: &Stage) -> Result<(Option<usize>, bool), Fail> {
    let heap = LocalHeap::new(alloc, 524_288)?;
    rewired_on(alloc, stage, &heap)
}

/// The connection of node 2 goes with its edge.
#[test]
fn a_network_with_other_edges_is_taken_up_without_memory(rt: HostRuntime) -> Result<(), Fail> {
    let found = on_stage(rt.alloc(), 4, 0, |stage| rewired_alone(rt.alloc(), stage));
    as_expected(found, &(None, true))
}
