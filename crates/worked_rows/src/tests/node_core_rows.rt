//! One node, and two that hear each other, event by event.
use super::least_heap::least_heap;
use linked_list_allocator::LocalHeap;
use node_core::{AskFault, DeskAct, Item, Node, OutOfRange, Payload, Stranger, Ticked};
use std::alloc::{Allocator, Global};
use std::test::Fail;
use test_parts::{as_expected, on_full, on_heap};
use topology::{Net, NetFault};

/// Two nodes, 0 the root, capacity 1.
fn net_of_two(alloc: Global, lease: i64) -> Result<Net, NetFault> {
    Net::make(alloc, 2, 0, 1, lease, &[(0, 1)])
}

/// What is done to two nodes, the near one the root, and what they answer.
#[derive(Clone, Copy)]
enum Deed<'a> {
    /// Both tick, and then each frame goes over twice.
    Round,
    /// The near one ticks, with this act on its loan; whether the tick is full.
    NearTicks(DeskAct, bool),
    NearIsAsked(u16, Result<(), AskFault>),
    /// 64 tickets, from this one on, ask the near one, and it accepts them.
    NearIsFilled(u8),
    NearIsLeft(u16, Result<(), Stranger>),
    /// Both hold a forged token, and lend it, to the tickets 5 and 6.
    Forgery,
    /// No act: this is the near one's status line.
    NearShows(&'a str),
    /// No act: this is the far one's status line.
    FarShows(&'a str),
}

use Deed::{FarShows, Forgery, NearIsAsked, NearIsFilled, NearIsLeft, NearShows, NearTicks, Round};

/// Does this, and returns whether the nodes answer like this.
fn answer_so<A: Allocator + Copy>(near: &mut Node<A>, far: &mut Node<A>, deed: &Deed<'_>) -> bool {
    match *deed {
        Round => {
            round(near, far);
            true
        }
        NearTicks(act, full) => near.tick() == Ticked { act, full },
        NearIsAsked(ticket, want) => near.ask(ticket) == want,
        NearIsFilled(first) => takes_sixty_four(near, first),
        NearIsLeft(ticket, want) => near.leave(ticket) == want,
        Forgery => forge_both(near, far).is_ok(),
        NearShows(line) => shows(near, line),
        FarShows(line) => shows(far, line),
    }
}

/// Two nodes, the near one the root.
#[derive(Drop)]
struct Two<A: Allocator + Copy> {
    near: Node<A>,
    far: Node<A>,
}

/// Two new nodes with their memory from this allocator.
fn both<A: Allocator + Copy>(alloc: Global, lease: i64, on: A) -> Result<Two<A>, Fail> {
    let net = net_of_two(alloc, lease)?;
    let near = Node::new(on, &net, 0)?;
    let far = Node::new(on, &net, 1)?;
    Ok(Two { near, far })
}

/// The place of the first deed that they answer differently.
fn first_wrong<A: Allocator + Copy>(nodes: &mut Two<A>, deeds: &[Deed<'_>]) -> Option<usize> {
    for (at, deed) in deeds.iter().enumerate() {
        if !answer_so(&mut nodes.near, &mut nodes.far, deed) {
            return Some(at);
        }
    }
    None
}

/// The place of the first deed that two new nodes with this lease answer differently.
fn first_wrong_of(alloc: Global, lease: i64, deeds: &[Deed<'_>]) -> Result<Option<usize>, Fail> {
    let mut nodes = both(alloc, lease, alloc)?;
    Ok(first_wrong(&mut nodes, deeds))
}

/// Both tick, and then each frame goes over twice.
fn round<A: Allocator + Copy>(near: &mut Node<A>, far: &mut Node<A>) {
    near.tick();
    far.tick();
    for _ in 0..2 {
        hand_over(near, far);
    }
    for _ in 0..2 {
        hand_over(far, near);
    }
}

/// The frame of `from` goes to `to`, if they are neighbours.
fn hand_over<A: Allocator + Copy>(from: &Node<A>, to: &mut Node<A>) {
    let (sender, taker) = (from.id(), to.id());
    if from.is_neighbour(taker) && to.is_neighbour(sender) {
        let item = Item::Frame(from.frame_for(taker));
        take(to, sender, item);
    }
}

/// Takes an item that is in range.
fn take<A: Allocator + Copy>(to: &mut Node<A>, port: u16, item: Item) {
    let fits = match &item {
        Item::Frame(frame) => to.ranges().fits(frame),
        Item::Noise => true,
    };
    if fits && to.is_neighbour(port) {
        to.take(port, &item);
    }
}

/// Whether this is the node's status line.
fn shows<A: Allocator + Copy>(node: &Node<A>, line: &str) -> bool {
    let mut text = [b'#'; 96];
    let count = node.status(&mut text);
    &text[..count] == line.as_bytes() && text[count..].iter().all(|b| *b == b'#')
}

/// Writes the state of a node that holds a token and lends it to a ticket.
fn forge<A: Allocator + Copy>(
    node: &mut Node<A>,
    distance: u16,
    parent: Option<u16>,
    copy: Payload,
    lent: u16,
) -> Result<(), OutOfRange> {
    let staged = Payload {
        distance,
        parent,
        ring: 0,
    };
    let neighbour = 1 - node.id().min(1);
    if !node.is_neighbour(neighbour) {
        return Err(OutOfRange);
    }
    node.set_own(distance, parent)?;
    node.set_staged(neighbour, staged)?;
    node.set_copy(neighbour, copy)?;
    node.set_desk(Some(lent), 0, false)
}

/// Writes the state of two nodes that hold a token each.
fn forge_both<A: Allocator + Copy>(
    near: &mut Node<A>,
    far: &mut Node<A>,
) -> Result<(), OutOfRange> {
    let child = Payload {
        distance: 1,
        parent: Some(0),
        ring: 0,
    };
    let root = Payload {
        distance: 0,
        parent: None,
        ring: 1,
    };
    forge(near, 0, None, child, 5)?;
    forge(far, 1, Some(0), root, 6)
}

/// Two nodes begin, and the token goes to the far one.
const REACHES_TREE: [Deed<'static>; 11] = [
    NearShows("node 0 distance 2 parent none token no lent none waiting 0\n"),
    FarShows("node 1 distance 2 parent none token no lent none waiting 0\n"),
    Round,
    NearShows("node 0 distance 0 parent none token yes lent none waiting 0\n"),
    FarShows("node 1 distance 2 parent 0 token no lent none waiting 0\n"),
    Round,
    NearShows("node 0 distance 0 parent none token no lent none waiting 0\n"),
    FarShows("node 1 distance 2 parent 0 token no lent none waiting 0\n"),
    Round,
    NearShows("node 0 distance 0 parent none token no lent none waiting 0\n"),
    FarShows("node 1 distance 1 parent 0 token yes lent none waiting 0\n"),
];

#[test]
fn two_nodes_reach_the_tree_and_pass_the_token(rt: HostRuntime) -> Result<(), Fail> {
    as_expected(first_wrong_of(rt.alloc(), 0, &REACHES_TREE), &None)
}

/// Two tickets ask at the near node, and the first has its loan.
const TWO_TICKETS: [Deed<'static>; 10] = [
    Round,
    NearIsAsked(1, Ok(())),
    NearIsAsked(2, Ok(())),
    NearIsAsked(2, Err(AskFault::Twice)),
    NearTicks(DeskAct::Granted(1), false),
    NearShows("node 0 distance 0 parent none token yes lent 1 waiting 1\n"),
    NearIsLeft(1, Ok(())),
    NearIsLeft(1, Err(Stranger)),
    NearTicks(DeskAct::Quiet, true),
    NearShows("node 0 distance 0 parent none token no lent none waiting 1\n"),
];

#[test]
fn the_token_leaves_before_a_second_loan(rt: HostRuntime) -> Result<(), Fail> {
    as_expected(first_wrong_of(rt.alloc(), 0, &TWO_TICKETS), &None)
}

/// A ticket has a loan with a lease of one tick.
const ONE_TICK: [Deed<'static>; 7] = [
    Round,
    NearIsAsked(1, Ok(())),
    NearTicks(DeskAct::Granted(1), false),
    NearTicks(DeskAct::Quiet, false),
    NearShows("node 0 distance 0 parent none token yes lent 1 waiting 0\n"),
    NearTicks(DeskAct::Lost(1), true),
    NearShows("node 0 distance 0 parent none token no lent none waiting 0\n"),
];

#[test]
fn a_loan_of_one_tick_ends(rt: HostRuntime) -> Result<(), Fail> {
    as_expected(first_wrong_of(rt.alloc(), 1, &ONE_TICK), &None)
}

/// Both nodes lend by forged tokens, of which one stays.
const FORGED_TOKEN: [Deed<'static>; 10] = [
    Forgery,
    NearShows("node 0 distance 0 parent none token yes lent 5 waiting 0\n"),
    FarShows("node 1 distance 1 parent 0 token yes lent 6 waiting 0\n"),
    Round,
    NearShows("node 0 distance 0 parent none token yes lent 5 waiting 0\n"),
    FarShows("node 1 distance 1 parent 0 token yes lent 6 waiting 0\n"),
    Round,
    Round,
    NearShows("node 0 distance 0 parent none token yes lent 5 waiting 0\n"),
    FarShows("node 1 distance 1 parent 0 token no lent none waiting 0\n"),
];

#[test]
fn a_forged_token_goes_and_its_loan_ends(rt: HostRuntime) -> Result<(), Fail> {
    as_expected(first_wrong_of(rt.alloc(), 0, &FORGED_TOKEN), &None)
}

/// Writes the counters and the values of port 0: of the first three writes only the third fits.
fn write_port(node: &mut Node) -> Option<(u16, u16, u16)> {
    if !node.is_neighbour(0)
        || node.set_counters(0, 5, 0).is_ok()
        || node.set_value(0, 7).is_ok()
        || node.set_value(0, 6).is_err()
    {
        return None;
    }
    Some((node.seq(0), node.last(0), node.value(0)))
}

/// Whether every write that does not fit is refused.
fn refuses_what_does_not_fit(node: &mut Node) -> bool {
    node.set_own(3, None) == Err(OutOfRange)
        && node.set_own(2, Some(2)) == Err(OutOfRange)
        && node.set_desk(None, 1, false) == Err(OutOfRange)
}

/// The status line of a fresh node 1.
const NEW_LINE: &str = "node 1 distance 2 parent none token no lent none waiting 0\n";

/// A node after noise and writes out of range: whether each of these was refused, what a write
/// that fits has written, and whether the status line is that of a new node.
fn left_by(node: &mut Node) -> (bool, Option<(u16, u16, u16)>, bool) {
    take(node, 0, Item::Noise);
    let is_refused = refuses_what_does_not_fit(node);
    let written = write_port(node);
    (is_refused, written, shows(node, NEW_LINE))
}

/// The same for the far one of two nodes.
fn left_of_far(alloc: Global) -> Result<(bool, Option<(u16, u16, u16)>, bool), Fail> {
    let mut nodes = both(alloc, 0, alloc)?;
    Ok(left_by(&mut nodes.far))
}

#[test]
fn noise_and_writes_out_of_range_change_nothing(rt: HostRuntime) -> Result<(), Fail> {
    as_expected(left_of_far(rt.alloc()), &(true, Some((0, 0, 6)), true))
}

/// Whether a node accepts 64 tickets, from this one on.
fn takes_sixty_four<A: Allocator + Copy>(node: &mut Node<A>, first: u8) -> bool {
    for further in 0..64 {
        if node.ask(u16::from(first) + further).is_err() {
            return false;
        }
    }
    true
}

/// Whether a node accepts 64 tickets, ticks, and accepts no more.
fn is_filled<A: Allocator + Copy>(node: &mut Node<A>) -> bool {
    let takes = takes_sixty_four(node, 0);
    node.tick();
    takes && node.ask(64) == Err(AskFault::Full) && node.waiting() == 64
}

/// The same for a new node: only `new` may ask for memory. None if that is refused.
fn used<A: Allocator + Copy>(alloc: A, net: &Net) -> Option<bool> {
    match Node::new(alloc, net, net.root()) {
        Ok(mut node) => Some(is_filled(&mut node)),
        Err(_) => None,
    }
}

/// Whether the smallest heap with room for a node has more than eight units of 16 bytes, and the node
/// does so both there and with enough memory.
fn is_used_on_the_least(alloc: Global) -> Result<bool, Fail> {
    let net = net_of_two(alloc, 0)?;
    let (units, is_so) = least_heap(alloc, |heap| Ok(used(heap, &net)))?;
    Ok(is_so && units > 8 && used(alloc, &net) == Some(true))
}

#[test]
fn each_growth_of_new_may_be_refused(rt: HostRuntime) -> Result<(), Fail> {
    as_expected(is_used_on_the_least(rt.alloc()), &true)
}

/// The place of the first deed that two nodes answer differently on a heap with nothing left, and how
/// much the heap had left.
fn first_wrong_on_full(alloc: Global, heap: &LocalHeap) -> Result<(Option<usize>, usize), Fail> {
    let mut nodes = both(alloc, 0, heap)?;
    on_full(alloc, heap, || first_wrong(&mut nodes, &WITHOUT_MEMORY))
}

/// The near one's queue is full, and then each kind of deed is done.
const WITHOUT_MEMORY: [Deed<'static>; 13] = [
    NearIsFilled(10),
    NearIsAsked(74, Err(AskFault::Full)),
    Forgery,
    NearShows("node 0 distance 0 parent none token yes lent 5 waiting 64\n"),
    FarShows("node 1 distance 1 parent 0 token yes lent 6 waiting 0\n"),
    Round,
    Round,
    Round,
    FarShows("node 1 distance 1 parent 0 token no lent none waiting 0\n"),
    NearIsLeft(5, Ok(())),
    NearIsLeft(10, Ok(())),
    NearTicks(DeskAct::Quiet, true),
    NearShows("node 0 distance 0 parent none token no lent none waiting 63\n"),
];

#[test]
fn nodes_take_no_memory(rt: HostRuntime) -> Result<(), Fail> {
    as_expected(
        on_heap(rt.alloc(), 8192, first_wrong_on_full),
        &((None, 0), 0),
    )
}
