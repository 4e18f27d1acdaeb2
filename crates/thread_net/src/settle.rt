//! Turns rings into links again, with what is left in them.
ghost use Rattle.std.specs.Prelude.{◌≡◌, ◌≢◌, ◌<◌, ◌==◌, ℕ, IsTrue, length};
ghost use Rattle.std.specs.List.{position};
ghost use Rattle.topology.specs.Network.{are_joined};
ghost use Rattle.topology.specs.Ranges.{ranges_of};
ghost use Rattle.judge.specs.run_model.World.{at_pair, item_fits};
ghost use Rattle.judge.specs.configuration.LinksView.{under_way};
ghost use Rattle.thread_net.specs.Cables.{left_on, left_between, settled, AreSettleable};
ghost use Rattle.thread_net.specs.Cables.{AreCabled, IsCableBetween, IsOtherPair, row};
ghost use Rattle.thread_net.specs.Cables.{AreEnds, IsFlushed, IsFlushedBetween, IsRoomFor, port_to};
ghost use Rattle.thread_net.specs.Tables.{rows_in};

use judge::Links;
use link_model::Item;
use node_runner::{Incoming, Outgoing, RunnerPort};
use std::alloc::Allocator;
use topology::{Net, laws as topology_laws};

/// The item, or noise in place of a frame that is out of range. No run produces such a frame.
fn fitting<A: Allocator + Copy>(net: &Net<A>, item: Item) -> Item
    ensures fits { IsTrue (item_fits (ranges_of net.now) result) }
    ensures same { IsTrue (item_fits (ranges_of net.now) item) → result ≡ item }
{
    match item {
        Item::Frame(frame) if net.fits(&frame) => item,
        _ => Item::Noise,
    }
}

/// Puts what is left in a link's ring on the link again, in place of what was there.
fn drain<A: Allocator + Copy>(
    links: &mut Links<A>,
    from: u16,
    to: u16,
    outgoing: &mut Outgoing<A>,
    incoming: &mut Incoming<A>,
)
    requires from_in { from < links.old.net.nodes }
    requires to_in { to < links.old.net.nodes }
    requires joined { IsTrue (are_joined links.old.net.edges from to) }
    requires ends { AreEnds outgoing.old incoming.old }
    ensures net { links.new.net ≡ links.old.net }
    ensures spares { links.new.spares ≡ links.old.spares }
    // What went out at the one end of a ring came in at the other, or is left in it.
    ensures flushed { IsFlushed outgoing.old incoming.old }
    ensures left { IsRoomFor links.old.net (left_on outgoing.old incoming.old)
        → under_way links.new
        ≡ at_pair (under_way links.old) from to (left_on outgoing.old incoming.old) }
{
    links.clear(from, to);
    let _places = outgoing.places.slots_beside(&mut incoming.places);
    let left = incoming.frames.slots_beside(&mut outgoing.frames);
    for _item in 0..left {
        let item = fitting(links.net(), incoming.frames.pop_known().item);
        links.put(from, to, item);
    }
}

/// The place of the first port that leads to a node.
fn place_of_port<A: Allocator>(ports: &[RunnerPort<A>], to: u16) -> Option<usize>
    ensures { result ≡ position (λ p. p.neighbour == to) ports.now }
{
    ports.iter().position(|port| port.neighbour == to)
}

/// Takes the first port that leads to a node, if there is one.
fn take_from<A: Allocator>(ports: &mut Vec<RunnerPort<A>, A>, to: u16) -> Option<RunnerPort<A>>
    ensures port { result ≡ port_to ports.old.items to }
    ensures others { (j : ℕ) → j ≢ to → port_to ports.new.items j ≡ port_to ports.old.items j }
{
    match place_of_port(ports, to) {
        Some(place) => Some(ports.remove(place)),
        None => None,
    }
}

/// Takes a node's port to another node, if it has one.
fn take_port<A: Allocator>(
    rows: &mut Vec<Vec<RunnerPort<A>, A>, A>,
    node: u16,
    to: u16,
) -> Option<RunnerPort<A>>
    requires { node < length rows.old.items }
    ensures port { result ≡ port_to (row (rows_in rows.old.items) node) to }
    ensures others { (i j : ℕ) → IsOtherPair i j node to
        → port_to (row (rows_in rows.new.items) i) j
        ≡ port_to (row (rows_in rows.old.items) i) j }
    ensures all { length rows.new.items ≡ length rows.old.items }
{
    take_from(&mut rows[usize::from(node)], to)
}

/// Takes the ports of two nodes that lead to each other, and gives their links what is left in the
/// rings.
fn settle_edge<A: Allocator + Copy>(
    links: &mut Links<A>,
    rows: &mut Vec<Vec<RunnerPort<A>, A>, A>,
    one: u16,
    other: u16,
)
    requires apart { one ≢ other }
    requires one_in { one < links.old.net.nodes }
    requires other_in { other < links.old.net.nodes }
    requires all { length rows.old.items ≡ links.old.net.nodes }
    requires joined { IsTrue (are_joined links.old.net.edges one other) }
    requires cable { IsCableBetween (rows_in rows.old.items) one other }
    ensures net { links.new.net ≡ links.old.net }
    ensures spares { links.new.spares ≡ links.old.spares }
    ensures all { length rows.new.items ≡ length rows.old.items }
    ensures forth { IsFlushedBetween (rows_in rows.old.items) one other }
    ensures home { IsFlushedBetween (rows_in rows.old.items) other one }
    ensures left { IsRoomFor links.old.net (left_between (rows_in rows.old.items) one other)
        → IsRoomFor links.old.net (left_between (rows_in rows.old.items) other one)
        → under_way links.new
        ≡ at_pair (at_pair (under_way links.old) one other
        (left_between (rows_in rows.old.items) one other)) other one
        (left_between (rows_in rows.old.items) other one) }
    // The ports of all other pairs stay.
    ensures others { (i j : ℕ) → IsOtherPair i j one other → IsOtherPair i j other one
        → port_to (row (rows_in rows.new.items) i) j
        ≡ port_to (row (rows_in rows.old.items) i) j }
{
    topology_laws::joined();
    let Some(mut near) = take_port(rows, one, other) else {
        unreachable!()
    };
    let Some(mut far) = take_port(rows, other, one) else {
        unreachable!()
    };
    drain(links, one, other, &mut near.outgoing, &mut far.incoming);
    drain(links, other, one, &mut far.outgoing, &mut near.incoming);
}

/// Settles all links: each gets what is left in its ring.
pub(crate) fn settle_all<A: Allocator + Copy>(
    links: &mut Links<A>,
    rows: &mut Vec<Vec<RunnerPort<A>, A>, A>,
)
    requires all { length rows.old.items ≡ links.old.net.nodes }
    requires cabled { AreCabled links.old.net (rows_in rows.old.items) }
    ensures net { links.new.net ≡ links.old.net }
    ensures spares { links.new.spares ≡ links.old.spares }
    ensures flushed { (u v : ℕ) → IsTrue (are_joined links.old.net.edges u v)
        → IsFlushedBetween (rows_in rows.old.items) u v }
    ensures settled { AreSettleable links.old.net (rows_in rows.old.items) → under_way links.new
        ≡ settled links.old.net (rows_in rows.old.items) (under_way links.old) }
{
    topology_laws::joined();
    let _known_nodes = links.net().nodes();
    for index in 0..links.net().edges().len() {
        let (one, other) = links.net().edges()[index];
        settle_edge(links, rows, one, other);
    }
}
