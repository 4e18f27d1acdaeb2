//! A world whose every part is damaged.
ghost use Rattle.std.specs.Prelude.{◌≡◌, ◌≤◌, ◌<◌, ℕ, List, ◌++◌, ◌∷◌, [], length, OnOk, OnErr};
ghost use Rattle.std.specs.Prelude.{IsTrue};
ghost use Rattle.topology.specs.Network.{IsAcceptedNetwork};
ghost use Rattle.topology.specs.Ranges.{ranges_of};
ghost use Rattle.run_model.specs.declared.event.Event.{Event};
ghost use Rattle.damage_tool.specs.Harms.{draw_own, port_harms, draw_desk, draw_item, draw_node};
ghost use Rattle.damage_tool.specs.Harms.{draw_link, draw_links_from, draw_world};
ghost use Rattle.damage_tool.specs.Appended.{appended};

use crate::draws::{PortDraw, draw_below, draw_parent, draw_payload, draw_port, draw_to};
use rand_pcg::Lcg64Xsh32;
use run_model::{Event, Harm, Item};
use std::alloc::{AllocError, Allocator};
use topology::{Frame, Net, Ranges};

/// The harm that writes a node's distance and parent.
fn own_harm(ranges: Ranges, node: u16, generator: &mut Lcg64Xsh32) -> Event
    ensures { (result, generator.new) ≡ draw_own ranges node generator.old }
{
    let distance = draw_to(generator, ranges.nodes);
    let parent = draw_parent(ranges, generator);
    Event::Damage(Harm::Own {
        node,
        distance,
        parent,
    })
}

/// The harms that write a port and the value of the machine that comes in there.
fn port_harms(node: u16, neighbour: u16, drawn: PortDraw) -> [Event; 4]
    ensures { result ≡ port_harms node neighbour drawn }
{
    [
        Event::Damage(Harm::Counters {
            node,
            neighbour,
            seq: drawn.seq,
            last: drawn.last,
        }),
        Event::Damage(Harm::Staged {
            node,
            neighbour,
            payload: drawn.staged,
        }),
        Event::Damage(Harm::Copy {
            node,
            neighbour,
            payload: drawn.copy,
        }),
        Event::Damage(Harm::Value {
            node,
            neighbour,
            value: drawn.value,
        }),
    ]
}

/// The ticket that a scrambled desk lends to, if it lends.
const BORROWER: u16 = 65535;

/// The harm that writes a desk's loan: in one of three draws there is none.
fn desk_harm(lease: u16, node: u16, generator: &mut Lcg64Xsh32) -> Event
    ensures { (result, generator.new) ≡ draw_desk lease node generator.old }
{
    let served = draw_below(generator, 2) == 1;
    let (lent, left) = if draw_below(generator, 3) == 0 {
        (None, 0)
    } else {
        (Some(BORROWER), draw_to(generator, lease))
    };
    Event::Damage(Harm::Desk {
        node,
        lent,
        left,
        served,
    })
}

/// An item for a link: noise, or a frame.
fn drawn_item(ranges: Ranges, generator: &mut Lcg64Xsh32) -> Item
    requires counter { 0 < ranges.counter }
    requires ring { 0 < ranges.ring }
    ensures { (result, generator.new) ≡ draw_item ranges generator.old }
{
    if draw_below(generator, 2) == 0 {
        return Item::Noise;
    }
    let seq = draw_below(generator, ranges.counter);
    let ack = draw_below(generator, ranges.counter);
    let payload = draw_payload(ranges, generator);
    Item::Frame(Frame { seq, ack, payload })
}

/// Puts the harms of a node at the end of `out`: its distance and parent, each port by ascending
/// neighbour, its desk.
fn push_node<A: Allocator, N: Allocator + Copy>(
    net: &Net<N>,
    node: u16,
    generator: &mut Lcg64Xsh32,
    out: &mut Vec<Event, A>,
) -> Result<(), AllocError>
    requires { node < net.now.nodes }
    ensures drawn { OnOk result ((out.new.items, generator.new)
        ≡ appended out.old.items (draw_node net.now node generator.old)) }
    ensures kept { (more : List Event) × (out.new.items ≡ out.old.items ++ more) }
{
    let ranges = net.ranges();
    out.push(own_harm(ranges, node, generator))?;
    let neighbours = net.neighbours(node);
    for port in neighbours {
        let drawn = draw_port(ranges, generator);
        out.extend_from_slice(&port_harms(node, *port, drawn))?;
    }
    out.push(desk_harm(net.lease(), node, generator))?;
    Ok(())
}

/// Puts the harms of a link at the end of `out`: it is emptied, and then gets its items.
fn push_link<A: Allocator, N: Allocator + Copy>(
    net: &Net<N>,
    from: u16,
    to: u16,
    generator: &mut Lcg64Xsh32,
    out: &mut Vec<Event, A>,
) -> Result<(), AllocError>
    ensures drawn { OnOk result ((out.new.items, generator.new)
        ≡ appended out.old.items (draw_link net.now from to generator.old)) }
    ensures kept { (more : List Event) × (out.new.items ≡ out.old.items ++ more) }
{
    let ranges = net.ranges();
    let count = draw_to(generator, net.capacity());
    out.push(Event::Damage(Harm::Empty { from, to }))?;
    for i in 0..count {
        let item = drawn_item(ranges, generator);
        out.push(Event::Damage(Harm::Item { from, to, item }))?;
    }
    Ok(())
}

/// Puts the harms of the links that lead from a node at the end of `out`, by ascending destination.
fn push_links_from<A: Allocator, N: Allocator + Copy>(
    net: &Net<N>,
    from: u16,
    generator: &mut Lcg64Xsh32,
    out: &mut Vec<Event, A>,
) -> Result<(), AllocError>
    requires { from < net.now.nodes }
    ensures drawn { OnOk result ((out.new.items, generator.new)
        ≡ appended out.old.items (draw_links_from net.now from generator.old)) }
    ensures kept { (more : List Event) × (out.new.items ≡ out.old.items ++ more) }
{
    let neighbours = net.neighbours(from);
    for to in neighbours {
        push_link(net, from, *to, generator, out)?;
    }
    Ok(())
}

/// Puts the harms of all nodes and links at the end of `out`.
fn push_world<A: Allocator, N: Allocator + Copy>(
    net: &Net<N>,
    generator: &mut Lcg64Xsh32,
    out: &mut Vec<Event, A>,
) -> Result<(), AllocError>
    ensures drawn { OnOk result ((out.new.items, generator.new)
        ≡ appended out.old.items (draw_world net.now generator.old)) }
    ensures kept { (more : List Event) × (out.new.items ≡ out.old.items ++ more) }
{
    for node in 0..net.nodes() {
        push_node(net, node, generator, out)?;
    }
    for from in 0..net.nodes() {
        push_links_from(net, from, generator, out)?;
    }
    Ok(())
}

/// Puts the harms that write every part of a world at the end of `out`: each node by ascending id,
/// with its ports by ascending neighbour, and then each link by ascending source and destination.
/// Everything is drawn except which tickets wait at a desk, and to which ticket a desk lends if it
/// lends: that is 65535. In a world with this network in which no client waits, each harm is
/// accepted.
///
/// If memory is refused, neither `out` nor the generator changes.
pub fn scramble_world<A: Allocator, N: Allocator + Copy>(
    net: &Net<N>,
    generator: &mut Lcg64Xsh32,
    out: &mut Vec<Event, A>,
) -> Result<(), AllocError>
    // It is what the generator's next words say.
    ensures drawn { OnOk result ((out.new.items, generator.new)
        ≡ appended out.old.items (draw_world net.now generator.old)) }
    ensures refused { OnErr result ((out.new.items ≡ out.old.items)
        × (generator.new ≡ generator.old)) }
{
    let before = out.len();
    let start = generator.clone()?;
    let pushed = push_world(net, generator, out);
    if pushed.is_err() {
        out.truncate(before);
        *generator = start;
    }
    pushed
}
