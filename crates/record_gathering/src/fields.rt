//! Which fields of a node of the world differ from what was noted.
ghost use Rattle.std.specs.Prelude.{◌≡◌, ◌<◌, if◌then◌else◌};
ghost use Rattle.configuration.specs.ConfigurationView.{world_of};
ghost use Rattle.configuration.specs.node_core.View.{site_in, state_of};
ghost use Rattle.record_gathering.specs.Fields.{differing, own_fields, port_fields, frame_fields};
ghost use Rattle.record_gathering.specs.Fields.{loan_fields, taken_fields, part_fields, deed_fields};
ghost use Rattle.record_gathering.specs.Entries.{is_of_link, is_deed_ready};
ghost use Rattle.record_gathering.specs.Fields.{fields_of, no_fields};
ghost use Rattle.record_gathering.specs.Parts.{state_noted, part_noted};
ghost use Rattle.flight_records.specs.declared.entry.Deed.TheVariants.{Takes};

use crate::differences::same_truth;
use crate::entries::{is_of_link, is_taken_ready};
use crate::frames::{Passage, same_payload};
use crate::parts::{LoanNoted, PartNoted, PortNoted, part_noted};
use configuration::{Configuration, Node};
use flight_records::{Deed, Noted, StatePart};
use std::alloc::Allocator;
use topology::Frame;

/// A field of a node, or a frame that it took.
#[derive(Clone, Copy)]
pub enum Field {
    /// Its distance.
    Distance,
    /// Its parent.
    Parent,
    /// The number under which it sends to a neighbour.
    Number { neighbour: u16 },
    /// The last number that it accepted from a neighbour.
    Last { neighbour: u16 },
    /// The payload that it sends to a neighbour.
    Staged { neighbour: u16 },
    /// The payload that it has copied from a neighbour.
    Copied { neighbour: u16 },
    /// The ring value of its machine that comes in from a neighbour.
    Value { neighbour: u16 },
    /// The tickets that wait at its desk.
    Waiting,
    /// The ticket that its desk lends to.
    Lent,
    /// How many ticks are left of the loan.
    Left,
    /// Whether a loan ended since the last full tick.
    Served,
    /// A frame that it took from a neighbour: no equal one was under way.
    Taken { neighbour: u16 },
}

/// The field, unless it is as it was noted.
fn differing(is_same: bool, field: Field) -> Option<Field>
    ensures { result ≡ differing is_same field }
{
    if is_same { None } else { Some(field) }
}

/// Those of a node's distance and parent that differ.
fn own_fields<A: Allocator>(
    node: &Node<A>,
    distance: u16,
    parent: Option<u16>,
) -> [Option<Field>; 5]
    ensures { result ≡ own_fields (state_of node.now) distance parent }
{
    [
        differing(node.distance() == distance, Field::Distance),
        differing(node.parent() == parent, Field::Parent),
        None,
        None,
        None,
    ]
}

/// What differs in a node's port, and in the machine that comes in from there.
fn port_fields<A: Allocator>(node: &Node<A>, port: &PortNoted) -> [Option<Field>; 5]
    requires { port.now.neighbour < (site_in node.now).ranges.nodes }
    ensures { result ≡ port_fields port.now.neighbour (state_of node.now)
        (state_noted port.now) port.now.value }
{
    let neighbour = port.neighbour;
    [
        differing(node.seq(neighbour) == port.seq, Field::Number { neighbour }),
        differing(node.last(neighbour) == port.last, Field::Last { neighbour }),
        differing(
            same_payload(&node.staged_for(neighbour), &port.staged),
            Field::Staged { neighbour },
        ),
        differing(
            same_payload(&node.copy_of(neighbour), &port.copy),
            Field::Copied { neighbour },
        ),
        differing(
            node.value(neighbour) == port.value,
            Field::Value { neighbour },
        ),
    ]
}

/// What in a node's port to a neighbour differs from a frame that it sent there.
fn frame_fields<A: Allocator>(node: &Node<A>, to: u16, frame: &Frame) -> [Option<Field>; 5]
    requires { to < (site_in node.now).ranges.nodes }
    ensures { result ≡ frame_fields to ((state_of node.now).port to) frame.now }
{
    [
        differing(node.seq(to) == frame.seq, Field::Number { neighbour: to }),
        differing(node.last(to) == frame.ack, Field::Last { neighbour: to }),
        differing(
            same_payload(&node.staged_for(to), &frame.payload),
            Field::Staged { neighbour: to },
        ),
        None,
        None,
    ]
}

/// What differs at a node's desk if these tickets wait.
fn loan_fields<A: Allocator>(node: &Node<A>, queue: &[u16], loan: &LoanNoted) -> [Option<Field>; 5]
    ensures { result ≡ loan_fields (state_of node.now).desk queue.now loan.now.lent loan.now.left
        loan.now.served }
{
    [
        differing(node.tickets() == queue, Field::Waiting),
        differing(node.lent() == loan.lent, Field::Lent),
        differing(node.left() == loan.left, Field::Left),
        differing(same_truth(node.served(), loan.served), Field::Served),
        None,
    ]
}

/// A frame that was taken, unless an equal one is under way or it cannot be on its link.
fn taken_fields<A: Allocator + Copy>(
    world: &Configuration<A>,
    passage: &Passage,
) -> [Option<Field>; 5]
    ensures { result ≡ deed_fields (world_of world.now) passage.now.to
        (Takes passage.now.from passage.now.frame) }
{
    let neighbour = passage.from;
    [
        differing(is_taken_ready(world, passage), Field::Taken { neighbour }),
        None,
        None,
        None,
        None,
    ]
}

/// What differs from a noted part of a node's state.
fn part_fields<A: Allocator + Copy>(
    world: &Configuration<A>,
    queue: &[u16],
    node: u16,
    part: &StatePart,
) -> [Option<Field>; 5]
    requires { node < (world_of world.now).net.nodes }
    ensures { result ≡ part_fields (world_of world.now) queue.now node part.now }
{
    match part_noted(world, node, part) {
        PartNoted::Own { distance, parent } => own_fields(world.node(node), distance, parent),
        PartNoted::Port(port) => port_fields(world.node(node), &port),
        PartNoted::Loan(loan) => loan_fields(world.node(node), queue, &loan),
        PartNoted::Nothing => [None; 5],
    }
}

/// The fields of a node that do not match what it did.
fn deed_fields<A: Allocator + Copy>(
    world: &Configuration<A>,
    node: u16,
    deed: &Deed,
) -> [Option<Field>; 5]
    ensures { result ≡ deed_fields (world_of world.now) node deed.now }
{
    match *deed {
        Deed::Takes { from, frame } => taken_fields(world, &Passage::new(from, node, frame)),
        Deed::Sends { to, frame } if is_of_link(world, &Passage::new(node, to, frame)) => {
            frame_fields(world.node(node), to, &frame)
        }
        _ => [None; 5],
    }
}

/// The fields of a node that differ from what an entry of its record says; at most five.
pub fn fields_of<A: Allocator + Copy>(
    world: &Configuration<A>,
    queue: &[u16],
    node: u16,
    noted: &Noted,
) -> [Option<Field>; 5]
    ensures { result ≡ fields_of (world_of world.now) queue.now node noted.now }
{
    if node >= world.net().nodes() {
        return [None; 5];
    }
    match noted {
        Noted::State(part) => part_fields(world, queue, node, part),
        Noted::Deed(deed) => deed_fields(world, node, deed),
    }
}
