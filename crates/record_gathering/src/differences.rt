//! How a node of the world differs from what was noted, as harms.
ghost use Rattle.std.specs.Prelude.{◌≡◌, ◌<◌, if◌then◌else◌, is_ok};
ghost use Rattle.configuration.specs.node_core.View.{site_in, state_of};
ghost use Rattle.configuration.specs.node_core.lock_desk.Desk.{DeskState};
ghost use Rattle.flight_records.specs.Again.{same_node};
ghost use Rattle.record_gathering.specs.Differences.{unless, own_harm, port_harms, frame_harms};
ghost use Rattle.record_gathering.specs.Differences.{loan_harm, same_truth};
ghost use Rattle.record_gathering.specs.Parts.{state_noted};

use crate::frames::same_payload;
use crate::parts::{LoanNoted, PortNoted};
use configuration::{Harm, Node};
use std::alloc::Allocator;
use topology::Frame;

/// The harm, unless what it would change is already the same.
fn unless(is_same: bool, harm: Harm) -> Option<Harm>
    ensures { result ≡ unless is_same harm }
{
    if is_same { None } else { Some(harm) }
}

/// The harm that gives a node this distance and this parent, unless it already has them.
pub fn own_harm<A: Allocator>(
    id: u16,
    node: &Node<A>,
    distance: u16,
    parent: Option<u16>,
) -> Option<Harm>
    ensures { result ≡ own_harm id (state_of node.now) distance parent }
{
    let is_same = node.distance() == distance && node.parent() == parent;
    unless(
        is_same,
        Harm::Own {
            node: id,
            distance,
            parent,
        },
    )
}

/// The harms that make a node's port equal to one that was noted, as far as it differs.
pub fn port_harms<A: Allocator>(id: u16, node: &Node<A>, port: &PortNoted) -> [Option<Harm>; 4]
    requires { port.now.neighbour < (site_in node.now).ranges.nodes }
    ensures { result ≡ port_harms id port.now.neighbour (state_of node.now)
        (state_noted port.now) port.now.value }
{
    let neighbour = port.neighbour;
    let counters = Harm::Counters {
        node: id,
        neighbour,
        seq: port.seq,
        last: port.last,
    };
    let staged = Harm::Staged {
        node: id,
        neighbour,
        payload: port.staged,
    };
    let copy = Harm::Copy {
        node: id,
        neighbour,
        payload: port.copy,
    };
    let value = Harm::Value {
        node: id,
        neighbour,
        value: port.value,
    };
    [
        unless(
            node.seq(neighbour) == port.seq && node.last(neighbour) == port.last,
            counters,
        ),
        unless(
            same_payload(&node.staged_for(neighbour), &port.staged),
            staged,
        ),
        unless(same_payload(&node.copy_of(neighbour), &port.copy), copy),
        unless(node.value(neighbour) == port.value, value),
    ]
}

/// The harms after which a node sends this frame to a neighbour, if it would send a different one.
pub fn frame_harms<A: Allocator>(
    id: u16,
    node: &Node<A>,
    to: u16,
    frame: &Frame,
) -> [Option<Harm>; 2]
    requires { to < (site_in node.now).ranges.nodes }
    ensures { result ≡ frame_harms id to ((state_of node.now).port to) frame.now }
{
    let counters = Harm::Counters {
        node: id,
        neighbour: to,
        seq: frame.seq,
        last: frame.ack,
    };
    let staged = Harm::Staged {
        node: id,
        neighbour: to,
        payload: frame.payload,
    };
    [
        unless(
            node.seq(to) == frame.seq && node.last(to) == frame.ack,
            counters,
        ),
        unless(same_payload(&node.staged_for(to), &frame.payload), staged),
    ]
}

/// Whether both are true, or neither is.
pub fn same_truth(one: bool, other: bool) -> bool
    ensures { result ≡ same_truth one other }
{
    if one { other } else { !other }
}

/// The harm that turns the loan `now` into `loan`, unless they are the same.
pub fn loan_harm(id: u16, now: &LoanNoted, loan: &LoanNoted) -> Option<Harm>
    ensures { result ≡ loan_harm id now.now.lent now.now.left now.now.served loan.now.lent
        loan.now.left loan.now.served }
{
    let is_same = now.lent == loan.lent
        && now.left == loan.left
        && same_truth(now.served, loan.served);
    unless(
        is_same,
        Harm::Desk {
            node: id,
            lent: loan.lent,
            left: loan.left,
            served: loan.served,
        },
    )
}
