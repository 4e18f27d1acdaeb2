//! The parts of a node's state with which a record begins.
ghost use Rattle.std.specs.Prelude.{◌≡◌, Contains};
ghost use Rattle.flight_records.specs.declared.entry.StatePart.TheVariants.{Start};
ghost use Rattle.node_core.specs.View.{site_in, state_of};
ghost use Rattle.node_follower.specs.Parts.{loan_part, own_part, port_part};

use flight_records::StatePart;
use node_core::Node;
use std::alloc::Allocator;

/// The start of a node's state. `network` is the number of its network.
pub fn start_part<A: Allocator>(node: &Node<A>, network: u32) -> StatePart
    ensures { result ≡ Start network (site_in node.now).id }
{
    StatePart::Start {
        network,
        node: node.id(),
    }
}

/// Its distance and parent.
pub fn own_part<A: Allocator>(node: &Node<A>) -> StatePart
    ensures { result ≡ own_part (state_of node.now) }
{
    StatePart::Own {
        distance: node.distance(),
        parent: node.parent(),
    }
}

/// The port to a neighbour, and the value of the machine that comes in from there.
pub fn port_part<A: Allocator>(node: &Node<A>, w: u16) -> StatePart
    requires { Contains (site_in node.now).neighbours w }
    ensures { result ≡ port_part (state_of node.now) w }
{
    let _known = node.is_neighbour(w);
    StatePart::Port {
        neighbour: w,
        seq: node.seq(w),
        last: node.last(w),
        staged: node.staged_for(w),
        copy: node.copy_of(w),
        value: node.value(w),
    }
}

/// The loan of its desk.
pub fn loan_part<A: Allocator>(node: &Node<A>) -> StatePart
    ensures { result ≡ loan_part (state_of node.now) }
{
    StatePart::Loan {
        lent: node.lent(),
        left: node.left(),
        served: node.served(),
    }
}
