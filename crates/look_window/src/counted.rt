//! The machine by which a node counts how often the token came round.
ghost use Rattle.std.specs.Prelude.{◌≡◌, ◌<◌, IfSome};
ghost use Rattle.node_core.specs.View.{site_in, state_of};
ghost use Rattle.node_core.specs.euler_ring.Cycle.{lowest};
ghost use Rattle.look_window.specs.Counted.{counted_machine, counted_port};

use node_core::Node;
use std::alloc::Allocator;
use turn_watch::MachineSight;

/// The machine that comes in from the node's parent. At a node that has no parent, such as the
/// root, it is the machine from the least neighbour; at the root that one begins each round once
/// the network is settled. A node with neither a parent nor a neighbour has no machine.
pub fn counted_machine<A: Allocator>(node: &Node<A>) -> Option<MachineSight>
    ensures { result ≡ counted_machine (site_in node.now) (state_of node.now) }
{
    let port = counted_port(node)?;
    let value = node.value(port);
    Some(MachineSight { port, value })
}

/// The neighbour from which that machine comes in.
fn counted_port<A: Allocator>(node: &Node<A>) -> Option<u16>
    ensures port { result ≡ counted_port (site_in node.now) (state_of node.now) }
    ensures node { IfSome result (λ port. port < (site_in node.now).ranges.nodes) }
{
    let _known_parent = node.ranges();
    match node.parent() {
        Some(parent) => Some(parent),
        None => least_neighbour(node),
    }
}

/// The neighbour with the least id.
fn least_neighbour<A: Allocator>(node: &Node<A>) -> Option<u16>
    ensures least { result ≡ lowest (site_in node.now).neighbours }
    ensures node { IfSome result (λ least. least < (site_in node.now).ranges.nodes) }
{
    let least = *node.neighbours().first()?;
    let _known_node = node.is_neighbour(least);
    Some(least)
}
