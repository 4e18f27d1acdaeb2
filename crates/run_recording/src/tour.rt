//! The order in which the tour of the tree first reaches the nodes.
ghost use Rattle.std.specs.Prelude.{◌≡◌, ◌<◌, ◌||◌, IfOk, OnOk};
ghost use Rattle.layers.specs.euler_ring.Cycle.{is_named, is_on};
ghost use Rattle.topology.specs.Tree.{parent_of};
ghost use Rattle.run_recording.specs.TreeEdges.{has_parent, is_on_tree};
ghost use Rattle.run_recording.specs.Visits.{with_new, first_visits};

use layers::{first_stop, next_stop};
use std::alloc::{AllocError, Global};
use topology::Net;

/// The nodes in the order in which the Euler tour of the tree first reaches them: the tree in
/// preorder from the root. The tour begins when it comes to the root from the root's smallest
/// child, so this child and all below it come last.
pub fn first_visits(alloc: Global, net: &Net) -> Result<Vec<u16>, AllocError>
    ensures { IfOk result (λ order. order.items ≡ first_visits net.now) }
{
    layers::laws::the_tour();
    let nodes = net.nodes();
    let mut order = Vec::with_capacity(alloc, usize::from(nodes))?;
    let mut stop = first_stop(net);
    for _ in 0..2 * (nodes - 1) {
        put_new(&mut order, stop.here)?;
        stop = next_stop(net, stop);
    }
    Ok(order)
}

/// Adds a node at the end, unless it is already there.
fn put_new(order: &mut Vec<u16>, v: u16) -> Result<(), AllocError>
    ensures { OnOk result (order.new.items ≡ with_new order.old.items v) }
{
    if !is_on(order.as_slice(), v) {
        order.push(v)?;
    }
    Ok(())
}

/// Whether a node is among others.
fn is_on(nodes: &[u16], v: u16) -> bool
    ensures { result ≡ is_on nodes.now v }
{
    nodes.iter().any(|w| *w == v)
}

/// Whether an edge of the tree joins two nodes.
pub fn is_tree_edge(net: &Net, v: u16, w: u16) -> bool
    ensures between { v < net.now.nodes → w < net.now.nodes
        → result ≡ (is_named (parent_of net.now v) w || is_named (parent_of net.now w) v) }
    ensures tree { result ≡ is_on_tree net.now v w }
{
    is_parent(net, v, w) || is_parent(net, w, v)
}

/// Whether a node is the parent of another.
fn is_parent(net: &Net, child: u16, parent: u16) -> bool
    ensures parent { child < net.now.nodes → result ≡ is_named (parent_of net.now child) parent }
    ensures has { result ≡ has_parent net.now child parent }
{
    child < net.nodes() && net.parent(child) == Some(parent)
}
