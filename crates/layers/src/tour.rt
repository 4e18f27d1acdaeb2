//! The Euler tour of the true tree, stop by stop.
ghost use Rattle.std.specs.Prelude.{◌≡◌, ◌<◌, ℕ, IsTrue};
ghost use Rattle.euler_ring.specs.Cycle.{is_on};
ghost use Rattle.euler_ring.specs.Laws.{true_neighbours, stop_after};
ghost use Rattle.euler_ring.specs.Tour.{tour};
ghost use Rattle.topology.specs.Tree.{parent_of};
ghost use Rattle.layers.specs.Stops.{stop_of, IsOnTree, GoesRound, first_stop};

use euler_ring::{TreeNeighbours, laws as euler_ring_laws, tree_neighbours};
use std::alloc::Allocator;
use topology::{Net, laws as topology_laws};

/// A stop of the tour: it comes from one node to another.
#[derive(Clone, Copy)]
pub struct TourStop {
    /// The node that it comes from.
    pub from: u16,
    /// The node that it comes to.
    pub here: u16,
}

/// The stop at which the tour begins: from the root's smallest child to the root.
pub fn first_stop<A: Allocator + Copy>(net: &Net<A>) -> TourStop
    // From this stop the tour goes round, back to this stop.
    ensures round { GoesRound net.now (stop_of result) (first_stop net.now) (tour net.now) }
    ensures there { IsOnTree net.now (stop_of result) }
{
    euler_ring_laws::the_tour();
    euler_ring_laws::true_view();
    let root = net.root();
    let from = neighbours_on_tree(net, root).special(true).unwrap();
    TourStop { from, here: root }
}

/// The stop of the tour after this one.
pub fn next_stop<A: Allocator + Copy>(net: &Net<A>, stop: TourStop) -> TourStop
    requires { IsOnTree net.now (stop_of stop) }
    ensures next { stop_of result ≡ stop_after net.now (stop_of stop) }
    ensures there { IsOnTree net.now (stop_of result) }
{
    euler_ring_laws::true_view();
    let _known = net.nodes();
    let TourStop { from, here } = stop;
    TourStop {
        from: here,
        here: neighbours_on_tree(net, here).next_after(from),
    }
}

/// The neighbours of a node to which an edge of the true tree leads.
fn neighbours_on_tree<A: Allocator + Copy>(net: &Net<A>, v: u16) -> TreeNeighbours
    requires { v < net.now.nodes }
    ensures tree { result ≡ true_neighbours net.now v }
    ensures nodes { (w : ℕ) → IsTrue (is_on result w) → w < net.now.nodes }
{
    topology_laws::neighbours();
    topology_laws::limits();
    let _known = net.nodes();
    let parent_of = |w: u16| -> Option<u16>
        requires { w < net.now.nodes }
        ensures { result ≡ parent_of net.entry.now w }
    { net.parent(w) };
    tree_neighbours(net.parent(v), v, net.neighbours(v), parent_of)
}
