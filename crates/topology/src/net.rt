//! An accepted network, and what is read from it.
ghost use Rattle.std.specs.Prelude.{◌≡◌, ◌≢◌, ◌<◌, IfSome, IsNone, IsSome, IsTrue, false};
ghost use Rattle.topology.specs.Network.{are_joined, IsAcceptedNetwork, IsDistance, IsNearer};
ghost use Rattle.topology.specs.Network.{IsTrueParent, neighbours_of, counter_of, ring_of};
ghost use Rattle.topology.specs.Network.{bound_of};
ghost use Rattle.topology.specs.Tree.{distance_of, parent_of};
ghost use Rattle.topology.specs.Ranges.{frame_fits, ranges_of};

mod change;
mod make;
mod sharp;

use crate::frame::{Frame, Ranges};
use crate::graph::are_joined;
use crate::layout::Layout;
use std::alloc::{Allocator, Global};
use std::marker::Model;

/// A connected undirected graph of 2 to 64 nodes with a root, the capacity of its links and the
/// lease of its lock.
///
/// Its nodes are 0 to `nodes() - 1`. A function that requires a node, such as [`Net::distance`],
/// must be given one of these.
#[derive(Debug, Drop)]
pub struct Net<A: Allocator + Copy = Global> {
    nodes: u16,
    root: u16,
    capacity: u16,
    lease: u16,
    edges: Vec<(u16, u16), A>,
    /// The neighbours and the distance of each node.
    layout: Layout<A>,
}

impl<A: Allocator + Copy> Model for Net<A> {
    ghost use Rattle.topology.specs.Network.{Network};

    ghost Value = { Network };

    ghost use Rattle.topology.specs.Layout.{network_of, IsLaidOut, HasRoom};

    ghost view = { network_of };

    ghost invariant = { λ n.
        IsLaidOut (network_of n) n.layout.neighbours.items n.layout.distances.items
        × HasRoom n.nodes n.edges n.layout.neighbours.items };
}

impl<A: Allocator + Copy> Net<A> {
    /// How many nodes there are, 2 to 64.
    pub fn nodes(&self) -> u16
        ensures nodes { result ≡ self.now.nodes }
        ensures network { IsAcceptedNetwork self.now }
    {
        self.nodes
    }

    /// The root of the tree.
    pub fn root(&self) -> u16
        ensures root { result ≡ self.now.root }
        ensures network { IsAcceptedNetwork self.now }
    {
        self.root
    }

    /// How many items each direction of an edge holds, 1 to 4096.
    pub fn capacity(&self) -> u16
        ensures capacity { result ≡ self.now.capacity }
        ensures network { IsAcceptedNetwork self.now }
    {
        self.capacity
    }

    /// The most ticks for which the lock is lent, 0 to 65535; 0 means no limit.
    pub fn lease(&self) -> u16
        ensures lease { result ≡ self.now.lease }
        ensures network { IsAcceptedNetwork self.now }
    {
        self.lease
    }

    /// The edges, in the order in which they were given or joined.
    pub fn edges(&self) -> &[(u16, u16)]
        ensures { result.now ≡ self.now.edges }
    {
        &self.edges
    }

    /// The neighbours of a node, ascending.
    pub fn neighbours(&self, v: u16) -> &[u16]
        requires { v < self.now.nodes }
        ensures { result.now ≡ neighbours_of self.now v }
    {
        &self.layout.neighbours[v as usize]
    }

    /// Whether an edge joins the two nodes. It looks through the edges; any ids are allowed.
    pub fn are_joined(&self, v: u16, w: u16) -> bool
        ensures { result ≡ are_joined self.now.edges v w }
    {
        are_joined(self.edges(), v, w)
    }

    /// The modulus of a link's counters: 2C+3 for a capacity of C.
    ///
    /// The numbers of one direction stand at 2C+2 places at most; a ring of copies settles if there
    /// are more values than places (Dijkstra 1974).
    pub fn counter(&self) -> u16
        ensures { result ≡ counter_of self.now }
    {
        2 * self.capacity + 3
    }

    /// The modulus of the ring values: 6(n-1)+1 for n nodes, one more than the places that the tour
    /// of the tree has for them.
    pub fn ring(&self) -> u16
        ensures { result ≡ ring_of self.now }
    {
        6 * (self.nodes - 1) + 1
    }

    /// The sweeps after which the system is legitimate, from any state: 4(C+1) + 4(n+1) +
    /// 48(n-1)(n-1) + 1.
    ///
    /// It is a bound, not a forecast: most runs are legitimate far sooner.
    pub fn bound(&self) -> u32
        ensures { result ≡ bound_of self.now }
    {
        let capacity = u32::from(self.capacity);
        let steps = u32::from(self.nodes - 1);
        4 * (capacity + 1) + 4 * (steps + 2) + 48 * steps * steps + 1
    }

    /// The ranges of the fields of payloads and frames.
    pub fn ranges(&self) -> Ranges
        ensures { result ≡ ranges_of self.now }
    {
        Ranges {
            nodes: self.nodes,
            counter: self.counter(),
            ring: self.ring(),
        }
    }

    /// Whether each field of a frame is in its range.
    pub fn fits(&self, frame: &Frame) -> bool
        ensures { result ≡ frame_fits (ranges_of self.now) frame.now }
    {
        self.ranges().fits(frame)
    }

    /// The distance of a node: the least length of a walk from the root to it, below `nodes()`.
    pub fn distance(&self, v: u16) -> u16
        requires { v < self.now.nodes }
        // By walks, as a distance is defined; and by the function that computes it.
        ensures walk { IsDistance self.now v result }
        ensures computed { result ≡ distance_of self.now v }
    {
        self.layout.distances[v as usize]
    }

    /// The true parent of a node: the neighbour of smallest id that is one nearer to the root; none
    /// for the root.
    pub fn parent(&self, v: u16) -> Option<u16>
        requires { v < self.now.nodes }
        // By walks, as a true parent is defined; and by the function that computes it.
        ensures root { v ≡ self.now.root → IsNone result }
        ensures some { IfSome result (IsTrueParent self.now v) }
        ensures other { v ≢ self.now.root → IsSome result }
        ensures computed { result ≡ parent_of self.now v }
    {
        let distance = self.distance(v);
        for w in 0..self.nodes() {
            if self.is_nearer(v, w, distance) {
                return Some(w);
            }
        }
        None
    }

    /// Whether `w` is a neighbour of `v` whose distance is one less than `distance`.
    fn is_nearer(&self, v: u16, w: u16, distance: u16) -> bool
        requires v_in { v < self.now.nodes }
        requires w_in { w < self.now.nodes }
        requires distance { IsDistance self.now v distance }
        ensures yes { IsTrue result → IsNearer self.now v w }
        ensures no { result ≡ false → ¬ IsNearer self.now v w }
    {
        are_joined(self.edges(), v, w) && u32::from(self.distance(w)) + 1 == u32::from(distance)
    }
}
