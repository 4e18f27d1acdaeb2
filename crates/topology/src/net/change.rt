//! How a network changes: an edge joins or parts. Nodes, root, capacity and lease stay, and no
//! memory is taken.
ghost use Rattle.std.specs.Prelude.{◌≡◌, ◌≢◌, ◌<◌, IfErr, IfOk, IsTrue, None, OnErr, OnOk, Some};
ghost use Rattle.std.specs.Prelude.{false, length};
ghost use Rattle.std.specs.Bool.{OnFalse, OnTrue};
ghost use Rattle.std.specs.List.{position};
ghost use Rattle.topology.specs.Network.{is_between, joined_net, parted_net};
ghost use Rattle.topology.specs.Network.{IsAcceptedNetwork, IsConnected};
ghost use Rattle.topology.specs.Change.{has_no_node, is_same_frame, join_fault, part_fault};
ghost use Rattle.topology.specs.Change.{without_place};
ghost use Rattle.topology.specs.declared.fault.NetFault.TheVariants.{Apart};

use crate::fault::NetFault;
use crate::graph::{MOST_EDGES, place_of_edge, put_edge, write_edges};
use crate::net::Net;
use std::alloc::Allocator;

impl<A: Allocator + Copy> Net<A> {
    /// Joins two nodes by an edge, which comes last.
    ///
    /// # Errors
    /// The first that holds, and then nothing has changed: `TooBig` if there are 256 edges already,
    /// `BadEdge` if one of the two is not a node, `LoopEdge` if they are the same, `DoubleEdge` if
    /// an edge joins them.
    pub fn join(&mut self, u: u16, v: u16) -> Result<(), NetFault>
        // It joins exactly if nothing forbids it; else the first fault in their order is reported.
        ensures allowed { OnOk result (join_fault self.old u v ≡ None) }
        ensures joined { OnOk result (self.new ≡ joined_net self.old u v) }
        ensures refused { IfErr result (λ fault. join_fault self.old u v ≡ Some fault) }
        ensures unchanged { OnErr result (self.new ≡ self.old) }
    {
        self.check_join(u, v)?;
        self.edges.push_reserved((u, v));
        self.layout.write(self.nodes, &self.edges, self.root);
        Ok(())
    }

    /// Returns the first fault of an edge between two nodes, if it has any.
    fn check_join(&self, u: u16, v: u16) -> Result<(), NetFault>
        ensures allowed { OnOk result (join_fault self.now u v ≡ None) }
        ensures refused { IfErr result (λ fault. join_fault self.now u v ≡ Some fault) }
    {
        if self.edges.len() >= MOST_EDGES {
            return Err(NetFault::TooBig);
        }
        if u >= self.nodes || v >= self.nodes {
            return Err(NetFault::BadEdge);
        }
        if u == v {
            return Err(NetFault::LoopEdge);
        }
        if self.are_joined(u, v) {
            return Err(NetFault::DoubleEdge);
        }
        Ok(())
    }

    /// Parts two nodes: removes the edge that joins them; the others stay in their order.
    ///
    /// # Errors
    /// The first that holds, and then nothing has changed: `BadEdge` if one of the two is not a
    /// node, `NoEdge` if no edge joins them, `Apart` if the other edges do not hold the nodes
    /// together.
    pub fn part(&mut self, u: u16, v: u16) -> Result<(), NetFault>
        // It parts exactly if nothing forbids it; else the first fault in their order is reported.
        ensures allowed { OnOk result (part_fault self.old u v ≡ None) }
        ensures parted { OnOk result (self.new ≡ parted_net self.old u v) }
        ensures refused { IfErr result (λ fault. part_fault self.old u v ≡ Some fault) }
        ensures unchanged { OnErr result (self.new ≡ self.old) }
    {
        let place = self.place_to_part(u, v)?;
        if self.remove_edge(place) {
            Ok(())
        } else {
            Err(NetFault::Apart)
        }
    }

    /// The place of the edge that joins two nodes, or the fault if there is none.
    fn place_to_part(&self, u: u16, v: u16) -> Result<usize, NetFault>
        ensures found { IfOk result (λ place. position (is_between u v) self.now.edges ≡ Some place) }
        ensures nodes { OnOk result (has_no_node self.now u v ≡ false) }
        ensures network { IsAcceptedNetwork self.now }
        ensures refused { IfErr result (λ fault. part_fault self.now u v ≡ Some fault) }
        // It is never `Apart`, which is found only once the edge has gone.
        ensures early { IfErr result (λ fault. fault ≢ Apart) }
    {
        if u >= self.nodes || v >= self.nodes {
            return Err(NetFault::BadEdge);
        }
        match place_of_edge(&self.edges, u, v) {
            Some(place) => Ok(place),
            None => Err(NetFault::NoEdge),
        }
    }

    /// Removes the edge at a place, unless the others do not hold the nodes together, and returns
    /// whether it did.
    fn remove_edge(&mut self, place: usize) -> bool
        requires { place < length self.old.edges }
        ensures removed { OnTrue result (self.new ≡ without_place self.old place) }
        ensures connected { OnTrue result (IsConnected (without_place self.old place)) }
        ensures unchanged { OnFalse result (self.new ≡ self.old) }
        ensures apart { OnFalse result (¬ IsConnected (without_place self.old place)) }
    {
        let edge = self.edges.remove(place);
        self.layout.write(self.nodes, &self.edges, self.root);
        if self.layout.has_unreached() {
            put_edge(&mut self.edges, place, edge);
            self.layout.write(self.nodes, &self.edges, self.root);
            return false;
        }
        true
    }

    /// Whether the other network differs at most in its edges: it has the same nodes, root,
    /// capacity and lease.
    pub fn same_frame<B: Allocator + Copy>(&self, other: &Net<B>) -> bool
        ensures { result ≡ is_same_frame self.now other.now }
    {
        self.nodes == other.nodes
            && self.root == other.root
            && self.capacity == other.capacity
            && self.lease == other.lease
    }

    /// Makes this network equal to the other one, which must differ at most in its edges.
    pub fn copy_from<B: Allocator + Copy>(&mut self, other: &Net<B>)
        requires { IsTrue (is_same_frame self.old other.now) }
        ensures { self.new ≡ other.now }
    {
        write_edges(&mut self.edges, &other.edges);
        self.layout.write(self.nodes, &self.edges, self.root);
    }
}
