//! What stays from turn to turn: the state in its store, the network, the links.
ghost use Rattle.std.specs.Prelude.{◌≡◌, ◌↔◌, ◌≤◌, ◌+◌, ◌%◌, false, length};
ghost use Rattle.std.specs.Prelude.{IfNone, IfSome, IsSome, IsTrue, Contains, slice_get};
ghost use Rattle.topology.specs.Change.{is_same_frame};
ghost use Rattle.topology.specs.Network.{neighbours_of};
ghost use Rattle.node_core.specs.Rewire.{rewired};
ghost use Rattle.node_core.specs.Site.{site_of};
ghost use Rattle.node_core.specs.View.{site_in, state_of};
ghost use Rattle.state_writing.specs.Files.{file_of};
ghost use Rattle.state_writing.specs.Stores.{Saves};
ghost use Rattle.node_connections.specs.LinkSights.{link_at};
ghost use Rattle.node_connections.specs.Loose.{AreKept, AreLoose};

use crate::run::NodeRun;
use node_connections::port::{NodePort, link_at};
use node_connections::{Doors, Pipe};
use node_core::Node;
use state_writing::{MOST_BYTES, Store, StoreFault, encode};
use std::alloc::Allocator;
use topology::Net;
use turn_watch::LinkSight;

impl<D: Doors, S: Store + Drop, A: Allocator + Copy> NodeRun<D, S, A> {
    /// Last part of a turn: each 256th time, the state is saved.
    pub(super) fn save(&mut self) -> Option<Result<(), StoreFault>>
        ensures when { IsSome result ↔ (self.old.turns ≡ 255) }
        ensures turns { self.new.turns ≡ (self.old.turns + 1) % 256 }
        ensures stores { IfSome result (λ saved.
            Saves saved (file_of self.old.net (site_in self.old.node).id (state_of self.old.node))
            (S.stored self.old.store) (S.stored self.new.store)
            (S.failures self.old.store) (S.failures self.new.store)) }
        ensures otherwise { IfNone result (self.new.store ≡ self.old.store) }
        ensures same { (self.new.node ≡ self.old.node) × (self.new.clients ≡ self.old.clients)
            × (self.new.net ≡ self.old.net) }
        ensures ports { (self.new.ports ≡ self.old.ports) × (self.new.pace ≡ self.old.pace)
            × (self.new.let_go ≡ self.old.let_go) }
        ensures more { self.new.has_more ≡ self.old.has_more }
    {
        self.turns = self.turns.wrapping_add(1);
        if self.turns != 0 {
            return None;
        }
        let mut bytes = [0; MOST_BYTES];
        let count = encode(&self.node, &self.net, &mut bytes);
        Some(self.store.save(&bytes[..count]))
    }

    /// Changes to a network with other edges, if its nodes, root, capacity and lease are the same;
    /// else returns false and changes nothing. The connections of edges that are gone are closed;
    /// new edges have none yet.
    pub fn rewire(&mut self, net: &Net) -> bool
        ensures answer { result ≡ is_same_frame self.old.net net.now }
        ensures net { IsTrue result → self.new.net ≡ net.now }
        ensures site { IsTrue result
            → site_in self.new.node ≡ site_of net.now (site_in self.old.node).id }
        ensures node { IsTrue result → state_of self.new.node
            ≡ rewired (site_in self.old.node).ranges (site_in self.old.node).neighbours
            (neighbours_of net.now (site_in self.old.node).id) (state_of self.old.node) }
        // The ports to its neighbours in that network stay, and all others have no connection.
        ensures kept { IsTrue result
            → AreKept (neighbours_of net.now (site_in self.old.node).id)
            self.old.ports.items self.new.ports.items }
        ensures closed { IsTrue result
            → AreLoose (neighbours_of net.now (site_in self.old.node).id) self.new.ports.items }
        ensures rest { (self.new.clients ≡ self.old.clients) × (self.new.turns ≡ self.old.turns)
            × (self.new.pace ≡ self.old.pace) × (self.new.let_go ≡ self.old.let_go)
            × (self.new.store ≡ self.old.store) }
        ensures marks { (self.new.doors ≡ self.old.doors) × (self.new.lobby ≡ self.old.lobby)
            × (self.new.has_ticked ≡ self.old.has_ticked)
            × (self.new.has_more ≡ self.old.has_more) }
        ensures refused { result ≡ false → self.new ≡ self.old }
    {
        if !self.net.same_frame(net) {
            return false;
        }
        self.net.copy_from(net);
        self.node.rewire(net);
        close_strangers(&mut self.ports, &self.node);
        true
    }

    /// What is seen of the link to a node; none if there is no such node in the network. The link
    /// to a node that is no neighbour is down.
    pub fn link(&self, id: u16) -> Option<LinkSight>
        ensures sight { result ≡ link_at (slice_get self.now.ports.items id) }
        ensures strangers { ¬ Contains (site_in self.now.node).neighbours id
            → IfSome result (λ sight. sight.is_up ≡ false) }
    {
        link_at(&self.ports, id)
    }
}

/// Closes the connections with nodes that are no neighbours of this node.
fn close_strangers<P: Pipe, A: Allocator + Copy>(ports: &mut Vec<NodePort<P>, A>, node: &Node<A>)
    requires { length ports.old.items ≤ 64 }
    ensures kept { AreKept (site_in node.now).neighbours ports.old.items ports.new.items }
    ensures closed { AreLoose (site_in node.now).neighbours ports.new.items }
    ensures count { length ports.new.items ≡ length ports.old.items }
{
    for id in 0..ports.len() {
        if !node.is_neighbour(id as u16) {
            ports[id].close();
        }
    }
}
