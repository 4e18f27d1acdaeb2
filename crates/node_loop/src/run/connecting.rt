//! Connections to lower neighbours, which a node makes itself.
ghost use Rattle.std.specs.Prelude.{◌≡◌, ◌<◌, true, Contains, slice_get};
ghost use Rattle.node_core.specs.View.{site_in};
ghost use Rattle.node_connections.specs.Ports.{AtBoth};

use crate::run::NodeRun;
use node_connections::{Door, Doors};
use state_writing::Store;
use std::alloc::Allocator;

impl<D: Doors, S: Store + Drop, A: Allocator + Copy> NodeRun<D, S, A> {
    ghost use Rattle.node_connections.specs.Loose.{is_linked};
    ghost use Rattle.node_connections.specs.Hearing.{AreWired, IsWiredAt};
    ghost use Rattle.node_loop.specs.Remembering.{Remembers};

    /// Connects loose ports to lower neighbours, and goes on with hellos that are not out.
    pub(super) fn connect(&mut self)
        ensures node { self.new.node ≡ self.old.node }
        ensures wires { AreWired self.old.ports.items self.new.ports.items }
        ensures pace { Remembers self.old.pace self.new.pace }
        ensures rest { (self.new.net ≡ self.old.net) × (self.new.turns ≡ self.old.turns)
            × (self.new.store ≡ self.old.store) × (self.new.clients ≡ self.old.clients) }
    {
        for id in 0..self.node.id() {
            self.connect_to(id);
        }
    }

    /// Connects the port to a lower neighbour, if it is loose, and goes on with its hello.
    fn connect_to(&mut self, id: u16)
        ensures node { self.new.node ≡ self.old.node }
        ensures wires { IsWiredAt id self.old.ports.items self.new.ports.items }
        ensures pace { Remembers self.old.pace self.new.pace }
        ensures rest { (self.new.net ≡ self.old.net) × (self.new.turns ≡ self.old.turns)
            × (self.new.store ≡ self.old.store) × (self.new.clients ≡ self.old.clients) }
    {
        if !self.node.is_neighbour(id) {
            return;
        }
        self.call_on(id);
        self.go_on_greeting(id);
    }

    /// Makes a connection to a lower neighbour, if its port is loose. Unless a connection came, no
    /// port changes.
    fn call_on(&mut self, id: u16)
        requires node { id < self.old.net.nodes }
        requires neighbour { Contains (site_in self.old.node).neighbours id }
        ensures node { self.new.node ≡ self.old.node }
        // Whatever the door answers, no link changes, and nor does a port that is not loose.
        ensures links { AtBoth (λ old new. (new.link ≡ old.link) × (new.is_stuck ≡ old.is_stuck))
            (slice_get self.old.ports.items id) (slice_get self.new.ports.items id) }
        ensures linked { is_linked (slice_get self.old.ports.items id) ≡ true
            → self.new.ports ≡ self.old.ports }
        ensures wires { IsWiredAt id self.old.ports.items self.new.ports.items }
        ensures pace { self.new.pace ≡ self.old.pace }
        ensures rest { (self.new.net ≡ self.old.net) × (self.new.turns ≡ self.old.turns)
            × (self.new.store ≡ self.old.store) × (self.new.clients ≡ self.old.clients) }
    {
        if !self.ports[id as usize].is_loose() {
            return;
        }
        if let Door::Came(pipe) = self.doors.connect(id) {
            self.ports[id as usize].greet(pipe);
        }
    }

    /// Goes on with the hello to a lower neighbour, if there is one.
    fn go_on_greeting(&mut self, id: u16)
        requires node { id < self.old.net.nodes }
        requires neighbour { Contains (site_in self.old.node).neighbours id }
        ensures node { self.new.node ≡ self.old.node }
        ensures wires { IsWiredAt id self.old.ports.items self.new.ports.items }
        ensures pace { Remembers self.old.pace self.new.pace }
        ensures rest { (self.new.net ≡ self.old.net) × (self.new.turns ≡ self.old.turns)
            × (self.new.store ≡ self.old.store) × (self.new.clients ≡ self.old.clients) }
    {
        let own = self.node.id();
        if self.ports[id as usize].go_on_greeting(own) {
            self.pace.attached(id as usize);
        }
    }
}
