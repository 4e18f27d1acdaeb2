//! The first part of a turn: connections come, and then what came on them is taken.
ghost use Rattle.std.specs.Prelude.{◌≡◌, ◌<◌, IfSome, Some, Contains, slice_get};
ghost use Rattle.node_core.specs.View.{site_in};

use crate::run::NodeRun;
use node_connections::{Door, Doors, lobby};
use node_service::{Notes, service};
use state_writing::Store;
use std::alloc::Allocator;

/// The most connections that are accepted at each door in a turn.
const COMERS: usize = 64;

impl<D: Doors, S: Store + Drop, A: Allocator + Copy> NodeRun<D, S, A> {
    ghost use Rattle.node_service.specs.Clients.{AreConnected};
    ghost use Rattle.node_connections.specs.Hearing.{AreWired, IsWiredAt};
    ghost use Rattle.node_connections.specs.Lives.{Admits, StillLive};
    ghost use Rattle.node_service.specs.Noting.{emptied};
    ghost use Rattle.node_loop.specs.Remembering.{Remembers};
    ghost use Rattle.node_loop.specs.Said.{ListensTo};
    ghost use Rattle.node_loop.specs.Moments.{moment_of};

    /// First part of a turn: the node takes what came, and clients that are gone leave.
    pub(super) fn listen(&mut self, now: u64, notes: &mut Notes<A>)
        ensures listens { ListensTo D.P.gave D.P.took D.P.counts
            (moment_of self.old.node self.old.ports.items self.old.pace self.old.let_go)
            (moment_of self.new.node self.new.ports.items self.new.pace self.new.let_go)
            (emptied notes.old) notes.new self.old.clients self.new.clients self.new.has_more }
        ensures connected { AreConnected self.new.clients self.new.node }
        ensures lives { StillLive D.P.gave D.P.took D.P.counts self.old.clients self.new.clients }
        ensures pace { Remembers self.old.pace self.new.pace }
        ensures rest { (self.new.net ≡ self.old.net) × (self.new.turns ≡ self.old.turns)
            × (self.new.store ≡ self.old.store) }
    {
        self.has_more = false;
        self.accept_links();
        self.accept_clients();
        self.hear_hellos();
        self.connect();
        notes.begin();
        self.pull_all(now, notes);
        let was_lent = self.node.lent().is_some();
        self.has_more |= service::serve_all(&mut self.node, notes, &mut self.clients);
        service::leave_absent(&mut self.node, notes, &self.clients);
        let lets_go = was_lent && self.node.lent().is_none();
        self.let_go = lets_go || (self.let_go && !self.has_ticked);
        self.has_ticked = false;
    }

    /// Lets neighbours in until none comes or the door fails, at most 64.
    fn accept_links(&mut self)
        ensures node { self.new.node ≡ self.old.node }
        // No port changes, whatever the door answers.
        ensures ports { self.new.ports ≡ self.old.ports }
        ensures pace { self.new.pace ≡ self.old.pace }
        ensures rest { (self.new.net ≡ self.old.net) × (self.new.turns ≡ self.old.turns)
            × (self.new.store ≡ self.old.store) × (self.new.clients ≡ self.old.clients) }
    {
        for _ in 0..COMERS {
            match self.doors.link() {
                Door::Came(pipe) => self.lobby.admit(pipe),
                Door::Nobody | Door::Failed => return,
            }
        }
    }

    /// Lets clients in until none comes or the door fails, at most 64.
    fn accept_clients(&mut self)
        ensures node { self.new.node ≡ self.old.node }
        // No port changes, whatever the door answers.
        ensures ports { self.new.ports ≡ self.old.ports }
        // A client that was connected is as before.
        ensures admits { Admits self.old.clients self.new.clients }
        ensures pace { self.new.pace ≡ self.old.pace }
        ensures rest { (self.new.net ≡ self.old.net) × (self.new.turns ≡ self.old.turns)
            × (self.new.store ≡ self.old.store) }
    {
        for _ in 0..COMERS {
            match self.doors.client() {
                Door::Came(pipe) => self.clients.admit(pipe),
                Door::Nobody | Door::Failed => return,
            }
        }
    }

    /// Listens to all comers that have not named themselves yet.
    fn hear_hellos(&mut self)
        ensures node { self.new.node ≡ self.old.node }
        ensures wires { AreWired self.old.ports.items self.new.ports.items }
        ensures pace { Remembers self.old.pace self.new.pace }
        ensures rest { (self.new.net ≡ self.old.net) × (self.new.turns ≡ self.old.turns)
            × (self.new.store ≡ self.old.store) × (self.new.clients ≡ self.old.clients) }
    {
        if self.lobby.is_empty() {
            return;
        }
        for place in 0..lobby::PLACES {
            if let Some((id, pipe)) = self.lobby.listen(place, &self.net) {
                self.welcome(id, pipe);
            }
        }
    }

    /// Takes a connection that has said whose it is. If that is a higher neighbour, the connection
    /// is its port's from now on; otherwise it is closed.
    fn welcome(&mut self, id: u16, pipe: D::P)
        ensures node { self.new.node ≡ self.old.node }
        ensures welcome { (site_in self.old.node).id < id
            → Contains (site_in self.old.node).neighbours id
            → IfSome (slice_get self.new.ports.items id) (λ port. port.link.pipe ≡ Some pipe) }
        ensures unwelcome { ¬ ((site_in self.old.node).id < id
            × Contains (site_in self.old.node).neighbours id) → self.new.ports ≡ self.old.ports }
        ensures wires { IsWiredAt id self.old.ports.items self.new.ports.items }
        ensures pace { Remembers self.old.pace self.new.pace }
        ensures rest { (self.new.net ≡ self.old.net) × (self.new.turns ≡ self.old.turns)
            × (self.new.store ≡ self.old.store) × (self.new.clients ≡ self.old.clients) }
    {
        if id > self.node.id() && self.node.is_neighbour(id) {
            self.ports[id as usize].attach(pipe);
            self.pace.attached(id as usize);
        }
    }
}
