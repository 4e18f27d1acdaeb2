//! A node that runs: what one turn of its process does.
ghost use Rattle.std.specs.Prelude.{◌≡◌, ◌↔◌, ◌<◌, ◌≤◌, ◌+◌, ◌%◌, false, length};
ghost use Rattle.std.specs.Prelude.{IfOk, IfErr, IfNone, IfSome, IsSome};
ghost use Rattle.std.specs.Prelude.{ℕ, []};
ghost use Rattle.node_core.specs.Site.{site_of};
ghost use Rattle.node_core.specs.View.{site_in, state_of};
ghost use Rattle.state_writing.specs.Files.{file_of};
ghost use Rattle.state_writing.specs.Stores.{Saves};
ghost use Rattle.node_connections.specs.Clients.{is_connected};
ghost use Rattle.node_connections.specs.Loose.{AreLoose};

mod connecting;
mod keeping;
mod listening;
mod pacing;
mod pulling;
mod speaking;

use crate::turned::Turned;
use node_connections::clients::Clients;
use node_connections::lobby::Lobby;
use node_connections::port::NodePort;
use node_connections::{Doors, reserve};
use node_core::{Node, Ticked};
use node_service::Notes;
use pace::{Manner, TurnPace};
use state_writing::Store;
use std::alloc::{AllocError, Allocator, Global};
use topology::Net;

/// What was passed in for a node that could not be made for lack of memory.
#[derive(Drop)]
pub struct Unmade<D: Doors, S: Store + Drop, A: Allocator + Copy = Global> {
    pub net: Net,
    pub node: Node<A>,
    pub doors: D,
    pub store: S,
}

/// A node with its doors, the connections to its neighbours, and its clients.
#[derive(Drop)]
pub struct NodeRun<D: Doors, S: Store + Drop, A: Allocator + Copy = Global> {
    doors: D,
    store: S,
    net: Net,
    node: Node<A>,
    pace: TurnPace,
    /// One port for each node, by its id. Only those of neighbours have connections.
    ports: Vec<NodePort<D::P>, A>,
    lobby: Lobby<D::P, A>,
    clients: Clients<D::P, A>,
    /// The turns since the last save, 0 to 255.
    turns: u8,
    /// A client let the lock go since the last tick, or in the turn of that tick.
    let_go: bool,
    /// It has ticked since it last listened.
    has_ticked: bool,
    /// The next turn must not wait: there may be more to read, or a tick is due.
    has_more: bool,
    ghost site: { (site_in node).id < net.nodes },
    ghost wired: { site_in node ≡ site_of net (site_in node).id },
    ghost ports_are: { (length ports.items ≡ net.nodes) × (net.nodes ≤ 64) },
    // A node that is no neighbour has no connection.
    ghost strangers: { AreLoose (site_in node).neighbours ports.items },
}

impl<D: Doors, S: Store + Drop, A: Allocator + Copy> NodeRun<D, S, A> {
    ghost use Rattle.node_service.specs.Clients.{AreConnected};
    ghost use Rattle.node_connections.specs.Lives.{StillLive};
    ghost use Rattle.node_loop.specs.Noting.{AttendIsNoted, TurnIsNoted};
    ghost use Rattle.node_loop.specs.Said.{AttendSays, TurnSays};
    ghost use Rattle.node_loop.specs.Turns.{Attends, Turns};
    ghost use Rattle.node_loop.specs.Moments.{moment_of};

    /// A node of this network that runs over these doors. All memory that turns ever need is
    /// reserved here. Only if that is refused are the network, the node, the doors and the store
    /// given back.
    pub fn new(
        alloc: A,
        net: Net,
        node: Node<A>,
        doors: D,
        store: S,
        manner: Manner,
    ) -> Result<NodeRun<D, S, A>, Unmade<D, S, A>>
        requires { site_in node ≡ site_of net (site_in node).id }
        ensures made { IfOk result (λ run. (run.net ≡ net) × (run.node ≡ node) × (run.turns ≡ 0)
            × (run.doors ≡ doors) × (run.store ≡ store) × (run.let_go ≡ false)
            × (run.pace.manner ≡ manner)) }
        // No port has a connection, and no client is connected.
        ensures alone { IfOk result (λ run. AreLoose [] run.ports.items
            × ((t : ℕ) → is_connected run.clients t ≡ false)) }
        ensures unmade { IfErr result (λ back. (back.net ≡ net) × (back.node ≡ node)
            × (back.doors ≡ doors) × (back.store ≡ store)) }
    {
        match reserve(alloc, net.nodes()) {
            Ok((ports, lobby, clients)) => Ok(NodeRun {
                doors,
                store,
                net,
                node,
                pace: TurnPace::new(manner),
                ports,
                lobby,
                clients,
                turns: 0,
                let_go: false,
                has_ticked: false,
                has_more: false,
            }),
            Err(AllocError) => Err(Unmade {
                net,
                node,
                doors,
                store,
            }),
        }
    }

    /// One turn: the node takes frames that came, reads each client once, ticks once, and speaks by
    /// the plan that the pace then makes. It need not take all that came. `now` is microseconds of
    /// a clock that never goes back. Its deeds are noted, as far as there is room.
    pub fn turn(&mut self, now: u64, notes: &mut Notes<A>) -> Turned
        // All that it did is one list of deeds, which are the node's own steps.
        ensures turns { Turns D.P.gave D.P.took D.P.counts result.ticked now
            (moment_of self.old.node self.old.ports.items self.old.pace self.old.let_go)
            (moment_of self.new.node self.new.ports.items self.new.pace self.new.let_go) }
        // Just that list is noted, as far as there is room; what was noted before is gone.
        ensures noted { TurnIsNoted D.P.gave D.P.took D.P.counts result.ticked now
            (moment_of self.old.node self.old.ports.items self.old.pace self.old.let_go)
            (moment_of self.new.node self.new.ports.items self.new.pace self.new.let_go)
            notes.old notes.new }
        // Each ticket that waits or borrows is a connected client's.
        ensures connected { AreConnected self.new.clients self.new.node }
        // A client that was connected and still is lives on: no read and no write said that its pipe
        // closed or failed.
        ensures lives { StillLive D.P.gave D.P.took D.P.counts self.old.clients self.new.clients }
        // A client that stays connected was read, and sent the answers to the lines that ended in
        // the bytes that its pipe gave, and then `granted` or `lost` if the tick began or ended its
        // loan. Nothing else was sent, and no byte is lost: its pipe took it, or it waits. No
        // answer waits at the end without a write: the client's pipe took some, or takes none now.
        // Only tickets of clients that are gone leave without a line. A client that is no longer
        // connected closed, or failed a read or a write, or had no room for an answer. At most a
        // piece of each client was read; if one gave a whole piece, the next turn does not wait.
        ensures says { TurnSays D.P.gave D.P.took D.P.counts result.ticked now
            (moment_of self.old.node self.old.ports.items self.old.pace self.old.let_go)
            (moment_of self.new.node self.new.ports.items self.new.pace self.new.let_go)
            notes.old notes.new self.old.clients self.new.clients self.new.has_more }
        // In each 256th turn, and in no other, the store is given the state as it is at the turn's
        // end. It stores that, or answers that it failed.
        ensures saves { IsSome result.saved ↔ (self.old.turns ≡ 255) }
        ensures counts { self.new.turns ≡ (self.old.turns + 1) % 256 }
        ensures stores { IfSome result.saved (λ saved.
            Saves saved (file_of self.old.net (site_in self.new.node).id (state_of self.new.node))
            (S.stored self.old.store) (S.stored self.new.store)
            (S.failures self.old.store) (S.failures self.new.store)) }
        ensures otherwise { IfNone result.saved (self.new.store ≡ self.old.store) }
        ensures net { self.new.net ≡ self.old.net }
    {
        let ticked = self.act(now, notes);
        Turned {
            ticked,
            saved: self.save(),
        }
    }

    /// Does all of a turn except its save.
    fn act(&mut self, now: u64, notes: &mut Notes<A>) -> Ticked
        ensures noted { TurnIsNoted D.P.gave D.P.took D.P.counts result now
            (moment_of self.old.node self.old.ports.items self.old.pace self.old.let_go)
            (moment_of self.new.node self.new.ports.items self.new.pace self.new.let_go)
            notes.old notes.new }
        ensures connected { AreConnected self.new.clients self.new.node }
        ensures lives { StillLive D.P.gave D.P.took D.P.counts self.old.clients self.new.clients }
        ensures says { TurnSays D.P.gave D.P.took D.P.counts result now
            (moment_of self.old.node self.old.ports.items self.old.pace self.old.let_go)
            (moment_of self.new.node self.new.ports.items self.new.pace self.new.let_go)
            notes.old notes.new self.old.clients self.new.clients self.new.has_more }
        ensures rest { (self.new.net ≡ self.old.net) × (self.new.turns ≡ self.old.turns)
            × (self.new.store ≡ self.old.store) }
    {
        self.listen(now, notes);
        let ticked = self.tick(now, notes);
        let plan = self.plan(now);
        self.speak(&plan.offers, now, notes);
        ticked
    }

    /// Does what is done between two turns, while a loan with a lease runs and no tick is due: the
    /// node takes frames that came, reads each client once, and speaks by the plan that the pace
    /// then makes. It need not take all that came. It does not tick, and this does not count as a
    /// turn. `now` and `notes` are as for [`NodeRun::turn`].
    pub fn attend(&mut self, now: u64, notes: &mut Notes<A>)
        // All that it did is one list of deeds, which are the node's own steps; no tick is among
        // them.
        ensures attends { Attends D.P.gave D.P.took D.P.counts now
            (moment_of self.old.node self.old.ports.items self.old.pace self.old.let_go)
            (moment_of self.new.node self.new.ports.items self.new.pace self.new.let_go) }
        // Just that list is noted, as far as there is room; what was noted before is gone.
        ensures noted { AttendIsNoted D.P.gave D.P.took D.P.counts now
            (moment_of self.old.node self.old.ports.items self.old.pace self.old.let_go)
            (moment_of self.new.node self.new.ports.items self.new.pace self.new.let_go)
            notes.old notes.new }
        // Each ticket that waits or borrows is a connected client's.
        ensures connected { AreConnected self.new.clients self.new.node }
        // A client that was connected and still is lives on: no read and no write said that its pipe
        // closed or failed.
        ensures lives { StillLive D.P.gave D.P.took D.P.counts self.old.clients self.new.clients }
        // A client that stays connected was read, and sent the answers to the lines that ended in the bytes
        // that its pipe gave, and nothing else. No answer waits at the end without a write: the client's
        // pipe took some, or takes none now. Only tickets of clients that are gone leave without a line. A
        // client that is no longer connected closed, or failed a read or a write, or had no room for an answer.
        // At most a piece of each client was read; if one gave a whole piece, the next turn does not wait.
        ensures says { AttendSays D.P.gave D.P.took D.P.counts now
            (moment_of self.old.node self.old.ports.items self.old.pace self.old.let_go)
            (moment_of self.new.node self.new.ports.items self.new.pace self.new.let_go)
            notes.old notes.new self.old.clients self.new.clients self.new.has_more }
        // The network stays, and nothing is stored.
        ensures rest { (self.new.net ≡ self.old.net) × (self.new.turns ≡ self.old.turns)
            × (self.new.store ≡ self.old.store) }
    {
        self.listen(now, notes);
        let plan = self.plan(now);
        self.speak(&plan.offers, now, notes);
        self.has_more |= plan.ticks;
    }

    /// The network.
    pub fn net(&self) -> &Net
        ensures { result.now ≡ self.now.net }
    {
        &self.net
    }

    /// The node.
    pub fn node(&self) -> &Node<A>
        ensures { result.now ≡ self.now.node }
    {
        &self.node
    }

    /// The ports, one for each node of the network, by id. Only those of neighbours have connections.
    pub fn ports(&self) -> &[NodePort<D::P>]
        ensures { result.now ≡ self.now.ports.items }
    {
        &self.ports
    }

    /// The store.
    pub fn store(&self) -> &S
        ensures { result.now ≡ self.now.store }
    {
        &self.store
    }

    /// The doors.
    pub fn doors(&mut self) -> &mut D
        ensures { result.now ≡ self.old.doors }
    {
        &mut self.doors
    }
}
