//! The second and third part of a turn: the node ticks, and speaks.
ghost use Rattle.std.specs.Prelude.{◌≡◌, ◌<◌, ◌≤◌, length};
ghost use Rattle.std.specs.Prelude.{IsTrue, Contains, slice_get};
ghost use Rattle.std.specs.Prelude.{◌≢◌, ℕ};
ghost use Rattle.slab.specs.Slab.{get};
ghost use Rattle.node_core.specs.data_link.Port.{frame_of};
ghost use Rattle.pace.specs.Plans.{port_of};
ghost use Rattle.node_core.specs.View.{site_in, state_of};
ghost use Rattle.node_connections.specs.Ports.{AtBoth};
ghost use Rattle.node_loop.specs.Speaking.{SpeaksTo, sent_if};

use crate::run::NodeRun;
use crate::sight::{self, NODES};
use node_connections::port::NodePort;
use node_connections::{Doors, Pipe};
use node_core::Ticked;
use node_service::{Notes, service};
use pace::TurnPace;
use state_writing::Store;
use std::alloc::Allocator;
use topology::Frame;

impl<D: Doors, S: Store + Drop, A: Allocator + Copy> NodeRun<D, S, A> {
    ghost use Rattle.node_service.specs.Clients.{AreConnected};
    ghost use Rattle.node_connections.specs.Clients.{is_connected, IsReported};
    ghost use Rattle.node_service.specs.Deeds.{IsLeaveOfGone};
    ghost use Rattle.node_service.specs.Noting.{after_all, sends_if, DidAct};
    ghost use Rattle.node_loop.specs.Noting.{DidSpeak};
    ghost use Rattle.node_connections.specs.Ends.{EndsByWrite};
    ghost use Rattle.node_connections.specs.Heard.{NothingHeard};
    ghost use Rattle.node_connections.specs.Lives.{AllGoOut, LiveOn};
    ghost use Rattle.node_loop.specs.Remembering.{Remembers};
    ghost use Rattle.node_connections.specs.Said.{NothingSaid};
    ghost use Rattle.node_loop.specs.Moments.{moment_of};

    /// Second part of a turn: one tick.
    pub(super) fn tick(&mut self, now: u64, notes: &mut Notes<A>) -> Ticked
        ensures node { DidAct (IsLeaveOfGone (is_connected self.new.clients)) result
            self.old.node self.new.node notes.old notes.new }
        // The client whose loan the tick began or ended hears of it.
        ensures reported { IsReported result.act self.old.clients self.new.clients }
        ensures ports { (self.new.ports ≡ self.old.ports) × (self.new.let_go ≡ self.old.let_go) }
        ensures connected { AreConnected self.old.clients self.old.node
            → AreConnected self.new.clients self.new.node }
        ensures lives { LiveOn D.P.gave D.P.took D.P.counts self.old.clients self.new.clients }
        ensures pace { Remembers self.old.pace self.new.pace }
        ensures rest { (self.new.net ≡ self.old.net) × (self.new.turns ≡ self.old.turns)
            × (self.new.store ≡ self.old.store) }
        ensures more { self.new.has_more ≡ self.old.has_more }
    {
        let before = sight::values(&self.node, &self.net);
        let ticked = service::tick(&mut self.node, notes, &mut self.clients);
        let moved = sight::values(&self.node, &self.net) != before;
        let outlook = sight::outlook(&self.node, self.let_go);
        let trees = sight::trees(&self.node, &self.net);
        self.pace.ticked(&outlook, moved, &trees, now);
        self.has_ticked = true;
        ticked
    }

    /// Third part of a turn: frames on the ports of the plan, and answers to clients.
    pub(super) fn speak(&mut self, offers: &[bool; NODES], now: u64, notes: &mut Notes<A>)
        ensures spoken { DidSpeak (IsLeaveOfGone (is_connected self.new.clients))
            D.P.gave D.P.took D.P.counts offers.now now
            (moment_of self.old.node self.old.ports.items self.old.pace self.old.let_go)
            (moment_of self.new.node self.new.ports.items self.new.pace self.new.let_go)
            notes.old notes.new }
        ensures connected { AreConnected self.old.clients self.old.node
            → AreConnected self.new.clients self.new.node }
        ensures lives { LiveOn D.P.gave D.P.took D.P.counts self.old.clients self.new.clients }
        ensures nothing { NothingSaid D.P.took self.old.clients self.new.clients }
        ensures heard { NothingHeard D.P.gave self.old.clients self.new.clients }
        ensures out { AllGoOut D.P.counts self.old.clients self.new.clients }
        ensures ends { (t : ℕ) → EndsByWrite D.P.gave D.P.took D.P.counts
            (get self.old.clients.table t) (get self.new.clients.table t) }
        ensures rest { (self.new.net ≡ self.old.net) × (self.new.turns ≡ self.old.turns)
            × (self.new.store ≡ self.old.store) }
        ensures more { self.new.has_more ≡ self.old.has_more }
    {
        for id in 0..self.net.nodes() {
            let _accepted = self.speak_to(id, offers[id as usize], now, notes);
        }
        service::write_all(&mut self.node, notes, &mut self.clients);
    }

    /// Writes what is left of the last line to a neighbour, and then a frame, if one is offered.
    /// Returns whether it was accepted.
    fn speak_to(&mut self, id: u16, offered: bool, now: u64, notes: &mut Notes<A>) -> bool
        ensures spoken { Contains (site_in self.old.node).neighbours id
            → AtBoth (SpeaksTo D.P.gave D.P.took D.P.counts
            (frame_of ((state_of self.old.node).port id)) offered now
            (port_of self.old.pace.ports id) (port_of self.new.pace.ports id)
            (sent_if result (frame_of ((state_of self.old.node).port id))))
            (slice_get self.old.ports.items id) (slice_get self.new.ports.items id) }
        ensures silent { ¬ Contains (site_in self.old.node).neighbours id
            → (slice_get self.new.ports.items id ≡ slice_get self.old.ports.items id)
            × (port_of self.new.pace.ports id ≡ port_of self.old.pace.ports id) }
        ensures known { IsTrue result → Contains (site_in self.old.node).neighbours id }
        ensures noted { notes.new ≡ after_all
            (sends_if result id (frame_of ((state_of self.old.node).port id))) notes.old }
        ensures others { (w : ℕ) → w ≢ id
            → (slice_get self.new.ports.items w ≡ slice_get self.old.ports.items w)
            × (port_of self.new.pace.ports w ≡ port_of self.old.pace.ports w) }
        ensures pace { (self.new.pace.node ≡ self.old.pace.node)
            × (self.new.pace.manner ≡ self.old.pace.manner) }
        ensures node { self.new.node ≡ self.old.node }
        ensures let_go { self.new.let_go ≡ self.old.let_go }
        ensures clients { self.new.clients ≡ self.old.clients }
        ensures rest { (self.new.net ≡ self.old.net) × (self.new.turns ≡ self.old.turns)
            × (self.new.store ≡ self.old.store) }
        ensures more { self.new.has_more ≡ self.old.has_more }
    {
        if !self.node.is_neighbour(id) {
            return false;
        }
        let frame = self.node.frame_for(id);
        let is_accepted = speak_at(&mut self.ports, &mut self.pace, id, &frame, offered, now);
        notes.offers(id, &frame, is_accepted);
        is_accepted
    }
}

/// Writes what is left of the last line at a port, and then a frame, if it is offered. The pace
/// notes a frame that is accepted. Returns whether the frame was accepted.
fn speak_at<P: Pipe, A: Allocator + Copy>(
    ports: &mut Vec<NodePort<P>, A>,
    pace: &mut TurnPace,
    id: u16,
    frame: &Frame,
    offered: bool,
    now: u64,
) -> bool
    requires { (id < length ports.old.items) × (length ports.old.items ≤ 64) }
    ensures spoken { AtBoth (SpeaksTo P.gave P.took P.counts frame.now offered now
        (port_of pace.old.ports id) (port_of pace.new.ports id) (sent_if result frame.now))
        (slice_get ports.old.items id) (slice_get ports.new.items id) }
    ensures others { (w : ℕ) → w ≢ id
        → (slice_get ports.new.items w ≡ slice_get ports.old.items w)
        × (port_of pace.new.ports w ≡ port_of pace.old.ports w) }
    ensures count { length ports.new.items ≡ length ports.old.items }
    ensures pace { (pace.new.node ≡ pace.old.node) × (pace.new.manner ≡ pace.old.manner) }
{
    let is_accepted = ports[id as usize].speak(frame, offered);
    if is_accepted {
        pace.gave(id as usize, frame, now);
    }
    is_accepted
}
