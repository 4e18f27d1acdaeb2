//! The frames that neighbours sent.
ghost use Rattle.std.specs.Prelude.{◌≡◌, false};
ghost use Rattle.std.specs.Prelude.{IsTrue};
ghost use Rattle.node_core.specs.View.{site_in};

use crate::run::NodeRun;
use crate::sight;
use node_connections::{Doors, Pull};
use node_core::Item;
use node_service::Notes;
use state_writing::Store;
use std::alloc::Allocator;

/// The most frames that are taken at each port in a turn.
const FRAMES: usize = 64;

impl<D: Doors, S: Store + Drop, A: Allocator + Copy> NodeRun<D, S, A> {
    ghost use Rattle.node_connections.specs.Hearing.{Comes, Pulls};
    ghost use Rattle.node_loop.specs.Noting.{DidHear, DidTake};
    ghost use Rattle.node_loop.specs.Remembering.{Remembers};

    /// Takes the frames that neighbours sent.
    pub(super) fn pull_all(&mut self, now: u64, notes: &mut Notes<A>)
        ensures hears { DidHear D.P.gave D.P.took D.P.counts self.old.node self.new.node
            self.old.ports.items self.new.ports.items notes.old notes.new }
        ensures pace { Remembers self.old.pace self.new.pace }
        ensures rest { (self.new.net ≡ self.old.net) × (self.new.turns ≡ self.old.turns)
            × (self.new.store ≡ self.old.store) × (self.new.clients ≡ self.old.clients) }
    {
        for id in 0..self.net.nodes() {
            self.pull(id, now, notes);
        }
    }

    /// Takes the frames that one neighbour sent.
    fn pull(&mut self, id: u16, now: u64, notes: &mut Notes<A>)
        ensures takes { DidTake (Pulls (site_in self.old.node).ranges D.P.gave D.P.took D.P.counts)
            id self.old.node self.new.node self.old.ports.items self.new.ports.items
            notes.old notes.new }
        ensures pace { Remembers self.old.pace self.new.pace }
        ensures rest { (self.new.net ≡ self.old.net) × (self.new.turns ≡ self.old.turns)
            × (self.new.store ≡ self.old.store) × (self.new.clients ≡ self.old.clients) }
    {
        for _ in 0..FRAMES {
            if !self.pull_one(id, now, notes) {
                return;
            }
        }
        self.has_more = true;
    }

    /// Takes the next frame that a neighbour sent. Returns false if there is none.
    fn pull_one(&mut self, id: u16, now: u64, notes: &mut Notes<A>) -> bool
        ensures came { IsTrue result
            → DidTake (Comes (site_in self.old.node).ranges D.P.gave D.P.took)
            id self.old.node self.new.node self.old.ports.items self.new.ports.items
            notes.old notes.new }
        ensures ended { result ≡ false
            → DidTake (Pulls (site_in self.old.node).ranges D.P.gave D.P.took D.P.counts)
            id self.old.node self.new.node self.old.ports.items self.new.ports.items
            notes.old notes.new }
        ensures pace { Remembers self.old.pace self.new.pace }
        ensures rest { (self.new.net ≡ self.old.net) × (self.new.turns ≡ self.old.turns)
            × (self.new.store ≡ self.old.store) × (self.new.clients ≡ self.old.clients) }
    {
        if !self.node.is_neighbour(id) {
            return false;
        }
        let frame = match self.ports[id as usize].pull(&self.net) {
            Pull::Frame(frame) => frame,
            Pull::Later => return false,
            Pull::Broken => return false,
        };
        self.node.take(id, &Item::Frame(frame));
        notes.takes(id, frame);
        let trees = sight::trees(&self.node, &self.net);
        let _hearing = self.pace.heard(id as usize, &frame, &trees, now);
        true
    }
}
