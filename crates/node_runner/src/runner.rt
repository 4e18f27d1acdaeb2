//! One node on its own thread.
ghost use Rattle.std.specs.Prelude.{◌≡◌, ◌+◌, ◌<◌, ◌≤◌, ◌*◌, ℕ, List, [], ◌∷◌, ◌++◌, length};
ghost use Rattle.std.specs.Prelude.{vec_capacity, slice_index_or};
ghost use Rattle.run_model.specs.node_core.View.{site_in};
ghost use Rattle.weaving.specs.Account.{Note, Ticked, Sent, Took};
ghost use Rattle.node_runner.specs.declared.runner.RunnerPort.{RunnerPort};
ghost use Rattle.node_runner.specs.Runner.{IsReady, Does, IsOneSend, IsOneTake, port_ids};
ghost use Rattle.node_runner.specs.Runner.{round_room};
ghost use Rattle.node_runner.specs.Rounds.{AreSendsTo, AreTakesFrom, IsRound, AreRounds};
ghost use Rattle.node_runner.specs.Due.{IsSendDue, IsTakeDue, IsSlow, AreSendsDue, AreTakesDue};
ghost use Rattle.node_runner.specs.Due.{BeginsWhole};

use crate::gates::Gate;
use crate::ports::{Incoming, Outgoing};
use link_model::Item;
use run_model::{Event, Node};
use std::alloc::{Allocator, Global};
use topology::laws as topology_laws;
use weaving::{Journal, JournalEntry};

/// A node's ends of the two links that join it to a neighbour.
#[derive(Drop)]
pub struct RunnerPort<A: Allocator = Global> {
    /// The neighbour's id.
    pub neighbour: u16,
    /// The end of the link to it.
    pub outgoing: Outgoing<A>,
    /// The end of the link from it.
    pub incoming: Incoming<A>,
}

/// A node with all that its thread needs: its ends of the links, its clock, and its journal.
#[derive(Drop)]
pub struct Runner<A: Allocator = Global> {
    /// The node's id.
    pub id: u16,
    /// The node.
    pub node: Node<A>,
    /// Its ports, by ascending ids of the neighbours.
    pub ports: Vec<RunnerPort<A>, A>,
    /// The stamp of the last thing that it did; 0 at the start.
    pub clock: u64,
    /// What it did, in order.
    pub journal: Journal<A>,
}

impl<A: Allocator> Runner<A> {
    /// Notes what the node did, and sets the clock to its stamp.
    fn note(&mut self, stamp: u64, event: Event)
        requires { length self.old.journal.entries.items < vec_capacity self.old.journal.entries }
        ensures clock { self.new.clock ≡ stamp }
        ensures entries { self.new.journal.entries.items
            ≡ self.old.journal.entries.items ++ record { stamp = stamp; event = event } ∷ [] }
        ensures room { vec_capacity self.new.journal.entries
            ≡ vec_capacity self.old.journal.entries }
        ensures rest { (self.new.id ≡ self.old.id) × (self.new.node ≡ self.old.node)
            × (self.new.ports ≡ self.old.ports) }
    {
        self.clock = stamp;
        self.journal
            .entries
            .push_reserved(JournalEntry { stamp, event });
    }

    /// The node ticks.
    fn tick(&mut self)
        requires ready { IsReady self.old }
        requires room { length self.old.journal.entries.items
            < vec_capacity self.old.journal.entries }
        ensures { (t : ℕ) × Does (Ticked t ∷ []) self.old self.new × IsSlow 1 self.old self.new }
    {
        let _ticked = self.node.tick();
        let stamp = self.clock + 1;
        self.note(stamp, Event::Tick { node: self.id });
    }

    /// The node sends its frame over one of its ports, if a place is free for it.
    fn send(&mut self, place: usize)
        requires place { place < length self.old.ports.items }
        requires ready { IsReady self.old }
        requires room { length self.old.journal.entries.items
            < vec_capacity self.old.journal.entries }
        ensures { (notes : List Note) × Does notes self.old self.new
            × IsOneSend (slice_index_or (port_ids self.old) place 0) notes
            × IsSendDue (slice_index_or (port_ids self.old) place 0) self.old notes
            × IsSlow (length notes) self.old self.new }
    {
        topology_laws::neighbours();
        let port = &mut self.ports[place];
        let neighbour = port.neighbour;
        let _known = self.node.is_neighbour(neighbour);
        let frame = self.node.frame_for(neighbour);
        let from = self.id;
        match port.outgoing.send(self.clock, Item::Frame(frame)) {
            Some(stamp) => self.note(
                stamp,
                Event::Send {
                    from,
                    to: neighbour,
                },
            ),
            None => {}
        }
    }

    /// The node takes the oldest item that came in over one of its ports, if there is one.
    fn take(&mut self, place: usize)
        requires place { place < length self.old.ports.items }
        requires ready { IsReady self.old }
        requires room { length self.old.journal.entries.items
            < vec_capacity self.old.journal.entries }
        ensures { (notes : List Note) × Does notes self.old self.new
            × IsOneTake (slice_index_or (port_ids self.old) place 0) notes
            × IsTakeDue (slice_index_or (port_ids self.old) place 0) self.old notes }
    {
        topology_laws::neighbours();
        topology_laws::joined();
        let port = &mut self.ports[place];
        let neighbour = port.neighbour;
        let to = self.id;
        match port.incoming.take(self.clock) {
            Some(taken) => {
                self.node.take(neighbour, &taken.item);
                self.note(
                    taken.stamp,
                    Event::Take {
                        from: neighbour,
                        to,
                    },
                );
            }
            None => {}
        }
    }

    /// The node sends its frame to each neighbour, if a place is free for it.
    fn send_all(&mut self)
        requires ready { IsReady self.old }
        requires room { length self.old.journal.entries.items + length self.old.ports.items
            ≤ vec_capacity self.old.journal.entries }
        ensures { (notes : List Note) × Does notes self.old self.new
            × AreSendsTo (port_ids self.old) notes
            × (length notes ≤ length self.old.ports.items)
            × AreSendsDue (port_ids self.old) self.old notes }
    {
        for place in 0..self.ports.len() {
            self.send(place);
        }
    }

    /// The node takes up to two items from each neighbour.
    fn take_all(&mut self)
        requires ready { IsReady self.old }
        requires room { length self.old.journal.entries.items + 2 * length self.old.ports.items
            ≤ vec_capacity self.old.journal.entries }
        ensures { (notes : List Note) × Does notes self.old self.new
            × AreTakesFrom (port_ids self.old) notes
            × (length notes ≤ 2 * length self.old.ports.items)
            × AreTakesDue (port_ids self.old) self.old notes }
    {
        for place in 0..self.ports.len() {
            self.take(place);
            self.take(place);
        }
    }

    /// One turn: a tick, to each neighbour at most one send, and from each at most two takes.
    fn turn(&mut self)
        requires ready { IsReady self.old }
        requires room { length self.old.journal.entries.items + round_room self.old
            ≤ vec_capacity self.old.journal.entries }
        ensures { (notes : List Note) × Does notes self.old self.new
            × IsRound (port_ids self.old) notes
            × (length notes ≤ round_room self.old)
            × BeginsWhole self.old notes }
    {
        self.tick();
        self.send_all();
        self.take_all();
    }

    /// Does the turns of a node, each between the gate's two calls. What it did is in its journal,
    /// which must have room: for each turn one entry, and three more for each port. Takes no
    /// memory.
    pub fn run<G: Gate>(&mut self, gate: &G, turns: u32)
        requires ready { IsReady self.old }
        requires room { length self.old.journal.entries.items + turns * round_room self.old
            ≤ vec_capacity self.old.journal.entries }
        // There are as many rounds as turns, and each begins with its one tick. The first round,
        // at the start of a run, sends over each link that had room then, and takes at least what
        // was on each link then, or two items if there were more.
        ensures { (notes : List Note) × Does notes self.old self.new
            × AreRounds (port_ids self.old) turns notes
            × (length notes ≤ turns * round_room self.old)
            × (0 < turns → BeginsWhole self.old notes) }
    {
        for turn in 0..turns {
            gate.before(self.id, turn);
            self.turn();
            gate.after(self.id, turn);
        }
    }
}
