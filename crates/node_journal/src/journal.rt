//! What a node says about itself on standard error while it runs.
ghost use Rattle.std.specs.Prelude.{◌≡◌, None, IsTrue, false, is_some, replicate, slice_get};
ghost use Rattle.node_core.specs.View.{site_in, state_of};
ghost use Rattle.node_journal.specs.Places.{is_placed};
ghost use Rattle.node_journal.specs.Said.{rate_if, stands_at, LogsTurn, SawTheSame};
ghost use Rattle.process_parts.specs.node_log.Turns.{rate_then};
ghost use Rattle.process_parts.specs.node_log.Rate.{new_rate};
ghost use Rattle.process_parts.specs.node_log.declared.event.NodeEvent.TheVariants.{Begins};
ghost use Rattle.process_parts.specs.node_log.declared.place.PlaceSeen.TheVariants.{Right};

use node_core::{DeskAct, Net, Node};
use process_parts::{LogLine, NodeEvent, NodeLog, NodeWords, TurnSight};
use std::env;
use std::rt::Env;
use unix_doors::{ClientSight, NodePort, Pipe, link_at};

/// A node's log, which goes to standard error.
#[derive(Drop)]
pub struct NodeJournal<'a, R> {
    rt: &'a R,
    /// The node.
    id: u16,
    /// Whether the lines go to a journal, which understands priorities.
    has_priority: bool,
    log: NodeLog,
}

impl<'a, R: Eprint> NodeJournal<'a, R> {
    /// The log of a node that starts with these words at this time.
    pub fn begin(rt: &'a R, words: &NodeWords<'_>, now: u64) -> NodeJournal<'a, R>
    where
        R: Env + AllocGlobal,
        ensures level { result.log.least ≡ words.now.log }
        ensures said { result.log.rate ≡ rate_then words.now.log Begins now new_rate }
        ensures unseen { (result.log.up ≡ replicate 64 false) × (result.log.next ≡ 0)
            × (result.log.lent ≡ None) × (result.log.is_full ≡ false)
            × (result.log.is_crowded ≡ false) × (result.log.place ≡ Right) }
        ensures id { result.id ≡ words.now.id }
    {
        let mut journal = NodeJournal {
            rt,
            id: words.id,
            has_priority: env::var(rt, "JOURNAL_STREAM").is_ok(),
            log: NodeLog::new(words.log),
        };
        journal.say(NodeEvent::Begins, now);
        journal
    }

    /// Says what happened in a turn that ended at this time, and with the clients that came until
    /// then. `act` is what the tick did with the loan, and `ports` has one port for each node of the
    /// network, by its id. A log that is off says nothing.
    pub fn turn_ended<P: Pipe>(
        &mut self,
        node: &Node,
        net: &Net,
        ports: &[NodePort<P>],
        act: DeskAct,
        clients: ClientSight,
        now: u64,
    )
        // A log that is off stays as it is.
        ensures off { self.old.log.least ≡ None → self.new ≡ self.old }
        ensures level { self.new.log.least ≡ self.old.log.least }
        ensures name { (self.new.id ≡ self.old.id) × (self.new.has_priority ≡ self.old.has_priority) }
        // A log that is on logs the turn.
        ensures logged { IsTrue (is_some self.old.log.least)
            → LogsTurn net.now node.now ports.now act clients now self.old.log self.new.log }
    {
        if !self.log.is_on() {
            return;
        }
        let link = self.log.next_link(net.nodes());
        let sight = TurnSight {
            act,
            lent: node.lent(),
            waiting: node.waiting(),
            connected: clients.connected,
            closed: clients.closed,
            link,
            is_up: is_up(ports, link),
            is_in_place: is_in_place(net, node),
        };
        let events = self.log.turn_ended(sight, now);
        self.say_if(events[0], now);
        self.say_if(events[1], now);
        self.say_if(events[2], now);
        self.say_if(events[3], now);
        self.say_if(events[4], now);
        self.say_if(events[5], now);
    }

    /// Says what happened, if anything did.
    fn say_if(&mut self, event: Option<NodeEvent>, now: u64)
        ensures name { (self.new.id ≡ self.old.id) × (self.new.has_priority ≡ self.old.has_priority) }
        ensures same { SawTheSame self.old.log self.new.log }
        ensures rate { self.new.log.rate ≡ rate_if self.old.log.least now event self.old.log.rate }
        ensures nothing { event ≡ None → self.new ≡ self.old }
    {
        if let Some(event) = event {
            self.say(event, now);
        }
    }

    /// Says what happened at this time, unless it is not urgent enough or too much was said.
    pub fn say(&mut self, event: NodeEvent, now: u64)
        ensures name { (self.new.id ≡ self.old.id) × (self.new.has_priority ≡ self.old.has_priority) }
        ensures same { SawTheSame self.old.log self.new.log }
        ensures rate { self.new.log.rate ≡ rate_then self.old.log.least event now self.old.log.rate }
    {
        if let Some(left_out) = self.log.admit(event, now) {
            let _ = self.rt.eprintln(LogLine {
                id: self.id,
                event,
                left_out,
                has_priority: self.has_priority,
            });
        }
    }
}

/// Whether there is a connection to a node.
fn is_up<P: Pipe>(ports: &[NodePort<P>], id: u16) -> bool
    ensures { result ≡ stands_at (slice_get ports.now id) }
{
    match link_at(ports, id) {
        Some(sight) => sight.is_up,
        None => false,
    }
}

/// Whether a node's distance and parent are those that the network gives it.
fn is_in_place(net: &Net, node: &Node) -> bool
    ensures { result ≡ is_placed net.now (site_in node.now).id (state_of node.now) }
{
    let id = node.id();
    id < net.nodes() && node.distance() == net.distance(id) && node.parent() == net.parent(id)
}
