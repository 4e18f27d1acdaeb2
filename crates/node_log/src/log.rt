//! The log of a node.
ghost use Rattle.std.specs.Prelude.{◌≡◌, ◌≢◌, ◌<◌, ℕ, [], ◌∷◌, None, false, is_some, replicate};
ghost use Rattle.std.specs.List.{slice_index_or};
ghost use Rattle.node_log.specs.Turns.{gave_back, by_act, by_link, by_desk, full_after, by_crowd, crowded_after};
ghost use Rattle.node_log.specs.Places.{by_place, place_after};
ghost use Rattle.node_log.specs.Turns.{admitted, rate_then, next_of};

use crate::event::{Level, NodeEvent};
use crate::place::PlaceSeen;
use crate::rate::LineRate;
use lock_desk::DeskAct;

/// The most nodes of a network.
const NODES: usize = 64;

/// The most clients that wait at a node.
const PLACES: usize = 64;

/// The most clients that wait when a desk that was full has room again.
const HALF: usize = 32;

/// The most clients that are connected when a node that was crowded has room again.
const HALF_CONNECTED: usize = 64;

/// What is seen of a node after a turn.
#[derive(Clone, Copy)]
pub struct TurnSight {
    /// What the tick did at its desk.
    pub act: DeskAct,
    /// The ticket that has the lock, if any.
    pub lent: Option<u16>,
    /// How many clients wait.
    pub waiting: usize,
    /// How many clients are connected.
    pub connected: usize,
    /// How many clients were closed as soon as they had come, since the turn before.
    pub closed: u64,
    /// The node whose link was looked at.
    pub link: u16,
    /// Whether a connection to it stands.
    pub is_up: bool,
    /// Whether the node's distance and parent are those of the network.
    pub is_in_place: bool,
}

/// What a node says of itself, and what it has seen.
#[derive(Drop)]
pub struct NodeLog {
    /// The least urgent level that is said; if it is none, nothing is said.
    least: Option<Level>,
    rate: LineRate,
    /// By id, whether a connection stood at the last look.
    up: [bool; NODES],
    /// The node whose link is looked at next.
    next: u16,
    /// The ticket that had the lock after the last turn.
    lent: Option<u16>,
    /// Whether it has said that further clients are refused, and not since that they may wait again.
    is_full: bool,
    /// Whether it has said that further clients are closed, and not since that they may connect again.
    is_crowded: bool,
    place: PlaceSeen,
}

impl NodeLog {
    ghost use Rattle.node_log.specs.Rate.{new_rate};
    ghost use Rattle.node_log.specs.declared.place.PlaceSeen.TheVariants.{Right};

    /// A log which says what is at least this urgent; if `least` is none, it says nothing.
    pub fn new(least: Option<Level>) -> NodeLog
        ensures level { result.least ≡ least }
        ensures rest { (result.rate ≡ new_rate) × (result.up ≡ replicate 64 false) × (result.next ≡ 0)
            × (result.lent ≡ None) × (result.is_full ≡ false) × (result.is_crowded ≡ false)
            × (result.place ≡ Right) }
    {
        NodeLog {
            least,
            rate: LineRate::new(),
            up: [false; NODES],
            next: 0,
            lent: None,
            is_full: false,
            is_crowded: false,
            place: PlaceSeen::Right,
        }
    }

    /// Whether it says anything.
    pub fn is_on(&self) -> bool
        ensures { result ≡ is_some self.now.least }
    {
        self.least.is_some()
    }

    /// The node whose link is looked at after this turn, in a network of `nodes` nodes. After the next turn
    /// it is the next node.
    pub fn next_link(&mut self, nodes: u16) -> u16
        ensures next { result ≡ self.old.next }
        ensures after { self.new ≡ record self.old { next = next_of nodes self.old.next } }
    {
        let link = self.next;
        let after = link.saturating_add(1);
        self.next = if after < nodes { after } else { 0 };
        link
    }

    /// What happened in a turn, by what is seen after it: who released the lock, and who was
    /// granted it or lost it, whether the link is up or down now, whether further clients are
    /// refused now or may wait again, whether they are closed now or may connect again, and whether
    /// the node has been out of its place for two seconds or is back. Nothing is said of a link to
    /// an id above 63. `now` is when the turn ended, in microseconds.
    pub fn turn_ended(&mut self, sight: TurnSight, now: u64) -> [Option<NodeEvent>; 6]
        ensures events { result ≡ gave_back self.old.lent sight.act sight.lent ∷ by_act sight.act
            ∷ by_link sight.link sight.is_up self.old.up
            ∷ by_desk sight.waiting self.old.is_full
            ∷ by_crowd sight.closed sight.connected self.old.is_crowded
            ∷ by_place sight.is_in_place now self.old.place ∷ [] }
        ensures lent { self.new.lent ≡ sight.lent }
        ensures full { self.new.is_full ≡ full_after sight.waiting self.old.is_full }
        ensures crowded { self.new.is_crowded
            ≡ crowded_after sight.closed sight.connected self.old.is_crowded }
        ensures place { self.new.place ≡ place_after sight.is_in_place now self.old.place }
        ensures link { sight.link < 64 → slice_index_or self.new.up sight.link false ≡ sight.is_up }
        ensures others { (other : ℕ) → other ≢ sight.link
            → slice_index_or self.new.up other false ≡ slice_index_or self.old.up other false }
        ensures rest { (self.new.least ≡ self.old.least) × (self.new.rate ≡ self.old.rate)
            × (self.new.next ≡ self.old.next) }
    {
        let back = gave_back(self.lent, sight.act, sight.lent);
        let link = self.see_link(sight.link, sight.is_up);
        let desk = self.see_desk(sight.waiting);
        let crowd = self.see_crowd(sight.closed, sight.connected);
        let place = self.place.see(sight.is_in_place, now);
        self.lent = sight.lent;
        [back, by_act(sight.act), link, desk, crowd, place]
    }

    /// Takes note of how many clients wait, and says whether further ones are refused now or may wait again.
    fn see_desk(&mut self, waiting: usize) -> Option<NodeEvent>
        ensures event { result ≡ by_desk waiting self.old.is_full }
        ensures after { self.new ≡ record self.old { is_full = full_after waiting self.old.is_full } }
    {
        let is_full = waiting > if self.is_full { HALF } else { PLACES - 1 };
        if is_full == self.is_full {
            return None;
        }
        self.is_full = is_full;
        Some(if is_full {
            NodeEvent::Full
        } else {
            NodeEvent::Room
        })
    }

    /// Takes note of the clients that are connected and of those that were closed, and says whether
    /// further ones are closed now or may connect again.
    fn see_crowd(&mut self, closed: u64, connected: usize) -> Option<NodeEvent>
        ensures event { result ≡ by_crowd closed connected self.old.is_crowded }
        ensures after { self.new
            ≡ record self.old { is_crowded = crowded_after closed connected self.old.is_crowded } }
    {
        let is_crowded = closed > 0 || (self.is_crowded && connected > HALF_CONNECTED);
        if is_crowded == self.is_crowded {
            return None;
        }
        self.is_crowded = is_crowded;
        Some(if is_crowded {
            NodeEvent::Crowded
        } else {
            NodeEvent::Seats
        })
    }

    /// Takes note of the link to a node, and says whether it came or went.
    fn see_link(&mut self, id: u16, is_up: bool) -> Option<NodeEvent>
        ensures event { result ≡ by_link id is_up self.old.up }
        ensures link { id < 64 → slice_index_or self.new.up id false ≡ is_up }
        ensures others { (other : ℕ) → other ≢ id
            → slice_index_or self.new.up other false ≡ slice_index_or self.old.up other false }
        ensures rest { (self.new.least ≡ self.old.least) × (self.new.rate ≡ self.old.rate)
            × (self.new.next ≡ self.old.next) × (self.new.lent ≡ self.old.lent)
            × (self.new.is_full ≡ self.old.is_full)
            × (self.new.is_crowded ≡ self.old.is_crowded) × (self.new.place ≡ self.old.place) }
    {
        let place = usize::from(id);
        if place >= NODES || self.up[place] == is_up {
            return None;
        }
        self.up[place] = is_up;
        Some(if is_up {
            NodeEvent::Up(id)
        } else {
            NodeEvent::Down(id)
        })
    }

    /// Whether an event is said at this time, in microseconds: none if it is not, and else how many lines
    /// were left out since the last one that was said. Only an event that is urgent enough counts.
    pub fn admit(&mut self, event: NodeEvent, now: u64) -> Option<u64>
        ensures answer { result ≡ admitted self.old.least event now self.old.rate }
        ensures rate { self.new.rate ≡ rate_then self.old.least event now self.old.rate }
        ensures rest { (self.new.least ≡ self.old.least) × (self.new.up ≡ self.old.up)
            × (self.new.next ≡ self.old.next) × (self.new.lent ≡ self.old.lent)
            × (self.new.is_full ≡ self.old.is_full)
            × (self.new.is_crowded ≡ self.old.is_crowded) × (self.new.place ≡ self.old.place) }
    {
        match self.least {
            Some(least) if event.level().is_said_at(least) => self.rate.admit(now),
            _ => None,
        }
    }
}

/// Which client released the lock, by what the tick did and who has it now. When a tick that grants
/// begins, nobody has the lock.
fn gave_back(before: Option<u16>, act: DeskAct, now: Option<u16>) -> Option<NodeEvent>
    ensures { result ≡ gave_back before act now }
{
    match (before, act, now) {
        (Some(ticket), DeskAct::Granted(_), _) => Some(NodeEvent::GivenBack(ticket)),
        (Some(ticket), DeskAct::Quiet, None) => Some(NodeEvent::GivenBack(ticket)),
        _ => None,
    }
}

/// Who was granted the lock or lost it.
fn by_act(act: DeskAct) -> Option<NodeEvent>
    ensures { result ≡ by_act act }
{
    match act {
        DeskAct::Granted(ticket) => Some(NodeEvent::Granted(ticket)),
        DeskAct::Lost(ticket) => Some(NodeEvent::Lost(ticket)),
        DeskAct::Quiet => None,
    }
}
