//! All that a node notes of itself.
ghost use Rattle.std.specs.Prelude.{◌≡◌, ◌≢◌, ◌<◌, ℕ, false, replicate};
ghost use Rattle.turn_watch.specs.Turns.{begun, turn_ended};
ghost use Rattle.turn_watch.specs.Loans.{no_loans, desk_seen};
ghost use Rattle.turn_watch.specs.Links.{down_since, link_seen, link_of};
ghost use Rattle.turn_watch.specs.Notes.{next_of};
ghost use Rattle.turn_watch.specs.Rounds.{no_rounds, machine_seen};

use crate::links::{LinkSight, LinkTimes};
use crate::loans::{DeskSight, LoanTimes};
use crate::rounds::{MachineSight, RoundCount};
use crate::turns::TurnTimes;

/// The most nodes of a network.
const NODES: usize = 64;

/// What a node notes of its turns, loans and links, and of the token.
#[derive(Drop)]
pub struct TurnNotes {
    turns: TurnTimes,
    loans: LoanTimes,
    rounds: RoundCount,
    /// By the id of the node at the other end.
    links: [LinkTimes; NODES],
    /// After how many microseconds a turn is late.
    limit: u64,
    /// Whose link is noted next.
    next: u16,
}

impl TurnNotes {
    /// Nothing has happened since the start, and no link is up. Turns are late after `limit`
    /// microseconds.
    pub fn begin(now: u64, limit: u64) -> TurnNotes
        ensures { (result.turns ≡ begun now) × (result.loans ≡ no_loans)
            × (result.rounds ≡ no_rounds) × (result.links ≡ replicate 64 (down_since now))
            × (result.limit ≡ limit) × (result.next ≡ 0) }
    {
        TurnNotes {
            turns: TurnTimes::begin(now),
            loans: LoanTimes::begin(),
            rounds: RoundCount::begin(),
            links: [LinkTimes::begin(now); NODES],
            limit,
            next: 0,
        }
    }

    /// Takes note that a turn has ended, with the desk in this state.
    pub fn turn_ended(&mut self, now: u64, desk: DeskSight)
        ensures { self.new ≡ record self.old {
          turns = turn_ended self.old.limit now self.old.turns;
          loans = desk_seen now desk self.old.loans;
        } }
    {
        self.turns.note(now, self.limit);
        self.loans.note(now, desk);
    }

    /// Takes note that the node did something that is no turn, and whether it lends now. No loan
    /// begins by that.
    pub fn attended(&mut self, now: u64, lends: bool)
        ensures { self.new ≡ record self.old {
          loans = desk_seen now (record { has_granted = false; lends = lends }) self.old.loans;
        } }
    {
        let desk = DeskSight {
            has_granted: false,
            lends,
        };
        self.loans.note(now, desk);
    }

    /// Takes note of one of the node's machines after a turn; of none, if the node has no neighbour.
    pub fn note_machine(&mut self, sight: Option<MachineSight>)
        ensures { self.new ≡ record self.old { rounds = machine_seen sight self.old.rounds } }
    {
        self.rounds.note(sight);
    }

    /// The node whose link is noted now: each node of a network of `nodes` nodes, in turn.
    pub fn next_link(&mut self, nodes: u16) -> u16
        ensures next { result ≡ self.old.next }
        ensures after { self.new ≡ record self.old { next = next_of nodes self.old.next } }
    {
        let id = self.next;
        let after = id.saturating_add(1);
        self.next = if after < nodes { after } else { 0 };
        id
    }

    /// Takes note of the link to a node. Nothing is noted of an id above 63.
    pub fn note_link(&mut self, id: u16, sight: LinkSight, now: u64)
        ensures link { id < 64
            → link_of self.new.links id ≡ link_seen sight now (link_of self.old.links id) }
        ensures others { (other : ℕ) → other ≢ id
            → link_of self.new.links other ≡ link_of self.old.links other }
        ensures rest { (self.new.turns ≡ self.old.turns) × (self.new.loans ≡ self.old.loans)
            × (self.new.rounds ≡ self.old.rounds) × (self.new.limit ≡ self.old.limit)
            × (self.new.next ≡ self.old.next) }
    {
        if usize::from(id) < NODES {
            self.links[usize::from(id)].note(sight, now);
        }
    }

    /// Its turns.
    pub fn turns(&self) -> &TurnTimes
        ensures { result.now ≡ self.now.turns }
    {
        &self.turns
    }

    /// Its loans.
    pub fn loans(&self) -> &LoanTimes
        ensures { result.now ≡ self.now.loans }
    {
        &self.loans
    }

    /// How often the token came round.
    pub fn rounds(&self) -> &RoundCount
        ensures { result.now ≡ self.now.rounds }
    {
        &self.rounds
    }

    /// The link to a node; for an id above 63, one over which no connection was ever made.
    pub fn link(&self, id: u16) -> LinkTimes
        ensures { result ≡ link_of self.now.links id }
    {
        if usize::from(id) < NODES {
            self.links[usize::from(id)]
        } else {
            LinkTimes::begin(0)
        }
    }

    /// After how many microseconds a turn is late.
    pub fn limit(&self) -> u64
        ensures { result ≡ self.now.limit }
    {
        self.limit
    }
}
