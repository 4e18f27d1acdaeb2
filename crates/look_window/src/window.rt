//! What a node notes about itself, and shows to lookers.
ghost use Rattle.std.specs.Prelude.{◌≡◌, ◌≢◌, ◌<◌, ℕ, false, is_some, length, slice_get, replicate};
ghost use Rattle.std.specs.Prelude.{IfOk, Some, string_bytes};
ghost use Rattle.node_core.specs.View.{site_in, state_of};
ghost use Rattle.node_connections.specs.LinkSights.{link_at};
ghost use Rattle.turn_watch.specs.Turns.{begun, turn_ended};
ghost use Rattle.turn_watch.specs.Loans.{no_loans, desk_seen};
ghost use Rattle.turn_watch.specs.Links.{down_since, link_seen, link_of};
ghost use Rattle.turn_watch.specs.Notes.{next_of};
ghost use Rattle.turn_watch.specs.declared.links.LinkSight.{LinkSight};
ghost use Rattle.turn_watch.specs.Rounds.{no_rounds, machine_seen};
ghost use Rattle.look_window.specs.Counted.{counted_machine};
ghost use Rattle.look_window.specs.NodeLook.{node_look};

use crate::counted::counted_machine;
use crate::line::{ProcessSaid, line_of_node};
use node_connections::Pipe;
use node_connections::port::{NodePort, link_at};
use node_core::Node;
use node_texts::ProcessPart;
use std::alloc::{AllocError, Global};
use std::fs;
use std::path::AsPath;
use std::rt::{Clock, Files};
use std::time::{SystemTime, UNIX_EPOCH};
use turn_watch::{DeskSight, TurnNotes};

/// What a node noted about itself, and what it says about its process.
#[derive(Drop)]
pub struct LookNotes<'a> {
    notes: TurnNotes,
    said: ProcessSaid<'a>,
}

impl<'a> LookNotes<'a> {
    /// Notes that begin at this time. Turns are late after `limit` microseconds.
    pub fn open<R: Files + Clock + AllocGlobal>(
        rt: &R,
        limit: u64,
        version: &'a str,
        now: u64,
    ) -> LookNotes<'a>
        ensures notes { (result.notes.turns ≡ begun now) × (result.notes.loans ≡ no_loans)
            × (result.notes.rounds ≡ no_rounds)
            × (result.notes.links ≡ replicate 64 (down_since now))
            × (result.notes.limit ≡ limit) }
        ensures version { result.said.version ≡ version.entry }
    {
        let process = ProcessPart {
            id: own_process(rt),
            start: millis_now(rt),
        };
        LookNotes {
            notes: TurnNotes::begin(now, limit),
            said: ProcessSaid { process, version },
        }
    }

    /// The node did something other than a turn.
    pub fn attended(&mut self, node: &Node, now: u64)
        ensures { self.new ≡ record self.old {
          notes = record self.old.notes {
            loans = desk_seen now (record {
              has_granted = false;
              lends = is_some (state_of node.now).desk.lent;
            }) self.old.notes.loans;
          };
        } }
    {
        self.notes.attended(now, node.lent().is_some());
    }

    /// A turn has ended at this time, in microseconds of the node's clock. `ports` are the node's, one for each
    /// of the network's `nodes` nodes by its id, and `has_granted` says whether a loan began. Each turn notes
    /// the link to one node, and the next turn the link to the next node.
    pub fn turn_ended<P: Pipe>(
        &mut self,
        node: &Node,
        ports: &[NodePort<P>],
        nodes: u16,
        has_granted: bool,
        now: u64,
    )
        ensures turns { self.new.notes.turns
            ≡ turn_ended self.old.notes.limit now self.old.notes.turns }
        ensures loans { self.new.notes.loans ≡ desk_seen now (record {
          has_granted = has_granted;
          lends = is_some (state_of node.now).desk.lent;
        }) self.old.notes.loans }
        ensures rounds { self.new.notes.rounds
            ≡ machine_seen (counted_machine (site_in node.now) (state_of node.now))
            self.old.notes.rounds }
        ensures link { (sight : LinkSight) → self.old.notes.next < 64
            → link_at (slice_get ports.now self.old.notes.next) ≡ Some sight
            → link_of self.new.notes.links self.old.notes.next
            ≡ link_seen sight now (link_of self.old.notes.links self.old.notes.next) }
        ensures others { (other : ℕ) → other ≢ self.old.notes.next
            → link_of self.new.notes.links other ≡ link_of self.old.notes.links other }
        ensures rest { (self.new.notes.limit ≡ self.old.notes.limit)
            × (self.new.notes.next ≡ next_of nodes self.old.notes.next)
            × (self.new.said ≡ self.old.said) }
    {
        let desk = DeskSight {
            has_granted,
            lends: node.lent().is_some(),
        };
        self.notes.turn_ended(now, desk);
        self.notes.note_machine(counted_machine(node));
        let id = self.notes.next_link(nodes);
        if let Some(sight) = link_at(ports, id) {
            self.notes.note_link(id, sight, now);
        }
    }

    /// The line for lookers at the node at this time.
    ///
    /// # Errors
    /// If memory runs out.
    pub fn line(&self, alloc: Global, node: &Node, now: u64) -> Result<String, AllocError>
        ensures line { IfOk result (λ line. string_bytes line ≡ node_look (site_in node.now)
            (state_of node.now) self.now.notes self.now.said.process
            self.now.said.version.now now) }
        ensures some { IfOk result (λ line. 0 < length (string_bytes line)) }
    {
        line_of_node(alloc, node, &self.notes, &self.said, now)
    }
}

/// The id of this process, if the system gives it.
fn own_process<F: Files + AllocGlobal>(files: &F) -> Option<u64> {
    let found = fs::read_link(files, "/proc/self").ok()?;
    found.path_text().parse::<u64>().ok()
}

/// The milliseconds since the start of 1970, UTC, if the system gives them.
fn millis_now<C: Clock>(clock: &C) -> Option<u64> {
    let now = SystemTime::now(clock).ok()?;
    let since = now.duration_since(UNIX_EPOCH).ok()?;
    u64::try_from(since.as_millis()).ok()
}
