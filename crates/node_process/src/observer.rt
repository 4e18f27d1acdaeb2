//! What watches a node while it runs.
ghost use Rattle.std.specs.Prelude.{◌≡◌, ◌≢◌, ◌↔◌, ◌<◌, ℕ, None, Some, IfOk, IfSome, IsSome, IsTrue};
ghost use Rattle.std.specs.Prelude.{false, not, is_some, slice_get};
ghost use Rattle.look_window.specs.turn_watch.Turns.{turn_ended};
ghost use Rattle.look_window.specs.turn_watch.Loans.{desk_seen};
ghost use Rattle.look_window.specs.turn_watch.Links.{link_seen, link_of};
ghost use Rattle.look_window.specs.turn_watch.Notes.{next_of};
ghost use Rattle.look_window.specs.turn_watch.Rounds.{machine_seen};
ghost use Rattle.look_window.specs.turn_watch.declared.links.LinkSight.{LinkSight};
ghost use Rattle.look_window.specs.Counted.{counted_machine};
ghost use Rattle.node_journal.specs.Said.{LogsTurn};
ghost use Rattle.node_loop.specs.node_connections.LinkSights.{link_at};
ghost use Rattle.node_loop.specs.node_core.View.{site_in, state_of};
ghost use Rattle.node_loop.specs.node_service.Answers.{grants};
ghost use Rattle.record_files.specs.Noted.{HasTurn};

use look_window::LookNotes;
use node_folder::{ClientSight, Stopwatch, Store};
use node_journal::{NodeEvent, NodeJournal};
use node_loop::{Doors, NodeRun, Notes, Turned};
use record_files::Tape;
use record_files::process_parts::{NodeFault, NodeWords};
use std::fs::File;
use std::rt::{Clock, Env, Files};

/// What watches a node while it runs.
#[derive(Drop)]
pub struct Observer<'a, 'w, R> {
    /// Its clock.
    pub watch: Stopwatch<'a, R>,
    /// What it notes about itself for lookers.
    pub window: LookNotes<'w>,
    /// What it says about itself.
    pub journal: NodeJournal<'a, R>,
    /// Its deeds in the last turn, if it keeps a record.
    pub notes: Notes,
    /// Its record, if it keeps one.
    pub tape: Option<Tape<'a, R>>,
}

impl<'a, 'w, R: Files<File = File> + Clock + Eprint + AllocGlobal> Observer<'a, 'w, R> {
    /// What watches a node that starts now with these words.
    ///
    /// # Errors
    /// If it keeps a record, and memory runs out.
    pub fn open<D: Doors, S: Store + Drop>(
        rt: &'a R,
        words: &NodeWords<'w>,
        mut watch: Stopwatch<'a, R>,
        run: &NodeRun<D, S>,
    ) -> Result<Observer<'a, 'w, R>, NodeFault>
    where
        R: Env,
        ensures level { IfOk result (λ observer. observer.journal.log.least ≡ words.now.log) }
        ensures limit { IfOk result (λ observer. observer.window.notes.limit ≡ words.now.turn) }
        // Without a record its deeds are not noted.
        ensures off { words.now.record_size ≡ None
            → IfOk result (λ observer. (observer.tape ≡ None) × (observer.notes.room ≡ 0)) }
    {
        let now = watch.now();
        let (notes, tape) = recording(rt, words, run, now)?;
        Ok(Observer {
            window: LookNotes::open(rt, words.turn, words.version, now),
            journal: NodeJournal::begin(rt, words, now),
            notes,
            tape,
            watch,
        })
    }

    /// Waits until something may have come to the node. If its next turn is then due, returns the time
    /// at which the turn begins; else the node does what it must between turns.
    pub fn awaits_turn<D: Doors, S: Store + Drop>(&mut self, run: &mut NodeRun<D, S>) -> Option<u64>
        // A record neither begins nor ends.
        ensures keeps { is_some self.new.tape ≡ is_some self.old.tape }
        ensures journal { self.new.journal ≡ self.old.journal }
        // If a turn is due, this notes nothing.
        ensures due { IsSome result → (self.new.tape ≡ self.old.tape) × (self.new.window ≡ self.old.window)
            × (self.new.notes ≡ self.old.notes) }
    {
        run.wait(self.watch.last());
        let now = self.watch.now();
        if run.is_turn_due(now) {
            return Some(now);
        }
        run.attend(now, &mut self.notes);
        self.attended(run, now);
        None
    }

    /// The node takes a turn that begins at this time. Notes its deeds, and what lookers are shown.
    pub fn take_turn<D: Doors, S: Store + Drop>(
        &mut self,
        run: &mut NodeRun<D, S>,
        now: u64,
    ) -> Turned
        ensures looks { IsSome result.saved ↔ (run.old.turns ≡ 255) }
        // What lookers are shown has the turn, the loan there is after it, and a round of the token if the
        // node's machine moved.
        ensures turns { self.new.window.notes.turns ≡ turn_ended self.old.window.notes.limit
            self.new.watch.last self.old.window.notes.turns }
        ensures loans { self.new.window.notes.loans ≡ desk_seen self.new.watch.last (record {
          has_granted = grants result.ticked.act;
          lends = is_some (state_of run.new.node).desk.lent;
        }) self.old.window.notes.loans }
        ensures rounds { self.new.window.notes.rounds
            ≡ machine_seen (counted_machine (site_in run.new.node) (state_of run.new.node))
            self.old.window.notes.rounds }
        // It has the link that was next, as it is after the turn, and the other links as they were.
        ensures link { (sight : LinkSight) → self.old.window.notes.next < 64
            → link_at (slice_get run.new.ports.items self.old.window.notes.next) ≡ Some sight
            → link_of self.new.window.notes.links self.old.window.notes.next
            ≡ link_seen sight self.new.watch.last
            (link_of self.old.window.notes.links self.old.window.notes.next) }
        ensures other_links { (other : ℕ) → other ≢ self.old.window.notes.next
            → link_of self.new.window.notes.links other
            ≡ link_of self.old.window.notes.links other }
        ensures rest { (self.new.window.notes.limit ≡ self.old.window.notes.limit)
            × (self.new.window.notes.next
            ≡ next_of run.new.net.nodes self.old.window.notes.next)
            × (self.new.window.said ≡ self.old.window.said) }
        ensures others { (self.new.tape ≡ self.old.tape) × (self.new.journal ≡ self.old.journal) }
    {
        let turned = run.turn(now, &mut self.notes);
        let ended = self.watch.now();
        self.window.turn_ended(
            run.node(),
            run.ports(),
            run.net().nodes(),
            turned.has_granted(),
            ended,
        );
        turned
    }

    /// Says what happened in a turn, and with the clients that came until its end. Records the turn, which
    /// began at this time.
    pub fn turn_ended<D: Doors, S: Store + Drop>(
        &mut self,
        run: &NodeRun<D, S>,
        turned: &Turned,
        clients: ClientSight,
        now: u64,
    )
        ensures keeps { is_some self.new.tape ≡ is_some self.old.tape }
        // A log that is on logs the turn, which ended when the clock was last read.
        ensures logged { IsTrue (is_some self.old.journal.log.least)
            → LogsTurn run.now.net run.now.node run.now.ports.items turned.now.ticked.act clients
            self.old.watch.last self.old.journal.log self.new.journal.log }
        // A record that has not stopped has the turn.
        ensures recorded { IfSome self.old.tape (λ old. IfSome self.new.tape (λ new.
            HasTurn old.start now old.linked self.old.notes.deeds (not self.old.notes.is_torn)
            (is_some turned.now.saved) run.now.node run.now.ports.items old.recorder new.recorder)) }
        ensures others { (self.new.window ≡ self.old.window) × (self.new.watch ≡ self.old.watch)
            × (self.new.notes ≡ self.old.notes) }
    {
        let (act, ended) = (turned.ticked.act, self.watch.last());
        self.journal
            .turn_ended(run.node(), run.net(), run.ports(), act, clients, ended);
        self.record(run, turned.is_to_look(), now);
    }

    /// The node did something other than a turn, and began it at this time.
    pub fn attended<D: Doors, S: Store + Drop>(&mut self, run: &NodeRun<D, S>, now: u64)
        ensures journal { self.new.journal ≡ self.old.journal }
        ensures keeps { is_some self.new.tape ≡ is_some self.old.tape }
        // No turn is noted, and a record that has not stopped has what was done.
        ensures turns { self.new.window.notes.turns ≡ self.old.window.notes.turns }
        ensures recorded { IfSome self.old.tape (λ old. IfSome self.new.tape (λ new.
            HasTurn old.start now old.linked self.old.notes.deeds (not self.old.notes.is_torn)
            false run.now.node run.now.ports.items old.recorder new.recorder)) }
    {
        let ended = self.watch.now();
        self.window.attended(run.node(), ended);
        self.record(run, false, now);
    }

    /// Records what the node noted of a turn, or of what it did between two turns, which began at
    /// this time. `must_settle` says whether it may have other neighbours before its next turn,
    /// or end.
    pub fn record<D: Doors, S: Store + Drop>(
        &mut self,
        run: &NodeRun<D, S>,
        must_settle: bool,
        now: u64,
    )
        ensures off { self.old.tape ≡ None → self.new ≡ self.old }
        ensures keeps { is_some self.new.tape ≡ is_some self.old.tape }
        // A record that has not stopped has the turn.
        ensures recorded { IfSome self.old.tape (λ old. IfSome self.new.tape (λ new.
            HasTurn old.start now old.linked self.old.notes.deeds (not self.old.notes.is_torn)
            must_settle run.now.node run.now.ports.items old.recorder new.recorder)) }
        ensures others { (self.new.journal ≡ self.old.journal) × (self.new.window ≡ self.old.window)
            × (self.new.watch ≡ self.old.watch) × (self.new.notes ≡ self.old.notes) }
    {
        if let Some(tape) = &mut self.tape {
            let (deeds, has_all) = (self.notes.deeds(), self.notes.has_all());
            tape.turn_ended(run.node(), run.ports(), deeds, has_all, must_settle, now);
        }
    }

    /// The node may have other neighbours from now on.
    pub fn rewired<D: Doors, S: Store + Drop>(&mut self, words: &NodeWords<'_>, run: &NodeRun<D, S>)
        ensures off { self.old.tape ≡ None → self.new ≡ self.old }
        ensures keeps { is_some self.new.tape ≡ is_some self.old.tape }
    {
        if let Some(tape) = &mut self.tape {
            tape.rewired(words, run.net(), run.node());
        }
    }

    /// The node ends.
    pub fn ends(&mut self, now: u64)
        ensures keeps { is_some self.new.tape ≡ is_some self.old.tape }
    {
        self.journal.say(NodeEvent::Ends, now);
        if let Some(tape) = &mut self.tape {
            tape.end();
        }
    }
}

/// The notes for the deeds of a node that starts with these words, and its record, if it keeps one.
///
/// # Errors
/// If it keeps a record, and memory runs out.
fn recording<'a, R: Files<File = File> + Clock + Eprint + AllocGlobal, D: Doors, S: Store + Drop>(
    rt: &'a R,
    words: &NodeWords<'_>,
    run: &NodeRun<D, S>,
    now: u64,
) -> Result<(Notes, Option<Tape<'a, R>>), NodeFault>
    ensures off { words.now.record_size ≡ None
        → IfOk result (λ made. (made.0.room ≡ 0) × (made.1 ≡ None)) }
{
    let Some(size) = words.record_size else {
        return Ok((Notes::none(), None));
    };
    let tape = Tape::open(rt, words, size, run.net(), run.node(), now)?;
    match Notes::with_room(rt.alloc()) {
        Ok(notes) => Ok((notes, Some(tape))),
        Err(_) => {
            drop(tape);
            Err(NodeFault::Memory)
        }
    }
}
