//! What is seen of the entries that were woven.
ghost use Rattle.std.specs.Prelude.{◌≡◌, ◌<◌, IfOk, OnOk, length, if◌then◌else◌};
ghost use Rattle.gather_command.specs.Watch.{nothing_seen, seen_after, numbers_of, is_tick};
ghost use Rattle.gather_command.specs.Watch.{is_whole, watched_after, seen_again};

use crate::damage::{Damage, Difference};
use crate::delays::Delays;
use crate::summary::RecordingSummary;
use crate::watch::{RecordWatch, Span, length_of, with_instant};
use record_gathering::{Event, EventCounts, Field};
use record_pages::{Deed, Entry, Noted, StatePart};
use std::alloc::{AllocError, Global};
use std::marker::Model;

/// What is seen of the entries that were woven.
#[derive(Drop)]
pub struct WovenSight {
    found: EventCounts,
    damage: Damage,
    watch: RecordWatch,
    delays: Delays,
    span: Option<Span>,
}

impl Model for WovenSight {
    ghost use Rattle.gather_command.specs.Watch.{Seen};

    ghost Value = { Seen };

    ghost view = { λ s. record
        { found = s.found; damage = s.damage; watch = s.watch; delays = s.delays; span = s.span } };
}

/// Whether what is noted is a tick.
fn is_tick(noted: &Noted) -> bool
    ensures { result ≡ is_tick noted.now }
{
    matches!(noted, Noted::Deed(Deed::Ticks))
}

/// Whether what is noted is the end of a whole state.
fn is_whole(noted: &Noted) -> bool
    ensures { result ≡ is_whole noted.now }
{
    matches!(noted, Noted::State(StatePart::Whole))
}

/// Watches a node after an entry of its record was woven. The node then lends to this ticket, or to
/// nobody.
fn watch_entry(watch: &mut RecordWatch, node: u16, entry: &Entry, lent: Option<u16>)
    requires { node < length watch.old.nodes }
    ensures watched { watch.new ≡ watched_after watch.old node entry.now lent }
    ensures nodes { length watch.new.nodes ≡ length watch.old.nodes }
{
    watch_parts(watch, node, entry, lent);
}

/// Watches the end of a state, a tick, and a loan that begins or ends.
fn watch_parts(watch: &mut RecordWatch, node: u16, entry: &Entry, lent: Option<u16>)
    requires { node < length watch.old.nodes }
    ensures { watch.new ≡ watched_after watch.old node entry.now lent }
{
    if is_whole(&entry.noted) {
        watch.noted_whole(node);
    }
    if is_tick(&entry.noted) {
        watch.ticked(node, entry.instant);
    }
    watch.lends(node, lent, entry.instant);
}

impl WovenSight {
    /// Nothing is seen yet of this many nodes. `AllocError` comes only if memory is refused.
    pub fn new(alloc: Global, nodes: u16) -> Result<WovenSight, AllocError>
        ensures { IfOk result (λ s. s ≡ nothing_seen nodes) }
    {
        Ok(WovenSight {
            found: EventCounts::new(),
            damage: Damage::new(alloc)?,
            watch: RecordWatch::new(alloc, nodes)?,
            delays: Delays::new(alloc)?,
            span: None,
        })
    }

    /// An entry of a node's record became these events, after which the node lends to this ticket. These
    /// fields of the node differed before them.
    ///
    /// # Errors
    /// If memory runs out.
    pub fn sees(
        &mut self,
        node: u16,
        entry: &Entry,
        events: &[Event],
        lent: Option<u16>,
        fields: &[Option<Field>],
    ) -> Result<(), AllocError>
        requires { node < length self.old.watch.nodes }
        ensures seen { OnOk result (self.new ≡ seen_after self.old (record {
          node = node;
          entry = entry.now;
          events = events.now;
          lent = lent;
          fields = fields.now;
        })) }
        ensures nodes { length self.new.watch.nodes ≡ length self.old.watch.nodes }
    {
        self.delays.sees(entry.instant, events)?;
        self.found.count_entry(events);
        if self.watch.is_known(node) {
            self.damage.add(node, entry.instant, fields);
        }
        watch_entry(&mut self.watch, node, entry, lent);
        self.span = with_instant(self.span, entry.instant);
        Ok(())
    }

    /// Begins again as if only the events counted in `found`, which set up the world, had been seen. It
    /// stays known which nodes' whole states were noted. The frames that are under way were sent before.
    pub fn begins_again(&mut self, found: EventCounts)
        ensures { self.new ≡ seen_again self.old found }
    {
        self.found = found;
        self.found.forged = 0;
        self.damage.begins_again();
        self.watch.begins_again();
        self.delays.begins_again();
        self.span = None;
    }

    /// The first fields that differed, 64 at most.
    pub fn differences(&self, alloc: Global) -> Result<Vec<Difference>, AllocError>
        ensures { IfOk result (λ shown. shown.items ≡ self.now.damage.shown) }
    {
        self.damage.shown(alloc)
    }

    /// What was seen of this many nodes, in numbers.
    pub fn numbers(&self, nodes: u16) -> RecordingSummary
        ensures { result ≡ numbers_of nodes self.now }
    {
        let (loans, longest_loan) = self.watch.loans();
        RecordingSummary {
            nodes,
            stretch: length_of(self.span),
            found: self.found,
            differences: self.damage.count(),
            longest_turn: self.watch.longest_turn(),
            longest_delay: self.delays.longest(),
            loans,
            longest_loan,
        }
    }
}
