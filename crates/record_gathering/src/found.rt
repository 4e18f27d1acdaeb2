//! How much of what was found in records.
ghost use Rattle.std.specs.Prelude.{◌≡◌, ◌||◌, fold};
ghost use Rattle.record_gathering.specs.Counts.{one_more, with_harm, with_kind, with_event};
ghost use Rattle.record_gathering.specs.Counts.{with_events, with_entry, any_written, is_written, nothing};

use configuration::{Event, Harm};

/// How many events of each kind the entries became. A count that has reached its greatest value
/// stays there.
#[derive(Clone, Copy)]
pub struct EventCounts {
    /// How many events there are.
    pub events: u64,
    /// How many of them are harms.
    pub harms: u64,
    /// How many are losses. Those in an entry with a frame that nobody sent do not count.
    pub lost: u64,
    /// How many of the harms are frames that nobody sent.
    pub forged: u64,
}

/// The count with one more; at its greatest value it stays as it is.
fn one_more(count: u64) -> u64
    ensures { result ≡ one_more count }
{
    count.saturating_add(1)
}

impl EventCounts {
    /// Counts of no events.
    pub fn new() -> EventCounts
        ensures { result ≡ nothing }
    {
        EventCounts {
            events: 0,
            harms: 0,
            lost: 0,
            forged: 0,
        }
    }

    /// Counts these events too.
    pub fn count(&mut self, events: &[Event])
        ensures { self.new ≡ with_events self.old events.now }
    {
        for event in events {
            self.count_one(event);
        }
    }

    /// Counts these events too, which one entry became. If a frame that nobody sent is among them,
    /// it counts as one, and nothing counts as lost, since what was under way is put on its link
    /// again.
    pub fn count_entry(&mut self, events: &[Event])
        ensures { self.new ≡ with_entry self.old events.now }
    {
        let before = *self;
        self.count(events);
        if any_written(events) {
            self.lost = before.lost;
            self.forged = one_more(before.forged);
        }
    }

    /// Counts one more event.
    fn count_one(&mut self, event: &Event)
        ensures { self.new ≡ with_event self.old event.now }
    {
        self.events = one_more(self.events);
        match event {
            Event::Lose { .. } => self.lost = one_more(self.lost),
            Event::Damage(harm) => self.count_harm(harm),
            Event::Send { .. }
            | Event::Take { .. }
            | Event::Tick { .. }
            | Event::Ask { .. }
            | Event::Leave { .. } => {}
        }
    }

    /// Counts a harm.
    fn count_harm(&mut self, harm: &Harm)
        ensures { self.new ≡ with_harm self.old harm.now }
    {
        self.harms = one_more(self.harms);
        if let Harm::Item { .. } = harm {
            self.forged = one_more(self.forged);
        }
    }
}

/// Whether one of these events writes a frame or noise to a link.
pub fn any_written(events: &[Event]) -> bool
    ensures { result ≡ any_written events.now }
{
    let mut found = false;
    for event in events {
        found = is_one_written(found, event);
    }
    found
}

/// Whether an event writes a frame or noise to a link, or one before it did.
fn is_one_written(found: bool, event: &Event) -> bool
    ensures { result ≡ (found || is_written event.now) }
{
    found || is_written(event)
}

/// Whether an event writes a frame or noise to a link.
fn is_written(event: &Event) -> bool
    ensures { result ≡ is_written event.now }
{
    matches!(event, Event::Damage(Harm::Item { .. }))
}
