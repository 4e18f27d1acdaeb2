//! How long frames were under way until they were taken.
ghost use Rattle.std.specs.Prelude.{◌≡◌, ◌++◌, ◌∷◌, [], IfOk, OnOk, fold, slice_get, max};
ghost use Rattle.gather_command.specs.Delays.{no_delays, since, link_place, with_link, without, with_edge};
ghost use Rattle.gather_command.specs.Delays.{with_sent, with_taken, with_lost, delays_after_harm};
ghost use Rattle.gather_command.specs.Delays.{delays_after_event, delays_after};

use crate::watch::since;
use record_gathering::{Event, Harm, any_written};
use std::alloc::{AllocError, Global};
use std::marker::Model;

/// The most nodes of a network.
const NODES: usize = 64;

/// When each item under way on a link was accepted, the oldest first.
#[derive(Drop)]
struct Accepted {
    instants: Vec<u64>,
}

impl Model for Accepted {
    ghost use Rattle.std.specs.Prelude.{ℕ, List};

    ghost Value = { List ℕ };

    ghost view = { λ a. a.instants.items };
}

impl Accepted {
    /// Nothing is under way.
    fn new(alloc: Global) -> Accepted
        ensures { result ≡ [] }
    {
        Accepted {
            instants: Vec::new(alloc),
        }
    }

    /// An item is accepted at an instant.
    fn add(&mut self, instant: u64) -> Result<(), AllocError>
        ensures { OnOk result (self.new ≡ self.old ++ instant ∷ []) }
    {
        self.instants.push(instant)?;
        Ok(())
    }

    /// Removes this item, if there is one.
    fn remove(&mut self, item: usize)
        ensures { self.new ≡ without self.old item }
    {
        if item < self.instants.len() {
            let _instant = self.instants.remove(item);
        }
    }

    /// The instant at which the oldest item was accepted; none if nothing is under way.
    fn oldest(&self) -> Option<u64>
        ensures { result ≡ slice_get self.now 0 }
    {
        self.instants.first().copied()
    }

    /// Nothing is under way any more.
    fn clear(&mut self)
        ensures { self.new ≡ [] }
    {
        self.instants.clear();
    }
}

/// How long frames were under way, in microseconds.
#[derive(Drop)]
pub struct Delays {
    links: Vec<Accepted>,
    longest: u64,
}

impl Model for Delays {
    ghost use Rattle.gather_command.specs.Delays.{DelaysView};

    ghost Value = { DelaysView };

    ghost view = { λ d. record { links = d.links.items; longest = d.longest } };
}

/// The place of a link among those of 64 nodes.
fn link_place(from: u16, to: u16) -> usize
    ensures { result ≡ link_place from to }
{
    usize::from(from) * NODES + usize::from(to)
}

impl Delays {
    /// The delays when nothing is under way. `AllocError` comes only if memory is refused.
    pub fn new(alloc: Global) -> Result<Delays, AllocError>
        ensures { IfOk result (λ d. d ≡ no_delays) }
    {
        let mut links = Vec::new(alloc);
        for place in 0..NODES * NODES {
            links.push(Accepted::new(alloc))?;
        }
        Ok(Delays { links, longest: 0 })
    }

    /// An entry of this instant became these events.
    ///
    /// # Errors
    /// If memory runs out.
    pub fn sees(&mut self, instant: u64, events: &[Event]) -> Result<(), AllocError>
        ensures { OnOk result (self.new ≡ delays_after self.old instant events.now) }
    {
        if any_written(events) {
            return Ok(());
        }
        self.sees_all(instant, events)
    }

    /// These events happened at an instant.
    fn sees_all(&mut self, instant: u64, events: &[Event]) -> Result<(), AllocError>
        ensures { OnOk result (self.new ≡ fold (delays_after_event instant) self.old events.now) }
    {
        for event in events {
            self.sees_one(instant, event)?;
        }
        Ok(())
    }

    /// An event happened at an instant.
    fn sees_one(&mut self, instant: u64, event: &Event) -> Result<(), AllocError>
        ensures { OnOk result (self.new ≡ delays_after_event instant self.old event.now) }
    {
        match event {
            Event::Send { from, to } => self.accept(*from, *to, instant)?,
            Event::Take { from, to } => self.take(*from, *to, instant),
            Event::Lose { from, to, item } => self.lose(*from, *to, *item),
            Event::Damage(harm) => self.suffer(harm),
            Event::Tick { .. } | Event::Ask { .. } | Event::Leave { .. } => {}
        }
        Ok(())
    }

    /// A link accepted a frame at an instant.
    fn accept(&mut self, from: u16, to: u16, instant: u64) -> Result<(), AllocError>
        ensures { OnOk result (self.new ≡ with_sent self.old from to instant) }
    {
        match self.links.get_mut(link_place(from, to)) {
            Some(link) => link.add(instant),
            None => Ok(()),
        }
    }

    /// The oldest item of a link was taken at an instant.
    fn take(&mut self, from: u16, to: u16, instant: u64)
        ensures { self.new ≡ with_taken self.old from to instant }
    {
        if let Some(link) = self.links.get_mut(link_place(from, to)) {
            self.longest = self.longest.max(since(link.oldest(), instant));
            link.remove(0);
        }
    }

    /// An item of a link is lost.
    fn lose(&mut self, from: u16, to: u16, item: u16)
        ensures { self.new ≡ with_lost self.old from to item }
    {
        if let Some(link) = self.links.get_mut(link_place(from, to)) {
            link.remove(usize::from(item));
        }
    }

    /// A harm was done.
    fn suffer(&mut self, harm: &Harm)
        ensures { self.new ≡ delays_after_harm self.old harm.now }
    {
        match harm {
            Harm::Empty { from, to } => self.clear(*from, *to),
            Harm::Join { node, neighbour } | Harm::Part { node, neighbour } => {
                self.clear(*node, *neighbour);
                self.clear(*neighbour, *node);
            }
            Harm::Own { .. }
            | Harm::Counters { .. }
            | Harm::Staged { .. }
            | Harm::Copy { .. }
            | Harm::Value { .. }
            | Harm::Desk { .. }
            | Harm::Item { .. } => {}
        }
    }

    /// Nothing is under way on a link any more.
    fn clear(&mut self, from: u16, to: u16)
        ensures { self.new ≡ with_link self.old from to [] }
    {
        if let Some(link) = self.links.get_mut(link_place(from, to)) {
            link.clear();
        }
    }

    /// Forgets the longest time, but not what is under way.
    pub fn begins_again(&mut self)
        ensures { self.new ≡ record self.old { longest = 0 } }
    {
        self.longest = 0;
    }

    /// The longest time from the instant at which a link accepted a frame to that at which it was taken.
    pub fn longest(&self) -> u64
        ensures { result ≡ self.now.longest }
    {
        self.longest
    }
}
