//! A world, in the state to which the entries of records led it.
ghost use Rattle.std.specs.Prelude.{◌≡◌, ◌≤◌, OnOk, OnErr, IfOk, [], ◌∷◌, length, replicate, take};
ghost use Rattle.configuration.specs.ConfigurationView.{world_of};
ghost use Rattle.configuration.specs.run_model.Run.{run};
ghost use Rattle.configuration.specs.run_model.Start.{world_with_spares};
ghost use Rattle.record_gathering.specs.Accepted.{accepted};
ghost use Rattle.configuration.specs.run_model.declared.event.Event.TheVariants.{Damage};
ghost use Rattle.record_gathering.specs.Entries.{entry_events, is_ready};
ghost use Rattle.record_gathering.specs.Facts.{fact_events, queues_with};
ghost use Rattle.record_gathering.specs.Fields.{fields_of};
ghost use Rattle.record_gathering.specs.Order.{IsNext};
ghost use Rattle.record_gathering.specs.Queues.{queue_of, queues_after};
ghost use Rattle.record_gathering.specs.View.{gathered};

use crate::entries::{add_entry, is_ready};
use crate::facts::Fact;
use crate::fields::{Field, fields_of};
use crate::laws::accepted_is_enough;
use crate::order::next_node;
use crate::queue::Queue;
use configuration::{Configuration, Event, Harm};
use flight_records::{Entry, Noted};
use std::alloc::{AllocError, Allocator, Global};
use std::marker::Model;
use topology::Net;

/// A world, in the state to which the entries so far led it.
#[derive(Drop)]
pub struct Gathering<A: Allocator + Copy = Global> {
    world: Configuration<A>,
    /// The tickets that wait in the states that are being noted, by node.
    queues: Vec<Queue, A>,
}

impl<A: Allocator + Copy> Model for Gathering<A> {
    ghost use Rattle.record_gathering.specs.View.{GatheringView};

    ghost Value = { GatheringView };

    ghost view = { λ g. record { configuration = g.world; queues = g.queues.items } };
}

/// Empty queues, one for each node.
fn new_queues<A: Allocator + Copy>(alloc: A, nodes: u16) -> Result<Vec<Queue, A>, AllocError>
    ensures { IfOk result (λ queues. queues.items ≡ replicate nodes []) }
{
    let mut queues = Vec::new(alloc);
    for node in 0..nodes {
        queues.push(Queue::new())?;
    }
    Ok(queues)
}

/// Lets events happen, one after the other, and moves those that are not refused to the front.
/// Returns how many these are.
fn happen<A: Allocator + Copy>(world: &mut Configuration<A>, events: &mut [Event]) -> usize
    ensures kept { take result events.new ≡ accepted (world_of world.old) events.old }
    ensures world { world_of world.new ≡ run (world_of world.old) events.old }
{
    let mut kept = 0;
    for index in 0..events.len() {
        let event = events[index];
        if world.step(&event).is_ok() {
            events[kept] = event;
            kept += 1;
        }
    }
    kept
}

/// Lets events happen, one after the other, and leaves out those that are refused.
fn keep_accepted<A: Allocator + Copy, B: Allocator>(
    world: &mut Configuration<A>,
    events: &mut Vec<Event, B>,
)
    ensures events { events.new.items ≡ accepted (world_of world.old) events.old.items }
    ensures world { world_of world.new ≡ run (world_of world.old) events.old.items }
{
    let kept = happen(world, events.as_mut_slice());
    events.truncate(kept);
}

impl<A: Allocator + Copy> Gathering<A> {
    /// A network as it starts, with this many spare pairs of links, at most 256, for edges that
    /// join it. `AllocError` is returned only if memory is refused.
    pub fn new(alloc: A, net: &Net, pairs: u16) -> Result<Gathering<A>, AllocError>
        requires { pairs ≤ 256 }
        ensures { IfOk result (λ g. (gathered g ≡ world_with_spares net.now pairs)
            × (g.queues ≡ replicate net.now.nodes [])) }
    {
        let world = Configuration::with_spares(alloc, net, pairs)?;
        let queues = new_queues(alloc, net.nodes())?;
        Ok(Gathering { world, queues })
    }

    /// The world now.
    pub fn world(&self) -> &Configuration<A>
        ensures { result.now ≡ self.now.configuration }
    {
        &self.world
    }

    /// Whether an entry of a node's record may come next. A frame that was taken may come next if
    /// an equal one is under way, and a frame that was sent if there is room for it. All other
    /// entries may always come next, and so may a frame that cannot be on its link.
    pub fn is_ready(&self, node: u16, noted: &Noted) -> bool
        ensures { result ≡ is_ready (gathered self.now) node noted.now }
    {
        is_ready(&self.world, node, noted)
    }

    /// The node whose entry comes next. `heads` are the next entries of all nodes' records, by
    /// node. None if all records are read to their ends. Entries that are ready come first, then
    /// frames that were sent on links that are full, and last frames that were taken and are not
    /// under way; within a kind, the earliest comes first.
    pub fn next_node(&self, heads: &[Option<Entry>]) -> Option<u16>
        ensures { IsNext (gathered self.now) heads.now (gathered self.now).net.nodes result }
    {
        next_node(&self.world, heads)
    }

    /// The queue of a node.
    fn queue(&self, node: u16) -> &[u16]
        ensures { result.now ≡ queue_of self.now.queues node }
    {
        match self.queues.get(usize::from(node)) {
            Some(queue) => queue.tickets(),
            None => &[],
        }
    }

    /// The fields of a node that differ from what the next entry of its record says; at most five.
    /// A frame that it took counts as one if it may be on its link and no equal one is under way
    /// there.
    pub fn fields(&self, node: u16, noted: &Noted) -> [Option<Field>; 5]
        ensures { result ≡ fields_of (gathered self.now) (queue_of self.now.queues node) node
            noted.now }
    {
        fields_of(&self.world, self.queue(node), node, noted)
    }

    /// Lets events happen in the world, and leaves out those that are refused.
    fn let_happen<B: Allocator>(&mut self, events: &mut Vec<Event, B>)
        ensures events { events.new.items ≡ accepted (gathered self.old) events.old.items }
        ensures world { gathered self.new ≡ run (gathered self.old) events.new.items }
        ensures queues { self.new.queues ≡ self.old.queues }
    {
        accepted_is_enough();
        keep_accepted(&mut self.world, events);
    }

    /// Brings the queue of a node up to date after an entry of its record.
    fn note_queue(&mut self, node: u16, noted: &Noted)
        ensures queues { self.new.queues ≡ queues_after self.old.queues node noted.now }
        ensures world { self.new.configuration ≡ self.old.configuration }
    {
        if let Some(queue) = self.queues.get_mut(usize::from(node)) {
            queue.notes(noted);
        }
    }

    /// Takes the next entry of a node's record, in its long form. It becomes events, which happen
    /// in the world; afterwards the list holds exactly these. If no node has the number `node`, the
    /// entry becomes no event.
    ///
    /// # Errors
    /// If memory runs out; then nothing has happened.
    pub fn notes<B: Allocator>(
        &mut self,
        node: u16,
        noted: &Noted,
        events: &mut Vec<Event, B>,
    ) -> Result<(), AllocError>
        ensures events { OnOk result (events.new.items
            ≡ accepted (gathered self.old)
            (entry_events (gathered self.old) (queue_of self.old.queues node) node noted.now)) }
        // The events of the list lead the world to its new state.
        ensures world { OnOk result (gathered self.new
            ≡ run (gathered self.old) events.new.items) }
        ensures queues { OnOk result (self.new.queues
            ≡ queues_after self.old.queues node noted.now) }
        ensures unchanged { OnErr result (self.new ≡ self.old) }
    {
        events.clear();
        add_entry(&self.world, self.queue(node), node, noted, events)?;
        self.let_happen(events);
        self.note_queue(node, noted);
        Ok(())
    }

    /// Does a harm. It becomes an event, unless it is refused; afterwards the list holds nothing
    /// else.
    ///
    /// # Errors
    /// If memory runs out; then nothing has happened.
    fn suffers<B: Allocator>(
        &mut self,
        harm: &Harm,
        events: &mut Vec<Event, B>,
    ) -> Result<(), AllocError>
        ensures events { OnOk result (events.new.items
            ≡ accepted (gathered self.old) (Damage harm.now ∷ [])) }
        ensures world { OnOk result (gathered self.new
            ≡ run (gathered self.old) events.new.items) }
        ensures queues { OnOk result (self.new.queues ≡ self.old.queues) }
        ensures unchanged { OnErr result (self.new ≡ self.old) }
    {
        events.clear();
        events.push(Event::Damage(*harm))?;
        self.let_happen(events);
        Ok(())
    }

    /// Makes a fact of another world hold here too. It becomes events, which happen in this world;
    /// afterwards the list holds exactly these. What is refused here does not become true.
    ///
    /// # Errors
    /// If memory runs out; then nothing has happened.
    pub fn sets<B: Allocator>(
        &mut self,
        fact: &Fact,
        events: &mut Vec<Event, B>,
    ) -> Result<(), AllocError>
        ensures events { OnOk result (events.new.items
            ≡ fact_events (gathered self.old) self.old.queues fact.now) }
        // The events of the list lead the world to its new state.
        ensures world { OnOk result (gathered self.new
            ≡ run (gathered self.old) events.new.items) }
        ensures queues { OnOk result (self.new.queues
            ≡ queues_with self.old.queues fact.now) }
        ensures unchanged { OnErr result (self.new ≡ self.old) }
    {
        match fact {
            Fact::State { node, part } => self.notes(*node, &Noted::State(*part), events),
            Fact::Written(harm) => self.suffers(harm, events),
        }
    }

    /// Goes on in the world of another gathering. The tickets that were noted to wait stay.
    pub fn moves_to(&mut self, other: Gathering<A>)
        ensures { self.new ≡ record self.old { configuration = other.configuration } }
    {
        self.world = other.world;
    }
}
