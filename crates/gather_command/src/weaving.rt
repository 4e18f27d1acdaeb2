//! A world that the entries of all records move forward.
ghost use Rattle.std.specs.Prelude.{◌≡◌, ◌<◌, ◌++◌, IfOk, OnOk, length};
ghost use Rattle.gather_command.specs.Reading.{MayFail};
ghost use Rattle.gather_command.specs.Records.{listed, flaws_of, flaws_in};
ghost use Rattle.gather_command.specs.Weave.{events_at};
ghost use Rattle.gather_command.specs.Watch.{numbers_of};
ghost use Rattle.gather_command.specs.View.{heads_in};
ghost use Rattle.gather_command.specs.Woven.{world_in, IsAtStart, IsTurn, IsNoted, HasPassed};
ghost use Rattle.gather_command.specs.Woven.{moved_to};
ghost use Rattle.record_gathering.specs.View.{gathered};

use crate::damage::Difference;
use crate::fault::Flaw;
use crate::node_record::NodeRecord;
use crate::sight::WovenSight;
use crate::summary::RecordingSummary;
use record_gathering::{Configuration, Event, EventCounts, Gathering};
use record_pages::{Entry, Source};
use std::alloc::{AllocError, Global};
use std::marker::Model;
use topology::Net;

/// How many more edges may join than the network has at its start: as many as in a simulation.
pub const SPARE_PAIRS: u16 = 8;

/// A world that the entries of all records move forward.
#[derive(Drop)]
pub struct Weaving<S: Source + Drop> {
    gathering: Gathering,
    nodes: Vec<NodeRecord<S>>,
    /// The next entry of each node's record.
    heads: Vec<Option<Entry>>,
    sight: WovenSight,
}

impl<S: Source + Drop> Model for Weaving<S> {
    ghost use Rattle.std.specs.Prelude.{◌≡◌, length};
    ghost use Rattle.record_gathering.specs.View.{gathered};
    ghost use Rattle.gather_command.specs.WeavingView.{WeavingView};
    ghost use Rattle.gather_command.specs.View.{heads_in};

    ghost Value = { WeavingView };

    ghost view = { λ w. record { gathering = w.gathering; records = w.nodes.items; seen = w.sight } };

    ghost invariant = { λ w. (w.heads.items ≡ heads_in w.nodes.items)
        × ((gathered w.gathering).net.nodes ≡ length w.nodes.items)
        × (length w.sight.watch.nodes ≡ length w.nodes.items) };
}

/// The next entry of each node's record.
fn heads_of<S: Source + Drop>(
    alloc: Global,
    nodes: &[NodeRecord<S>],
) -> Result<Vec<Option<Entry>>, AllocError>
    ensures { IfOk result (λ heads. heads.items ≡ heads_in nodes.now) }
{
    let mut heads = Vec::new(alloc);
    for node in nodes {
        heads.push(node.head())?;
    }
    Ok(heads)
}

/// Adds a flaw, if there is one.
fn add_flaw(flaws: &mut Vec<Flaw>, more: Option<Flaw>) -> Result<(), AllocError>
    ensures { OnOk result (flaws.new.items ≡ flaws.old.items ++ listed more) }
{
    if let Some(flaw) = more {
        flaws.push(flaw)?;
    }
    Ok(())
}

/// Adds the flaws of a node's record.
fn add_flaws<S: Source + Drop>(
    flaws: &mut Vec<Flaw>,
    node: &NodeRecord<S>,
) -> Result<(), AllocError>
    ensures { OnOk result (flaws.new.items ≡ flaws.old.items ++ flaws_of node.now) }
{
    add_flaw(flaws, node.earlier())?;
    add_flaw(flaws, node.flaw())
}

/// The flaws of records, by their nodes.
fn flaws_in<S: Source + Drop>(
    alloc: Global,
    nodes: &[NodeRecord<S>],
) -> Result<Vec<Flaw>, AllocError>
    ensures { IfOk result (λ flaws. flaws.items ≡ flaws_in nodes.now) }
{
    let mut flaws = Vec::new(alloc);
    for node in nodes {
        add_flaws(&mut flaws, node)?;
    }
    Ok(flaws)
}

impl<S: Source + Drop> Weaving<S> {
    /// The network as it starts, and these records, by their nodes.
    pub fn new(
        alloc: Global,
        net: &Net,
        nodes: Vec<NodeRecord<S>>,
    ) -> Result<Weaving<S>, AllocError>
        requires { length nodes.items ≡ net.now.nodes }
        ensures { IfOk result (IsAtStart net.now nodes.items) }
    {
        let heads = heads_of(alloc, &nodes)?;
        let gathering = Gathering::new(alloc, net, SPARE_PAIRS)?;
        let sight = WovenSight::new(alloc, net.nodes())?;
        Ok(Weaving {
            gathering,
            nodes,
            heads,
            sight,
        })
    }

    /// Whose entry comes next, and that entry; none if all records are read to their ends.
    pub fn turn(&self) -> Option<(u16, Entry)>
        ensures { IsTurn self.now result }
    {
        let node = self.gathering.next_node(&self.heads)?;
        let entry = self.heads.get(usize::from(node)).copied().unwrap_or(None)?;
        Some((node, entry))
    }

    /// Turns an entry of a node's record into events, which are all that the list holds afterwards.
    ///
    /// # Errors
    /// If memory runs out.
    pub fn notes(
        &mut self,
        node: u16,
        entry: &Entry,
        events: &mut Vec<Event>,
    ) -> Result<(), AllocError>
        requires { node < (world_in self.old).net.nodes }
        ensures noted { OnOk result (IsNoted self.old node entry.now self.new) }
        ensures nodes { OnOk result
            ((world_in self.new).net.nodes ≡ (world_in self.old).net.nodes) }
        ensures events { OnOk result (events.new.items
            ≡ events_at (world_in self.old) self.old.gathering.queues node entry.now) }
    {
        record_gathering::laws::runs();
        let fields = self.gathering.fields(node, &entry.noted);
        self.gathering.notes(node, &entry.noted, events)?;
        let lent = self.gathering.world().node(node).lent();
        self.sight.sees(node, entry, events, lent, &fields)?;
        Ok(())
    }

    /// Passes over the next entry of a node's record.
    pub fn passes(&mut self, node: u16)
        requires { node < (world_in self.old).net.nodes }
        ensures { HasPassed (MayFail S.failures) self.old node self.new }
    {
        let place = usize::from(node);
        let opened = &mut self.nodes[place];
        opened.advance();
        let head = opened.head();
        self.heads[place] = head;
    }

    /// The world that the entries so far led to.
    pub fn world(&self) -> &Configuration
        ensures { result.now ≡ self.now.gathering.configuration }
    {
        self.gathering.world()
    }

    /// Goes on in the world of a gathering, which the events counted in `found` set up. Of what was
    /// seen so far, only this is kept: which nodes' whole states were noted, and when the frames
    /// under way were sent.
    pub fn moves_to(&mut self, gathering: Gathering, found: EventCounts)
        requires { (gathered gathering).net.nodes ≡ (world_in self.old).net.nodes }
        ensures { self.new ≡ moved_to self.old gathering found }
    {
        self.gathering.moves_to(gathering);
        self.sight.begins_again(found);
    }

    /// The flaws of all records, by their nodes.
    pub fn flaws(&self, alloc: Global) -> Result<Vec<Flaw>, AllocError>
        ensures { IfOk result (λ flaws. flaws.items ≡ flaws_in self.now.records) }
    {
        flaws_in(alloc, &self.nodes)
    }

    /// The first fields that differed from what their nodes' records led to, 64 at most.
    pub fn differences(&self, alloc: Global) -> Result<Vec<Difference>, AllocError>
        ensures { IfOk result (λ shown. shown.items ≡ self.now.seen.damage.shown) }
    {
        self.sight.differences(alloc)
    }

    /// What was seen of this many nodes, in numbers.
    pub fn numbers(&self, nodes: u16) -> RecordingSummary
        ensures { result ≡ numbers_of nodes self.now.seen }
    {
        self.sight.numbers(nodes)
    }
}
