//! What all nodes and links of a network hold at one moment.
ghost use Rattle.std.specs.Prelude.{◌≡◌, ◌<◌, ◌≤◌, IsTrue, if◌then◌else◌, IfOk, IfErr, OnOk, None};
ghost use Rattle.std.specs.Prelude.{Some, Contains, length, slice_get};
ghost use Rattle.topology.specs.Network.{are_joined, neighbours_of};
ghost use Rattle.run_model.specs.node_core.View.{state_of, site_in};
ghost use Rattle.run_model.specs.World.{IsWorldInRange, site};
ghost use Rattle.run_model.specs.Start.{default_world, world_with_spares};
ghost use Rattle.run_model.specs.NodeCounts.{lending_count, privileged_count};
ghost use Rattle.run_model.specs.Step.{desk_fault, link_fault, node_fault, nodes_fault};
ghost use Rattle.run_model.specs.declared.happened.Happened.TheVariants.{FullTick, LendingTick};
ghost use Rattle.run_model.specs.declared.event.Event.TheVariants.{Send, Take, Lose, Tick, Ask};
ghost use Rattle.run_model.specs.declared.event.Event.TheVariants.{Leave, Damage};
ghost use Rattle.topology.specs.Ranges.{ranges_of};
ghost use Rattle.run_model.specs.node_core.State.{default_node};
ghost use Rattle.configuration.specs.ConfigurationView.{AreNodesOf, states_of, world_of};
ghost use Rattle.configuration.specs.Answers.{Answers};

mod harms;

use crate::links::Links;
use run_model::{AskFault, Event, EventFault, Happened, Item, NoItem, Node, Stranger};
use std::alloc::{AllocError, Allocator, Global};
use std::marker::Model;
use topology::{Net, laws as topology_laws};

/// The event's refusal for a refusal of the desk.
fn desk_fault(fault: AskFault) -> EventFault
    ensures { desk_fault (Some fault) ≡ Some result }
{
    match fault {
        AskFault::Full => EventFault::Full,
        AskFault::Twice => EventFault::Twice,
    }
}

/// What a tick did, by whether it was full.
fn tick_of(node: u16, full: bool) -> Happened
    ensures { result ≡ (if full then FullTick node else LendingTick node) }
{
    if full {
        Happened::FullTick { node }
    } else {
        Happened::LendingTick { node }
    }
}

/// What all nodes and links of a network hold at one moment: the state of each node, and what is
/// under way on each link.
#[derive(Drop)]
pub struct Configuration<A: Allocator + Copy = Global> {
    nodes: Vec<Node<A>, A>,
    links: Links<A>,
}

impl<A: Allocator + Copy> Model for Configuration<A> {
    ghost use Rattle.configuration.specs.ConfigurationView.{ConfigurationView, AreNodesOf};

    ghost Value = { ConfigurationView };

    ghost view = { λ w. record { nodes = w.nodes.items; links = w.links } };

    ghost invariant = { λ w. AreNodesOf w.links.net w.nodes.items };
}

/// A fresh node for each id.
fn new_nodes<A: Allocator + Copy, N: Allocator + Copy>(
    alloc: A,
    net: &Net<N>,
) -> Result<Vec<Node<A>, A>, AllocError>
    ensures nodes { IfOk result (λ nodes. AreNodesOf net.now nodes.items) }
    // Each has the state of a fresh node.
    ensures states { IfOk result (λ nodes. states_of net.now nodes.items
        ≡ λ v. default_node (ranges_of net.now)) }
{
    let mut nodes = Vec::new(alloc);
    for id in 0..net.nodes() {
        nodes.push(Node::new(alloc, net, id)?)?;
    }
    Ok(nodes)
}

impl<A: Allocator + Copy> Configuration<A> {
    /// Fresh nodes, nothing under way, and no spare links. It keeps a copy of the network, and
    /// reserves all memory that any step needs.
    pub fn new<N: Allocator + Copy>(alloc: A, net: &Net<N>) -> Result<Configuration<A>, AllocError>
        ensures { IfOk result (λ configuration. world_of configuration ≡ default_world net.now) }
    {
        Configuration::with_spares(alloc, net, 0)
    }

    /// The same, with `pairs` spare pairs of links, at most 256: each for one more edge.
    pub fn with_spares<N: Allocator + Copy>(
        alloc: A,
        net: &Net<N>,
        pairs: u16,
    ) -> Result<Configuration<A>, AllocError>
        requires { pairs ≤ 256 }
        ensures { IfOk result (λ configuration.
            world_of configuration ≡ world_with_spares net.now pairs) }
    {
        let links = Links::with_spares(alloc, net, pairs)?;
        let nodes = new_nodes(alloc, net)?;
        Ok(Configuration { nodes, links })
    }

    /// The nodes by their ids, and the links, which keep the network. Takes no memory.
    pub fn into_parts(self) -> (Vec<Node<A>, A>, Links<A>)
        ensures nodes { result.0.items ≡ self.nodes }
        ensures links { result.1 ≡ self.links }
        // Each node knows its own site of the network.
        ensures sites { AreNodesOf result.1.net result.0.items }
    {
        (self.nodes, self.links)
    }

    /// The configuration of these nodes and links. Each id of the links' network must have its
    /// node, at its place. Takes no memory.
    pub fn from_parts(nodes: Vec<Node<A>, A>, links: Links<A>) -> Configuration<A>
        requires { AreNodesOf links.net nodes.items }
        ensures { result ≡ record { nodes = nodes.items; links = links } }
    {
        Configuration { nodes, links }
    }

    /// The network.
    pub fn net(&self) -> &Net<A>
        ensures { result.now ≡ (world_of self.now).net }
    {
        self.links.net()
    }

    /// A node.
    pub fn node(&self, v: u16) -> &Node<A>
        requires { v < (world_of self.now).net.nodes }
        ensures state { state_of result.now ≡ (world_of self.now).node v }
        // It knows its own id, neighbours and ranges.
        ensures site { site_in result.now ≡ site (world_of self.now) v }
    {
        &self.nodes[usize::from(v)]
    }

    /// Every configuration is in range: each field of a node, and what is under way on each link.
    /// Looks at each node once, and changes nothing.
    pub fn ranges_hold(&self)
        ensures { IsWorldInRange (world_of self.now) }
    {
        topology_laws::joined();
        let nodes = self.links.net().nodes();
        for v in 0..nodes {
            let _known_ranges = self.nodes[usize::from(v)].ranges();
        }
    }

    /// How many items are under way from one node to another.
    pub fn under_way(&self, from: u16, to: u16) -> usize
        requires from_in { from < (world_of self.now).net.nodes }
        requires to_in { to < (world_of self.now).net.nodes }
        ensures items { result ≡ length ((world_of self.now).link from to) }
        // 4096 is the greatest capacity.
        ensures few { result ≤ 4096 }
    {
        self.links.len(from, to)
    }

    /// The item at an index of what is under way from one node to another, 0 being the oldest.
    pub fn item(&self, from: u16, to: u16, index: usize) -> Item
        requires from_in { from < (world_of self.now).net.nodes }
        requires to_in { to < (world_of self.now).net.nodes }
        requires there { index < length ((world_of self.now).link from to) }
        ensures { slice_get ((world_of self.now).link from to) index ≡ Some result }
    {
        self.links.get(from, to, index)
    }

    /// How many nodes are privileged.
    pub fn privileged(&self) -> usize
        ensures { result ≡ privileged_count (world_of self.now) }
    {
        let mut count = 0;
        for v in 0..self.links.net().nodes() {
            if self.node(v).privileged() {
                count += 1;
            }
        }
        count
    }

    /// How many nodes lend the lock.
    pub fn lending(&self) -> usize
        ensures { result ≡ lending_count (world_of self.now) }
    {
        let mut count = 0;
        for v in 0..self.links.net().nodes() {
            if self.node(v).lent().is_some() {
                count += 1;
            }
        }
        count
    }

    /// The place of the node with an id; refuses an id without a node.
    #[inline(always)]
    fn find_node(&self, v: u16) -> Result<usize, EventFault>
        ensures ok { IfOk result (λ place. (place ≡ v) × (v < (world_of self.now).net.nodes)
            × (node_fault (world_of self.now) v ≡ None)) }
        ensures err { IfErr result (λ fault. node_fault (world_of self.now) v ≡ Some fault) }
    {
        if v < self.links.net().nodes() {
            Ok(usize::from(v))
        } else {
            Err(EventFault::NoNode)
        }
    }

    /// Refuses two ids unless both have nodes.
    #[inline(always)]
    fn find_nodes(&self, from: u16, to: u16) -> Result<(), EventFault>
        ensures ok { OnOk result ((from < (world_of self.now).net.nodes)
            × (to < (world_of self.now).net.nodes)
            × (nodes_fault (world_of self.now) from to ≡ None)) }
        ensures err { IfErr result (λ fault. nodes_fault (world_of self.now) from to ≡ Some fault) }
    {
        let nodes = self.links.net().nodes();
        if from < nodes && to < nodes {
            Ok(())
        } else {
            Err(EventFault::NoNode)
        }
    }

    /// Refuses two ids unless they are neighbours.
    #[inline(always)]
    fn find_link(&self, from: u16, to: u16) -> Result<(), EventFault>
        ensures ok { OnOk result ((from < (world_of self.now).net.nodes)
            × (to < (world_of self.now).net.nodes)
            × IsTrue (are_joined (world_of self.now).net.edges from to)
            × (link_fault (world_of self.now) from to ≡ None)) }
        // Each is among the other's neighbours.
        ensures near { OnOk result (Contains (neighbours_of (world_of self.now).net from) to
            × Contains (neighbours_of (world_of self.now).net to) from) }
        ensures err { IfErr result (λ fault. link_fault (world_of self.now) from to ≡ Some fault) }
    {
        topology_laws::neighbours();
        topology_laws::joined();
        self.find_nodes(from, to)?;
        if !self.links.are_joined(from, to) {
            return Err(EventFault::NoLink);
        }
        Ok(())
    }

    /// The node `from` sends the frame of its port to `to`.
    #[inline(always)]
    fn send(&mut self, from: u16, to: u16) -> Result<Happened, EventFault>
        ensures { Answers self.old (Send from to) self.new result }
    {
        self.find_link(from, to)?;
        let frame = self.nodes[usize::from(from)].frame_for(to);
        self.links.put(from, to, Item::Frame(frame));
        Ok(Happened::Other)
    }

    /// A node ticks.
    #[inline(always)]
    fn tick(&mut self, node: u16) -> Result<Happened, EventFault>
        ensures { Answers self.old (Tick node) self.new result }
    {
        let place = self.find_node(node)?;
        let ticked = self.nodes[place].tick();
        Ok(tick_of(node, ticked.full))
    }

    /// The node `to` takes the oldest item of the link from `from`, if there is one.
    #[inline(always)]
    fn take(&mut self, from: u16, to: u16) -> Result<Happened, EventFault>
        ensures { Answers self.old (Take from to) self.new result }
    {
        self.find_link(from, to)?;
        match self.links.take(from, to) {
            Some(item) => {
                self.nodes[usize::from(to)].take(from, &item);
                Ok(Happened::Taken { from, to })
            }
            None => Ok(Happened::NothingTaken { from, to }),
        }
    }

    /// Loses the item at an index of a link; 0 is the oldest.
    #[inline(never)]
    fn lose(&mut self, from: u16, to: u16, item: u16) -> Result<Happened, EventFault>
        ensures { Answers self.old (Lose from to item) self.new result }
    {
        self.find_link(from, to)?;
        if let Err(NoItem) = self.links.lose(from, to, usize::from(item)) {
            return Err(EventFault::NoItem);
        }
        Ok(Happened::Lost { from, to, item })
    }

    /// A client asks a node for the lock.
    #[inline(never)]
    fn ask(&mut self, node: u16, ticket: u16) -> Result<Happened, EventFault>
        ensures { Answers self.old (Ask node ticket) self.new result }
    {
        let place = self.find_node(node)?;
        if let Err(fault) = self.nodes[place].ask(ticket) {
            return Err(desk_fault(fault));
        }
        Ok(Happened::Other)
    }

    /// A client releases the lock at a node, or stops waiting.
    #[inline(never)]
    fn leave(&mut self, node: u16, ticket: u16) -> Result<Happened, EventFault>
        ensures { Answers self.old (Leave node ticket) self.new result }
    {
        let place = self.find_node(node)?;
        if let Err(Stranger) = self.nodes[place].leave(ticket) {
            return Err(EventFault::Stranger);
        }
        Ok(Happened::Other)
    }

    /// Lets one event happen, and returns what it did. It is refused for the first cause that
    /// holds, in the order of `EventFault`; then nothing has changed.
    ///
    /// No step takes memory. None looks through the network or copies a state, unless it is to add
    /// or remove an edge.
    #[inline(always)]
    pub fn step(&mut self, event: &Event) -> Result<Happened, EventFault>
        ensures { Answers self.old event.now self.new result }
    {
        // A result that is passed on whole goes through memory for every event; one taken apart and
        // rebuilt does not.
        match *event {
            Event::Send { from, to } => self.send(from, to),
            Event::Take { from, to } => self.take(from, to),
            Event::Lose { from, to, item } => Ok(self.lose(from, to, item)?),
            Event::Tick { node } => self.tick(node),
            Event::Ask { node, ticket } => Ok(self.ask(node, ticket)?),
            Event::Leave { node, ticket } => Ok(self.leave(node, ticket)?),
            Event::Damage(harm) => Ok(self.damage(&harm)?),
        }
    }
}
