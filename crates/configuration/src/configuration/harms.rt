//! Harms: what a transient fault writes into a configuration.
ghost use Rattle.std.specs.Prelude.{◌≡◌, ◌↔◌, ◌<◌, IfOk, IfErr, IsOk, length};
ghost use Rattle.topology.specs.Network.{neighbours_of};
ghost use Rattle.topology.specs.Ranges.{ranges_of};
ghost use Rattle.run_model.specs.node_core.Site.{site_of};
ghost use Rattle.run_model.specs.node_core.View.{site_in};
ghost use Rattle.run_model.specs.Rewire.{can_join};
ghost use Rattle.run_model.specs.World.{item_fits};
ghost use Rattle.run_model.specs.Step.{harm_fits};
ghost use Rattle.run_model.specs.declared.event.Event.TheVariants.{Damage};
ghost use Rattle.run_model.specs.declared.event.EventFault.TheVariants as fault;
ghost use Rattle.run_model.specs.declared.event.Harm.TheVariants as harm;
ghost use Rattle.run_model.specs.declared.happened.Happened.TheVariants.{Damaged};
ghost use Rattle.configuration.specs.ConfigurationView.{node_at, world_of};
ghost use Rattle.configuration.specs.Answers.{Answers};
ghost use Rattle.configuration.specs.Rewired.{IsRewired};

use crate::configuration::Configuration;
use run_model::{EventFault, Happened, Harm, Item, Node, OutOfRange, Payload};
use std::alloc::Allocator;
use topology::{Net, laws as topology_laws};

/// The event's answer to writing a value: damage, or that the value is out of range.
fn damaged(written: Result<(), OutOfRange>) -> Result<Happened, EventFault>
    ensures ok { IsOk result ↔ IsOk written }
    ensures did { IfOk result (λ did. did ≡ Damaged) }
    ensures err { IfErr result (λ refused. refused ≡ fault.OutOfRange) }
{
    match written {
        Ok(()) => Ok(Happened::Damaged),
        Err(OutOfRange) => Err(EventFault::OutOfRange),
    }
}

/// Whether an item is noise, or a frame whose fields are in range.
fn fits<A: Allocator + Copy>(net: &Net<A>, item: &Item) -> bool
    ensures { result ≡ item_fits (ranges_of net.now) item.now }
{
    match item {
        Item::Frame(frame) => net.fits(frame),
        Item::Noise => true,
    }
}

/// Gives a node its neighbours in a network that differs from its own at most in the edges.
fn rewire<A: Allocator + Copy>(nodes: &mut Vec<Node<A>, A>, net: &Net<A>, v: u16)
    requires there { v < length nodes.old.items }
    requires site { record
        (site_in (node_at nodes.old.items v)) { neighbours = neighbours_of net.now v }
        ≡ site_of net.now v }
    ensures { IsRewired net.now nodes.old.items v nodes.new.items }
{
    nodes[usize::from(v)].rewire(net);
}

impl<A: Allocator + Copy> Configuration<A> {
    /// Writes a node's distance and parent.
    fn write_own(
        &mut self,
        node: u16,
        distance: u16,
        parent: Option<u16>,
    ) -> Result<Happened, EventFault>
        ensures { Answers self.old (Damage (harm.Own node distance parent)) self.new result }
    {
        let place = self.find_node(node)?;
        damaged(self.nodes[place].set_own(distance, parent))
    }

    /// Writes the two numbers of a port.
    fn write_counters(
        &mut self,
        node: u16,
        neighbour: u16,
        seq: u16,
        last: u16,
    ) -> Result<Happened, EventFault>
        ensures { Answers self.old
            (Damage (harm.Counters node neighbour seq last)) self.new result }
    {
        self.find_link(node, neighbour)?;
        damaged(self.nodes[usize::from(node)].set_counters(neighbour, seq, last))
    }

    /// Writes the staged payload of a port.
    fn write_staged(
        &mut self,
        node: u16,
        neighbour: u16,
        payload: Payload,
    ) -> Result<Happened, EventFault>
        ensures { Answers self.old (Damage (harm.Staged node neighbour payload)) self.new result }
    {
        self.find_link(node, neighbour)?;
        damaged(self.nodes[usize::from(node)].set_staged(neighbour, payload))
    }

    /// Writes the copied payload of a port.
    fn write_copy(
        &mut self,
        node: u16,
        neighbour: u16,
        payload: Payload,
    ) -> Result<Happened, EventFault>
        ensures { Answers self.old (Damage (harm.Copy node neighbour payload)) self.new result }
    {
        self.find_link(node, neighbour)?;
        damaged(self.nodes[usize::from(node)].set_copy(neighbour, payload))
    }

    /// Writes the value of a machine.
    fn write_value(&mut self, node: u16, neighbour: u16, value: u16) -> Result<Happened, EventFault>
        ensures { Answers self.old (Damage (harm.Value node neighbour value)) self.new result }
    {
        self.find_link(node, neighbour)?;
        damaged(self.nodes[usize::from(node)].set_value(neighbour, value))
    }

    /// Writes a desk's loan.
    fn write_desk(
        &mut self,
        node: u16,
        lent: Option<u16>,
        left: u16,
        served: bool,
    ) -> Result<Happened, EventFault>
        ensures { Answers self.old (Damage (harm.Desk node lent left served)) self.new result }
    {
        let place = self.find_node(node)?;
        damaged(self.nodes[place].set_desk(lent, left, served))
    }

    /// Whether an item is in range and its link has room for it.
    fn may_put(&self, from: u16, to: u16, item: &Item) -> bool
        requires from_in { from < (world_of self.now).net.nodes }
        requires to_in { to < (world_of self.now).net.nodes }
        ensures { result ≡ harm_fits (world_of self.now) (harm.Item from to item.now) }
    {
        fits(self.links.net(), item)
            && self.links.len(from, to) < usize::from(self.links.net().capacity())
    }

    /// Puts one more item on a link, as the newest.
    fn write_item(&mut self, from: u16, to: u16, item: Item) -> Result<Happened, EventFault>
        ensures { Answers self.old (Damage (harm.Item from to item)) self.new result }
    {
        self.find_link(from, to)?;
        if !self.may_put(from, to, &item) {
            return Err(EventFault::OutOfRange);
        }
        self.links.put(from, to, item);
        Ok(Happened::Damaged)
    }

    /// Empties a link.
    fn write_empty(&mut self, from: u16, to: u16) -> Result<Happened, EventFault>
        ensures { Answers self.old (Damage (harm.Empty from to)) self.new result }
    {
        self.find_link(from, to)?;
        self.links.clear(from, to);
        Ok(Happened::Damaged)
    }

    /// Whether an edge may join two nodes: they are different, no edge joins them, and there are
    /// fewer edges than a network may have.
    fn may_join(&self, u: u16, v: u16) -> bool
        requires from_in { u < (world_of self.now).net.nodes }
        requires to_in { v < (world_of self.now).net.nodes }
        ensures { result ≡ can_join (world_of self.now).net u v }
    {
        u != v && !self.links.are_joined(u, v) && self.links.net().edges().len() < 256
    }

    /// Joins two nodes by an edge, with the links of a spare pair.
    fn join(&mut self, u: u16, v: u16) -> Result<Happened, EventFault>
        ensures { Answers self.old (Damage (harm.Join u v)) self.new result }
    {
        topology_laws::changes();
        self.find_nodes(u, v)?;
        if !self.may_join(u, v) {
            return Err(EventFault::OutOfRange);
        }
        if self.links.spares() == 0 {
            return Err(EventFault::NoSpare);
        }
        self.links.join(u, v);
        rewire(&mut self.nodes, self.links.net(), u);
        rewire(&mut self.nodes, self.links.net(), v);
        Ok(Happened::Damaged)
    }

    /// Removes the edge between two nodes; its links become a spare pair.
    fn part(&mut self, u: u16, v: u16) -> Result<Happened, EventFault>
        ensures { Answers self.old (Damage (harm.Part u v)) self.new result }
    {
        topology_laws::changes();
        topology_laws::joined();
        self.find_link(u, v)?;
        let _known_nodes = self.links.net().nodes();
        if self.links.part(u, v).is_err() {
            return Err(EventFault::Apart);
        }
        rewire(&mut self.nodes, self.links.net(), u);
        rewire(&mut self.nodes, self.links.net(), v);
        Ok(Happened::Damaged)
    }

    /// Does what a transient fault does: writes one part of the world, or changes one edge.
    #[inline(never)]
    pub(super) fn damage(&mut self, harm: &Harm) -> Result<Happened, EventFault>
        ensures { Answers self.old (Damage harm.now) self.new result }
    {
        match *harm {
            Harm::Own {
                node,
                distance,
                parent,
            } => self.write_own(node, distance, parent),
            Harm::Counters {
                node,
                neighbour,
                seq,
                last,
            } => self.write_counters(node, neighbour, seq, last),
            Harm::Staged {
                node,
                neighbour,
                payload,
            } => self.write_staged(node, neighbour, payload),
            Harm::Copy {
                node,
                neighbour,
                payload,
            } => self.write_copy(node, neighbour, payload),
            Harm::Value {
                node,
                neighbour,
                value,
            } => self.write_value(node, neighbour, value),
            Harm::Desk {
                node,
                lent,
                left,
                served,
            } => self.write_desk(node, lent, left, served),
            Harm::Item { from, to, item } => self.write_item(from, to, item),
            Harm::Empty { from, to } => self.write_empty(from, to),
            Harm::Join { node, neighbour } => self.join(node, neighbour),
            Harm::Part { node, neighbour } => self.part(node, neighbour),
        }
    }
}
