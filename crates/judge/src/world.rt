//! A network at one moment, with all memory that its run and its judge need.
ghost use Rattle.std.specs.Prelude.{◌≡◌, ◌↔◌, ◌<◌, ◌≤◌, IfOk, IfErr, OnOk, None, Some, length};
ghost use Rattle.std.specs.Prelude.{IsTrue};
ghost use Rattle.configuration.specs.node_core.View.{state_of, site_in};
ghost use Rattle.configuration.specs.run_model.World.{IsWorldInRange, site};
ghost use Rattle.configuration.specs.run_model.Headline.{IsServing};
ghost use Rattle.configuration.specs.run_model.Start.{default_world, world_with_spares};
ghost use Rattle.configuration.specs.run_model.NodeCounts.{lending_count, privileged_count};
ghost use Rattle.configuration.specs.run_model.Step.{refusal, step};
ghost use Rattle.configuration.specs.ConfigurationView.{world_of};

use crate::stretch::Stretch;
use configuration::{Configuration, Event, EventFault, Node};
use std::alloc::{AllocError, Allocator, Global};
use std::marker::Model;
use topology::Net;

/// A network at one moment. It reserves all memory that any step, and any judge, needs.
#[derive(Drop)]
pub struct World<A: Allocator + Copy = Global> {
    /// The nodes and links now.
    pub(crate) configuration: Configuration<A>,
    /// The room in which a judge keeps a run.
    pub(crate) room: Stretch<A>,
}

impl<A: Allocator + Copy> Model for World<A> {
    ghost use Rattle.configuration.specs.ConfigurationView.{ConfigurationView};
    ghost use Rattle.judge.specs.Stretch.{HasRoomFor};

    ghost Value = { ConfigurationView };

    ghost view = { λ w. w.configuration };

    ghost invariant = { λ w. HasRoomFor w.configuration.links.net w.room };
}

impl<A: Allocator + Copy> World<A> {
    /// The world of fresh nodes and empty links, without spare links: an edge may join only once
    /// another has parted. It keeps a copy of the network, and reserves all memory that any step,
    /// and any judge, needs; returns `AllocError` only if that memory is refused.
    pub fn new<N: Allocator + Copy>(alloc: A, net: &Net<N>) -> Result<World<A>, AllocError>
        ensures { IfOk result (λ world. world_of world ≡ default_world net.now) }
    {
        World::with_spares(alloc, net, 0)
    }

    /// The same, with `pairs` spare pairs of links, at most 256, each for one more edge.
    ///
    /// # Errors
    /// If memory runs out.
    pub fn with_spares<N: Allocator + Copy>(
        alloc: A,
        net: &Net<N>,
        pairs: u16,
    ) -> Result<World<A>, AllocError>
        requires { pairs ≤ 256 }
        ensures { IfOk result (λ world. world_of world ≡ world_with_spares net.now pairs) }
    {
        Ok(World {
            configuration: Configuration::with_spares(alloc, net, pairs)?,
            room: Stretch::new(alloc, net)?,
        })
    }

    /// The nodes and links.
    pub fn configuration(&self) -> &Configuration<A>
        ensures { result.now ≡ self.now }
    {
        &self.configuration
    }

    /// The present network.
    pub fn net(&self) -> &Net<A>
        ensures { result.now ≡ (world_of self.now).net }
    {
        self.configuration.net()
    }

    /// A node.
    pub fn node(&self, v: u16) -> &Node<A>
        requires { v < (world_of self.now).net.nodes }
        ensures state { state_of result.now ≡ (world_of self.now).node v }
        // It knows its own id, neighbours and ranges.
        ensures site { site_in result.now ≡ site (world_of self.now) v }
    {
        self.configuration.node(v)
    }

    /// Every world is in range: each field of a node, and what is under way on each link. Looks at
    /// each node once, and changes nothing.
    pub fn ranges_hold(&self)
        ensures { IsWorldInRange (world_of self.now) }
    {
        self.configuration.ranges_hold();
    }

    /// How many items are under way from one node to another.
    pub fn under_way(&self, from: u16, to: u16) -> usize
        requires from_in { from < (world_of self.now).net.nodes }
        requires to_in { to < (world_of self.now).net.nodes }
        ensures items { result ≡ length ((world_of self.now).link from to) }
        // 4096 is the greatest capacity.
        ensures few { result ≤ 4096 }
    {
        self.configuration.under_way(from, to)
    }

    /// How many nodes are privileged.
    pub fn privileged(&self) -> usize
        ensures { result ≡ privileged_count (world_of self.now) }
    {
        self.configuration.privileged()
    }

    /// How many nodes lend the lock.
    pub fn lending(&self) -> usize
        ensures { result ≡ lending_count (world_of self.now) }
    {
        self.configuration.lending()
    }

    /// Whether it serves at this moment: each node has its distance and its true parent, at most
    /// one node is privileged, and at most one lends. Looks only at nodes, not at links, and takes
    /// no memory.
    pub fn serves(&self) -> bool
        ensures { IsTrue result ↔ IsServing (world_of self.now) }
    {
        configuration::serves(&self.configuration)
    }

    /// Lets one event happen. It is refused for the first cause that holds, in the order of
    /// `EventFault`; then nothing has changed.
    ///
    /// No step takes memory. None looks through the network or copies a state, unless it is to add
    /// or remove an edge.
    pub fn step(&mut self, event: &Event) -> Result<(), EventFault>
        // The world is that of the model's step, in which a refused event changes nothing.
        ensures world { world_of self.new ≡ step (world_of self.old) event.now }
        // The event is accepted if the model refuses nothing; else the first refusal is returned.
        ensures ok { OnOk result (refusal (world_of self.old) event.now ≡ None) }
        ensures err { IfErr result (λ fault. refusal (world_of self.old) event.now ≡ Some fault) }
    {
        configuration::laws::runs();
        let _happened = self.configuration.step(event)?;
        Ok(())
    }
}
