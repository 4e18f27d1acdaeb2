//! All layers at once.
ghost use Rattle.std.specs.Prelude.{◌≡◌, ◌↔◌, ◌&&◌, IsTrue};
ghost use Rattle.configuration.specs.ConfigurationView.{world_of};
ghost use Rattle.convergence.specs.Legitimate.{IsLegitimate};
ghost use Rattle.layers.specs.LayersOf.{AreLayersOf};

use crate::links::{link_count, stable_count};
use crate::loans::are_loans_privileged;
use crate::token_ring::is_token_ring_good;
use crate::tree::{is_tree_reached, stage_of};
use configuration::Configuration;
use std::alloc::Allocator;
use topology::laws as topology_laws;

/// What has settled in a network at one moment.
#[derive(Clone, Copy, Debug)]
pub struct Layers {
    /// How many links there are; an edge is one in each direction.
    pub links: usize,
    /// How many of them are stable.
    pub stable: usize,
    /// The stage at which every distance is exact: one more than the greatest distance.
    pub last_stage: u16,
    /// Up to which stage the distances are right.
    pub stage: u16,
    /// Whether every distance and every parent is the true one.
    pub tree: bool,
    /// Whether the token ring is good.
    pub ring: bool,
    /// Whether each node that lends is privileged.
    pub loans: bool,
    /// Whether the world is legitimate.
    pub legitimate: bool,
}

impl Layers {
    /// What has settled in a network. It looks at every node and at everything that is under way.
    pub fn of<A: Allocator + Copy>(configuration: &Configuration<A>) -> Layers
        ensures { AreLayersOf (world_of configuration.now) result }
    {
        topology_laws::joined();
        topology_laws::neighbours();
        topology_laws::eccentricity();
        let net = configuration.net();
        let _known_nodes = net.nodes();
        let links = link_count(net);
        let stable = stable_count(configuration);
        let tree = is_tree_reached(configuration);
        let ring = is_token_ring_good(configuration);
        let loans = are_loans_privileged(configuration);
        Layers {
            links,
            stable,
            last_stage: net.eccentricity() + 1,
            stage: stage_of(configuration),
            tree,
            ring,
            loans,
            legitimate: all_stand(stable == links, tree, ring, loans),
        }
    }
}

/// Whether all four conditions of a legitimate world hold.
fn all_stand(links: bool, tree: bool, ring: bool, loans: bool) -> bool
    ensures { result ≡ (links && (tree && (ring && loans))) }
{
    links && tree && ring && loans
}
