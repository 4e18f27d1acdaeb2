//! The test of whether a network serves, over all nodes.
ghost use Rattle.std.specs.Prelude.{◌↔◌, ◌<◌, ◌≤◌, IsTrue};
ghost use Rattle.run_model.specs.NodeCounts.{lending_count, privileged_count};
ghost use Rattle.run_model.specs.Headline.{IsServing};
ghost use Rattle.configuration.specs.ConfigurationView.{world_of};
ghost use Rattle.configuration.specs.TreeShown.{IsNodeShown, IsTreeShown};

use crate::configuration::Configuration;
use std::alloc::Allocator;

/// Whether each node has its distance and its true parent, at most one node is privileged, and at
/// most one lends. Looks only at nodes, not at links, and takes no memory.
pub fn serves<A: Allocator + Copy>(configuration: &Configuration<A>) -> bool
    ensures { IsTrue result ↔ IsServing (world_of configuration.now) }
{
    topology::laws::tree();
    configuration.ranges_hold();
    // Counting the nodes costs less than looking for their parents.
    has_few(configuration) && shows_tree(configuration)
}

/// Whether at most one node is privileged, and at most one lends.
fn has_few<A: Allocator + Copy>(configuration: &Configuration<A>) -> bool
    ensures { IsTrue result ↔ ((privileged_count (world_of configuration.now) ≤ 1)
        × (lending_count (world_of configuration.now) ≤ 1)) }
{
    configuration.privileged() <= 1 && configuration.lending() <= 1
}

/// Whether each node has its distance and its true parent.
fn shows_tree<A: Allocator + Copy>(configuration: &Configuration<A>) -> bool
    ensures { IsTrue result ↔ IsTreeShown (world_of configuration.now) }
{
    for v in 0..configuration.net().nodes() {
        if !shows_node(configuration, v) {
            return false;
        }
    }
    true
}

/// Whether a node has its distance and its true parent.
fn shows_node<A: Allocator + Copy>(configuration: &Configuration<A>, v: u16) -> bool
    requires { v < (world_of configuration.now).net.nodes }
    ensures { IsTrue result ↔ IsNodeShown (world_of configuration.now) v }
{
    let net = configuration.net();
    let node = configuration.node(v);
    node.distance() == net.distance(v) && node.parent() == net.parent(v)
}
