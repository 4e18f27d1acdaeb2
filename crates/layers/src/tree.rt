//! Up to which stage the tree of distances and parents is right.
ghost use Rattle.std.specs.Prelude.{◌≡◌, ◌↔◌, ◌<◌, ℕ, IsTrue};
ghost use Rattle.topology.specs.Network.{are_joined};
ghost use Rattle.topology.specs.Tree.{distance_of, parent_of};
ghost use Rattle.configuration.specs.run_model.Tree.{IsTreeAtStage, IsTreeReached, IsTrueOf};
ghost use Rattle.configuration.specs.run_model.node_core.bfs_tree.Stage.{is_of_stage};
ghost use Rattle.configuration.specs.ConfigurationView.{world_of};
ghost use Rattle.layers.specs.Stages.{IsLinkAtStage, IsNodeAtStage, AreLinksAtStage, IsStageOf};
ghost use Rattle.layers.specs.Stages.{IsLinkTrue, IsNodeTrue, AreLinksTrue};

use configuration::Configuration;
use std::alloc::Allocator;
use topology::{Payload, laws as topology_laws};

/// The greatest stage that the tree is at, up to one more than the greatest distance: at that one
/// each distance is exact.
pub fn stage_of<A: Allocator + Copy>(configuration: &Configuration<A>) -> u16
    ensures { IsStageOf (world_of configuration.now) result }
{
    topology_laws::eccentricity();
    let net = configuration.net();
    let _known_nodes = net.nodes();
    let last = net.eccentricity() + 1;
    for stage in 0..last {
        if !is_at_stage(configuration, stage + 1) {
            return stage;
        }
    }
    last
}

/// Whether every distance that is written for a node is of a stage.
fn is_at_stage<A: Allocator + Copy>(configuration: &Configuration<A>, stage: u16) -> bool
    ensures { IsTrue result ↔ IsTreeAtStage stage (world_of configuration.now) }
{
    topology_laws::joined();
    for v in 0..configuration.net().nodes() {
        if !is_node_at_stage(configuration, v, stage) {
            return false;
        }
    }
    true
}

/// Whether every distance that is written for one node is of a stage: its own, and what is staged
/// and copied of it.
fn is_node_at_stage<A: Allocator + Copy>(
    configuration: &Configuration<A>,
    v: u16,
    stage: u16,
) -> bool
    requires { v < (world_of configuration.now).net.nodes }
    ensures { IsTrue result ↔ IsNodeAtStage stage (world_of configuration.now) v }
{
    let distance = configuration.net().distance(v);
    is_of_stage(stage, distance, configuration.node(v).distance())
        && are_links_at_stage(configuration, v, stage, distance)
}

/// Whether what is staged and copied of a node at this distance is of a stage.
fn are_links_at_stage<A: Allocator + Copy>(
    configuration: &Configuration<A>,
    v: u16,
    stage: u16,
    distance: u16,
) -> bool
    requires node { v < (world_of configuration.now).net.nodes }
    requires distance { distance ≡ distance_of (world_of configuration.now).net v }
    ensures { IsTrue result ↔ AreLinksAtStage stage (world_of configuration.now) v }
{
    topology_laws::neighbours();
    topology_laws::joined();
    let net = configuration.net();
    let _known_nodes = net.nodes();
    for &u in net.neighbours(v) {
        if !is_link_at_stage(configuration, v, u, stage, distance) {
            return false;
        }
    }
    true
}

/// Whether what is staged and copied on one link of a node at this distance is of a stage.
fn is_link_at_stage<A: Allocator + Copy>(
    configuration: &Configuration<A>,
    v: u16,
    u: u16,
    stage: u16,
    distance: u16,
) -> bool
    requires node { v < (world_of configuration.now).net.nodes }
    requires other { u < (world_of configuration.now).net.nodes }
    requires distance { distance ≡ distance_of (world_of configuration.now).net v }
    ensures { IsTrue result ↔ IsLinkAtStage stage (world_of configuration.now) v u }
{
    let staged = configuration.node(v).staged_for(u);
    let copy = configuration.node(u).copy_of(v);
    is_of_stage(stage, distance, staged.distance) && is_of_stage(stage, distance, copy.distance)
}

/// Whether the distance that is written for a node at this distance is of a stage.
fn is_of_stage(stage: u16, distance: u16, written: u16) -> bool
    ensures { result ≡ is_of_stage stage distance written }
{
    if distance < stage {
        written == distance
    } else {
        stage <= written
    }
}

/// Whether every node, and everything that is staged and copied, shows the true distance and the
/// true parent.
pub fn is_tree_reached<A: Allocator + Copy>(configuration: &Configuration<A>) -> bool
    ensures { IsTrue result ↔ IsTreeReached (world_of configuration.now) }
{
    topology_laws::joined();
    for v in 0..configuration.net().nodes() {
        if !is_node_true(configuration, v) {
            return false;
        }
    }
    true
}

/// Whether a node, and everything that is staged and copied of it, shows its true distance and
/// parent.
fn is_node_true<A: Allocator + Copy>(configuration: &Configuration<A>, v: u16) -> bool
    requires { v < (world_of configuration.now).net.nodes }
    ensures { IsTrue result ↔ IsNodeTrue (world_of configuration.now) v }
{
    let distance = configuration.net().distance(v);
    let parent = configuration.net().parent(v);
    let node = configuration.node(v);
    node.distance() == distance
        && node.parent() == parent
        && are_links_true(configuration, v, distance, parent)
}

/// Whether what is staged and copied of a node shows this distance and parent.
fn are_links_true<A: Allocator + Copy>(
    configuration: &Configuration<A>,
    v: u16,
    distance: u16,
    parent: Option<u16>,
) -> bool
    requires node { v < (world_of configuration.now).net.nodes }
    requires distance { distance ≡ distance_of (world_of configuration.now).net v }
    requires parent { parent ≡ parent_of (world_of configuration.now).net v }
    ensures { IsTrue result ↔ AreLinksTrue (world_of configuration.now) v }
{
    topology_laws::neighbours();
    topology_laws::joined();
    let net = configuration.net();
    let _known_nodes = net.nodes();
    for &u in net.neighbours(v) {
        if !is_link_true(configuration, v, u, distance, parent) {
            return false;
        }
    }
    true
}

/// Whether what is staged and copied on one link of a node shows this distance and parent.
fn is_link_true<A: Allocator + Copy>(
    configuration: &Configuration<A>,
    v: u16,
    u: u16,
    distance: u16,
    parent: Option<u16>,
) -> bool
    requires node { v < (world_of configuration.now).net.nodes }
    requires other { u < (world_of configuration.now).net.nodes }
    requires distance { distance ≡ distance_of (world_of configuration.now).net v }
    requires parent { parent ≡ parent_of (world_of configuration.now).net v }
    ensures { IsTrue result ↔ IsLinkTrue (world_of configuration.now) v u }
{
    let staged = configuration.node(v).staged_for(u);
    let copy = configuration.node(u).copy_of(v);
    shows(staged, distance, parent) && shows(copy, distance, parent)
}

/// Whether a payload shows this distance and parent.
fn shows(payload: Payload, distance: u16, parent: Option<u16>) -> bool
    ensures { IsTrue result ↔ ((payload.distance ≡ distance) × (payload.parent ≡ parent)) }
{
    payload.distance == distance && payload.parent == parent
}
