//! The nodes that the privilege has visited, as a mask with a bit for each.
ghost use Rattle.std.specs.Prelude.{◌≡◌, ◌<◌, ◌==◌, ◌&&◌, ◌||◌, ℕ, nat_lt, IsTrue};
ghost use Rattle.configuration.specs.run_model.Privilege.{is_privileged};
ghost use Rattle.configuration.specs.ConfigurationView.{world_of};
ghost use Rattle.judge.specs.Stretch.{has_bit, names_below};
ghost use Rattle.judge.specs.Visited.{ticked_or_took};

use configuration::{Configuration, Happened};
use std::alloc::Allocator;
use topology::laws as topology_laws;

/// The mask with the bit of a node set.
fn with(mask: u64, node: u16) -> u64
    requires { node < 64 }
    ensures { (v : ℕ) → has_bit result v ≡ (has_bit mask v || v == node) }
{
    mask | (1 << node)
}

/// The nodes that are privileged now. Looks at each node.
#[inline(never)]
pub fn privileged_nodes<A: Allocator + Copy>(configuration: &Configuration<A>) -> u64
    ensures { (v : ℕ) → has_bit result v ≡ (nat_lt v (world_of configuration.now).net.nodes
        && is_privileged (world_of configuration.now) v) }
{
    topology_laws::limits();
    let mut mask = 0;
    for node in 0..configuration.net().nodes() {
        if configuration.node(node).privileged() {
            mask = with(mask, node);
        }
    }
    mask
}

/// The mask, with the bit of a node set if the node is privileged now. Looks at no node whose bit
/// is set.
#[inline(always)]
fn visit<A: Allocator + Copy>(configuration: &Configuration<A>, mask: u64, node: u16) -> u64
    requires { node < (world_of configuration.now).net.nodes }
    ensures { (v : ℕ) → has_bit result v
        ≡ (has_bit mask v || (v == node && is_privileged (world_of configuration.now) v)) }
{
    topology_laws::limits();
    let _known_nodes = configuration.net().nodes();
    let visited = with(mask, node);
    if visited != mask && configuration.node(node).privileged() {
        visited
    } else {
        mask
    }
}

/// The visited nodes after what happened, unless that is damage. Looks only at the node that ticked
/// or took, if any: no other node's machines or copies have changed.
#[inline(always)]
pub fn visited_after<A: Allocator + Copy>(
    configuration: &Configuration<A>,
    visited: u64,
    happened: &Happened,
) -> u64
    requires { IsTrue (names_below (world_of configuration.now).net.nodes happened.now) }
    // Only the node that ticked or took can have become privileged.
    ensures { (v : ℕ) → has_bit result v
        ≡ (has_bit visited v || (ticked_or_took v happened.now
        && is_privileged (world_of configuration.now) v)) }
{
    match *happened {
        Happened::FullTick { node } => visit(configuration, visited, node),
        Happened::LendingTick { node } => visit(configuration, visited, node),
        Happened::Taken { to, .. } => visit(configuration, visited, to),
        _ => visited,
    }
}
