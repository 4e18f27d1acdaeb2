//! Whether two worlds are the same: in every field of every node, and in every item under way.
use node_follower::Follower;
use std::alloc::{AllocError, Global};
use world::{Links, World};

/// Whether a node is the same in both worlds.
fn is_same_node(alloc: Global, one: &World, other: &World, id: u16) -> bool {
    if id >= one.net().nodes() || id >= other.net().nodes() {
        return false;
    }
    match Follower::new(alloc, one.net(), id) {
        Ok(mut follower) => {
            follower.take_over(one.node(id)) && follower.stands_as(other.node(id))
        }
        Err(AllocError) => false,
    }
}

/// Whether both have the same items under way on a link, in the same order.
fn is_same_link(one: &Links, other: &Links, from: u16, to: u16) -> bool {
    let nodes = one.net().nodes().min(other.net().nodes());
    if from >= nodes || to >= nodes || one.len(from, to) != other.len(from, to) {
        return false;
    }
    for index in 0..one.len(from, to) {
        if one.get(from, to, index) != other.get(from, to, index) {
            return false;
        }
    }
    true
}

/// Whether two worlds of three nodes are the same.
pub fn is_same_world(alloc: Global, one: World, other: World) -> bool {
    let mut is_same = one.net().nodes() == 3 && other.net().nodes() == 3;
    for id in 0..3 {
        is_same &= is_same_node(alloc, &one, &other, id);
    }
    let (one, other) = (one.into_parts().links, other.into_parts().links);
    for from in 0..3 {
        for to in 0..3 {
            is_same &= is_same_link(&one, &other, from, to);
        }
    }
    is_same
}
