//! The machines of one node, on its registers: one for each tree neighbour.
ghost use Rattle.std.specs.Prelude.{◌≡◌, ◌<◌, ◌&&◌, ℕ, IsTrue, None, if◌then◌else◌};
ghost use Rattle.std.specs.List.{list_any};
ghost use Rattle.euler_ring.specs.Cycle.{is_on, is_tree_neighbour, special, source_for};
ghost use Rattle.euler_ring.specs.Cycle.{tree_neighbours};
ghost use Rattle.registers.specs.Registers.{port_of, value_of};
ghost use Rattle.node_core.specs.OnRegisters.{IsTreeWithin, machine_may_move, machine_moved};
ghost use Rattle.node_core.specs.OnRegisters.{values_moved};

use euler_ring::{TreeNeighbours, tree_neighbours};
use registers::{Registers, copy_move, privileged, root_move};
use std::alloc::Allocator;

/// The neighbours on the tree, by the node's own parent and the copied ones.
pub fn tree<A: Allocator>(registers: &Registers<A>, parent: Option<u16>, id: u16) -> TreeNeighbours
    ensures tree { result
        ≡ tree_neighbours parent id registers.now.neighbours
        (λ w. (port_of registers.now w).copy.parent) }
    ensures within { IsTreeWithin registers.now result }
{
    tree_neighbours(parent, id, registers.neighbours(), |w| {
        registers.copy_of(w).parent
    })
}

/// Whether a machine comes in from `t` and may move. The special machine, if any, comes in from
/// `chosen`.
fn may_move<A: Allocator>(
    registers: &Registers<A>,
    tree: &TreeNeighbours,
    chosen: Option<u16>,
    t: u16,
) -> bool
    requires { t < registers.now.ranges.nodes }
    ensures { result ≡ (is_on tree.now t && machine_may_move registers.now chosen t) }
{
    let value = registers.value(t);
    let before = registers.copy_of(t).ring;
    tree.contains(t) && privileged(chosen == Some(t), value, before)
}

/// The value, after a move, of the machine that comes in from `t`.
fn moved_value<A: Allocator>(registers: &Registers<A>, chosen: Option<u16>, t: u16) -> u16
    requires { t < registers.now.ranges.nodes }
    ensures value { result ≡ machine_moved registers.now chosen t }
    ensures below { result < registers.now.ranges.ring }
{
    let value = registers.value(t);
    if chosen == Some(t) {
        root_move(value, registers.ranges().ring)
    } else {
        copy_move(value, registers.copy_of(t).ring)
    }
}

/// Whether one of the machines may move.
pub fn some_may_move<A: Allocator>(
    registers: &Registers<A>,
    tree: &TreeNeighbours,
    is_root: bool,
) -> bool
    requires { IsTreeWithin registers.now tree.now }
    ensures { result ≡ list_any (machine_may_move registers.now (special is_root tree.now))
        tree.now }
{
    let chosen = tree.special(is_root);
    for t in registers.neighbours() {
        if may_move(registers, tree, chosen, *t) {
            return true;
        }
    }
    false
}

/// The ring value for `w`: that of the machine which leaves towards `w`, and 0 if `w` is no tree
/// neighbour.
pub fn ring_for<A: Allocator>(registers: &Registers<A>, tree: &TreeNeighbours, w: u16) -> u16
    requires { IsTreeWithin registers.now tree.now }
    ensures value { result
        ≡ (if is_on tree.now w then value_of registers.now (source_for tree.now w) else 0) }
    // It is below the modulus of the ring values.
    ensures below { result < registers.now.ranges.ring }
{
    if tree.contains(w) {
        registers.value(tree.source_for(w))
    } else {
        0
    }
}

/// Whether a neighbour is on the tree. Looks at no other neighbour.
fn is_on_tree<A: Allocator>(
    registers: &Registers<A>,
    parent: Option<u16>,
    id: u16,
    neighbour: u16,
) -> bool
    requires { neighbour < registers.now.ranges.nodes }
    ensures { result ≡ is_tree_neighbour parent id
        (λ w. (port_of registers.now w).copy.parent) neighbour }
{
    parent == Some(neighbour) || registers.copy_of(neighbour).parent == Some(id)
}

/// Whether a machine comes in from `t` and may move, at a node that is not the root.
fn may_copy<A: Allocator>(registers: &Registers<A>, parent: Option<u16>, id: u16, t: u16) -> bool
    requires { t < registers.now.ranges.nodes }
    ensures { result ≡ (is_tree_neighbour parent id
        (λ w. (port_of registers.now w).copy.parent) t && machine_may_move registers.now None t) }
{
    privileged(false, registers.value(t), registers.copy_of(t).ring)
        && is_on_tree(registers, parent, id, t)
}

/// Whether one of the machines may move, at a node that is not the root and so has no special
/// machine. Goes through the neighbours once, without listing those on the tree.
pub fn some_may_copy<A: Allocator>(registers: &Registers<A>, parent: Option<u16>, id: u16) -> bool
    ensures { result ≡ list_any (machine_may_move registers.now None)
        (tree_neighbours parent id registers.now.neighbours
        (λ w. (port_of registers.now w).copy.parent)) }
{
    for t in registers.neighbours() {
        if may_copy(registers, parent, id, *t) {
            return true;
        }
    }
    false
}

/// The ring value for `w`, as [`ring_for`] gives it. It looks at the other neighbours only if
/// `w` is a tree neighbour.
#[inline(never)]
pub fn ring_towards<A: Allocator>(
    registers: &Registers<A>,
    parent: Option<u16>,
    id: u16,
    w: u16,
) -> u16
    requires { w < registers.now.ranges.nodes }
    ensures value { let tree = tree_neighbours parent id registers.now.neighbours
        (λ u. (port_of registers.now u).copy.parent) in
        result ≡ (if is_on tree w then value_of registers.now (source_for tree w) else 0) }
    ensures below { result < registers.now.ranges.ring }
{
    let _known_ranges = registers.ranges();
    if !is_on_tree(registers, parent, id, w) {
        return 0;
    }
    let tree = tree(registers, parent, id);
    ring_for(registers, &tree, w)
}

/// Moves each machine that may move. Each reads its own value and its own port's copy alone, so the
/// order does not matter.
pub fn move_machines<A: Allocator>(
    registers: &mut Registers<A>,
    tree: &TreeNeighbours,
    is_root: bool,
)
    requires { IsTreeWithin registers.old tree.now }
    ensures values { value_of registers.new
        ≡ values_moved registers.old tree.now (special is_root tree.now) }
    // Neighbours, ranges and ports stay.
    ensures rest { registers.new ≡ record registers.old { values = registers.new.values } }
{
    let chosen = tree.special(is_root);
    for place in 0..registers.neighbours().len() {
        let t = registers.neighbours()[place];
        if may_move(registers, tree, chosen, t) {
            let moved = moved_value(registers, chosen, t);
            registers.write_value(t, moved);
        }
    }
}
