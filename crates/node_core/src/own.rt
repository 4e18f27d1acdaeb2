//! A node's own distance and parent, from its registers.
ghost use Rattle.std.specs.Prelude.{◌≡◌};
ghost use Rattle.registers.specs.Registers.{IsRegisters, port_of};
ghost use Rattle.bfs_tree.specs.Step.{new_distance, new_parent};

use bfs_tree::recompute;
use registers::Registers;
use std::alloc::Allocator;

/// One step of the breadth-first tree on the copied distances.
pub fn new_own<A: Allocator>(registers: &Registers<A>, is_root: bool) -> (u16, Option<u16>)
    ensures own { result ≡ (
      new_distance is_root registers.now.ranges.nodes (λ w. (port_of registers.now w).copy.distance)
          registers.now.neighbours,
      new_parent is_root (λ w. (port_of registers.now w).copy.distance) registers.now.neighbours,
    ) }
    ensures registers { IsRegisters registers.now }
{
    let nodes = registers.ranges().nodes;
    recompute(is_root, nodes, registers.neighbours(), |w| {
        registers.copy_of(w).distance
    })
}
