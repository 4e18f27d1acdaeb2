//! What a network keeps that follows from its edges: the neighbours and the distance of each node.
ghost use Rattle.std.specs.Prelude.{◌≡◌, ◌<◌, ◌≤◌, All, IfOk};
ghost use Rattle.std.specs.List.{list_any};
ghost use Rattle.topology.specs.Network.{IsEdgeBelow};
ghost use Rattle.topology.specs.Layout.{HasRowsFor, IsLayoutOf};
ghost use Rattle.topology.specs.Spread.{is_unreached};

use crate::graph::{
    all_neighbours, distances_from, has_unreached, write_all_neighbours, write_distances,
};
use std::alloc::{AllocError, Allocator};

/// The neighbours and the distance of each node.
#[derive(Debug, Drop)]
pub struct Layout<A: Allocator + Copy> {
    /// The neighbours of each node, ascending.
    pub neighbours: Vec<Vec<u16, A>, A>,
    /// The distance of each node from the root.
    pub distances: Vec<u16, A>,
}

impl<A: Allocator + Copy> Layout<A> {
    /// The layout of the edges.
    pub fn new(
        alloc: A,
        nodes: u16,
        edges: &[(u16, u16)],
        root: u16,
    ) -> Result<Layout<A>, AllocError>
        requires edges_in { All (IsEdgeBelow nodes) edges.now }
        requires root_in { root < nodes }
        requires few { nodes ≤ 64 }
        ensures { IfOk result (IsLayoutOf nodes edges.now root) }
    {
        let neighbours = all_neighbours(alloc, nodes, edges)?;
        let distances = distances_from(alloc, nodes, edges, root)?;
        Ok(Layout {
            neighbours,
            distances,
        })
    }

    /// Writes the layout of the edges over what stood there.
    pub fn write(&mut self, nodes: u16, edges: &[(u16, u16)], root: u16)
        // There is a row with room for all, and a distance, for each node: no memory is taken.
        requires rows { HasRowsFor nodes self.old }
        requires edges_in { All (IsEdgeBelow nodes) edges.now }
        requires root_in { root < nodes }
        requires few { nodes ≤ 64 }
        ensures { IsLayoutOf nodes edges.now root self.new }
    {
        write_all_neighbours(&mut self.neighbours, nodes, edges);
        write_distances(&mut self.distances, edges, root);
    }

    /// Whether no walk leads from the root to some node.
    pub fn has_unreached(&self) -> bool
        ensures { result ≡ list_any is_unreached self.now.distances.items }
    {
        has_unreached(&self.distances)
    }
}
