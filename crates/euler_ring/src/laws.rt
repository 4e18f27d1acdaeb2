//! What holds of the tour, and of a node's own view of it: the crates above lay Dijkstra's ring
//! along it and know it by these laws alone.
ghost use Rattle.euler_ring.specs.Laws.{SourceOfNext, NextOfSource, NextIsOn, SourceIsOn};
ghost use Rattle.euler_ring.specs.Laws.{TrueNeighboursAre, TrueNeighboursAscend, OwnViewIsTrue};
ghost use Rattle.euler_ring.specs.Laws.{TourGoesRound, TourHasEachEdge, TourHasNoneTwice};
ghost use Rattle.euler_ring.specs.Laws.{TourLength, TourComesToEach};

use topology::laws as topology_laws;

/// Round one node, `next_after` and `source_for` undo each other and stay among the tree
/// neighbours: each machine's value leaves towards one neighbour, and towards each neighbour the
/// value of one machine leaves.
pub fn round_a_node()
    ensures source_of_next { SourceOfNext }
    ensures next_of_source { NextOfSource }
    ensures next_on { NextIsOn }
    ensures source_on { SourceIsOn }
{}

/// If a node knows its own true parent and those of its neighbours, its tree neighbours are the
/// true ones: exactly the nodes to which an edge of the true tree leads.
pub fn true_view()
    ensures are { TrueNeighboursAre }
    ensures ascend { TrueNeighboursAscend }
    ensures own_view { OwnViewIsTrue }
{
    topology_laws::tree();
    topology_laws::neighbours();
    topology_laws::joined();
}

/// The tour begins at the special machine, goes on from each stop as the node there sees it, and
/// comes round to its beginning. It goes along each edge of the true tree once in each direction,
/// so it has 2(n-1) stops and comes to each node.
pub fn the_tour()
    ensures round { TourGoesRound }
    ensures each_edge { TourHasEachEdge }
    ensures none_twice { TourHasNoneTwice }
    ensures length { TourLength }
    ensures each_node { TourComesToEach }
{
    topology_laws::tree();
    topology_laws::neighbours();
    topology_laws::joined();
    topology_laws::limits();
}
