//! The kinds of networks, and which nodes an edge joins.
ghost use Rattle.std.specs.Prelude.{◌≡◌, IfOk, filter};
ghost use Rattle.network_kinds.specs.Kinds.{is_edge, least_nodes, most_nodes, pairs};
ghost use Rattle.network_kinds.specs.Kinds.{regular_edges};

use std::alloc::{AllocError, Allocator};

/// A kind of network.
#[derive(Clone, Copy)]
pub enum Kind {
    /// Each node is joined to the next one.
    Line,
    /// A line whose ends are joined.
    Ring,
    /// Node 0 is joined to all other nodes.
    Star,
    /// Each node is joined to all other nodes.
    Complete,
    /// A binary tree, filled level by level: the children of node u are 2u+1 and 2u+2.
    Tree,
    /// Nodes in rows, row after row, each joined to those beside it, above it and below it.
    Grid {
        /// How many nodes a row has; with 0, there is no edge.
        columns: u16,
    },
    /// A tree in which each node is joined to an earlier one that is drawn, and further edges that are
    /// drawn.
    Random {
        /// How many edges there are; but never fewer than the tree has, nor more than there are
        /// pairs of nodes.
        edges: u16,
        /// The seed from which all edges are drawn.
        seed: u32,
    },
}

/// The least number of nodes that a kind has.
pub fn least_nodes(kind: Kind) -> u16
    ensures { result ≡ least_nodes kind }
{
    match kind {
        Kind::Ring => 3,
        _ => 2,
    }
}

/// The greatest number of nodes that a kind has within the limits of a network. For a random one
/// this is so only if it has at most 256 edges.
pub fn most_nodes(kind: Kind) -> u16
    ensures { result ≡ most_nodes kind }
{
    match kind {
        Kind::Complete => 23,
        _ => 64,
    }
}

/// Whether an edge of a kind joins two of `nodes` nodes, the first with the smaller id. A random graph
/// has no such rule, so none are joined.
fn is_edge(kind: Kind, nodes: u16, edge: (u16, u16)) -> bool
    ensures { result ≡ is_edge kind nodes edge }
{
    let u = u32::from(edge.0);
    let v = u32::from(edge.1);
    match kind {
        Kind::Line => v == u + 1,
        Kind::Ring => v == u + 1 || (u == 0 && v + 1 == u32::from(nodes)),
        Kind::Star => u == 0,
        Kind::Complete => true,
        Kind::Tree => v == 2 * u + 1 || v == 2 * u + 2,
        Kind::Grid { columns } => {
            v == u + u32::from(columns)
                || (v == u + 1 && columns > 0 && v % u32::from(columns) != 0)
        }
        Kind::Random { .. } => false,
    }
}

/// All pairs of `nodes` nodes, the one with the smaller id first: for each node in turn, its pairs with
/// the nodes before it.
#[tactic(auto, using(crate::proofs::PairByPair::pairs_start, crate::proofs::PairByPair::pairs_more, crate::proofs::PairByPair::pairs_next))]
pub fn pairs<A: Allocator + Copy>(alloc: A, nodes: u16) -> Result<Vec<(u16, u16), A>, AllocError>
    ensures { IfOk result (λ all. all.items ≡ pairs nodes) }
{
    let mut all = Vec::new(alloc);
    for v in 0..nodes {
        for u in 0..v {
            all.push((u, v))?;
        }
    }
    Ok(all)
}

/// The edges of a kind on `nodes` nodes: each pair that an edge of it joins. A random kind has none of
/// them here; `random_edges` draws its edges.
pub fn regular_edges<A: Allocator + Copy>(
    alloc: A,
    kind: Kind,
    nodes: u16,
) -> Result<Vec<(u16, u16), A>, AllocError>
    ensures { IfOk result (λ edges. edges.items ≡ regular_edges kind nodes) }
{
    let all = pairs(alloc, nodes)?;
    joined(alloc, all.as_slice(), kind, nodes)
}

/// Those of the given pairs that an edge of a kind joins.
fn joined<A: Allocator + Copy>(
    alloc: A,
    all: &[(u16, u16)],
    kind: Kind,
    nodes: u16,
) -> Result<Vec<(u16, u16), A>, AllocError>
    ensures { IfOk result (λ edges. edges.items ≡ filter (is_edge kind nodes) all.now) }
{
    all.iter()
        .copied()
        .filter(|pair| is_edge(kind, nodes, *pair))
        .collect(alloc)
}
