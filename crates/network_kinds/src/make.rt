//! The network of a kind.
ghost use Rattle.std.specs.Prelude.{◌≡◌, IfOk, IfErr, pos, map};
ghost use Rattle.topology.specs.Accept.{IsAccepted, IsRefused};
ghost use Rattle.topology.specs.Refusal.{as_ends};
ghost use Rattle.network_kinds.specs.Made.{edges_of, values_for, values_with};

use crate::kind::{Kind, regular_edges};
use crate::random::random_edges;
use std::alloc::{AllocError, Allocator};
use topology::{Net, NetFault};

/// The edges of a kind on `nodes` nodes.
///
/// # Errors
/// If memory runs out.
pub fn edges_of<A: Allocator + Copy>(
    alloc: A,
    kind: Kind,
    nodes: u16,
) -> Result<Vec<(u16, u16), A>, AllocError>
    ensures { IfOk result (λ edges. edges.items ≡ edges_of kind nodes) }
{
    match kind {
        Kind::Random { edges, seed } => random_edges(alloc, nodes, edges, seed),
        _ => regular_edges(alloc, kind, nodes),
    }
}

/// The network of a kind, with these numbers.
///
/// # Errors
/// The first [`NetFault`], in their order from `TooSmall` on, that the numbers and the edges have;
/// `Memory` if memory runs out on the way.
#[tactic(auto, using(crate::proofs::Refused::refused_of))]
pub fn network_of<A: Allocator + Copy>(
    alloc: A,
    kind: Kind,
    nodes: u16,
    root: u16,
    capacity: u16,
    lease: u16,
) -> Result<Net<A>, NetFault>
    // The network with exactly the edges of the kind, or why there is none.
    ensures ok { IfOk result (IsAccepted (values_for kind nodes root capacity lease)) }
    ensures err { IfErr result (IsRefused (values_for kind nodes root capacity lease)) }
{
    let edges = edges_of(alloc, kind, nodes)?;
    let ends = all_ends(alloc, edges.as_slice())?;
    with_ends(alloc, nodes, root, capacity, lease, ends.as_slice())
}

/// The network of these numbers and edges.
///
/// # Errors
/// Those of `Net::make`.
fn with_ends<A: Allocator + Copy>(
    alloc: A,
    nodes: u16,
    root: u16,
    capacity: u16,
    lease: u16,
    ends: &[(i64, i64)],
) -> Result<Net<A>, NetFault>
    ensures ok { IfOk result (IsAccepted (values_with nodes root capacity lease ends.now)) }
    ensures err { IfErr result (IsRefused (values_with nodes root capacity lease ends.now)) }
{
    Net::make(
        alloc,
        i64::from(nodes),
        i64::from(root),
        i64::from(capacity),
        i64::from(lease),
        ends,
    )
}

/// Edges as a file names them.
fn all_ends<A: Allocator + Copy>(
    alloc: A,
    edges: &[(u16, u16)],
) -> Result<Vec<(i64, i64), A>, AllocError>
    ensures { IfOk result (λ ends. ends.items ≡ map as_ends edges.now) }
{
    edges
        .iter()
        .map(|edge| (i64::from(edge.0), i64::from(edge.1)))
        .collect(alloc)
}
