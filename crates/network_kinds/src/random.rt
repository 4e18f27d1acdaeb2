//! Random networks.
ghost use Rattle.std.specs.Prelude.{◌≡◌, ◌<◌, ◌++◌, ◌∷◌, [], IfOk, OnOk, filter, get_or, length};
ghost use Rattle.std.specs.List.{remove};
ghost use Rattle.topology.specs.Network.{are_joined};
ghost use Rattle.network_kinds.specs.Random.{draw, tree_edges, is_unjoined, further_edges};
ghost use Rattle.network_kinds.specs.Random.{random_edges};
ghost use Rattle.network_kinds.specs.Kinds.{pairs};

use crate::kind::pairs;
use rand_core::SeedableRng;
use rand_core::utils::NextWord;
use rand_pcg::Lcg64Xsh32;
use std::alloc::{AllocError, Allocator};

/// A number below `values`: the next word modulo `values`.
#[tactic(auto, unfolding(crate::specs::Random::draw))]
fn draw_below(generator: &mut Lcg64Xsh32, values: usize) -> usize
    requires { 0 < values }
    ensures drawn { result ≡ (draw values generator.old).0 }
    ensures generator { generator.new ≡ (draw values generator.old).1 }
    ensures below { result < values }
{
    generator.next_word() as usize % values
}

/// The edges of a random network of `nodes` nodes, drawn from a seed: each node but the first is joined
/// to an earlier one, any of them about as likely as the others; and then, until there are `edges`
/// edges, further pairs are joined, any of those left about as likely as the others. There are fewer if
/// the pairs run out, but never fewer than the tree has.
pub fn random_edges<A: Allocator + Copy>(
    alloc: A,
    nodes: u16,
    edges: u16,
    seed: u32,
) -> Result<Vec<(u16, u16), A>, AllocError>
    ensures { IfOk result (λ drawn. drawn.items ≡ random_edges nodes edges seed) }
{
    let mut generator = Lcg64Xsh32::seed_from_u64(u64::from(seed));
    let later = nodes.saturating_sub(1);
    let mut drawn = tree_edges(alloc, later, &mut generator)?;
    let mut left = unjoined(alloc, nodes, drawn.as_slice())?;
    let further = edges.saturating_sub(later);
    push_further(&mut drawn, &mut left, further, &mut generator)?;
    Ok(drawn)
}

/// The edges of a tree with `later` nodes after the first one.
#[tactic(auto, using(crate::proofs::Drawn::tree_more))]
fn tree_edges<A: Allocator + Copy>(
    alloc: A,
    later: u16,
    generator: &mut Lcg64Xsh32,
) -> Result<Vec<(u16, u16), A>, AllocError>
    ensures tree { IfOk result (λ tree. tree.items ≡ (tree_edges later generator.old).0) }
    ensures generator { OnOk result (generator.new ≡ (tree_edges later generator.old).1) }
{
    let mut tree = Vec::new(alloc);
    for k in 0..later {
        let earlier = draw_below(generator, usize::from(k) + 1);
        tree.push((earlier as u16, k + 1))?;
    }
    Ok(tree)
}

/// The pairs of nodes that no edge joins.
fn unjoined<A: Allocator + Copy>(
    alloc: A,
    nodes: u16,
    edges: &[(u16, u16)],
) -> Result<Vec<(u16, u16), A>, AllocError>
    ensures { IfOk result (λ left. left.items ≡ filter (is_unjoined edges.now) (pairs nodes)) }
{
    let all = pairs(alloc, nodes)?;
    without_joined(alloc, all.as_slice(), edges)
}

/// Those of the given pairs that no edge joins.
fn without_joined<A: Allocator + Copy>(
    alloc: A,
    all: &[(u16, u16)],
    edges: &[(u16, u16)],
) -> Result<Vec<(u16, u16), A>, AllocError>
    ensures { IfOk result (λ left. left.items
        ≡ filter (is_unjoined edges.now) all.now) }
{
    all.iter()
        .copied()
        .filter(|pair| is_unjoined(edges, *pair))
        .collect(alloc)
}

/// Whether no edge joins the two nodes of a pair.
fn is_unjoined(edges: &[(u16, u16)], pair: (u16, u16)) -> bool
    ensures { result ≡ is_unjoined edges.now pair }
{
    !are_joined(edges, pair.0, pair.1)
}

/// Whether an edge joins the two nodes, either way round.
fn are_joined(edges: &[(u16, u16)], v: u16, w: u16) -> bool
    ensures { result ≡ are_joined edges.now v w }
{
    edges.iter().any(|edge| (edge.0 == v && edge.1 == w) || (edge.0 == w && edge.1 == v))
}

/// Adds `count` edges, each drawn from the pairs that are left; fewer if the pairs run out.
fn push_further<A: Allocator + Copy>(
    edges: &mut Vec<(u16, u16), A>,
    left: &mut Vec<(u16, u16), A>,
    count: u16,
    generator: &mut Lcg64Xsh32,
) -> Result<(), AllocError>
    ensures { OnOk result (edges.new.items
        ≡ edges.old.items ++ further_edges count left.old.items generator.old) }
{
    for i in 0..count {
        if left.is_empty() {
            return Ok(());
        }
        let at = draw_below(generator, left.len());
        move_at(edges, left, at)?;
    }
    Ok(())
}

/// Takes the pair at a place out of those that are left, and adds it after the other edges.
#[tactic(auto, using(crate::proofs::Drawn::moved_is))]
fn move_at<A: Allocator + Copy>(
    edges: &mut Vec<(u16, u16), A>,
    left: &mut Vec<(u16, u16), A>,
    at: usize,
) -> Result<(), AllocError>
    requires { at < length left.old.items }
    ensures edges { OnOk result (edges.new.items
        ≡ edges.old.items ++ get_or left.old.items at (0, 0) ∷ []) }
    ensures left { left.new.items ≡ remove left.old.items at }
{
    let edge = left.remove(at);
    edges.push(edge)?;
    Ok(())
}
