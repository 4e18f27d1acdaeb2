ghost use Rattle.std.specs.Prelude.{◌≡◌, ◌<◌, ◌==◌, ℕ, IsTrue, Option, Some, None, All, Contains};
ghost use Rattle.std.specs.Prelude.{length, slice_get};
ghost use Rattle.std.specs.List.Sorted.{IsStrictlyIncreasing};
ghost use Rattle.euler_ring.specs.Cycle.{is_named, is_on, tree_neighbours, next_after, source_for};
ghost use Rattle.euler_ring.specs.Cycle.{special};

use super::mask;
use std::marker::Model;

/// The tree neighbours of a node: the neighbours to which an edge of the tree leads, as far as the
/// node knows. Contracts see them as an ascending list.
///
/// They are kept as the bits of one word, so what comes next is found without going through them. They are computed at
/// each use: else each writer of a copy or a parent would have to keep them up to date, too.
#[derive(Debug, Drop)]
pub struct TreeNeighbours {
    ids: u64,
}

impl Model for TreeNeighbours {
    ghost use Rattle.std.specs.Prelude.{List, ℕ};
    ghost use Rattle.euler_ring.specs.Mask.{ids_of};

    ghost Value = { List ℕ };

    ghost view = { λ s. ids_of s.ids };
}

impl TreeNeighbours {
    /// How many there are.
    pub fn len(&self) -> usize
        ensures { result ≡ length self.now }
    {
        mask::count(self.ids)
    }

    /// Whether there are none.
    pub fn is_empty(&self) -> bool
        ensures { result ≡ (length self.now == 0) }
    {
        self.ids == 0
    }

    /// Whether the node is a tree neighbour.
    pub fn contains(&self, id: u16) -> bool
        ensures { result ≡ is_on self.now id }
    {
        id < 64 && mask::has(self.ids, id)
    }

    /// The i-th in ascending order, from 0.
    pub fn get(&self, i: usize) -> u16
        requires { i < length self.now }
        ensures item { slice_get self.now i ≡ Some result }
        // It is a tree neighbour.
        ensures there { IsTrue (is_on self.now result) }
    {
        let mut rest = self.ids;
        for _ in 0..i {
            rest = mask::without_lowest(rest);
        }
        mask::lowest(rest).unwrap()
    }

    /// Where the tour goes on after it came in from the tree neighbour `t`: to the next one up, and
    /// after the largest to the smallest. If there is only one, that is `t` itself.
    #[tactic(auto, using(crate::proofs::Masks::on_below, crate::proofs::Ascending::next_on))]
    pub fn next_after(&self, t: u16) -> u16
        requires { IsTrue (is_on self.now t) }
        ensures next { result ≡ next_after self.now t }
        // It is a tree neighbour.
        ensures there { IsTrue (is_on self.now result) }
    {
        mask::lowest(mask::above(self.ids, t))
            .or(mask::lowest(self.ids))
            .unwrap_or(t)
    }

    /// Where the tour came in from if it leaves towards the tree neighbour `w`: the next one down,
    /// and before the smallest the largest.
    #[tactic(auto, using(crate::proofs::Masks::on_below))]
    pub fn source_for(&self, w: u16) -> u16
        requires { IsTrue (is_on self.now w) }
        ensures source { result ≡ source_for self.now w }
        // It is a tree neighbour.
        ensures there { IsTrue (is_on self.now result) }
    {
        mask::highest(mask::below(self.ids, w))
            .or(mask::highest(self.ids))
            .unwrap_or(w)
    }

    /// The tree neighbour from which the special machine comes in: the smallest, at the root; none
    /// at any other node, or if there is no tree neighbour.
    pub fn special(&self, is_root: bool) -> Option<u16>
        ensures { result ≡ special is_root self.now }
    {
        if is_root {
            mask::lowest(self.ids)
        } else {
            None
        }
    }
}

/// Whether the parent is this node.
fn is_named(parent: Option<u16>, id: u16) -> bool
    ensures { result ≡ is_named parent id }
{
    parent == Some(id)
}

/// A node's tree neighbours, from what it believes: its parent, if that is a neighbour, and each
/// neighbour whose copied parent is the node `id`.
///
/// `neighbours` ascend and are below 64, as in an accepted network. `copied_parent` gives a
/// neighbour's copied parent, and is called for neighbours alone. What it gives must be a function
/// of the neighbour, as it is if it reads a field; the clause names that function.
pub fn tree_neighbours<F: Fn(u16) -> Option<u16>>(
    parent: Option<u16>,
    id: u16,
    neighbours: &[u16],
    copied_parent: F,
) -> TreeNeighbours
    requires few { All (λ w. w < 64) neighbours.now }
    requires ascending { IsStrictlyIncreasing neighbours.now }
    // The copied parent of each neighbour may be asked for.
    requires readable { (w : ℕ) → Contains neighbours.now w → F.pre copied_parent w }
    // The result is that for whatever function of the neighbour the call computes.
    ensures found { (parent_of : ℕ → Option ℕ)
        → ((w : ℕ) (p : Option ℕ) → Contains neighbours.now w → F.post copied_parent w p
        → p ≡ parent_of w)
        → result ≡ tree_neighbours parent id neighbours.now parent_of }
    ensures neighbours { (w : ℕ) → IsTrue (is_on result w) → Contains neighbours.now w }
{
    let mut ids = 0;
    for &neighbour in neighbours {
        let is_parent = is_named(parent, neighbour);
        let is_child = is_named(copied_parent(neighbour), id);
        if is_parent || is_child {
            ids = mask::with(ids, neighbour);
        }
    }
    TreeNeighbours { ids }
}
