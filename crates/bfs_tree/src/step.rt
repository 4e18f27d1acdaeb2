ghost use Rattle.std.specs.Prelude.{◌≡◌, ℕ, Contains};
ghost use Rattle.bfs_tree.specs.Step.{new_distance, new_parent};

/// One step of a node of a network of `n` nodes: its own distance, 0 to `n`, and its parent, from
/// its copies of its neighbours' distances.
///
/// The root is at distance 0 and has no parent. Any other node is one further than its least copy,
/// and at most at `n`; its parent is the first of `neighbours` with that copy, so the one of
/// smallest id if they ascend, and none if there are no neighbours.
///
/// `copied` gives a neighbour's copied distance, and is called for neighbours alone: copies stay
/// where a node keeps them. What `copied` gives must be a function of the neighbour, as it is
/// if it reads a field; the clause names that function.
///
/// Source of the rule: Dolev, Israeli, Moran (1993). That the smallest id wins a tie is this
/// project's own rule.
pub fn recompute<F: Fn(u16) -> u16>(
    is_root: bool,
    n: u16,
    neighbours: &[u16],
    copied: F,
) -> (u16, Option<u16>)
    requires readable { (w : ℕ) → Contains neighbours.now w → F.pre copied w }
    ensures { (distance : ℕ → ℕ)
        → ((w d : ℕ) → Contains neighbours.now w → F.post copied w d → d ≡ distance w)
        → result ≡ (
          new_distance is_root n distance neighbours.now,
          new_parent is_root distance neighbours.now,
        ) }
{
    if is_root {
        return (0, None);
    }
    let Some((&first, rest)) = neighbours.split_first() else {
        return (n, None);
    };
    let mut parent = first;
    let mut least = copied(first);
    for &neighbour in rest {
        let distance = copied(neighbour);
        if distance < least {
            parent = neighbour;
            least = distance;
        }
    }
    (n.min(least.saturating_add(1)), Some(parent))
}
