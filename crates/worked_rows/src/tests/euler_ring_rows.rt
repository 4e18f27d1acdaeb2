//! The tree neighbours of a node, in their order, and a tour of the square.
use euler_ring::{TreeNeighbours, tree_neighbours};
use std::test::Fail;
use test_parts::is_expected;

/// Whether the tree neighbour at a place is this one, with these next and previous ones.
fn stands_between(tree: &TreeNeighbours, at: usize, id: u16, next: u16, source: u16) -> bool {
    at < tree.len()
        && tree.get(at) == id
        && tree.contains(id)
        && tree.next_after(id) == next
        && tree.source_for(id) == source
}

/// The place of the first tree neighbour that is not as expected: a row has its number, the next
/// one and the previous one.
fn first_unlike(tree: &TreeNeighbours, rows: &[(u16, u16, u16)]) -> Option<usize> {
    for (at, (id, next, source)) in rows.iter().enumerate() {
        if !stands_between(tree, at, *id, *next, *source) {
            return Some(at);
        }
    }
    None
}

/// How many tree neighbours there are, whether there are none, and where the special machine comes
/// in, at the root and at another node.
fn ends(tree: &TreeNeighbours) -> (usize, bool, Option<u16>, Option<u16>) {
    (
        tree.len(),
        tree.is_empty(),
        tree.special(true),
        tree.special(false),
    )
}

/// The tree neighbours of node 6 with the parent 4: nodes 1 and 9 name it as their parent, and 2
/// names none.
fn of_six() -> TreeNeighbours {
    tree_neighbours(
        Some(4),
        6,
        &[1, 2, 4, 9],
        |w| if w == 1 || w == 9 { Some(6) } else { None },
    )
}

/// The rows of these neighbours, in order.
const ROUND_SIX: [(u16, u16, u16); 3] = [(1, 4, 9), (4, 9, 1), (9, 1, 4)];

#[test]
fn goes_round_three() -> Result<(), Fail> {
    let tree = of_six();
    is_expected(
        &(ends(&tree), tree.contains(2)),
        &((3, false, Some(1), None), false),
    )?;
    is_expected(&first_unlike(&tree, &ROUND_SIX), &None)
}

/// The tree neighbours of node 5 with the parent 0; node 63 names it as its parent.
fn of_five() -> TreeNeighbours {
    tree_neighbours(Some(0), 5, &[0, 63], |_| Some(5))
}

/// The rows of these neighbours, in order.
const ROUND_FIVE: [(u16, u16, u16); 2] = [(0, 63, 63), (63, 0, 0)];

#[test]
fn least_and_greatest_id_follow_each_other() -> Result<(), Fail> {
    is_expected(&first_unlike(&of_five(), &ROUND_FIVE), &None)
}

/// The tree neighbours of a node whose parent is no neighbour, and that nobody names.
fn of_a_stranger() -> TreeNeighbours {
    tree_neighbours(Some(9), 5, &[0, 63], |_| None)
}

#[test]
fn has_none() -> Result<(), Fail> {
    is_expected(&ends(&of_a_stranger()), &(0, true, None, None))
}

/// The true parents of the square 0-1, 0-2, 1-3, 2-3 with root 0.
fn parent_in_square(node: u16) -> Option<u16> {
    match node {
        0 => None,
        1 | 2 => Some(0),
        _ => Some(1),
    }
}

/// The tree neighbours of a node of that square; none for any other node.
fn in_square(node: u16) -> Option<TreeNeighbours> {
    let neighbours = match node {
        0 | 3 => [1, 2],
        1 | 2 => [0, 3],
        _ => return None,
    };
    Some(tree_neighbours(parent_in_square(node), node, &neighbours, parent_in_square))
}

/// The node to which a tour goes on after it came from one node to another; none if no tour does.
fn onward(from: u16, here: u16) -> Option<u16> {
    let tree = in_square(here)?;
    if tree.contains(from) {
        Some(tree.next_after(from))
    } else {
        None
    }
}

/// The steps of the tour, each from one node to the next, if it begins at node 0 as if it came from
/// node 1.
const TOUR: [(u16, u16); 6] = [(0, 2), (2, 0), (0, 1), (1, 3), (3, 1), (1, 0)];

/// The place of the first step that the tour does not take.
fn first_missed(stops: &[(u16, u16)]) -> Option<usize> {
    let (mut from, mut here) = (1, 0);
    for (at, stop) in stops.iter().enumerate() {
        let next = onward(from, here);
        if (here, next) != (stop.0, Some(stop.1)) {
            return Some(at);
        }
        (from, here) = *stop;
    }
    None
}

#[test]
fn walks_the_square() -> Result<(), Fail> {
    is_expected(&first_missed(&TOUR), &None)
}
