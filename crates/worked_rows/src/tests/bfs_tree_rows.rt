//! One step of the tree, from its copies.
use bfs_tree::recompute;
use std::test::Fail;
use test_parts::is_expected;

/// Whether a node is the root, its copies from its neighbours 1 and 2, and the result of its step.
const STEPS: [(bool, [u16; 2], (u16, Option<u16>)); 4] = [
    (false, [1, 1], (2, Some(1))),
    (false, [4, 4], (4, Some(1))),
    (false, [3, 0], (1, Some(2))),
    (true, [1, 1], (0, None)),
];

/// The step of one of four nodes with neighbours 1 and 2, from these copies.
fn step(is_root: bool, copies: [u16; 2]) -> (u16, Option<u16>) {
    recompute(
        is_root,
        4,
        &[1, 2],
        |w| if w == 1 { copies[0] } else { copies[1] },
    )
}

/// The place of the first step with a different result.
fn first_unlike(steps: &[(bool, [u16; 2], (u16, Option<u16>))]) -> Option<usize> {
    for (at, (is_root, copies, want)) in steps.iter().enumerate() {
        if step(*is_root, *copies) != *want {
            return Some(at);
        }
    }
    None
}

#[test]
fn steps_by_hand() -> Result<(), Fail> {
    is_expected(&first_unlike(&STEPS), &None)
}
