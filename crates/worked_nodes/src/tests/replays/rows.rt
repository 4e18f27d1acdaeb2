//! Runs with some seeds, and connections with deliberate mistakes.
use crate::tests::replays::replay::{
    Counts, OTHER_NODE, SENT_ON_FULL, SENT_OTHER, TOOK_OTHER, Wrong,
};
use crate::tests::replays::runs::{Shape, run_seed};
use crate::tests::stage::Mistake;
use std::env;
use std::test::Fail;
use test_parts::as_expected;

/// A ring of three nodes over links of two frames. Loans have no lease, so each turn ticks.
const RING: Shape = (3, 2, 0, &[(0, 1), (1, 2), (0, 2)]);

/// A ring of five nodes with a chord over links of three frames. A loan's lease is four ticks.
const CHORD: Shape = (5, 3, 4, &[(0, 1), (1, 2), (2, 3), (3, 4), (0, 4), (1, 3)]);

/// How many seeds to run: what `TOKENTREE_SEEDS` says, else 4.
fn seeds(rt: &HostRuntime) -> u64 {
    match env::var(rt, "TOKENTREE_SEEDS") {
        Ok(text) => text.as_str().parse::<u64>().unwrap_or(4),
        Err(_) => 4,
    }
}

/// The seed of the first run with an error, the turn and the error; the seed of the first in which
/// the count of sweeps did not rise; and whether frames were lost, links were full, and nodes
/// attended instead of taking turns.
type Said = (Option<(u64, u32, Wrong)>, Option<u64>, [bool; 3]);

/// Adds up two counts.
fn sum_of(one: Counts, other: Counts) -> Counts {
    let mut sum = one;
    for (count, more) in sum.iter_mut().zip(&other) {
        *count = count.saturating_add(*more);
    }
    sum
}

/// Runs the seeds from 1 on, and prints the results.
fn said(rt: &HostRuntime, shape: Shape) -> Result<Said, Fail> {
    let (mut wrong, mut still, mut counts) = (None, None, [0; 5]);
    let seeds = seeds(rt);
    for seed in 1..=seeds {
        let (found, half, more) = run_seed(rt.alloc(), shape, None, seed)?;
        wrong = wrong.or(found.map(|(turn, wrong)| (seed, turn, wrong)));
        let [_, _, _, _, sweeps] = more;
        let rises = 0 < half && half < sweeps;
        still = still.or((!rises).then_some(seed));
        counts = sum_of(counts, more);
    }
    println!(rt;
        "{} nodes, {seeds} seeds: {wrong:?} {still:?} {counts:?}",
        shape.0
    )?;
    let [_events, losses, full, attended, _sweeps] = counts;
    Ok((wrong, still, [losses > 0, full > 0, attended > 0]))
}

/// What is said of the ring and of the ring with a chord.
fn both(rt: &HostRuntime) -> Result<(Said, Said), Fail> {
    Ok((said(rt, RING)?, said(rt, CHORD)?))
}

#[test]
fn turns_of_three_and_of_five_nodes_are_a_run(rt: HostRuntime) -> Result<(), Fail> {
    let ring = (None, None, [true, true, false]);
    as_expected(both(&rt), &(ring, (None, None, [true, true, true])))
}

/// How many of the first seeds are run with each mistake.
const MISTAKEN: u64 = 6;

/// Mistakes, and what each may be found as. A frame that comes twice is not the oldest under way.
/// One that was dropped, or taken in secret, stays under way: the next take meets it, or the link is
/// full before that. A secret take or ask changes the node, and a frame that it sends then differs
/// too.
const MISTAKES: [(Mistake, &[Wrong]); 4] = [
    (Mistake::Twice, &[TOOK_OTHER]),
    (Mistake::Dropped, &[TOOK_OTHER, SENT_ON_FULL]),
    (
        Mistake::Untaken,
        &[OTHER_NODE, SENT_OTHER, TOOK_OTHER, SENT_ON_FULL],
    ),
    (Mistake::Unasked, &[OTHER_NODE]),
];

/// The first mistake and seed of a run in which it is not found as one of these.
fn first_unfound(rt: &HostRuntime) -> Result<Option<(Mistake, u64)>, Fail> {
    for (mistake, wrongs) in MISTAKES {
        for seed in 1..=MISTAKEN {
            let (found, _, _) = run_seed(rt.alloc(), RING, Some(mistake), seed)?;
            println!(rt; "{mistake:?}, seed {seed}: {found:?}")?;
            match found {
                Some((_, wrong)) if wrongs.contains(&wrong) => {}
                _ => return Ok(Some((mistake, seed))),
            }
        }
    }
    Ok(None)
}

#[test]
fn mistakes_of_connections_are_found(rt: HostRuntime) -> Result<(), Fail> {
    as_expected(first_unfound(&rt), &None)
}
