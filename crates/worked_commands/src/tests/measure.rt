//! Runs that no command makes: some are written by hand, and so are their texts; others begin in a
//! world that is not scrambled. Two nodes have the sharper bound 35 and the bound 69.
use super::nets::two_nodes;
use experiments::{Recovery, ServiceWatch, Settling};
use schedules::{Slow, give_slow_round};
use std::alloc::Global;
use std::test::Fail;
use subcommands::measure::{has_served, measured_text};
use subcommands::measure_csv::{csv_text, have_settled};
use test_parts::as_expected;
use topology::Net;
use world::World;

/// A run of a seed that served after `sweeps` of its 35 sweeps.
macro_rules! run {
    ($seed:expr, $sweeps:expr) => {
        Recovery {
            seed: $seed,
            sweeps: $sweeps,
            seen: 35,
        }
    };
}

/// A run that never served.
const LATE: Recovery = run!(8, 36);

/// A run that had too few sweeps.
const SHORT: Recovery = Recovery {
    seed: 9,
    sweeps: 3,
    seen: 34,
};

/// Runs, whether each of them is shown, their text, and whether each has served.
type Row<'a> = (&'a [Recovery], bool, &'a str, bool);

/// The median of five runs is the third in ascending order, of four the second. A run that never
/// served, or had too few sweeps, is always shown and does not count in the summary.
static TEXTS: [Row<'static>; 6] = [
    (
        &[run!(0, 9), run!(1, 2), run!(2, 23), run!(3, 4), run!(4, 5)],
        false,
        "runs 5\nsweeps least 2 median 5 most 23\nsharp 35\nsweeps-bound 69\n",
        true,
    ),
    (
        &[run!(7, 9), run!(8, 2), run!(9, 23), run!(10, 4)],
        false,
        "runs 4\nsweeps least 2 median 4 most 23\nsharp 35\nsweeps-bound 69\n",
        true,
    ),
    (
        &[run!(7, 35), run!(8, 0)],
        true,
        "seed 7 sweeps 35\nseed 8 sweeps 0\n\
            runs 2\nsweeps least 0 median 0 most 35\nsharp 35\nsweeps-bound 69\n",
        true,
    ),
    (
        &[run!(7, 9), LATE],
        false,
        "seed 8 sweeps none\n\
            runs 2\nsweeps least 9 median 9 most 9\nsharp 35\nsweeps-bound 69\n",
        false,
    ),
    (
        &[run!(7, 9), SHORT],
        true,
        "seed 7 sweeps 9\nseed 9 sweeps none\n\
            runs 2\nsweeps least 9 median 9 most 9\nsharp 35\nsweeps-bound 69\n",
        false,
    ),
    (
        &[LATE],
        false,
        "seed 8 sweeps none\n\
            runs 1\nsweeps least none median none most none\nsharp 35\nsweeps-bound 69\n",
        false,
    ),
];

/// Whether this is the text of runs on two nodes.
fn is_text(alloc: Global, runs: &[Recovery], table: bool, want: &str) -> Result<bool, Fail> {
    let net = two_nodes(alloc)?;
    Ok(measured_text(alloc, &net, runs, table)?.as_str() == want)
}

/// Whether each of these runs has served, if the sharper bound is 35.
fn all_served(runs: &[Recovery]) -> bool {
    runs.iter().all(|run| has_served(run, 35))
}

/// The place of the first row whose runs have a different text, or have not served as it says.
fn first_other_text(alloc: Global, rows: &[Row<'_>]) -> Result<Option<usize>, Fail> {
    for (at, (runs, table, want, served)) in rows.iter().enumerate() {
        if !is_text(alloc, runs, *table, want)? || all_served(runs) != *served {
            return Ok(Some(at));
        }
    }
    Ok(None)
}

#[test]
fn shows_what_sums_runs_up(rt: HostRuntime) -> Result<(), Fail> {
    as_expected(first_other_text(rt.alloc(), &TEXTS), &None)
}

/// What is slow, its share of a hundred rounds, the rounds, how many sweeps there were, and after how
/// many of them two nodes served.
type SlowRow = (Slow, u16, u64, (u64, u64));

const NODE: Slow = Slow::Node { node: 1 };

const LINK: Slow = Slow::Link { from: 0, to: 1 };

/// Worked out by hand. With all rounds nothing is slow. Then in the first round each node takes the
/// other's first words, which say nothing; the first sweep ends with what node 0 takes. In the second
/// round node 1 takes the root's distance, which ends the second sweep. In the third round it ticks, which
/// gives it its distance and ends the third sweep; from then on the two serve, since the values of their
/// machines were alike at the start.
///
/// With half of the rounds, node 1 ticks in every second round. Its tick there ends a sweep, since node 0
/// has ticked and the links were renewed before. In the second round it takes the root's distance after
/// that tick, so only its tick in the fourth round gives it its own distance; that ends the second sweep.
///
/// If the link to node 1 has half of the rounds, the root's distance comes to node 1 with the link's first
/// item in the second round, which ends the first sweep. The second item and the items to node 0 come
/// after that, so the ticks of the third round end the second sweep; and node 1 has its distance by its
/// tick. So there are two sweeps in every two rounds. A node or link that has no rounds lets no sweep end.
const SLOW: [SlowRow; 15] = [
    (LINK, 100, 0, (0, 1)),
    (LINK, 100, 1, (1, 2)),
    (LINK, 100, 2, (2, 3)),
    (LINK, 100, 3, (3, 3)),
    (LINK, 100, 35, (35, 3)),
    (NODE, 50, 0, (0, 1)),
    (NODE, 50, 1, (0, 1)),
    (NODE, 50, 2, (1, 2)),
    (NODE, 50, 3, (1, 2)),
    (NODE, 50, 4, (2, 2)),
    (LINK, 50, 1, (0, 1)),
    (LINK, 50, 2, (1, 2)),
    (LINK, 50, 3, (2, 2)),
    (LINK, 50, 4, (3, 2)),
    (LINK, 0, 35, (0, 1)),
];

/// Plays this many rounds with a slow link or node under a watch.
fn play(net: &Net, watch: &mut ServiceWatch, slow: Slow, share: u16, rounds: u64) {
    for round in 0..rounds {
        let _given = give_slow_round(net, slow, share, round, watch);
    }
}

/// How many sweeps there were in this many rounds of two fresh nodes, if one of them or a link is slow,
/// and after how many sweeps they served.
fn watched(alloc: Global, slow: Slow, share: u16, rounds: u64) -> Result<(u64, u64), Fail> {
    let net = two_nodes(alloc)?;
    let mut watch = ServiceWatch::new(World::new(alloc, &net)?);
    play(&net, &mut watch, slow, share, rounds);
    Ok((watch.sweeps(), watch.served_after()))
}

/// The place of the first row whose rounds show something else.
fn first_other_slow(alloc: Global, rows: &[SlowRow]) -> Result<Option<usize>, Fail> {
    for (at, (slow, share, rounds, want)) in rows.iter().enumerate() {
        if watched(alloc, *slow, *share, *rounds)? != *want {
            return Ok(Some(at));
        }
    }
    Ok(None)
}

#[test]
fn a_slow_one_delays_sweeps(rt: HostRuntime) -> Result<(), Fail> {
    as_expected(first_other_slow(rt.alloc(), &SLOW), &None)
}

/// A run of a seed with 350 events: links stable after 2 sweeps, the tree reached after 9, the token
/// ring good after 10, and served after `served`.
macro_rules! settling {
    ($seed:expr, $served:expr, $seen:expr) => {
        Settling {
            seed: $seed,
            events: 350,
            links: 2,
            tree: 9,
            ring: 10,
            served: $served,
            seen: $seen,
        }
    };
}

/// Runs, their rows if the sharper bound is 35, and whether each has served. A run with fewer sweeps
/// than that, or which served later, has four empty cells.
static CSV: [(&[Settling], &str, bool); 4] = [
    (&[], "seed,events,links,tree,ring,served\n", true),
    (
        &[settling!(7, 11, 35), settling!(8, 35, 36)],
        "seed,events,links,tree,ring,served\n7,350,2,9,10,11\n8,350,2,9,10,35\n",
        true,
    ),
    (
        &[settling!(7, 11, 34), settling!(8, 12, 35)],
        "seed,events,links,tree,ring,served\n7,350,,,,\n8,350,2,9,10,12\n",
        false,
    ),
    (
        &[settling!(9, 36, 40)],
        "seed,events,links,tree,ring,served\n9,350,,,,\n",
        false,
    ),
];

/// Whether these are the rows of runs.
fn is_csv(alloc: Global, runs: &[Settling], want: &str) -> Result<bool, Fail> {
    Ok(csv_text(alloc, runs, 35)?.as_str() == want)
}

/// The place of the first row whose runs have other rows, or have not served as it says.
fn first_other_csv(alloc: Global) -> Result<Option<usize>, Fail> {
    for (at, (runs, want, served)) in CSV.iter().enumerate() {
        if !is_csv(alloc, runs, want)? || have_settled(runs, 35) != *served {
            return Ok(Some(at));
        }
    }
    Ok(None)
}

#[test]
fn shows_rows(rt: HostRuntime) -> Result<(), Fail> {
    as_expected(first_other_csv(rt.alloc()), &None)
}
