//! More clients and neighbours than there is room for.
use super::nodes::{Run, attend_once, on_stage, row, run_of, turn_once, with_made};
use super::stage::Stage;
use super::wires::Pair;
use std::alloc::Global;
use std::test::Fail;
use test_parts::as_expected;

/// The first of these clients with a wrong answer: 64 wait, 64 find no room, and the connection of
/// the last one is closed.
fn first_wrong_answer(pairs: &[Pair]) -> Option<usize> {
    for (place, pair) in pairs.iter().enumerate() {
        let want = if (64..128).contains(&place) {
            b"full\n".as_slice()
        } else {
            b""
        };
        if !pair.down.gives(want) || pair.down.is_closed.get() != (place == 128) {
            return Some(place);
        }
    }
    None
}

/// All clients of a stage come to this node and ask for the lock. Returns how many tickets wait
/// then, and the first client with a wrong answer.
fn crowd(run: &mut Run<'_>, stage: &Stage) -> Option<(usize, Option<usize>)> {
    let clients = stage.clients.first()?;
    for _ in &clients.pairs {
        clients.greet(b"lock\n")?;
    }
    for _ in 0..3 {
        turn_once(run);
    }
    Some((run.node().waiting(), first_wrong_answer(&clients.pairs)))
}

/// The same at a new root of two nodes.
fn crowded(alloc: Global, stage: &Stage) -> Result<Option<(usize, Option<usize>)>, Fail> {
    let made = run_of(alloc, stage, row(alloc, 2, 1, 0)?, 0, b"");
    with_made(made, |run| crowd(run, stage))
}

#[test]
fn the_hundred_and_twenty_ninth_client_is_closed(rt: HostRuntime) -> Result<(), Fail> {
    let found = on_stage(rt.alloc(), 0, 129, |stage| crowded(rt.alloc(), stage));
    as_expected(found, &Some((64, None)))
}

/// Lets a node attend 256 times. Returns the first time before which it closed a connection other
/// than the 65th, or left that one open after the second time; and that connection.
fn first_wrong_turn(run: &mut Run<'_>, pairs: &[Pair]) -> Option<(u32, usize)> {
    for turn in 1..=256 {
        for (place, pair) in pairs.iter().enumerate() {
            if pair.down.is_closed.get() != (place == 64 && turn > 2) {
                return Some((turn, place));
            }
        }
        attend_once(run);
    }
    None
}

/// What was wrong while a node attended 256 times and all except the last of some connections said
/// nothing; how many connections were closed then; and whether the last one was welcome.
type Silence = (Option<(u32, usize)>, usize, bool);

/// All connections of neighbours on a stage except the last come to this node, and say nothing.
fn silence(run: &mut Run<'_>, stage: &Stage) -> Option<Silence> {
    let links = stage.links.first()?;
    for _ in 1..links.pairs.len() {
        links.knock()?;
    }
    let wrong = first_wrong_turn(run, &links.pairs);
    let closed = links.pairs.iter().filter(|pair| pair.down.is_closed.get());
    let count = closed.count();
    let last = links.greet(b"H0001\n")?;
    turn_once(run);
    Some((wrong, count, last.down.gives(b"F000000000003ffff0000\n")))
}

/// The same at the root of a row.
fn silent(alloc: Global, stage: &Stage) -> Result<Option<Silence>, Fail> {
    let made = run_of(alloc, stage, row(alloc, 3, 1, 0)?, 0, b"");
    with_made(made, |run| silence(run, stage))
}

#[test]
fn silent_connections_are_few_and_go(rt: HostRuntime) -> Result<(), Fail> {
    let found = on_stage(rt.alloc(), 66, 0, |stage| silent(rt.alloc(), stage));
    as_expected(found, &Some((None, 65, true)))
}
