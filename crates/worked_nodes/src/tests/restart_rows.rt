//! A node that starts again from a meaningless state, among running nodes.
use super::nodes::{Run, on_stage, row, runs_of, started, stored, turn_all, with_made};
use super::stage::Stage;
use super::wires::{Pair, Queue, ROOM};
use node_state_file::{FileFault, StartFault};
use std::alloc::Global;
use std::test::Fail;
use test_parts::as_expected;

/// A state of node 2 of three nodes in a row: at distance 0, below node 1, with numbers of its port
/// that node 1 never sent.
const SCRAMBLED: [u8; 36] = *b"TKT2\x00\x03\x00\x02\x00\x40\x00\x01\x00\x00\x00\x01\
\x00\x01\x00\x07\x00\x09\x00\x00\xff\xff\x00\x05\x00\x03\x00\x02\x00\x0c\x00\x0b";

/// How the right status of each node begins.
const PLACES: [&str; 3] = [
    "node 0 distance 0 parent none ",
    "node 1 distance 1 parent 0 ",
    "node 2 distance 2 parent 1 ",
];

/// The most turns that distances may take to settle.
const TURNS: u32 = 1_000;

/// Asks a node for its status through this client, again and again. Returns whether an answer
/// begins like this at last.
fn comes_to(runs: &mut [Run<'_>], client: &Pair, begin: &str) -> bool {
    for _ in 0..TURNS {
        client.up.write(b"status\n", ROOM);
        turn_all(runs);
        let mut bytes = [0; 96];
        let count = client.down.read(&mut bytes, false);
        if bytes[..count].starts_with(begin.as_bytes()) {
            return true;
        }
    }
    false
}

/// Runs nodes until all are in their places. Returns the place that one of them does not come to.
fn misplaced(runs: &mut [Run<'_>], stage: &Stage, last: &Pair) -> Option<&'static str> {
    if !comes_to(runs, last, PLACES[2]) {
        return Some(PLACES[2]);
    }
    for (clients, place) in stage.clients.iter().zip(&PLACES[..2]) {
        match clients.pairs.first() {
            Some(client) if comes_to(runs, client, place) => {}
            _ => return Some(place),
        }
    }
    None
}

/// Lets a client of node 2 leave, and the next one come. Returns what was missed first.
fn missed_by(runs: &mut [Run<'_>], clients: &Queue, leaving: &Pair) -> Option<&'static str> {
    leaving.up.write(b"loc\n", ROOM);
    turn_all(runs);
    if !leaving.down.gives(b"unknown\n") {
        return Some("the answer to an unknown line");
    }
    leaving.up.is_closed.set(true);
    match clients.knock() {
        Some(next) if comes_to(runs, next, PLACES[2]) => {}
        _ => return Some(PLACES[2]),
    }
    (!leaving.down.is_closed.get()).then_some("the end of a connection")
}

/// Runs three nodes until all are in their places, and then lets the first client of node 2 leave.
/// Returns what was missed first.
fn missed(runs: &mut [Run<'_>], stage: &Stage) -> Option<&'static str> {
    let Some(clients) = stage.clients.get(2) else {
        return Some("node 2");
    };
    let Some(leaving) = clients.knock() else {
        return Some("a client");
    };
    let place = misplaced(runs, stage, leaving);
    if place.is_some() {
        return place;
    }
    missed_by(runs, clients, leaving)
}

/// Starts node 2 beside two running nodes, with these bytes in its store, and ends it. Returns the
/// fault of its start; fails with what was missed afterwards.
fn life<'a>(
    alloc: Global,
    stage: &'a Stage,
    runs: &mut Vec<Run<'a>>,
    bytes: &[u8],
) -> Result<Option<StartFault>, Fail> {
    let mut fault = None;
    let store = stored(alloc, bytes)?;
    runs.push(started(alloc, stage, row(alloc, 3, 64, 0)?, 2, store, &mut fault)?)?;
    let missed = missed(runs.as_mut_slice(), stage);
    let _ended = runs.pop();
    match missed {
        None => Ok(fault),
        Some(missed) => Err(Fail::new(missed)),
    }
}

/// Starts node 2 beside two running nodes, ends it, and starts it again with these bytes in its
/// store. Returns the results of both starts.
fn both_lives<'a>(
    alloc: Global,
    stage: &'a Stage,
    runs: &mut Vec<Run<'a>>,
    bytes: &[u8],
) -> Result<(Option<StartFault>, Option<StartFault>), Fail> {
    Ok((
        life(alloc, stage, runs, b"")?,
        life(alloc, stage, runs, bytes)?,
    ))
}

/// The same beside two new nodes, with the first `kept` bytes of that state.
fn lives(
    alloc: Global,
    stage: &Stage,
    kept: usize,
) -> Result<(Option<StartFault>, Option<StartFault>), Fail> {
    for clients in stage.clients.iter().take(2) {
        clients.knock();
    }
    let bytes = &SCRAMBLED[..kept.min(SCRAMBLED.len())];
    let runs = runs_of(alloc, stage, &row(alloc, 3, 64, 0)?, &[b"", b""]);
    with_made(runs, |runs| both_lives(alloc, stage, runs, bytes))?
}

/// The same with all bytes of the state, and with 33 of 36.
fn all_lives(
    alloc: Global,
) -> Result<
    (
        (Option<StartFault>, Option<StartFault>),
        (Option<StartFault>, Option<StartFault>),
    ),
    Fail,
> {
    Ok((
        on_stage(alloc, 3, 4, |stage| lives(alloc, stage, 36))?,
        on_stage(alloc, 3, 4, |stage| lives(alloc, stage, 33))?,
    ))
}

#[test]
fn a_node_starts_again_whatever_its_file_holds(rt: HostRuntime) -> Result<(), Fail> {
    let first = Some(StartFault::Absent);
    let short = Some(StartFault::File(FileFault::Short));
    as_expected(all_lives(rt.alloc()), &((first, None), (first, short)))
}
