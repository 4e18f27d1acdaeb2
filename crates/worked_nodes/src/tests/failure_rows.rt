//! Connections and stores that fail.
use super::nodes::{
    Run, RunWith, WITH_TOKEN, on_stage, row, runs_of, started, stored, turn_all, with_made,
};
use super::stage::Stage;
use node_loop::Notes;
use node_state_file::{FusedStore, MemoryStore, StoreFault};
use std::alloc::{AllocError, Global};
use std::test::Fail;
use test_parts::as_expected;

/// Makes sixteen turns of each of two nodes. Returns whether each is then at its place, and nobody
/// waits or borrows.
fn are_settled(runs: &mut [Run<'_>]) -> bool {
    for _ in 0..16 {
        turn_all(runs);
    }
    for run in runs.iter() {
        let node = run.node();
        let parent = node.id().checked_sub(1);
        let is_placed = node.distance() == node.id() && node.parent() == parent;
        if !is_placed || node.waiting() > 0 || node.lent().is_some() {
            return false;
        }
    }
    true
}

/// Runs two nodes, each with a client that asks for the lock and releases it, and makes the call
/// after this many others fail. Returns whether both settle, and whether that call was made.
fn settle(alloc: Global, stage: &Stage, calls: u64) -> Result<(bool, bool), Fail> {
    stage.spared.set(Some(calls));
    for clients in &stage.clients {
        clients.greet(b"lock\nunlock\n");
    }
    let runs = runs_of(alloc, stage, &row(alloc, 2, 1, 0)?, &[&WITH_TOKEN, b""]);
    let are_settled = with_made(runs, |runs| are_settled(runs.as_mut_slice()))?;
    Ok((are_settled, stage.spared.get().is_none()))
}

/// Makes each call fail in turn, each time over new connections. Returns the first failure after
/// which the two do not settle, and whether there are more than 100 calls.
fn first_unsettled(alloc: Global) -> Result<(Option<u64>, bool), Fail> {
    for calls in 0..10_000 {
        let (are_settled, has_failed) = on_stage(alloc, 3, 1, |stage| settle(alloc, stage, calls))?;
        if !are_settled {
            return Ok((Some(calls), calls > 100));
        }
        if !has_failed {
            return Ok((None, calls > 100));
        }
    }
    Err(Fail::from(AllocError))
}

#[test]
fn two_nodes_settle_whichever_call_fails(rt: HostRuntime) -> Result<(), Fail> {
    as_expected(first_unsettled(rt.alloc()), &(None, true))
}

/// A node whose store fails once.
type Fused<'a> = RunWith<'a, FusedStore<MemoryStore>>;

/// Turns a node 512 times, and lets it attend before each turn. Returns the first turn that wrongly
/// saved or did not save: the 256th fails to save, and the 512th saves. After both of these turns
/// the node looks at its files.
fn first_wrong_turn(run: &mut Fused<'_>) -> Option<u32> {
    for turn in 1..=512 {
        let want = match turn {
            256 => Some(Err(StoreFault::Device)),
            512 => Some(Ok(())),
            _ => None,
        };
        run.attend(0, &mut Notes::none());
        let turned = run.turn(0, &mut Notes::none());
        if turned.saved != want || turned.is_to_look() != want.is_some() {
            return Some(turn);
        }
    }
    None
}

/// What node 1 has stored after the last turn: its ticks made node 0 the parent.
const TICKED: [u8; 36] = *b"TKT2\x00\x02\x00\x01\x00\x01\x00\x01\x00\x02\x00\x00\
\x00\x00\x00\x00\x00\x00\x00\x02\xff\xff\x00\x00\x00\x02\xff\xff\x00\x00\x00\x00";

/// Whether a node has stored that.
fn has_stored(run: &Fused<'_>) -> bool {
    run.store().inner().stored() == Some(TICKED.as_slice())
}

/// The first wrong turn of node 1 alone, and whether it has stored that in the end. Its store fails
/// at the first call after the load at the start.
fn saved(alloc: Global, stage: &Stage) -> Result<(Option<u32>, bool), Fail> {
    let store = FusedStore::new(stored(alloc, b"")?, 1);
    let run = started(alloc, stage, row(alloc, 2, 1, 0)?, 1, store, &mut None);
    with_made(run, |run| (first_wrong_turn(run), has_stored(run)))
}

#[test]
fn each_256th_turn_saves_and_goes_on_where_that_fails(rt: HostRuntime) -> Result<(), Fail> {
    let found = on_stage(rt.alloc(), 0, 0, |stage| saved(rt.alloc(), stage));
    as_expected(found, &(None, true))
}
