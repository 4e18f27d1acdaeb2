//! Nodes that run over memory, turn by turn, and their replay.
use crate::tests::draws::Draws;
use crate::tests::nodes::{Run, started};
use crate::tests::replays::desk::{CLIENTS, Desk};
use crate::tests::replays::replay::{Counts, NO_NODE, Replay, Wrong};
use crate::tests::stage::{Mistake, Stage};
use crate::tests::wires::{Pair, ROOM};
use node_loop::Notes;
use pace::{Manner, TurnPace};
use std::alloc::Global;
use std::test::Fail;
use topology::Net;

/// How many turns a run has.
const TURNS: u32 = 600;

/// How many connections can come to a node from its neighbours.
const CONNECTIONS: usize = 200;

/// How many calls a connection lasts: this many, and up to `SPREAD` more.
const CALLS: u32 = 40;

const SPREAD: u32 = 400;

/// A network: its nodes, what its links hold, its lease in ticks, and its edges.
pub type Shape = (u16, u16, i64, &'static [(i64, i64)]);

/// The result of a run: its first error with its turn, the sweeps after half of the turns, and the
/// counts at the end.
pub type Ending = (Option<(u32, Wrong)>, u64, Counts);

/// A stage for a network, on which this mistake happens now and then, if there is one.
fn stage_of(
    alloc: Global,
    (nodes, capacity, _, _): Shape,
    mistake: Option<Mistake>,
    draws: &mut Draws,
) -> Result<Stage, Fail> {
    let mut stage = Stage::new(alloc, nodes, CONNECTIONS, CLIENTS)?;
    for links in &stage.links {
        for pair in &links.pairs {
            pair.lasts.set(u64::from(CALLS + draws.below(SPREAD)));
        }
    }
    for _ in 0..nodes {
        stage.desks.push(Desk::new())?;
    }
    // The sender may still hold one of the frames under way on a link, whole or in part.
    stage.room = (capacity as usize).saturating_sub(1) * 22;
    stage.mistake = mistake;
    Ok(stage)
}

/// All nodes of a network as they are in the world. With odd seeds they offer frames in each turn,
/// else at their own pace.
fn runs_of<'a>(
    alloc: Global,
    net: &Net,
    replay: &Replay,
    seed: u64,
    stage: &'a Stage,
) -> Result<Vec<Run<'a>>, Fail> {
    let mut runs = Vec::with_capacity(alloc, net.nodes() as usize)?;
    for id in 0..net.nodes() {
        let store = replay.store_of(alloc, id)?;
        let mut run = started(alloc, stage, net.copy(alloc)?, id, store, &mut None)?;
        if seed % 2 == 0 {
            run.set_pace(TurnPace::new(Manner::usual()));
        }
        runs.push(run)?;
    }
    Ok(runs)
}

/// Lets a client say or do something, unless what it said is still unread, or it has closed.
fn stir(client: &Pair, draw: u32) {
    if !client.up.is_idle() {
        return;
    }
    let line: &[u8] = match draw {
        0 | 1 | 2 | 3 => b"lock\n",
        4 | 5 | 6 => b"unlock\n",
        7 => b"status\n",
        _ => b"",
    };
    client.up.write(line, ROOM);
    match draw {
        // It takes no answer: the write fails.
        7 => client.down.is_cut.set(true),
        8 => client.up.is_closed.set(true),
        // It is gone: a read fails.
        9 => client.lasts.set(0),
        _ => {}
    }
}

/// Lets some client of a node come, or do something.
fn stir_client(stage: &Stage, node: usize, draws: &mut Draws) -> Option<()> {
    if draws.below(4) == 0 {
        stage.desks.get(node)?.has_comer.set(true);
    } else {
        let clients = stage.clients.get(node)?;
        let ticket = draws.below(3) as usize;
        stir(clients.pairs.get(ticket)?, draws.below(10));
    }
    Some(())
}

/// A turn if one is due, else what a node does between two turns. Returns whether it was a turn.
fn turn_once(run: &mut Run<'_>, now: u64) -> bool {
    if run.is_turn_due(now) {
        run.turn(now, &mut Notes::none());
        true
    } else {
        run.attend(now, &mut Notes::none());
        false
    }
}

/// Runs one node, and replays its account.
fn turn_and_replay(
    run: &mut Run<'_>,
    stage: &Stage,
    replay: &mut Replay,
    now: u64,
) -> Result<(), Wrong> {
    stage.account.clear();
    let ticked = turn_once(run, now);
    replay.turn(run.node().id(), &stage.account, ticked)
}

/// Lets a client do something, some time pass, and a node take a turn. Compares all nodes with the
/// world's.
fn make_turn(
    runs: &mut [Run<'_>],
    stage: &Stage,
    replay: &mut Replay,
    draws: &mut Draws,
    now: &mut u64,
) -> Result<(), Wrong> {
    let nodes = runs.len().clamp(1, 64) as u32;
    let _is_there = stir_client(stage, draws.below(nodes) as usize, draws);
    *now = now.saturating_add(u64::from(draws.below(2000)));
    match runs.get_mut(draws.below(nodes) as usize) {
        Some(run) => turn_and_replay(run, stage, replay, *now)?,
        None => return Err(NO_NODE),
    }
    for run in runs.iter() {
        replay.compare(run.node())?;
    }
    Ok(())
}

/// Makes all turns, or those up to the first error.
fn make_turns(
    runs: &mut [Run<'_>],
    stage: &Stage,
    replay: &mut Replay,
    draws: &mut Draws,
) -> Ending {
    let (mut now, mut half) = (0, 0);
    for turn in 0..TURNS {
        if turn == TURNS / 2 {
            half = replay.sweeps();
        }
        if let Err(wrong) = make_turn(runs, stage, replay, draws, &mut now) {
            return (Some((turn, wrong)), half, replay.counts());
        }
    }
    (None, half, replay.counts())
}

/// A world of the network whose parts are scrambled by a seed.
fn scrambled(alloc: Global, net: &Net, seed: u64) -> Result<Replay, Fail> {
    let mut replay = Replay::new(alloc, net)?;
    match replay.scramble(alloc, seed) {
        Ok(()) => Ok(replay),
        Err(wrong) => Err(Fail::new(wrong)),
    }
}

/// Runs a network with a seed over this stage.
fn run_over(
    alloc: Global,
    net: &Net,
    stage: &Stage,
    draws: &mut Draws,
    seed: u64,
) -> Result<Ending, Fail> {
    let mut replay = scrambled(alloc, net, seed)?;
    let mut runs = runs_of(alloc, net, &replay, seed, stage)?;
    Ok(make_turns(runs.as_mut_slice(), stage, &mut replay, draws))
}

/// Runs a network with a seed, and connections that make this mistake, if there is one.
pub fn run_seed(
    alloc: Global,
    shape: Shape,
    mistake: Option<Mistake>,
    seed: u64,
) -> Result<Ending, Fail> {
    let (nodes, capacity, lease, edges) = shape;
    let net = Net::make(alloc, nodes as i64, 0, capacity as i64, lease, edges)?;
    let mut draws = Draws::new(seed);
    let stage = stage_of(alloc, shape, mistake, &mut draws)?;
    run_over(alloc, &net, &stage, &mut draws, seed)
}
