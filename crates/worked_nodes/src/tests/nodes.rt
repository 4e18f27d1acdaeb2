//! Nodes that run over a stage, and how they begin.
ghost use Rattle.std.specs.Prelude.{◌≡◌};
ghost use Rattle.node_core.specs.Site.{site_of};
ghost use Rattle.node_core.specs.View.{site_in};

use super::stage::{Stage, StageDoors};
use node_core::Node;
use node_loop::{NodeRun, Notes};
use node_state_file::{MOST_BYTES, MemoryStore, StartFault, Store, start};
use pace::Manner;
use std::alloc::{AllocError, Global};
use std::test::Fail;
use topology::Net;

/// A node that runs over a stage, with a store.
pub type RunWith<'a, S> = NodeRun<StageDoors<'a>, S>;

/// The same with a store over memory.
pub type Run<'a> = RunWith<'a, MemoryStore>;

/// The root of two nodes, which has the token: node 1 is its tree neighbour.
pub const WITH_TOKEN: [u8; 34] = *b"TKT1\x00\x02\x00\x00\x00\x01\x00\x00\xff\xff\
\x00\x01\x00\x00\x00\x00\x00\x02\xff\xff\x00\x00\x00\x01\x00\x00\x00\x00\x00\x00";

/// Does something with what was made (a running node, say), drops it, and returns the result.
///
/// A function that holds a node and may return early is expensive to prove; here that is proved
/// once for all tests.
pub fn with_made<R: Drop, E, T, F: FnOnce(&mut R) -> T>(made: Result<R, E>, deed: F) -> Result<T, E>
    requires { F.IsAlwaysCallable deed }
{
    match made {
        Ok(mut held) => Ok(deed(&mut held)),
        Err(fault) => Err(fault),
    }
}

/// Does something on a new stage for three nodes, with this many connections to each of them, drops
/// the stage, and returns the result.
pub fn on_stage<T, F: FnOnce(&Stage) -> Result<T, Fail>>(
    alloc: Global,
    links: usize,
    clients: usize,
    deed: F,
) -> Result<T, Fail>
    requires { F.IsAlwaysCallable deed }
{
    let stage = Stage::new(alloc, 3, links, clients)?;
    deed(&stage)
}

/// Two or three nodes in a row, the root first, whose links hold `capacity` frames.
pub fn row(alloc: Global, nodes: i64, capacity: i64, lease: i64) -> Result<Net, Fail> {
    let edges = [(0, 1), (1, 2)];
    let count = if nodes == 2 { 1 } else { 2 };
    Ok(Net::make(alloc, nodes, 0, capacity, lease, &edges[..count])?)
}

/// A store with these bytes, if there are any, and room for one state.
pub fn stored(alloc: Global, bytes: &[u8]) -> Result<MemoryStore, Fail> {
    let mut store = MemoryStore::new(alloc, MOST_BYTES)?;
    if !bytes.is_empty() {
        store.save(bytes)?;
    }
    Ok(store)
}

/// This node, with this store. It offers a frame on each port in each turn.
pub fn run_with<'a, S: Store + Drop>(
    alloc: Global,
    stage: &'a Stage,
    net: Net,
    node: Node,
    store: S,
) -> Result<RunWith<'a, S>, Fail>
    requires { site_in node ≡ site_of net (site_in node).id }
{
    let doors = StageDoors {
        node: node.id(),
        stage,
        failures: 0,
    };
    let eager = Manner { hold: 0, repeat: 0 };
    match NodeRun::new(alloc, net, node, doors, store, eager) {
        Ok(run) => Ok(run),
        Err(_unmade) => Err(Fail::from(AllocError)),
    }
}

/// Node `id` of a network, from what this store loads, and the fault of its start.
pub fn started<'a, S: Store + Drop>(
    alloc: Global,
    stage: &'a Stage,
    net: Net,
    id: u16,
    mut store: S,
    fault: &mut Option<StartFault>,
) -> Result<RunWith<'a, S>, Fail> {
    if id >= net.nodes() {
        return Err(Fail::from(AllocError));
    }
    let started = start(alloc, &mut store, &net, id)?;
    *fault = started.fault;
    run_with(alloc, stage, net, started.state, store)
}

/// Node `id` of a network, in the state of this file; without one it is fresh.
pub fn run_of<'a>(
    alloc: Global,
    stage: &'a Stage,
    net: Net,
    id: u16,
    file: &[u8],
) -> Result<Run<'a>, Fail> {
    let store = stored(alloc, file)?;
    started(alloc, stage, net, id, store, &mut None)
}

/// The first nodes of a network, each in the state of its file, or fresh.
pub fn runs_of<'a>(
    alloc: Global,
    stage: &'a Stage,
    net: &Net,
    files: &[&[u8]],
) -> Result<Vec<Run<'a>>, Fail> {
    let mut runs = Vec::with_capacity(alloc, files.len())?;
    for (id, file) in (0..64).zip(files) {
        runs.push(run_of(alloc, stage, net.copy(alloc)?, id, file)?)?;
    }
    Ok(runs)
}

/// Makes one turn, and hides its contract, which would otherwise be part of each test.
pub fn turn_once(run: &mut Run<'_>) {
    run.turn(0, &mut Notes::none());
}

/// What a node does between two turns.
pub fn attend_once(run: &mut Run<'_>) {
    run.attend(0, &mut Notes::none());
}

/// One turn of each of these nodes, in order.
pub fn turn_all(runs: &mut [Run<'_>]) {
    for run in runs.iter_mut() {
        turn_once(run);
    }
}
