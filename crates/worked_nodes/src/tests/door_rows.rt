//! Doors that fail while a node runs, turn by turn.
use super::nodes::{Run, on_stage, row, run_of, turn_once, with_made};
use super::stage::Stage;
use node_follower::Follower;
use std::alloc::{AllocError, Global};
use std::test::Fail;
use test_parts::as_expected;

/// A turn: how many of its calls come before the one that fails, if any; whether the node's port to
/// the other node has a connection afterwards; and how many it has had so far.
type Turn = (Option<u64>, bool, u64);

/// Makes a turn in which this call fails. Returns whether the port to the other node is then as
/// expected, and the node is as before.
fn is_right(run: &mut Run<'_>, stage: &Stage, follower: &mut Follower, turn: Turn) -> bool {
    let (calls, is_up, made) = turn;
    let is_taken = follower.take_over(run.node());
    stage.spared.set(calls);
    turn_once(run);
    let is_left = match run.link(1 - run.node().id().min(1)) {
        Some(sight) => sight.is_up == is_up && sight.made == made,
        None => false,
    };
    is_taken && is_left && follower.stands_as(run.node())
}

/// Makes a turn in which the first turn's call fails, and then these. Returns the first of these
/// that is not as expected.
fn first_wrong_turn(
    run: &mut Run<'_>,
    stage: &Stage,
    follower: &mut Follower,
    turns: &[Turn],
) -> Option<usize> {
    stage.spared.set(turns.first().and_then(|turn| turn.0));
    turn_once(run);
    for (place, turn) in turns.iter().enumerate() {
        if !is_right(run, stage, follower, *turn) {
            return Some(place);
        }
    }
    None
}

/// Node 1 of two comes to node 0. In each turn it asks the neighbours' door and the clients' door,
/// and then connects if its port is loose, else reads. In the first turn it cannot connect, and
/// takes node 0 as parent.
const COMES: [Turn; 9] = [
    // It cannot connect.
    (Some(2), false, 0),
    (Some(2), false, 0),
    // The neighbours' door fails, then the clients': neither matters for this connection.
    (Some(0), true, 1),
    (Some(0), true, 1),
    (Some(1), true, 1),
    // The connection fails, then it cannot connect again.
    (Some(2), false, 1),
    (Some(2), false, 1),
    (None, true, 2),
    (None, true, 2),
];

/// Node 1 has come to node 0 and said who it is. In each turn node 0 asks the neighbours' door
/// until nobody comes, then the clients' door, then listens to the newcomers, and reads.
const LETS_IN: [Turn; 5] = [
    // The neighbours' door fails, as in the first turn.
    (Some(0), false, 0),
    // It lets the neighbour in, then fails.
    (Some(1), true, 1),
    // Whichever door fails, the connection stays.
    (Some(0), true, 1),
    (Some(1), true, 1),
    // The connection fails.
    (Some(2), false, 1),
];

/// The first of these turns that is wrong at one of two nodes. To node 0 the other node has come
/// already.
fn first_wrong(
    alloc: Global,
    stage: &Stage,
    id: u16,
    turns: &[Turn],
) -> Result<Option<usize>, Fail> {
    let net = row(alloc, 2, 1, 0)?;
    if id >= net.nodes() {
        return Err(Fail::from(AllocError));
    }
    if let (0, Some(links)) = (id, stage.links.first()) {
        links.greet(b"H0001\n");
    }
    let mut follower = Follower::new(alloc, &net, id)?;
    let made = run_of(alloc, stage, net, id, b"");
    with_made(
        made,
        |run| first_wrong_turn(run, stage, &mut follower, turns),
    )
}

/// The first wrong turns of node 1 and of node 0.
fn of_both(alloc: Global) -> Result<[Option<usize>; 2], Fail> {
    Ok([
        on_stage(alloc, 2, 0, |stage| first_wrong(alloc, stage, 1, &COMES))?,
        on_stage(alloc, 2, 0, |stage| first_wrong(alloc, stage, 0, &LETS_IN))?,
    ])
}

/// A port is loose until connecting succeeds, and a door that fails closes no connection.
#[test]
fn doors_and_connections_fail(rt: HostRuntime) -> Result<(), Fail> {
    as_expected(of_both(rt.alloc()), &[None, None])
}
