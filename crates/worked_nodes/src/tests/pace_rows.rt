//! Nodes under load whose pace is damaged again and again.
use super::draws::Draws;
use super::nodes::{Run, WITH_TOKEN, on_stage, row, runs_of, with_made};
use super::stage::Stage;
use super::wires::{Pair, ROOM};
use node_loop::Notes;
use pace::{Calling, Manner, NodePace, PORTS, PortPace, TurnPace};
use std::alloc::Global;
use std::test::Fail;
use test_parts::as_expected;
use topology::{Frame, Payload};

/// The turns of a node in one stretch; they are 100 microseconds apart.
const TURNS: u64 = 500;

/// A small number, one of the greatest, or any number.
fn number(draws: &mut Draws) -> u64 {
    match draws.below(4) {
        0 => u64::from(draws.below(8)),
        1 => u64::MAX - u64::from(draws.below(8)),
        2 => u64::from(draws.below(50_000)),
        _ => u64::from(draws.below(u32::MAX)).wrapping_mul(0x1_0000_0001),
    }
}

/// The same in 32 bits.
fn count(draws: &mut Draws) -> u32 {
    (number(draws) % 4_294_967_296) as u32
}

/// A frame, or none.
fn frame(draws: &mut Draws) -> Option<Frame> {
    if draws.below(2) == 0 {
        return None;
    }
    Some(Frame {
        seq: draws.below(5) as u16,
        ack: draws.below(5) as u16,
        payload: Payload {
            distance: draws.below(3) as u16,
            parent: None,
            ring: draws.below(7) as u16,
        },
    })
}

fn port(draws: &mut Draws) -> PortPace {
    PortPace {
        given: frame(draws),
        given_times: count(draws),
        given_at: number(draws),
        heard: frame(draws),
        heard_times: count(draws),
        heard_at: number(draws),
        owes: draws.below(2) == 0,
        calls: match draws.below(3) {
            0 => Calling::Done,
            1 => Calling::Begins,
            _ => Calling::GoesOn,
        },
    }
}

/// A pace with anything in its fields.
fn pace(draws: &mut Draws) -> TurnPace {
    let mut ports = [port(draws); PORTS];
    for place in &mut ports {
        *place = port(draws);
    }
    let node = NodePace {
        hold_until: number(draws),
        credit: count(draws),
        called_at: number(draws),
        ticked_at: number(draws),
    };
    TurnPace::remembering(Manner::usual(), node, ports)
}

/// Makes one turn of a node at its own pace, which may be damaged first.
fn turn(run: &mut Run<'_>, draws: &mut Draws, now: u64) {
    if draws.below(4) == 0 {
        run.set_pace(pace(draws));
    }
    run.wait(now);
    run.turn(now, &mut Notes::none());
}

/// Whether this client was granted the lock now. If so, it releases the lock and asks again.
fn is_granted(client: &Pair) -> bool {
    let mut bytes = [0; 64];
    let count = client.down.read(&mut bytes, false);
    let is_granted = bytes[..count].ends_with(b"granted\n");
    if is_granted {
        client.up.write(b"unlock\nlock\n", ROOM);
    }
    is_granted
}

/// Whether each of two clients is granted the lock in one stretch of turns from this time on.
fn are_granted(
    runs: &mut [Run<'_>],
    draws: &mut Draws,
    (first, second): (&Pair, &Pair),
    begin: u64,
) -> bool {
    let (mut is_first, mut is_second) = (false, false);
    for place in 0..TURNS {
        for run in runs.iter_mut() {
            turn(run, draws, begin.saturating_add(place * 100));
        }
        is_first |= is_granted(first);
        is_second |= is_granted(second);
    }
    is_first && is_second
}

/// The first stretch in which a client is not granted the lock. Each node has one client.
fn first_starved(runs: &mut [Run<'_>], stage: &Stage) -> Option<u64> {
    let first = stage.clients.first()?.greet(b"lock\n")?;
    let second = stage.clients.get(1)?.greet(b"lock\n")?;
    let mut draws = Draws::new(7);
    for run in runs.iter_mut() {
        run.set_pace(TurnPace::new(Manner::usual()));
    }
    for stretch in 0..8 {
        if !are_granted(runs, &mut draws, (first, second), stretch * TURNS * 100) {
            return Some(stretch);
        }
    }
    Some(8)
}

/// The same for two nodes, the first of which has the token.
fn starved(alloc: Global, stage: &Stage) -> Result<Option<u64>, Fail> {
    let runs = runs_of(alloc, stage, &row(alloc, 2, 1, 0)?, &[&WITH_TOKEN, b""]);
    with_made(runs, |runs| first_starved(runs.as_mut_slice(), stage))
}

/// No client starves in eight stretches.
#[test]
fn a_damaged_pace_costs_time_alone(rt: HostRuntime) -> Result<(), Fail> {
    let found = on_stage(rt.alloc(), 1, 1, |stage| starved(rt.alloc(), stage));
    as_expected(found, &Some(8))
}
