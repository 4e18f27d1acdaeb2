//! The schedule by rounds, event by event.
ghost use Rattle.std.specs.Prelude.{◌≡◌, ◌<◌, ◌+◌, OnOk};
ghost use Rattle.byte_streams.specs.Streams.{CountsFailures};
ghost use Rattle.schedules.specs.Rounds.{exchanges, exchanges_from, round, rounds};

use crate::event_sink::EventSink;
use byte_streams::Failed;
use configuration::Event;
use std::alloc::Allocator;
use topology::Net;

/// Gives the sink the events of `count` rounds, one by one. It keeps no list and takes no memory.
///
/// # Errors
/// [`Failed`] if the sink failed; nothing is promised of what it took then.
pub fn give_rounds<A: Allocator + Copy, S: EventSink>(
    net: &Net<A>,
    count: u64,
    sink: &mut S,
) -> Result<(), Failed>
    ensures taken { OnOk result (S.takes sink.old (rounds net.now count) sink.new) }
    ensures cause { CountsFailures result (S.failures sink.old) (S.failures sink.new) }
{
    for i in 0..count {
        give_round(net, sink)?;
    }
    Ok(())
}

/// Gives the sink the events of one round: each node ticks, by ascending id, and then each link
/// carries one item more than it holds, by ascending source and destination.
///
/// # Errors
/// [`Failed`] if the sink failed; nothing is promised of what it took then.
pub fn give_round<A: Allocator + Copy, S: EventSink>(
    net: &Net<A>,
    sink: &mut S,
) -> Result<(), Failed>
    ensures taken { OnOk result (S.takes sink.old (round net.now) sink.new) }
    ensures cause { CountsFailures result (S.failures sink.old) (S.failures sink.new) }
{
    for node in 0..net.nodes() {
        sink.take(&Event::Tick { node })?;
    }
    for from in 0..net.nodes() {
        give_exchanges_from(net, from, sink)?;
    }
    Ok(())
}

/// Gives the sink the exchanges on the links that lead from a node.
fn give_exchanges_from<A: Allocator + Copy, S: EventSink>(
    net: &Net<A>,
    from: u16,
    sink: &mut S,
) -> Result<(), Failed>
    requires { from < net.now.nodes }
    ensures taken { OnOk result
        (S.takes sink.old (exchanges_from net.now from) sink.new) }
    ensures cause { CountsFailures result (S.failures sink.old) (S.failures sink.new) }
{
    let count = u32::from(net.capacity()) + 1;
    let neighbours = net.neighbours(from);
    for to in neighbours {
        give_exchanges(from, *to, count, sink)?;
    }
    Ok(())
}

/// Gives the sink a send and then a take on a link, `count` times.
fn give_exchanges<S: EventSink>(from: u16, to: u16, count: u32, sink: &mut S) -> Result<(), Failed>
    ensures taken { OnOk result
        (S.takes sink.old (exchanges from to count) sink.new) }
    ensures cause { CountsFailures result (S.failures sink.old) (S.failures sink.new) }
{
    for i in 0..count {
        sink.take(&Event::Send { from, to })?;
        sink.take(&Event::Take { from, to })?;
    }
    Ok(())
}
