//! Rounds in which one link or one node is slow.
ghost use Rattle.std.specs.Prelude.{◌≡◌, ◌<◌, [], ◌∷◌, OnOk};
ghost use Rattle.byte_streams.specs.Streams.{CountsFailures};
ghost use Rattle.schedules.specs.Rounds.{exchanges, exchanges_from, round};
ghost use Rattle.schedules.specs.Slow.{has_part, is_part, others, slow_link, slow_node, slow_round};

use crate::by_rounds::give_round;
use crate::draws::draw_below;
use crate::event_sink::EventSink;
use crate::random::draw_link;
use byte_streams::Failed;
use configuration::Event;
use rand_pcg::Lcg64Xsh32;
use std::alloc::Allocator;
use topology::Net;

/// What is slower than the others.
#[derive(Clone, Copy)]
pub enum Slow {
    /// The link that leads from one node to another; its other direction is as fast as the others.
    Link { from: u16, to: u16 },
    /// A node.
    Node { node: u16 },
}

impl Slow {
    /// Whether an event is its part: a send or a take on the link, or a tick of the node.
    fn has(self, event: &Event) -> bool
        ensures { result ≡ is_part self event.now }
    {
        match (self, *event) {
            (
                Slow::Link { from, to },
                Event::Send { from: a, to: b } | Event::Take { from: a, to: b },
            ) => { a == from && b == to }
            (Slow::Node { node }, Event::Tick { node: a }) => a == node,
            _ => false,
        }
    }
}

/// The slow link that a generator's next two words name: an edge, and one of its two directions. The
/// generator stays as it is, so that the link is the same in each round.
pub fn slow_link<A: Allocator + Copy>(net: &Net<A>, generator: &Lcg64Xsh32) -> Slow
    ensures { result ≡ slow_link net.now generator.now }
{
    let mut words = generator.clone().unwrap();
    let (from, to) = draw_link(net, &mut words);
    Slow::Link { from, to }
}

/// The slow node that a generator's next word names. The generator stays as it is, so that the node is
/// the same in each round.
pub fn slow_node<A: Allocator + Copy>(net: &Net<A>, generator: &Lcg64Xsh32) -> Slow
    ensures { result ≡ slow_node net.now generator.now }
{
    let mut words = generator.clone().unwrap();
    let node = draw_below(&mut words, u32::from(net.nodes())) as u16;
    Slow::Node { node }
}

/// Whether the slow one has its part in a round, the first being round 0. Of each hundred rounds it
/// has its part in `share`, spread as evenly as can be. With 100 or more it has its part in each
/// round, and with 0 in none.
pub fn has_part(share: u16, round: u64) -> bool
    ensures { result ≡ has_part share round }
{
    let (place, share) = (round % 100, u64::from(share));
    place * share / 100 < (place + 1) * share / 100
}

/// Gives the sink the events of round `round`, the first being round 0: each node ticks, and then each
/// link carries its items, as in [`give_round`]. But the slow one has its part only in `share` of a
/// hundred rounds.
///
/// # Errors
/// [`Failed`] if the sink failed; nothing is promised of what it took then.
pub fn give_slow_round<A: Allocator + Copy, S: EventSink>(
    net: &Net<A>,
    slow: Slow,
    share: u16,
    round: u64,
    sink: &mut S,
) -> Result<(), Failed>
    ensures taken { OnOk result (S.takes sink.old (slow_round net.now slow share round) sink.new) }
    ensures cause { CountsFailures result (S.failures sink.old) (S.failures sink.new) }
{
    if has_part(share, round) {
        give_round(net, sink)
    } else {
        give_others(net, slow, sink)
    }
}

/// Gives the sink the events of a round without the slow one's part.
fn give_others<A: Allocator + Copy, S: EventSink>(
    net: &Net<A>,
    slow: Slow,
    sink: &mut S,
) -> Result<(), Failed>
    ensures taken { OnOk result (S.takes sink.old (others slow (round net.now)) sink.new) }
    ensures cause { CountsFailures result (S.failures sink.old) (S.failures sink.new) }
{
    for node in 0..net.nodes() {
        give_other(&Event::Tick { node }, slow, sink)?;
    }
    for from in 0..net.nodes() {
        give_others_from(net, from, slow, sink)?;
    }
    Ok(())
}

/// Gives the sink the exchanges on the links that lead from a node, except the slow one's.
fn give_others_from<A: Allocator + Copy, S: EventSink>(
    net: &Net<A>,
    from: u16,
    slow: Slow,
    sink: &mut S,
) -> Result<(), Failed>
    requires { from < net.now.nodes }
    ensures taken { OnOk result
        (S.takes sink.old (others slow (exchanges_from net.now from)) sink.new) }
    ensures cause { CountsFailures result (S.failures sink.old) (S.failures sink.new) }
{
    let count = u32::from(net.capacity()) + 1;
    let neighbours = net.neighbours(from);
    for to in neighbours {
        give_other_exchanges(from, *to, count, slow, sink)?;
    }
    Ok(())
}

/// Gives the sink a send and then a take on a link, `count` times, unless they are the slow one's
/// part.
fn give_other_exchanges<S: EventSink>(
    from: u16,
    to: u16,
    count: u32,
    slow: Slow,
    sink: &mut S,
) -> Result<(), Failed>
    ensures taken { OnOk result
        (S.takes sink.old (others slow (exchanges from to count)) sink.new) }
    ensures cause { CountsFailures result (S.failures sink.old) (S.failures sink.new) }
{
    for i in 0..count {
        give_other(&Event::Send { from, to }, slow, sink)?;
        give_other(&Event::Take { from, to }, slow, sink)?;
    }
    Ok(())
}

/// Gives the sink an event, unless it is the slow one's part.
fn give_other<S: EventSink>(event: &Event, slow: Slow, sink: &mut S) -> Result<(), Failed>
    ensures taken { OnOk result (S.takes sink.old (others slow (event.now ∷ [])) sink.new) }
    ensures cause { CountsFailures result (S.failures sink.old) (S.failures sink.new) }
{
    if slow.has(event) {
        Ok(())
    } else {
        sink.take(event)
    }
}
