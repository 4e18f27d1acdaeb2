//! The random schedule, event by event.
ghost use Rattle.std.specs.Prelude.{◌≡◌, ◌<◌, ◌≤◌, OnOk};
ghost use Rattle.byte_streams.specs.Streams.{CountsFailures};
ghost use Rattle.topology.specs.Network.{Edge};
ghost use Rattle.configuration.specs.ConfigurationView.{world_of};
ghost use Rattle.configuration.specs.run_model.Step.{step};
ghost use Rattle.schedules.specs.Random.{draw_link, draw_arrival, draw_client, draw_step};
ghost use Rattle.schedules.specs.Random.{admitted, node_at, random_steps};

use crate::draws::draw_below;
use crate::event_sink::EventSink;
use byte_streams::Failed;
use configuration::{Configuration, Event};
use rand_pcg::Lcg64Xsh32;
use std::alloc::Allocator;
use topology::Net;

/// Which steps a random schedule has besides ticks, sends and takes.
#[derive(Clone, Copy)]
pub struct Chances {
    /// How many of a hundred arrivals are losses: 0 to 100.
    pub loss: u16,
    /// Whether clients ask and leave.
    pub clients: bool,
}

/// How many tickets the clients have.
const TICKETS: u32 = 16;

/// Draws a link, and returns its source and destination.
pub(crate) fn draw_link<A: Allocator + Copy>(net: &Net<A>, generator: &mut Lcg64Xsh32) -> (u16, u16)
    ensures { (result, generator.new) ≡ draw_link net.now generator.old }
{
    topology::laws::tree();
    let _known_nodes = net.nodes();
    let edges = net.edges();
    let at = draw_below(generator, edges.len() as u32);
    let (from, to) = edges[at as usize];
    if draw_below(generator, 2) == 0 {
        (from, to)
    } else {
        (to, from)
    }
}

/// Draws an arrival on a link: the item is taken, or lost.
fn draw_arrival<A: Allocator + Copy>(net: &Net<A>, loss: u16, generator: &mut Lcg64Xsh32) -> Event
    ensures { (result, generator.new) ≡ draw_arrival net.now loss generator.old }
{
    let (from, to) = draw_link(net, generator);
    if draw_below(generator, 100) < u32::from(loss) {
        Event::Lose { from, to, item: 0 }
    } else {
        Event::Take { from, to }
    }
}

/// Draws what a client does.
fn draw_client<A: Allocator + Copy>(net: &Net<A>, generator: &mut Lcg64Xsh32) -> Event
    ensures { (result, generator.new) ≡ draw_client net.now generator.old }
{
    let node = draw_below(generator, u32::from(net.nodes())) as u16;
    let ticket = draw_below(generator, TICKETS) as u16;
    if draw_below(generator, 2) == 0 {
        Event::Ask { node, ticket }
    } else {
        Event::Leave { node, ticket }
    }
}

/// Draws one step, by the generator's next words: first its kind, one of three, or of four with
/// clients. A tick has a node. A send or an arrival has an edge and one of its two directions; an
/// arrival is a loss if the next word modulo 100 is below `chances.loss`. A client has a node,
/// one of 16 tickets, and asks or leaves.
pub fn draw_step<A: Allocator + Copy>(
    net: &Net<A>,
    chances: Chances,
    generator: &mut Lcg64Xsh32,
) -> Event
    ensures { (result, generator.new) ≡ draw_step net.now chances generator.old }
{
    let kinds = if chances.clients { 4 } else { 3 };
    match draw_below(generator, kinds) {
        0 => {
            let node = draw_below(generator, u32::from(net.nodes())) as u16;
            Event::Tick { node }
        }
        1 => {
            let (from, to) = draw_link(net, generator);
            Event::Send { from, to }
        }
        2 => draw_arrival(net, chances.loss, generator),
        _ => draw_client(net, generator),
    }
}

/// The node that takes part in a step; for a link, the node that it leads to.
fn node_at(event: &Event) -> u16
    ensures { result ≡ node_at event.now }
{
    match *event {
        Event::Send { to, .. } | Event::Take { to, .. } | Event::Lose { to, .. } => to,
        Event::Tick { node } | Event::Ask { node, .. } | Event::Leave { node, .. } => node,
        Event::Damage(_) => 0,
    }
}

/// Lets one drawn step happen, or a tick of its node if the step would be refused. Returns the
/// event that happened.
pub fn next_step<A: Allocator + Copy>(
    configuration: &mut Configuration<A>,
    chances: Chances,
    generator: &mut Lcg64Xsh32,
) -> Event
    ensures drawn { let d = draw_step (world_of configuration.old).net chances generator.old in
        (result ≡ admitted (world_of configuration.old) d.0) × (generator.new ≡ d.1) }
    ensures happens { world_of configuration.new ≡ step (world_of configuration.old) result }
{
    let event = draw_step(configuration.net(), chances, generator);
    match configuration.step(&event) {
        Ok(_) => event,
        Err(_) => {
            let tick = Event::Tick {
                node: node_at(&event),
            };
            let _happened = configuration.step(&tick);
            tick
        }
    }
}

/// Gives the sink `count` random steps, one by one, and lets each happen. If a step would be
/// refused, such as a loss on an empty link, its node ticks instead; so none is refused. It keeps
/// no list and takes no memory.
///
/// # Errors
/// [`Failed`] if the sink failed; nothing is promised of what it took then.
pub fn give_random<A: Allocator + Copy, S: EventSink>(
    configuration: &mut Configuration<A>,
    chances: Chances,
    count: u64,
    generator: &mut Lcg64Xsh32,
    sink: &mut S,
) -> Result<(), Failed>
    ensures taken { OnOk result (S.takes sink.old
        (random_steps (world_of configuration.old) chances count generator.old) sink.new) }
    ensures cause { CountsFailures result (S.failures sink.old) (S.failures sink.new) }
{
    for i in 0..count {
        let event = next_step(configuration, chances, generator);
        sink.take(&event)?;
    }
    Ok(())
}
