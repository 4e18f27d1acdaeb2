//! Schedules in which whoever has the lock gives it back after a given number of ticks of its node.
ghost use Rattle.std.specs.Prelude.{◌≡◌, ◌-◌, ◌<◌, [], ◌∷◌, OnOk, replicate};
ghost use Rattle.std.specs.List.{range_with_len};
ghost use Rattle.byte_streams.specs.Streams.{CountsFailures};
ghost use Rattle.run_model.specs.Run.{run};
ghost use Rattle.judge.specs.configuration.ConfigurationView.{world_of};
ghost use Rattle.experiments.specs.GivenBack.{WentBack, back_at, back_at_all, due, ordered_back};
ghost use Rattle.experiments.specs.GivenBack.{random_back, round_back, rounds_back, step_back};
ghost use Rattle.schedules.specs.Random.{admitted, draw_step};

use crate::plan::Order;
use byte_streams::Failed;
use judge::Configuration;
use rand_pcg::Lcg64Xsh32;
use run_model::Event;
use schedules::{Chances, EventSink, give_round, laws as schedules_laws, next_step};
use std::alloc::Allocator;
use topology::Net;

/// The most nodes that a network may have.
const MOST_NODES: usize = 64;

/// The nodes and links of a run, and how long each loan lasts.
#[derive(Drop)]
pub(crate) struct Lending<A: Allocator + Copy> {
    configuration: Configuration<A>,
    /// How many ticks a loan lasts after its first one.
    more: u16,
    /// How many of these the loan at each node has left, by the node's id.
    left: [u16; MOST_NODES],
}

impl<A: Allocator + Copy> Lending<A> {
    /// The same nodes and links, with loans that last `ticks` ticks from now on; 0 counts as 1.
    pub(crate) fn new(configuration: Configuration<A>, ticks: u16) -> Lending<A>
        ensures configuration { result.configuration ≡ configuration }
        ensures more { result.more ≡ ticks - 1 }
        ensures left { result.left ≡ replicate 64 (ticks - 1) }
    {
        let more = ticks.saturating_sub(1);
        Lending {
            configuration,
            more,
            left: [more; MOST_NODES],
        }
    }

    /// The ticket that leaves at a node after its tick, if one does. `lent` is the ticket that the
    /// node lends to.
    fn due(&mut self, node: u16, lent: Option<u16>) -> Option<u16>
        requires { node < 64 }
        ensures due { (result, self.new.left) ≡ due self.old.more node lent self.old.left }
        ensures rest { (self.new.configuration ≡ self.old.configuration)
            × (self.new.more ≡ self.old.more) }
    {
        let left = &mut self.left[usize::from(node)];
        match lent {
            Some(ticket) if *left == 0 => {
                *left = self.more;
                Some(ticket)
            }
            Some(_) => {
                *left -= 1;
                None
            }
            None => {
                *left = self.more;
                None
            }
        }
    }
}

/// It lets the events happen, and never fails.
impl<A: Allocator + Copy> EventSink for Lending<A> {
    ghost use Rattle.experiments.specs.GivenBack.{WentBack, happens-nothing, happens-both};

    ghost takes = { λ a events b. WentBack a (events, a.left) b };

    ghost failures = { λ _. 0 };

    fn take(&mut self, event: &Event) -> Result<(), Failed> {
        let _answer = self.configuration.step(event);
        Ok(())
    }

    ghost takes_none = { λ s. happens-nothing s };

    ghost takes_both = { λ a b c. happens-both a b c };
}

/// Gives the sink what the order says, with what is given back.
///
/// # Errors
/// [`Failed`] if the sink failed; nothing is promised of what it took then.
pub(crate) fn give_order_back<A: Allocator + Copy, S: EventSink>(
    net: &Net<A>,
    order: Order,
    lending: &mut Lending<A>,
    sink: &mut S,
) -> Result<(), Failed>
    requires { lending.old.left ≡ replicate 64 lending.old.more }
    ensures taken { OnOk result (S.takes sink.old
        (ordered_back net.now lending.old.more (world_of lending.old.configuration) order)
        sink.new) }
    ensures cause { CountsFailures result (S.failures sink.old) (S.failures sink.new) }
{
    match order {
        Order::Rounds { count } => give_rounds_back(net, count, lending, sink),
        Order::Random {
            steps,
            chances,
            mut generator,
        } => give_steps_back(chances, steps, &mut generator, lending, sink),
    }
}

/// Gives the sink `count` rounds, with what is given back after each.
fn give_rounds_back<A: Allocator + Copy, S: EventSink>(
    net: &Net<A>,
    count: u64,
    lending: &mut Lending<A>,
    sink: &mut S,
) -> Result<(), Failed>
    ensures taken { OnOk result (S.takes sink.old (rounds_back net.now lending.old.more
        (world_of lending.old.configuration) lending.old.left count) sink.new) }
    ensures cause { CountsFailures result (S.failures sink.old) (S.failures sink.new) }
{
    schedules_laws::taking::<S>();
    for i in 0..count {
        give_round_back(net, lending, sink)?;
    }
    Ok(())
}

/// Gives the sink a round, and then what is given back.
fn give_round_back<A: Allocator + Copy, S: EventSink>(
    net: &Net<A>,
    lending: &mut Lending<A>,
    sink: &mut S,
) -> Result<(), Failed>
    ensures went { OnOk result (WentBack lending.old (round_back net.now lending.old.more
        (world_of lending.old.configuration) lending.old.left) lending.new) }
    ensures taken { OnOk result (S.takes sink.old (round_back net.now lending.old.more
        (world_of lending.old.configuration) lending.old.left).0 sink.new) }
    ensures cause { CountsFailures result (S.failures sink.old) (S.failures sink.new) }
{
    give_round(net, sink)?;
    let _happened = give_round(net, lending);
    give_all_back(net.nodes(), lending, sink)
}

/// Gives the sink what is given back at the first `nodes` nodes.
fn give_all_back<A: Allocator + Copy, S: EventSink>(
    nodes: u16,
    lending: &mut Lending<A>,
    sink: &mut S,
) -> Result<(), Failed>
    ensures went { OnOk result (WentBack lending.old (back_at_all lending.old.more
        (world_of lending.old.configuration) lending.old.left (range_with_len 0 nodes))
        lending.new) }
    ensures taken { OnOk result (S.takes sink.old (back_at_all lending.old.more
        (world_of lending.old.configuration) lending.old.left (range_with_len 0 nodes)).0
        sink.new) }
    ensures cause { CountsFailures result (S.failures sink.old) (S.failures sink.new) }
{
    schedules_laws::taking::<S>();
    for node in 0..nodes {
        give_back(node, lending, sink)?;
    }
    Ok(())
}

/// Gives the sink what is given back at a node.
fn give_back<A: Allocator + Copy, S: EventSink>(
    node: u16,
    lending: &mut Lending<A>,
    sink: &mut S,
) -> Result<(), Failed>
    ensures went { OnOk result (WentBack lending.old (back_at lending.old.more
        (world_of lending.old.configuration) lending.old.left node) lending.new) }
    ensures taken { OnOk result (S.takes sink.old (back_at lending.old.more
        (world_of lending.old.configuration) lending.old.left node).0 sink.new) }
    ensures cause { CountsFailures result (S.failures sink.old) (S.failures sink.new) }
{
    if node >= lending.configuration.net().nodes() {
        return Ok(());
    }
    let lent = lending.configuration.node(node).lent();
    match lending.due(node, lent) {
        None => Ok(()),
        Some(ticket) => give_leave(Event::Leave { node, ticket }, lending, sink),
    }
}

/// Lets an event happen, and gives it to the sink.
fn give_leave<A: Allocator + Copy, S: EventSink>(
    leave: Event,
    lending: &mut Lending<A>,
    sink: &mut S,
) -> Result<(), Failed>
    ensures went { WentBack lending.old (leave ∷ [], lending.old.left) lending.new }
    ensures taken { OnOk result (S.takes sink.old (leave ∷ []) sink.new) }
    ensures cause { CountsFailures result (S.failures sink.old) (S.failures sink.new) }
{
    let _happened = lending.configuration.step(&leave);
    sink.take(&leave)
}

/// Gives the sink `steps` random steps, and after each tick what is given back at its node.
fn give_steps_back<A: Allocator + Copy, S: EventSink>(
    chances: Chances,
    steps: u64,
    generator: &mut Lcg64Xsh32,
    lending: &mut Lending<A>,
    sink: &mut S,
) -> Result<(), Failed>
    ensures taken { OnOk result (S.takes sink.old (random_back lending.old.more
        (world_of lending.old.configuration) lending.old.left chances steps generator.old)
        sink.new) }
    ensures cause { CountsFailures result (S.failures sink.old) (S.failures sink.new) }
{
    schedules_laws::taking::<S>();
    for i in 0..steps {
        give_step_back(chances, generator, lending, sink)?;
    }
    Ok(())
}

/// Gives the sink a random step, and after a tick what is given back at its node.
fn give_step_back<A: Allocator + Copy, S: EventSink>(
    chances: Chances,
    generator: &mut Lcg64Xsh32,
    lending: &mut Lending<A>,
    sink: &mut S,
) -> Result<(), Failed>
    ensures went { OnOk result (let w = world_of lending.old.configuration in
        let drawn = draw_step w.net chances generator.old in
        WentBack lending.old (step_back lending.old.more w lending.old.left (admitted w drawn.0))
        lending.new × (generator.new ≡ drawn.1)) }
    ensures taken { OnOk result (let w = world_of lending.old.configuration in
        let drawn = draw_step w.net chances generator.old in
        S.takes sink.old (step_back lending.old.more w lending.old.left (admitted w drawn.0)).0
        sink.new) }
    ensures cause { CountsFailures result (S.failures sink.old) (S.failures sink.new) }
{
    schedules_laws::taking::<S>();
    let event = next_step(&mut lending.configuration, chances, generator);
    sink.take(&event)?;
    match event {
        Event::Tick { node } => give_back(node, lending, sink),
        _ => Ok(()),
    }
}
