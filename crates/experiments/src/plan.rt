//! A whole schedule: a scramble if it is asked for, and then rounds or random steps.
ghost use Rattle.std.specs.Prelude.{◌≡◌, OnOk};
ghost use Rattle.byte_streams.specs.Streams.{CountsFailures};
ghost use Rattle.judge.specs.configuration.ConfigurationView.{world_of};
ghost use Rattle.run_model.specs.Run.{run};
ghost use Rattle.experiments.specs.Plan.{harms_of, ordered, planned, turns, CountsSinkFailures};
ghost use Rattle.experiments.specs.declared.plan.PlanFault.TheVariants.{Memory, Sink};

use crate::giving_back::{Lending, give_order_back};
use byte_streams::Failed;
use judge::Configuration;
use rand_pcg::Lcg64Xsh32;
use run_model::Event;
use schedules::{Chances, EventSink, give_random, give_rounds, scramble_world};
use std::alloc::{AllocError, Allocator};
use topology::Net;

/// What follows the scramble.
#[derive(Drop)]
pub enum Order {
    /// This many rounds.
    Rounds {
        count: u64,
    },
    /// This many random steps, drawn from the generator.
    Random {
        steps: u64,
        chances: Chances,
        generator: Lcg64Xsh32,
    },
}

/// Why a schedule was not given to its end.
#[derive(Clone, Copy, Debug, PartialEq, Eq, Drop)]
pub enum PlanFault {
    /// Memory ran out.
    Memory,
    /// The sink failed.
    Sink,
}

impl From<AllocError> for PlanFault {
    ghost from_gives = { λ _ fault. fault ≡ Memory };

    fn from(_error: AllocError) -> PlanFault {
        PlanFault::Memory
    }
}

impl From<Failed> for PlanFault {
    ghost from_gives = { λ _ fault. fault ≡ Sink };

    fn from(_error: Failed) -> PlanFault {
        PlanFault::Sink
    }
}

/// Gives the sink a whole schedule for a network: the harms that a scramble draws from its
/// generator, if there is one, and then what the order says. If `loan` is given, whoever has the
/// lock gives it back after that many ticks of its node; 0 counts as 1. The schedule begins in the
/// default world, and there none of the events is refused. The memory that it takes is a world and
/// the list of the harms.
///
/// # Errors
/// `Memory` if that memory is refused; `Sink` if the sink failed. Nothing is promised of what the
/// sink took then.
pub fn give_plan<A: Allocator + Copy, S: EventSink>(
    alloc: A,
    net: &Net<A>,
    scramble: Option<Lcg64Xsh32>,
    loan: Option<u16>,
    order: Order,
    sink: &mut S,
) -> Result<(), PlanFault>
    ensures taken { OnOk result
        (S.takes sink.old (planned net.now scramble loan order) sink.new) }
    ensures cause { CountsSinkFailures result (S.failures sink.old) (S.failures sink.new) }
{
    let mut configuration = Configuration::new(alloc, net)?;
    give_scramble(alloc, net, scramble, &mut configuration, sink)?;
    give_turns(net, loan, order, configuration, sink)
}

/// Gives the sink what the order says, with what is given back if loans have an end.
fn give_turns<A: Allocator + Copy, S: EventSink>(
    net: &Net<A>,
    loan: Option<u16>,
    order: Order,
    configuration: Configuration<A>,
    sink: &mut S,
) -> Result<(), PlanFault>
    ensures taken { OnOk result
        (S.takes sink.old (turns net.now (world_of configuration) loan order) sink.new) }
    ensures cause { CountsSinkFailures result (S.failures sink.old) (S.failures sink.new) }
{
    match loan {
        None => {
            let mut configuration = configuration;
            give_order(net, order, &mut configuration, sink)
        }
        Some(ticks) => {
            let mut lending = Lending::new(configuration, ticks);
            give_order_back(net, order, &mut lending, sink)?;
            Ok(())
        }
    }
}

/// Draws the harms of a scramble if there is a generator, lets them happen, and gives them to
/// the sink.
fn give_scramble<A: Allocator + Copy, S: EventSink>(
    alloc: A,
    net: &Net<A>,
    scramble: Option<Lcg64Xsh32>,
    configuration: &mut Configuration<A>,
    sink: &mut S,
) -> Result<(), PlanFault>
    ensures happen { OnOk result (world_of configuration.new
        ≡ run (world_of configuration.old) (harms_of net.now scramble)) }
    ensures taken { OnOk result
        (S.takes sink.old (harms_of net.now scramble) sink.new) }
    ensures cause { CountsSinkFailures result (S.failures sink.old) (S.failures sink.new) }
{
    let Some(mut generator) = scramble else {
        return Ok(());
    };
    let mut harms = Vec::new(alloc);
    scramble_world(net, &mut generator, &mut harms)?;
    give_harms(configuration, harms.as_slice(), sink)?;
    Ok(())
}

/// Gives the sink what the order says.
fn give_order<A: Allocator + Copy, S: EventSink>(
    net: &Net<A>,
    order: Order,
    configuration: &mut Configuration<A>,
    sink: &mut S,
) -> Result<(), PlanFault>
    ensures taken { OnOk result (S.takes sink.old
        (ordered net.now (world_of configuration.old) order) sink.new) }
    ensures cause { CountsSinkFailures result (S.failures sink.old) (S.failures sink.new) }
{
    match order {
        Order::Rounds { count } => give_rounds(net, count, sink)?,
        Order::Random {
            steps,
            chances,
            mut generator,
        } => give_random(configuration, chances, steps, &mut generator, sink)?,
    }
    Ok(())
}

/// Lets harms happen, and gives them to the sink.
fn give_harms<A: Allocator + Copy, S: EventSink>(
    configuration: &mut Configuration<A>,
    harms: &[Event],
    sink: &mut S,
) -> Result<(), Failed>
    ensures happen { OnOk result
        (world_of configuration.new ≡ run (world_of configuration.old) harms.now) }
    ensures taken { OnOk result (S.takes sink.old harms.now sink.new) }
    ensures cause { CountsFailures result (S.failures sink.old) (S.failures sink.new) }
{
    schedules::laws::taking::<S>();
    for harm in harms {
        let _happened = configuration.step(harm);
        sink.take(harm)?;
    }
    Ok(())
}
