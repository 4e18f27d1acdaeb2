//! A run that is given event by event.
ghost use Rattle.std.specs.Prelude.{◌≡◌, IfOk};
ghost use Rattle.std.specs.List.{list_any};
ghost use Rattle.experiments.specs.Delays.{is_harm, IsReplayed};
ghost use Rattle.experiments.specs.Watched.{GoesOn};

use crate::measured_run::happen;
use crate::watch::ServiceWatch;
use judge::World;
use run_model::{Event, laws as run_model_laws};
use schedules::EventSink;
use std::alloc::{AllocError, Allocator};
use topology::Net;

/// How late a run serves.
#[derive(Clone, Copy)]
pub struct Delay {
    /// After how many sweeps the network served at each moment of the run. If this is more than 0,
    /// the network did not serve at some moment after one sweep fewer.
    pub sweeps: u64,
    /// How many sweeps there were.
    pub seen: u64,
}

/// Whether some of these events is a harm, accepted or refused.
fn has_harm(events: &[Event]) -> bool
    ensures { result ≡ list_any is_harm events.now }
{
    events.iter().any(|event| matches!(event, Event::Damage(_)))
}

/// Lets harms happen in the default world of a network, and then judges a list of events. Returns
/// none if one of these events is a harm itself.
///
/// # Errors
/// `AllocError` if the memory of the world is refused.
pub fn replay<A: Allocator + Copy, N: Allocator + Copy>(
    alloc: A,
    net: &Net<N>,
    harms: &[Event],
    events: &[Event],
) -> Result<Option<Delay>, AllocError>
    ensures { IfOk result (IsReplayed net.now harms.now events.now) }
{
    run_model_laws::runs();
    run_model_laws::moments();
    run_model_laws::sweep_numbers();
    layers::laws::sharp();
    let _known_nodes = net.nodes();
    if has_harm(events) {
        return Ok(None);
    }
    let mut start = World::new(alloc, net)?;
    happen(&mut start, harms);
    let mut watch = ServiceWatch::new(start);
    watch_all(events, &mut watch);
    Ok(Some(Delay {
        sweeps: watch.served_after(),
        seen: watch.sweeps(),
    }))
}

/// Gives the watch all events.
fn watch_all<A: Allocator + Copy>(events: &[Event], watch: &mut ServiceWatch<A>)
    ensures { GoesOn watch.old.judge watch.old.last events.now watch.new.judge watch.new.last }
{
    schedules::laws::taking::<ServiceWatch<A>>();
    for event in events {
        // A watch never fails.
        let _taken = watch.take(event);
    }
}
