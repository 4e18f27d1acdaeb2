//! Events for a sink.
ghost use Rattle.std.specs.Prelude.{OnOk};
ghost use Rattle.byte_streams.specs.Streams.{CountsFailures};

use schedules::EventSink;
use world::Event;
use world::streams::Failed;

/// Gives events to a sink, one after the other.
///
/// # Errors
/// [`Failed`] if the sink failed; then it took a prefix of the events.
pub fn give_events<S: EventSink>(events: &[Event], sink: &mut S) -> Result<(), Failed>
    ensures taken { OnOk result (S.takes sink.old events.now sink.new) }
    ensures cause { CountsFailures result (S.failures sink.old) (S.failures sink.new) }
{
    schedules::laws::taking::<S>();
    for event in events {
        sink.take(event)?;
    }
    Ok(())
}
