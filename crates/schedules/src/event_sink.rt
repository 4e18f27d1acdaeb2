//! Where the events of a schedule go.
ghost use Rattle.std.specs.Prelude.{ℕ, List, [], ◌∷◌, ◌++◌, OnOk};
ghost use Rattle.byte_streams.specs.Streams.{CountsFailures};
ghost use Rattle.configuration.specs.run_model.declared.event.Event.{Event};

use byte_streams::Failed;
use configuration::Event;

/// Takes the events of a schedule, one after the other.
pub trait EventSink {
    /// Between these two states it has taken these events, in their order.
    ghost takes: { Self → List Event → Self → Type 0 };

    /// How often it has failed; the count may stay at 2^64 - 1.
    ghost failures: { Self → ℕ };

    /// Takes one more event.
    ///
    /// # Errors
    /// [`Failed`] if it failed in this call.
    fn take(&mut self, event: &Event) -> Result<(), Failed>
        ensures taken { OnOk result (takes self.old (event.now ∷ []) self.new) }
        ensures cause { CountsFailures result (failures self.old) (failures self.new) };

    /// A sink whose state stays the same has taken no events.
    ghost takes_none: { (s : Self) → takes s [] s };

    /// What is taken in two parts is taken together.
    ghost takes_both: { (a b c : Self) (xs ys : List Event) → takes a xs b → takes b ys c
        → takes a (xs ++ ys) c };
}
