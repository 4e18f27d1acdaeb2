//! The machine of a client, driven by what happens around it.
ghost use Rattle.std.specs.Prelude.{◌≡◌, ◌≢◌, Some, [], ◌∷◌, ◌++◌, List, Option, Bool, true, false};
ghost use Rattle.std.specs.Option.{option_map};
ghost use Rattle.lock_client.specs.declared.client.ClientEvent.{ClientEvent};
ghost use Rattle.lock_client.specs.declared.client.ClientEvent.TheVariants.{Ended};
ghost use Rattle.lock_client.specs.declared.client.ClientDeed.TheVariants.{Start};
ghost use Rattle.lock_client.specs.declared.outcome.CommandEnd.{CommandEnd};
ghost use Rattle.lock_command.specs.Driving.{IsOutcomeOf};

use lock_client::{ClientDeed, ClientEvent, LockClient, Outcome};
use std::sync::Wait;

/// What is around a client: a connection, a command, a clock. They act on their own.
pub trait Surroundings {
    /// The events that it reported, in order; none if nobody records them.
    ghost reported: { Self → Option (List ClientEvent) };

    /// Whether a command runs.
    ghost runs: { Self → Bool };

    /// Waits for the next event, and returns it. No command starts during the wait, and none runs
    /// after the event that reports a command's end.
    fn next_event(&mut self) -> ClientEvent
        ensures reported { reported self.new ≡ option_map (λ events. events ++ result ∷ []) (reported self.old) }
        ensures starts_none { runs self.new ≡ true → runs self.old ≡ true }
        ensures ended { (end : CommandEnd) → result ≡ Ended end → runs self.new ≡ false };

    /// Does this deed after this event. A command starts only by the deed for it.
    fn act(&mut self, event: ClientEvent, deed: ClientDeed)
        ensures reported { reported self.new ≡ reported self.old }
        ensures starts { deed ≢ Start → runs self.new ≡ runs self.old };
}

/// How it all ended for a client that heard what happened. Only [`drive`] makes one, so it is
/// always the client's own word.
#[derive(Clone, Copy)]
pub struct Driven {
    outcome: Outcome,
}

impl Driven {
    /// How it ended.
    pub fn outcome(self) -> Outcome
        ensures { result ≡ self.outcome }
    {
        self.outcome
    }
}

/// Runs until all is over: a client hears each event, and what it answers is done. The outcome is
/// the client's own word on all that happened. This does not end while a command that it started
/// runs.
pub fn drive<R: Wait, S: Surroundings>(rt: &R, surroundings: &mut S, keeps_running: bool) -> Driven
    ensures outcome { S.reported surroundings.old ≡ Some []
        → IsOutcomeOf keeps_running (S.reported surroundings.new) result.outcome }
    ensures over { S.runs surroundings.old ≡ false → S.runs surroundings.new ≡ false }
{
    let mut client = LockClient::new(keeps_running);
    for _ in rt.forever() {
        let event = surroundings.next_event();
        let deed = client.step(event);
        surroundings.act(event, deed);
        if let ClientDeed::Finish(outcome) = deed {
            return Driven { outcome };
        }
    }
    unreachable!()
}
