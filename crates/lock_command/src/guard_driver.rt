//! The machine of a guard, driven by what happens around it.
ghost use Rattle.std.specs.Prelude.{◌≡◌, ◌≢◌, Some, [], ◌∷◌, ◌++◌, List, Option, Bool, true, false};
ghost use Rattle.std.specs.Option.{option_map};
ghost use Rattle.lock_client.specs.declared.guard.GuardEvent.{GuardEvent};
ghost use Rattle.lock_client.specs.declared.guard.GuardEvent.TheVariants.{GraceIsOver};
ghost use Rattle.lock_client.specs.declared.guard.GuardDeed.TheVariants.{Ask};
ghost use Rattle.lock_command.specs.GuardDriving.{IsOver};

use lock_client::{Guard, GuardDeed, GuardEvent};
use std::sync::Wait;

/// What is around a guard: a client, its command, a clock. They act on their own.
pub trait Guarded {
    /// The events that it reported, in order; none if nobody records them.
    ghost reported: { Self → Option (List GuardEvent) };

    /// Whether a grace runs in which a command must end.
    ghost grants: { Self → Bool };

    /// Waits for the next event, and returns it: depending on `deed`, a word of the client, or what
    /// a look finds after a rest of `rest` milliseconds. A grace ends only if one runs, and only
    /// once.
    fn next_event(&mut self, deed: GuardDeed, rest: u64) -> GuardEvent
        ensures reported { reported self.new ≡ option_map (λ events. events ++ result ∷ []) (reported self.old) }
        ensures over { result ≡ GraceIsOver → (grants self.old ≡ true) × (grants self.new ≡ false) };

    /// Does this deed. A grace begins only if the command is asked to end.
    fn act(&mut self, deed: GuardDeed)
        ensures reported { reported self.new ≡ reported self.old }
        ensures grace { deed ≢ Ask → grants self.new ≡ grants self.old };
}

/// Runs until the lock is released: a guard hears each event, and what it answers is done. This
/// ends only when the guard is over, according to all that happened.
pub fn drive_guard<R: Wait, S: Guarded>(rt: &R, guarded: &mut S, keeps_running: bool)
    ensures { S.reported guarded.old ≡ Some [] → IsOver keeps_running (S.reported guarded.new) }
{
    let mut guard = Guard::new(keeps_running);
    let mut deed = GuardDeed::Listen;
    for _ in rt.forever() {
        let event = guarded.next_event(deed, guard.rest());
        let next = guard.step(event);
        if let GuardDeed::End = next {
            return;
        }
        guarded.act(next);
        deed = next;
    }
    unreachable!()
}
