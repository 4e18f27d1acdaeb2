//! How a program that took the lock ends.
ghost use Rattle.std.specs.Prelude.{◌≡◌};
ghost use Rattle.lock_client.specs.Outcome.{end_status, outcome_status, chosen_status};

use held_signals::Signal;

/// How a command ended.
#[derive(Clone, Copy, PartialEq, Eq)]
pub enum CommandEnd {
    /// With this status.
    Exited(u8),
    /// By this signal.
    Killed(u8),
    /// It exists but cannot be run.
    CannotRun,
    /// It does not exist.
    NotThere,
    /// It was not run, since no guard could be started. A guard holds the lock if this program is
    /// killed.
    NotGuarded,
}

impl CommandEnd {
    /// The status for it: the command's own; 128 plus the signal's number, at most 255; 126; 127;
    /// 125.
    fn status(self) -> u8
        ensures { result ≡ end_status self }
    {
        match self {
            CommandEnd::Exited(status) => status,
            CommandEnd::Killed(signal) => signal.saturating_add(128),
            CommandEnd::CannotRun => 126,
            CommandEnd::NotThere => 127,
            CommandEnd::NotGuarded => 125,
        }
    }
}

/// How the client ended.
#[derive(Clone, Copy, PartialEq, Eq)]
pub enum Outcome {
    /// The command ended like this. By the node's words the lock was held all the while, or the
    /// command was allowed to run on without it.
    Done(CommandEnd),
    /// The lock was lost, or may have been, before it was released.
    Lost,
    /// The lock was not granted in time.
    NotInTime,
    /// There is no lock service, or it failed before the lock was granted.
    NoService,
    /// This signal came before the lock was granted.
    Stopped(Signal),
}

impl Outcome {
    /// The status of the program: the command's; 122 for a lost lock; 124, as `timeout` has it;
    /// 125, as `env` has it for its own failures; and 128 plus the number of the signal that came,
    /// as a shell has it.
    pub fn status(self) -> u8
        ensures { result ≡ outcome_status self }
    {
        match self {
            Outcome::Done(end) => end.status(),
            Outcome::Lost => 122,
            Outcome::NotInTime => 124,
            Outcome::NoService => 125,
            Outcome::Stopped(signal) => 128 + signal.number(),
        }
    }

    /// The same, except that a lost lock has this status.
    pub fn status_or(self, lost: u8) -> u8
        ensures { result ≡ chosen_status lost self }
    {
        match self {
            Outcome::Lost => lost,
            _ => self.status(),
        }
    }
}
