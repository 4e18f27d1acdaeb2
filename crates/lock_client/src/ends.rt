//! How a command ended, as the system reports it.
ghost use Rattle.std.specs.Prelude.{◌≡◌, ◌≢◌};
ghost use Rattle.lock_client.specs.Ends.{command_end};
ghost use Rattle.lock_client.specs.declared.outcome.CommandEnd.TheVariants.{NotThere, CannotRun};

use crate::outcome::CommandEnd;
use std::io::ErrorKind;
use std::os::unix::process::ExitStatusExt;
use std::process::ExitStatus;

/// The status of a command whose own status cannot be known, as `env` has it for its failures.
pub const UNKNOWN_STATUS: u8 = 125;

/// The end of a command that could not be started for this reason.
pub fn spawn_end(kind: ErrorKind) -> CommandEnd
    ensures not_there { kind ≡ ErrorKind.NotFound → result ≡ NotThere }
    ensures cannot_run { kind ≢ ErrorKind.NotFound → result ≡ CannotRun }
{
    match kind {
        ErrorKind::NotFound => CommandEnd::NotThere,
        _ => CommandEnd::CannotRun,
    }
}

/// How a command ended, by this wait status.
pub fn command_end(status: ExitStatus) -> CommandEnd
    ensures { result ≡ command_end status }
{
    match (status.code(), status.signal()) {
        (Some(code), _) => CommandEnd::Exited(code as u8),
        (None, Some(signal)) => CommandEnd::Killed(signal as u8),
        (None, None) => CommandEnd::Exited(UNKNOWN_STATUS),
    }
}
