//! The statuses that the program ends with.
ghost use Rattle.std.specs.Prelude.{◌≡◌, ◌≢◌, ◌⊎◌, if◌then◌else◌, MatchResult};
ghost use Rattle.std.specs.Process.{exit_status};
ghost use Rattle.clap.specs.Values.{kind_of};
ghost use Rattle.clap.specs.declared.error.kind.ErrorKind.TheVariants.{DisplayHelp, DisplayVersion};
ghost use Rattle.clap.specs.declared.error.kind.ErrorKind.TheVariants.{OutOfMemory};
ghost use Rattle.command_faults.specs.Output.{output_fault};
ghost use Rattle.program_ends.specs.Ends.{end_status};

use crate::fault_line::FaultLine;
use crate::mistakes::one_line;
use clap::error::ErrorKind;
use command_faults::{Fault, printed};
use std::alloc::AllocError;
use std::io;
use std::process::ExitCode;

/// The status if the arguments are invalid.
pub const INVALID_ARGUMENTS: u8 = 2;

/// The status of a program whose reader is gone, as a shell shows one that SIGPIPE ended.
const CLOSED_PIPE: u8 = 141;

/// The status of a fault: `lock` has one of its own, since 1 may be that of its command.
pub fn fault_status(is_lock: bool) -> u8
    ensures { result ≡ (if is_lock then 125 else 1) }
{
    if is_lock { 125 } else { 1 }
}

/// Shows the help that was asked for, or why the arguments are invalid, or that memory ran out before
/// they were read. A mistake is one line, which names the help of the command that was meant.
pub fn shows<R: Print + Eprint + AllocGlobal>(
    rt: &R,
    error: &clap::Error,
    is_lock: bool,
    command: Option<&str>,
) -> ExitCode
    ensures mistake { kind_of error.now ≢ DisplayHelp → kind_of error.now ≢ DisplayVersion
        → kind_of error.now ≢ OutOfMemory → exit_status result ≡ 2 }
    ensures memory { kind_of error.now ≡ OutOfMemory
        → exit_status result ≡ (if is_lock then 125 else 1) }
    ensures help { kind_of error.now ≡ DisplayHelp
        → (exit_status result ≡ 0) ⊎ ((exit_status result ≡ 1) ⊎ (exit_status result ≡ 141)) }
{
    match error.kind() {
        ErrorKind::OutOfMemory => fails(rt, Fault::Memory, fault_status(is_lock)),
        ErrorKind::DisplayHelp | ErrorKind::DisplayVersion => print_status(rt, error.print(rt)),
        _ => {
            say_mistake(rt, error, command);
            ExitCode::from(INVALID_ARGUMENTS)
        }
    }
}

/// Says why the arguments are invalid, in a line; in the parser's own words if memory is short.
fn say_mistake<R: Print + Eprint + AllocGlobal>(
    rt: &R,
    error: &clap::Error,
    command: Option<&str>,
) {
    match mistake_line(rt, error, command) {
        Ok(line) => {
            let _ = eprintln!(rt; "tokentree: {line}");
        }
        Err(_) => {
            let _ = error.print(rt);
        }
    }
}

/// The line that says why the arguments are invalid.
fn mistake_line<R: AllocGlobal>(
    rt: &R,
    error: &clap::Error,
    command: Option<&str>,
) -> Result<String, AllocError> {
    let text = error.to_string(rt.alloc())?;
    one_line(rt.alloc(), text.as_str(), command)
}

/// The status of a program that only prints, such as its help, by what standard output answered.
pub fn print_status<R: Eprint>(rt: &R, answer: io::Result<()>) -> ExitCode
    ensures status { MatchResult answer (λ _. exit_status result ≡ 0)
        (λ error. exit_status result ≡ end_status (output_fault error) 1) }
    ensures any { (exit_status result ≡ 0)
        ⊎ ((exit_status result ≡ 1) ⊎ (exit_status result ≡ 141)) }
{
    match printed(rt, answer) {
        Ok(()) => ExitCode::SUCCESS,
        Err(fault) => fails(rt, fault, fault_status(false)),
    }
}

/// Shows a fault, and returns this status. But if the reader of standard output is gone, shows
/// nothing, and returns the status for that.
pub fn fails<R: Eprint>(rt: &R, fault: Fault, status: u8) -> ExitCode
    ensures { exit_status result ≡ end_status fault status }
{
    if let Fault::Closed = fault {
        return ExitCode::from(CLOSED_PIPE);
    }
    let _ = rt.eprintln(FaultLine(fault));
    ExitCode::from(status)
}
