//! How the program begins: with which streams, and with which words.
ghost use Rattle.std.specs.Prelude.{◌≡◌, ◌≢◌, ◌⊎◌, IfErr, if◌then◌else◌};
ghost use Rattle.std.specs.Process.{exit_status};
ghost use Rattle.std.specs.declared.io.ErrorKind.TheVariants.{OutOfMemory};

use crate::ends::{INVALID_ARGUMENTS, fails, fault_status};
use crate::streams::fill_standard_streams;
use command_faults::Fault;
use std::alloc::AllocError;
use std::fs::File;
use std::io::ErrorKind;
use std::process::ExitCode;
use std::rt::{Env, Files};

/// What a program does before all else: it fills its standard streams, and reads its own words. Returns
/// the words, or the status of a program that cannot read them.
///
/// # Errors
/// Status 1 (125 for `lock`) if memory runs out, 2 if a word is no text; either is reported on
/// standard error.
pub fn begin<R: Env + Files<File = File> + Eprint + AllocGlobal>(
    rt: &R,
) -> Result<Vec<String>, ExitCode>
    ensures { IfErr result (λ status. (exit_status status ≡ 1)
        ⊎ ((exit_status status ≡ 2) ⊎ (exit_status status ≡ 125))) }
{
    fill_standard_streams(rt);
    own_words(rt)
}

/// The program's own words, or the status of a program that cannot read them.
fn own_words<R: Env + Eprint + AllocGlobal>(rt: &R) -> Result<Vec<String>, ExitCode>
    ensures { IfErr result (λ status. (exit_status status ≡ 1)
        ⊎ ((exit_status status ≡ 2) ⊎ (exit_status status ≡ 125))) }
{
    match std::env::args(rt) {
        Ok(arguments) => {
            let collected: Result<Vec<String>, AllocError> = arguments.collect(rt.alloc());
            collected.map_err(|_| fails(rt, Fault::Memory, fault_status(asks_for_lock(rt))))
        }
        Err(error) => Err(unread(rt, error.kind(), asks_for_lock(rt))),
    }
}

/// Whether the first word is `lock`. It takes no memory.
fn asks_for_lock<R: Env>(rt: &R) -> bool {
    let mut name = [0; 4];
    matches!(rt.arg(1, &mut name), Ok(4)) && name == *b"lock"
}

/// Says why the words cannot be read. Returns the status of a fault if memory ran out; else one of
/// them is no text, and the arguments are invalid.
fn unread<R: Eprint>(rt: &R, kind: ErrorKind, is_lock: bool) -> ExitCode
    ensures memory { kind ≡ OutOfMemory → exit_status result ≡ (if is_lock then 125 else 1) }
    ensures no_text { kind ≢ OutOfMemory → exit_status result ≡ 2 }
{
    if kind == ErrorKind::OutOfMemory {
        fails(rt, Fault::Memory, fault_status(is_lock))
    } else {
        let _ = eprintln!(rt; "tokentree: arguments Unreadable");
        ExitCode::from(INVALID_ARGUMENTS)
    }
}
