//! Standard output that does not take a text.
ghost use Rattle.std.specs.Prelude.{◌≡◌, Ok, Err, IfErr, MatchResult};
ghost use Rattle.command_faults.specs.Output.{kept_fault, output_fault, IsKeptAs, IsUntaken};

use crate::fault::Fault;
use std::io;
use std::io::ErrorKind;

/// The fault of a command if standard output fails with this error. Unless the reader is gone, prints
/// the system's words on standard error.
pub fn output_fault<R: Eprint>(rt: &R, error: io::Error) -> Fault
    ensures fault { result ≡ output_fault error }
    ensures untaken { IsUntaken result }
{
    if error.kind() == ErrorKind::BrokenPipe {
        Fault::Closed
    } else {
        let _ = eprintln!(rt; "tokentree: standard output: {error}");
        Fault::Output
    }
}

/// The answer of standard output to a write, with the command's fault in place of the error.
///
/// # Errors
/// Those of [`output_fault`].
pub fn printed<R: Eprint, T: Drop>(rt: &R, answer: io::Result<T>) -> Result<T, Fault>
    ensures answer { MatchResult answer (λ value. result ≡ Ok value)
        (λ error. result ≡ Err (output_fault error)) }
    ensures untaken { IfErr result IsUntaken }
{
    match answer {
        Ok(value) => Ok(value),
        Err(error) => Err(output_fault(rt, error)),
    }
}

/// The fault with which a command ends that had this one. A fault of the output becomes that of the
/// first error of its sink, if there was one.
pub fn kept_fault<R: Eprint>(rt: &R, fault: Fault, first: Option<io::Error>) -> Fault
    ensures fault { result ≡ kept_fault fault first }
    ensures kept { IsKeptAs fault result }
{
    match (fault, first) {
        (Fault::Output, Some(error)) => output_fault(rt, error),
        _ => fault,
    }
}
