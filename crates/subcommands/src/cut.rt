//! `cut PATH LENGTH`: a file as an interrupted write may leave it.
ghost use Rattle.std.specs.Prelude.{◌≡◌, ℕ, List, IfErr, length, take};
ghost use Rattle.command_parts.specs.command_faults.Ends.{DoneMeansZero};
ghost use Rattle.command_parts.specs.command_faults.declared.path_fault.PathFault.TheVariants.{Unwritable};
ghost use Rattle.subcommands.specs.Cut.{IsCutTo};

use command_parts::PathFault;
use std::fs::{OpenFile, OpenOptions};
use std::io::ErrorKind;
use std::process::ExitCode;
use std::rt::Files;
use std::{fs, io};

/// Shortens a file to its first `most` bytes. A shorter file stays as it is.
///
/// # Errors
/// If the file cannot be written, does not exist, or is no plain file.
pub fn run<'a, R: Files>(rt: &R, path: &'a str, most: u32) -> Result<ExitCode, PathFault<'a>>
    ensures ok { DoneMeansZero result }
    ensures err { IfErr result (λ fault. fault ≡ Unwritable path.entry) }
{
    match shorten(rt, path, u64::from(most)) {
        Ok(()) => Ok(ExitCode::SUCCESS),
        Err(_) => Err(PathFault::Unwritable(path)),
    }
}

/// Shortens a file without reading it. No contract says what a file holds, so this has none; tests
/// look at the files.
fn shorten<R: Files>(rt: &R, path: &str, most: u64) -> io::Result<()> {
    if !fs::metadata(rt, path)?.is_file() {
        return Err(io::Error::from(ErrorKind::InvalidInput));
    }
    let file = OpenOptions::new().write(true).open(rt, path)?;
    if let Some(length) = cut_length(file.metadata()?.len(), most) {
        file.set_len(length)?;
    }
    Ok(())
}

/// The bytes that a file of length `len` keeps if it is cut to at most `most`; none if it stays as
/// it is.
fn cut_length(len: u64, most: u64) -> Option<u64>
    ensures { (bytes : List ℕ) → length bytes ≡ len → IsCutTo result bytes (take most bytes) }
{
    if len > most { Some(most) } else { None }
}
