//! Faults of files.
ghost use Rattle.std.specs.Prelude.{◌≡◌, ◌↔◌, IsTrue, option_map};
ghost use Rattle.program_ends.specs.Kinds.{kind_text, unmade_text, AreSwapped, MayWait};

use network_file::{MOST_BYTES, NetFault, NetworkFault};
use network_hints::hint;
use std::fmt::Display;
use std::fs::{Metadata, OpenOptions};
use std::io::ErrorKind;
use std::path::{AsPath, Path};
use std::rt::Files;
use std::{fs, io};

/// Why a file is no network file, before it is read.
fn kind_fault(is_folder: bool, is_file: bool, length: u64) -> Option<&'static str>
    ensures { option_map (λ text. text.now) result ≡ kind_text is_folder is_file length }
{
    if is_folder {
        Some("is a folder")
    } else if !is_file {
        Some("is no plain file")
    } else if length > MOST_BYTES {
        Some("has more than 1048576 bytes")
    } else {
        None
    }
}

/// Says which file it is, and what is wrong with it.
fn say<R: Eprint, D: Display + Drop>(rt: &R, file: &str, what: D) {
    let _ = eprintln!(rt; "tokentree: {file}: {what}");
}

/// Says what is wrong with an invalid network file.
pub fn explain_network<R: Files + Eprint + AllocGlobal>(rt: &R, file: &str, fault: NetworkFault) {
    match fault {
        NetworkFault::Unreadable => explain_unreadable(rt, file),
        NetworkFault::Refused(NetFault::Memory) => {}
        NetworkFault::Refused(NetFault::Apart) => {
            say(rt, file, "key 'edges': the edges do not join all nodes");
        }
        NetworkFault::Refused(_) => explain_text(rt, file),
    }
}

/// Says why a network file cannot be read.
fn explain_unreadable<R: Files + Eprint>(rt: &R, file: &str) {
    match fs::metadata(rt, file) {
        Err(error) => say(rt, file, error),
        Ok(found) => match kind_fault(found.is_dir(), found.is_file(), found.len()) {
            Some(what) => say(rt, file, what),
            None => explain_reading(rt, file),
        },
    }
}

/// Says what is wrong with the text of a network file.
fn explain_text<R: Files + Eprint + AllocGlobal>(rt: &R, file: &str) {
    match fs::read_to_string(rt, file) {
        Err(error) if error.kind() == ErrorKind::InvalidData => say(
            rt,
            file,
            "is no text in UTF-8",
        ),
        Err(error) => say(rt, file, error),
        Ok(text) => {
            if let Ok(Some(line)) = hint(rt.alloc(), file, text.as_str()) {
                let _ = eprintln!(rt; "tokentree: {line}");
            }
        }
    }
}

/// Says that a network has no node of this id.
pub fn explain_id<R: Eprint>(rt: &R, file: &str, id: u16) {
    let _ = eprintln!(rt; "tokentree: {file}: no node {id} is in it");
}

/// Says what the system says about a file that cannot be read, if it still says so.
pub fn explain_reading<R: Files + Eprint>(rt: &R, path: &str) {
    if let Err(error) = fs::open(rt, path) {
        say(rt, path, error);
    }
}

/// Says what the system says about a file that cannot be written, if it still says so. If the file does
/// not exist, though its folder does, the system would say just that; so this says that none can be
/// made. About a pipe or a device it says nothing: opening a pipe would wait for its reader.
pub fn explain_writing<R: Files + Eprint>(rt: &R, path: &str) {
    if may_wait(&fs::metadata(rt, path)) {
        return;
    }
    if let Err(error) = OpenOptions::new().write(true).open(rt, path) {
        match unmade(error.kind(), has_folder(rt, path)) {
            Some(what) => say(rt, path, what),
            None => say(rt, path, error),
        }
    }
}

/// Whether opening a file may wait for another process: the file exists, and is neither a plain file
/// nor a folder.
fn may_wait(found: &io::Result<Metadata>) -> bool
    ensures { IsTrue result ↔ MayWait found.now }
{
    match found {
        Ok(found) => !found.is_file() && !found.is_dir(),
        Err(_) => false,
    }
}

/// Why a file could not be made, if the system's own words do not say it.
fn unmade(kind: ErrorKind, has_folder: bool) -> Option<&'static str>
    ensures { option_map (λ text. text.now) result ≡ unmade_text kind has_folder }
{
    match kind {
        ErrorKind::NotFound if has_folder => Some("no file can be made in its folder"),
        _ => None,
    }
}

/// Whether there is a folder for a file of this path.
fn has_folder<R: Files>(rt: &R, path: &str) -> bool {
    match Path::new(path).parent() {
        Some(folder) if !folder.path_text().is_empty() => {
            matches!(fs::metadata(rt, folder), Ok(found) if found.is_dir())
        }
        Some(_) => true,
        None => false,
    }
}

/// If FILE is a folder and DIR a plain file, says so.
pub fn explain_swap<R: Files + Eprint>(rt: &R, file: &str, dir: &str) {
    if are_swapped(&fs::metadata(rt, file), &fs::metadata(rt, dir)) {
        let _ = eprintln!(rt;
            "tokentree: {file} is a folder, and {dir} a file: FILE comes before DIR"
        );
    }
}

/// Whether the first is a folder, and the second a plain file.
fn are_swapped(file: &io::Result<Metadata>, dir: &io::Result<Metadata>) -> bool
    ensures { IsTrue result ↔ AreSwapped file.now dir.now }
{
    match (file, dir) {
        (Ok(file), Ok(dir)) => file.is_dir() && dir.is_file(),
        _ => false,
    }
}
