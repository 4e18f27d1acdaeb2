//! The records in a folder.
ghost use Rattle.std.specs.Prelude.{◌≡◌, ⊤};
ghost use Rattle.gather_command.specs.Folder.{not_opened};

use crate::records::{Opened, Records};
use command_parts::ReadSource;
use flight_recorder::{Side, record_name};
use std::io::ErrorKind;
use std::rt::Files;
use std::{fs, io};

/// The records in a folder: of node U, the files `record-U.0` and `record-U.1`.
#[derive(Drop)]
pub struct FolderRecords<'a, R> {
    rt: &'a R,
    dir: &'a str,
}

impl<'a, R> FolderRecords<'a, R> {
    /// The records in this folder.
    pub fn new(rt: &'a R, dir: &'a str) -> FolderRecords<'a, R>
        ensures { result.dir.now ≡ dir.now }
    {
        FolderRecords { rt, dir }
    }
}

impl<R: Files + AllocGlobal> Records for FolderRecords<'_, R> {
    type File = ReadSource<R::File>;

    // It is unproved which files are there, and which bytes they have. No file says so.
    ghost opens = { λ _ _ _ _. ⊤ };

    /// Opens a file for reading, and changes nothing. Only a plain file is opened.
    fn open(&mut self, node: u16, side: Side) -> Opened<ReadSource<R::File>> {
        let Ok(name) = record_name(self.rt.alloc(), self.dir, node, side) else {
            return Opened::NoMemory;
        };
        match open_plain(self.rt, name.as_str()) {
            Ok(file) => Opened::File(ReadSource::new(file)),
            Err(error) => not_opened(error.kind()),
        }
    }
}

/// Opens a plain file for reading.
///
/// # Errors
/// If it is not there or cannot be opened, or is a folder, a pipe or a device.
fn open_plain<F: Files>(files: &F, path: &str) -> io::Result<F::File> {
    // A pipe or a device is not waited for.
    if !fs::metadata(files, path)?.is_file() {
        return Err(io::Error::from(ErrorKind::InvalidInput));
    }
    fs::open(files, path)
}

/// What became of a file that was not opened, by the system's answer.
fn not_opened<F>(kind: ErrorKind) -> Opened<F>
    ensures { result ≡ not_opened kind }
{
    match kind {
        ErrorKind::NotFound => Opened::Absent,
        ErrorKind::OutOfMemory => Opened::NoMemory,
        _ => Opened::Unreadable,
    }
}
