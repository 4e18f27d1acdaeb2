//! A store over a file, which is written in place.
ghost use Rattle.std.specs.Prelude.{◌≡◌, ◌≤◌, ◌<◌, length, IfOk};

use state_writing::{LOADED_BYTES, Store, StoreFault};
use std::fs::{OpenFile, OpenOptions};
use std::io::{ErrorKind, Read, Write};
use std::os::unix::fs::OpenOptionsExt;
use std::rt::Files;
use std::{fs, io};

/// A state in a plain file. If a save has to make the file, only its owner may read and write it; a
/// file that is there keeps its rights. A save writes all of the state in place, from the start of
/// the file, in one write, and then sets the length if it differs: it uses no second file, cuts
/// nothing off beforehand, and does not wait for the disk. So a file may be torn if the machine
/// stops in between, which is damage like any other.
///
/// A folder, a pipe or a device in the file's place is a failure of the store, and is not waited
/// for, unless it takes the file's place between the check and the opening.
#[derive(Drop)]
pub struct FileStore<'a, F> {
    files: &'a F,
    path: &'a str,
    failures: u64,
}

impl<'a, F: Files> FileStore<'a, F> {
    /// A store over the file of this path, which may be absent.
    pub fn new(files: &'a F, path: &'a str) -> FileStore<'a, F>
        ensures { result.failures ≡ 0 }
    {
        FileStore {
            files,
            path,
            failures: 0,
        }
    }
}

impl<'a, F: Files> Store for FileStore<'a, F> {
    ghost use Rattle.std.specs.Prelude.{None};

    ghost stored = { λ _. None };

    ghost failures = { λ s. s.failures };

    fn load(&mut self, buffer: &mut [u8; LOADED_BYTES]) -> Result<usize, StoreFault> {
        match read_front(self.files, self.path, buffer) {
            Ok(count) => Ok(count),
            Err(error) if error.kind() == ErrorKind::NotFound => Err(StoreFault::Absent),
            Err(_) => {
                self.failures = self.failures.saturating_add(1);
                Err(StoreFault::Device)
            }
        }
    }

    fn save(&mut self, bytes: &[u8]) -> Result<(), StoreFault> {
        match write_in_place(self.files, self.path, bytes) {
            Ok(()) => Ok(()),
            Err(_) => {
                self.failures = self.failures.saturating_add(1);
                Err(StoreFault::Device)
            }
        }
    }
}

/// Reads the first bytes of a plain file, and returns how many.
fn read_front<F: Files>(files: &F, path: &str, buffer: &mut [u8; LOADED_BYTES]) -> io::Result<usize>
    ensures { IfOk result (λ count. count ≤ 1277) }
{
    if !fs::metadata(files, path)?.is_file() {
        return Err(io::Error::from(ErrorKind::InvalidInput));
    }
    let mut file = fs::File::open(files, path)?;
    fill(&mut file, buffer)
}

/// Fills the buffer, or as much of it as there are bytes for, and returns how many it read.
fn fill<R: Read>(file: &mut R, buffer: &mut [u8; LOADED_BYTES]) -> io::Result<usize>
    ensures { IfOk result (λ count. count ≤ 1277) }
{
    let mut count = 0;
    while count < LOADED_BYTES {
        let read = file.read(&mut buffer[count..])?;
        if read == 0 {
            break;
        }
        count += read;
    }
    Ok(count)
}

/// Writes all of a plain file in place, in one write, and then sets its length if that differs.
fn write_in_place<F: Files>(files: &F, path: &str, bytes: &[u8]) -> io::Result<()> {
    look_for_others(files, path)?;
    let mut file = OpenOptions::new()
        .write(true)
        .create(true)
        .mode(0o600)
        .open(files, path)?;
    overwrite(&mut file, bytes)
}

/// Fails if there is anything but a plain file at a path; there may be nothing.
fn look_for_others<F: Files>(files: &F, path: &str) -> io::Result<()> {
    match fs::metadata(files, path) {
        Ok(found) if !found.is_file() => Err(io::Error::from(ErrorKind::InvalidInput)),
        Err(error) if error.kind() != ErrorKind::NotFound => Err(error),
        _ => Ok(()),
    }
}

/// Writes all of an open file in one write, and then sets its length if that differs.
fn overwrite<O: OpenFile + Write>(file: &mut O, bytes: &[u8]) -> io::Result<()> {
    if file.write(bytes)? < bytes.len() {
        return Err(io::Error::from(ErrorKind::WriteZero));
    }
    let length = bytes.len() as u64;
    if file.metadata()?.len() != length {
        file.set_len(length)?;
    }
    Ok(())
}
