//! How a record's pages are written to its two files.
ghost use Rattle.std.specs.Prelude.{◌≡◌, None, is_ok, is_some};

use crate::names::RecordNames;
use node_recorder::Recorder;
use process_parts::{file_up_to, new_file};
use std::fs::File;
use std::io::{self, ErrorKind, Write};
use std::rt::Files;

/// The two files of a record, of which one at a time is written.
#[derive(Drop)]
pub struct RecordFiles {
    /// Their names.
    pub names: RecordNames,
    /// The present file, once something is written to it.
    pub file: Option<File>,
}

impl RecordFiles {
    /// The files of these names. None is made or opened yet.
    pub fn new(names: RecordNames) -> RecordFiles
        ensures { (result.names ≡ names) × (result.file ≡ None) }
    {
        RecordFiles { names, file: None }
    }

    /// Writes the page, of at most 32768 bytes, to the end of the present file of these pages. If that file
    /// is not open, it is made again, in place of a plain file of its name; or, if something is written to
    /// it, the file that is there is opened, and cut off after the bytes that are written.
    ///
    /// # Errors
    /// If the file cannot be made, opened or cut, or is a different file now: `InvalidInput` if a new file
    /// would take the place of something that is no plain file; `InvalidData` if a file that is written to
    /// is no plain file or has too few bytes. If the system does not write: `WriteZero` if it writes only a
    /// part of the page. After an error no file is open.
    pub fn append<R: Files<File = File>>(&mut self, rt: &R, pages: &Recorder) -> io::Result<()>
        ensures names { self.new.names ≡ self.old.names }
        ensures file { is_some self.new.file ≡ is_ok result }
    {
        let mut file = match self.file.take() {
            Some(file) => file,
            None => self.open_present(rt, pages)?,
        };
        let page = pages.page();
        if file.write(page)? < page.len() {
            return Err(io::Error::new(ErrorKind::WriteZero, "a page was not written to its end"));
        }
        self.file = Some(file);
        Ok(())
    }

    /// Opens the present file: a new one, or, if something is written to it, the one that is there.
    fn open_present<R: Files<File = File>>(&self, rt: &R, pages: &Recorder) -> io::Result<File> {
        let path = self.names.of(pages.side());
        match pages.written() {
            0 => new_file(rt, path),
            written => file_up_to(rt, path, written),
        }
    }

    /// Closes the present file. The next write opens one.
    pub fn close(&mut self)
        ensures { (self.new.names ≡ self.old.names) × (self.new.file ≡ None) }
    {
        self.file = None;
    }
}
