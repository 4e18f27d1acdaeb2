//! A writer with little room, for tests of what is printed.
use std::io::{Error, ErrorKind, Write};

/// Keeps what is written to it while it has room, and then fails.
#[derive(Drop)]
pub struct Shelf<'a> {
    /// What was written.
    pub taken: &'a mut Vec<u8>,
    /// How many more bytes it can keep.
    pub room: usize,
}

impl Write for Shelf<'_> {
    fn write(&mut self, bytes: &[u8]) -> std::io::Result<usize> {
        let count = bytes.len().min(self.room);
        if count == 0 && !bytes.is_empty() {
            return Err(Error::from(ErrorKind::BrokenPipe));
        }
        self.taken.extend_from_slice(&bytes[..count])?;
        self.room -= count;
        Ok(count)
    }

    fn flush(&mut self) -> std::io::Result<()> {
        Ok(())
    }
}
