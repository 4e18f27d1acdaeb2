//! Readers and writers as the ends of a simulation.
//!
//! Std's readers and writers may show their bytes to contracts (`remaining`, `contents`). A file
//! does not, so neither do these ends; but each of their calls says what it read from a reader
//! that does, or wrote to such a writer.
ghost use Rattle.std.specs.Prelude.{◌≡◌, ◌≤◌, ℕ, List, [], None, OnOk, length};
ghost use Rattle.std.specs.Io.Buffered.{writer_buffer, writer_contents};
ghost use Rattle.std.specs.Io.KnownBytes.{Appends, Keeps, ReadConsumes};
ghost use Rattle.byte_streams.specs.Streams.{CountsFailures, Reads, Rose, Writes};
ghost use Rattle.command_faults.specs.Output.{first_error, kept_fault, IsKeptAs, KeepsFirst};

use command_faults::{Fault, kept_fault};
use std::io::{BufWriter, Error, ErrorKind, Read, Write};
use world::streams::{Failed, Sink, Source};

/// A reader as a source.
#[derive(Drop)]
pub struct ReadSource<R> {
    reader: R,
    failures: u64,
}

impl<R> ReadSource<R> {
    /// A source that gives what the reader gives.
    pub fn new(reader: R) -> ReadSource<R>
        ensures reader { result.reader ≡ reader }
        ensures failures { result.failures ≡ 0 }
    {
        ReadSource {
            reader,
            failures: 0,
        }
    }
}

impl<R: Read> Source for ReadSource<R> {
    ghost rest = { λ _. None };

    ghost failures = { λ s. s.failures };

    /// A read that a signal interrupted is tried again.
    fn read(&mut self, buffer: &mut [u8]) -> Result<usize, Failed>
        ensures len { length buffer.new ≡ length buffer.old }
        ensures reads { Reads result None None buffer.new self.old.failures self.new.failures }
        // It gave what the reader gave, if the reader shows that.
        ensures bytes { ReadConsumes (R.remaining self.old.reader)
            (R.remaining self.new.reader) result buffer.new }
    {
        for _ in 0..u64::MAX {
            match self.reader.read(buffer) {
                Ok(count) => return Ok(count),
                Err(error) if error.kind() == ErrorKind::Interrupted => {}
                Err(_) => break,
            }
        }
        Err(count_failure(&mut self.failures))
    }
}

/// A sink that may keep what it takes until it is flushed.
pub trait Flush: Sink {
    /// The bytes that it has taken and not yet written.
    ghost unwritten: { Self → List ℕ };

    /// Writes all that it has taken.
    ///
    /// # Errors
    /// [`Failed`] if it failed in this call; then some of it may be unwritten.
    fn flush(&mut self) -> Result<(), Failed>
        ensures written { OnOk result (unwritten self.new ≡ []) }
        // What it has taken stays taken, written or not.
        ensures taken { Self.taken self.new ≡ Self.taken self.old }
        ensures cause { CountsFailures result (Self.failures self.old) (Self.failures self.new) };
}

/// A buffered writer as a sink. All that it took is written only after [`Flush::flush`].
#[derive(Drop)]
pub struct WriteSink<W: Write + Drop> {
    writer: BufWriter<W>,
    failures: u64,
    /// The error of the first failure.
    first: Option<Error>,
}

impl<W: Write + Drop> WriteSink<W> {
    /// A sink that passes its bytes to the writer.
    pub fn new(writer: BufWriter<W>) -> WriteSink<W>
        ensures writer { result.writer ≡ writer }
        ensures failures { result.failures ≡ 0 }
        ensures first { result.first ≡ None }
    {
        WriteSink {
            writer,
            failures: 0,
            first: None,
        }
    }

    /// The fault that a command ends with after this fault, if the sink writes to standard output. For a
    /// fault of the output, it is that of the sink's first error, as
    /// [`output_fault`](command_faults::output_fault) has it.
    pub fn fault<R: Eprint>(&self, rt: &R, fault: Fault) -> Fault
        ensures fault { result ≡ kept_fault fault self.now.first }
        ensures kept { IsKeptAs fault result }
    {
        kept_fault(rt, fault, self.first)
    }
}

impl<W: Write + Drop> Flush for WriteSink<W> {
    ghost unwritten = { λ s. writer_buffer s.writer };

    fn flush(&mut self) -> Result<(), Failed>
        ensures written { OnOk result (writer_buffer self.new.writer ≡ []) }
        // The writer and its buffer hold the same bytes as before, if the writer shows them.
        ensures bytes { Keeps (writer_contents W.contents self.old.writer)
            (writer_contents W.contents self.new.writer) }
        ensures cause { CountsFailures result self.old.failures self.new.failures }
        // The error of the first failure is kept.
        ensures kept { KeepsFirst result self.old.first self.new.first }
    {
        match self.writer.flush() {
            Ok(()) => Ok(()),
            Err(error) => Err(note_failure(&mut self.failures, &mut self.first, error)),
        }
    }
}

impl<W: Write + Drop> Sink for WriteSink<W> {
    ghost taken = { λ _. None };

    ghost failures = { λ s. s.failures };

    fn write(&mut self, bytes: &[u8]) -> Result<usize, Failed>
        ensures writes { Writes result bytes.now None None self.old.failures self.new.failures }
        // All bytes follow those before, in the writer or in its buffer.
        ensures all { OnOk result
            (Appends (writer_contents W.contents self.old.writer)
            (writer_contents W.contents self.new.writer) bytes.now) }
        // The error of the first failure is kept.
        ensures kept { KeepsFirst result self.old.first self.new.first }
    {
        match self.writer.write_all(bytes) {
            Ok(()) => Ok(bytes.len()),
            Err(error) => Err(note_failure(&mut self.failures, &mut self.first, error)),
        }
    }
}

/// Counts a failure, and keeps its error if it is the first.
pub(crate) fn note_failure(failures: &mut u64, first: &mut Option<Error>, error: Error) -> Failed
    ensures rose { Rose failures.old failures.new }
    ensures grows { failures.old ≤ failures.new }
    ensures kept { first.new ≡ first_error first.old error }
{
    if first.is_none() {
        *first = Some(error);
    }
    count_failure(failures)
}

/// Counts a failure; the count stops at its greatest value.
fn count_failure(failures: &mut u64) -> Failed
    ensures rose { Rose failures.old failures.new }
    ensures grows { failures.old ≤ failures.new }
{
    *failures = failures.saturating_add(1);
    Failed
}
