//! The events text as a sink of events.
ghost use Rattle.std.specs.Prelude.{◌≡◌, ◌∷◌, OnOk, None, []};
ghost use Rattle.std.specs.Io.Buffered.{writer_buffer, writer_contents};
ghost use Rattle.std.specs.Io.KnownBytes.{Keeps};
ghost use Rattle.byte_streams.specs.Streams.{CountsFailures};
ghost use Rattle.command_faults.specs.Output.{kept_fault, IsKeptAs, KeepsFirst};

use crate::streams::note_failure;
use command_faults::{Fault, kept_fault};
use schedules::EventSink;
use std::io::{BufWriter, Error, Write};
use world::streams::Failed;
use world::{Event, EventLine};

/// Writes the line of each event that it takes.
#[derive(Drop)]
pub struct EventText<W: Write + Drop> {
    writer: BufWriter<W>,
    failures: u64,
    /// The error of the first failure.
    first: Option<Error>,
}

impl<W: Write + Drop> EventText<W> {
    /// A text that goes to the writer.
    pub fn new(writer: BufWriter<W>) -> EventText<W>
        ensures writer { result.writer ≡ writer }
        ensures failures { result.failures ≡ 0 }
        ensures first { result.first ≡ None }
    {
        EventText {
            writer,
            failures: 0,
            first: None,
        }
    }

    /// The fault that a command ends with after this fault, if the text goes to standard output. For a
    /// fault of the output, it is that of the text's first error, as
    /// [`output_fault`](command_faults::output_fault) has it.
    pub fn fault<R: Eprint>(&self, rt: &R, fault: Fault) -> Fault
        ensures fault { result ≡ kept_fault fault self.now.first }
        ensures kept { IsKeptAs fault result }
    {
        kept_fault(rt, fault, self.first)
    }

    /// Writes all that was taken.
    ///
    /// # Errors
    /// [`Failed`] if it failed in this call; then some of it may be unwritten.
    pub fn flush(&mut self) -> Result<(), Failed>
        ensures written { OnOk result (writer_buffer self.new.writer ≡ []) }
        ensures bytes { Keeps (writer_contents W.contents self.old.writer)
            (writer_contents W.contents self.new.writer) }
        ensures cause { CountsFailures result self.old.failures self.new.failures }
        // The error of the first failure is kept.
        ensures kept { KeepsFirst result self.old.first self.new.first }
    {
        match self.writer.flush() {
            Ok(()) => Ok(()),
            Err(error) => Err(note_failure(&mut self.failures, &mut self.first, error)),
        }
    }
}

impl<W: Write + Drop> EventSink for EventText<W> {
    ghost use Rattle.std.specs.Io.Buffered.{writer_contents};
    ghost use Rattle.command_parts.specs.EventText.{GrowsByText, grows-nowhere, grows-both};

    // The writer and its buffer get the text of the events, if the writer shows its bytes.
    ghost takes = { λ a events b. GrowsByText (writer_contents W.contents a.writer) events
        (writer_contents W.contents b.writer) };

    ghost failures = { λ t. t.failures };

    fn take(&mut self, event: &Event) -> Result<(), Failed>
        ensures taken { OnOk result (GrowsByText (writer_contents W.contents self.old.writer)
            (event.now ∷ []) (writer_contents W.contents self.new.writer)) }
        ensures cause { CountsFailures result self.old.failures self.new.failures }
        // The error of the first failure is kept.
        ensures kept { KeepsFirst result self.old.first self.new.first }
    {
        match writeln!(self.writer, "{}", EventLine(*event)) {
            Ok(()) => Ok(()),
            Err(error) => Err(note_failure(&mut self.failures, &mut self.first, error)),
        }
    }

    ghost takes_none = { λ s. grows-nowhere (writer_contents W.contents s.writer) };

    ghost takes_both = { λ a b c. grows-both (writer_contents W.contents a.writer)
        (writer_contents W.contents b.writer) (writer_contents W.contents c.writer) };
}
