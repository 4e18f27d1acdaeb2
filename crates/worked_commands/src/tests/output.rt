//! Writers that fail, as standard output may: how a command ends depends on the first of their
//! errors.
use command_parts::{EventText, Fault, Flush, WriteSink};
use schedules::EventSink;
use std::io::{BufWriter, Error, ErrorKind, Write};
use std::test::Fail;
use test_parts::as_expected;
use world::Event;
use world::streams::Sink;

/// A writer that fails: first with this kind of error, and then with others.
#[derive(Drop)]
struct Failing {
    kind: ErrorKind,
}

impl Write for Failing {
    fn write(&mut self, _bytes: &[u8]) -> std::io::Result<usize> {
        let kind = self.kind;
        self.kind = ErrorKind::TimedOut;
        Err(Error::from(kind))
    }

    fn flush(&mut self) -> std::io::Result<()> {
        Ok(())
    }
}

/// The kind of a writer's first error, and the fault that its command ends with.
const ROWS: [(ErrorKind, Fault); 2] = [
    (ErrorKind::BrokenPipe, Fault::Closed),
    (ErrorKind::StorageFull, Fault::Output),
];

/// The fault of a command that writes bytes to such a writer, and flushes them twice.
fn of_bytes<R: Eprint + AllocGlobal>(rt: &R, kind: ErrorKind) -> Result<Fault, Error> {
    let output = BufWriter::with_capacity(rt.alloc(), 16, Failing { kind })?;
    let mut sink = WriteSink::new(output);
    let _ = sink.write(b"tick 1\n");
    let _ = sink.flush();
    let _ = sink.flush();
    Ok(sink.fault(rt, Fault::Output))
}

/// The same for a command that writes an event.
fn of_event<R: Eprint + AllocGlobal>(rt: &R, kind: ErrorKind) -> Result<Fault, Error> {
    let output = BufWriter::with_capacity(rt.alloc(), 16, Failing { kind })?;
    let mut text = EventText::new(output);
    let _ = text.take(&Event::Tick { node: 1 });
    let _ = text.flush();
    let _ = text.flush();
    Ok(text.fault(rt, Fault::Output))
}

/// The place of the first row with a different fault.
fn first_other<R: Eprint + AllocGlobal>(
    rt: &R,
    rows: &[(ErrorKind, Fault)],
) -> Result<Option<usize>, Fail> {
    for (at, (kind, want)) in rows.iter().enumerate() {
        if of_bytes(rt, *kind)? != *want || of_event(rt, *kind)? != *want {
            return Ok(Some(at));
        }
    }
    Ok(None)
}

#[test]
fn the_first_error_says_the_fault(rt: HostRuntime) -> Result<(), Fail> {
    as_expected(first_other(&rt, &ROWS), &None)
}
