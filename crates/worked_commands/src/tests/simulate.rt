//! Readers that are interrupted, or fail after some bytes.
use super::nets::two_nodes;
use command_parts::{Fault, ReadSource, WriteSink, simulate_between};
use std::alloc::Global;
use std::io::{BufWriter, Error, ErrorKind, Read, Write};
use std::test::Fail;
use test_parts::{Shelf, as_expected};
use topology::Net;
use world::simulation::Summary;

/// What the events lead to on two nodes; the first, the second and the last are refused.
const OUTPUT: &[u8] = b"\
line 1: NoNode
line 2: NoLink
line 4: Unread
node 0 distance 0 parent none token no lent none waiting 0
node 1 distance 2 parent none token no lent none waiting 0
link 0 1 items 0
link 1 0 items 0
privileged 0 lending 0
sweeps 0 of 69
";

/// What one read answers.
#[derive(Clone, Copy)]
enum Answer<'a> {
    Bytes(&'a [u8]),
    Interrupted,
    Broken,
}

/// Answers its reads one by one, and then ends.
#[derive(Drop)]
struct Answers<'a> {
    answers: &'a [Answer<'a>],
    /// How many reads there were.
    reads: usize,
}

impl Read for Answers<'_> {
    fn read(&mut self, buffer: &mut [u8]) -> std::io::Result<usize> {
        let Some(answer) = self.answers.get(self.reads) else {
            return Ok(0);
        };
        self.reads = self.reads.saturating_add(1);
        match *answer {
            Answer::Bytes(bytes) => {
                let count = buffer.len().min(bytes.len());
                buffer[..count].copy_from_slice(&bytes[..count]);
                Ok(count)
            }
            Answer::Interrupted => Err(Error::from(ErrorKind::Interrupted)),
            Answer::Broken => Err(Error::from(ErrorKind::BrokenPipe)),
        }
    }
}

/// Simulates what a source gives, on a network, and hides the contract of that call.
fn simulate<W: Write + Drop>(
    alloc: Global,
    net: &Net,
    source: &mut ReadSource<Answers<'_>>,
    sink: &mut WriteSink<W>,
) -> Result<Summary, Fault> {
    simulate_between(alloc, net, source, sink).map(|simulated| simulated.summary)
}

/// Simulates what these reads answer, on two nodes, and writes to a shelf.
fn simulate_to(
    alloc: Global,
    answers: &[Answer<'_>],
    shelf: Shelf<'_>,
) -> Result<Result<Summary, Fault>, Fail> {
    let net = two_nodes(alloc)?;
    let mut sink = WriteSink::new(BufWriter::with_capacity(alloc, 16, shelf)?);
    let mut source = ReadSource::new(Answers { answers, reads: 0 });
    Ok(simulate(alloc, &net, &mut source, &mut sink))
}

/// Whether a simulation has this answer, and writes this.
fn simulates(
    alloc: Global,
    answers: &[Answer<'_>],
    want: Result<Summary, Fault>,
    text: &[u8],
) -> Result<bool, Fail> {
    let mut taken = Vec::new(alloc);
    let shelf = Shelf {
        taken: &mut taken,
        room: 1000,
    };
    let answer = simulate_to(alloc, answers, shelf)?;
    Ok(answer == want && taken.as_slice() == text)
}

/// The summary of three refused lines without a sweep.
const THREE: Summary = Summary {
    refused: 3,
    sweeps: 0,
    lending: 0,
};

/// The events, between interruptions.
static INTERRUPTED: [Answer<'static>; 6] = [
    Answer::Interrupted,
    Answer::Bytes(b"tick 2\nse"),
    Answer::Interrupted,
    Answer::Interrupted,
    Answer::Bytes(b"nd 0 0\ntick 0\nTick 0"),
    Answer::Interrupted,
];

#[test]
fn an_interrupted_read_is_tried_again(rt: HostRuntime) -> Result<(), Fail> {
    as_expected(
        simulates(rt.alloc(), &INTERRUPTED, Ok(THREE), OUTPUT),
        &true,
    )
}

/// The events, with a failure in the middle of the third line.
static FAILED: [Answer<'static>; 3] = [
    Answer::Bytes(b"tick 2\nsend 0 0\ntick"),
    Answer::Broken,
    Answer::Bytes(b" 0\nTick 0"),
];

/// The output for the lines before the failure.
const SAID: &[u8] = b"line 1: NoNode\nline 2: NoLink\n";

#[test]
fn what_came_before_a_failed_read_is_said(rt: HostRuntime) -> Result<(), Fail> {
    as_expected(
        simulates(rt.alloc(), &FAILED, Err(Fault::EventsUnreadable), SAID),
        &true,
    )
}
