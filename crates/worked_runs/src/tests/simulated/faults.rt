//! Simulations whose source, sink or memory fails, at each of their calls in turn.
use super::{ROOM, run};
use crate::tests::texts::{TWO_AT_REST, joined};
use crate::tests::worlds::two_nodes;
use std::alloc::{AllocError, Global};
use std::test::Fail;
use test_parts::{as_expected, on_heap};
use world::Net;
use world::simulation::{SimFault, Summary};
use world::streams::{Fused, MemorySink, MemorySource};

/// The most bytes of a read.
const PIECES: [usize; 3] = [1, 7, 4096];

/// Lines; all except one are refused.
const LINES: &str =
    "tick 2\nsend 0 0\nlose 0 1 0\nharm own 0 3 none\nask 1 7\nask 1 7\nleave 0 4\nTick 0\n";

/// The refusal lines, each with the number of bytes at the end of its line.
const REFUSALS: [(usize, &str); 7] = [
    (7, "line 1: NoNode\n"),
    (16, "line 2: NoLink\n"),
    (27, "line 3: NoItem\n"),
    (45, "line 4: OutOfRange\n"),
    (61, "line 6: Twice\n"),
    (71, "line 7: Stranger\n"),
    (78, "line 8: Unread\n"),
];

/// How two nodes are shown after the lines: a ticket waits at node 1.
const NODES: &str = "\
node 0 distance 2 parent none token no lent none waiting 0
node 1 distance 2 parent none token no lent none waiting 1
";

/// The refusal lines of the lines that end within the first `bytes` bytes.
fn refusals_within(alloc: Global, bytes: usize) -> Result<String, AllocError> {
    let mut text = String::new(alloc);
    for (end, line) in REFUSALS {
        if end <= bytes {
            text.push_str(line)?;
        }
    }
    Ok(text)
}

/// Two nodes, and what the lines lead to there.
#[derive(Drop)]
struct Case {
    net: Net,
    output: String,
}

/// Two nodes, for which all refusal lines are written, and then the state.
fn case_of_two(alloc: Global) -> Result<Case, Fail> {
    let net = two_nodes(alloc)?;
    let refusals = refusals_within(alloc, LINES.len())?;
    let output = joined(alloc, &[refusals.as_str(), NODES, TWO_AT_REST])?;
    Ok(Case { net, output })
}

/// The report of all lines.
const ALL: Summary = Summary {
    refused: 7,
    sweeps: 0,
    lending: 0,
};

/// The result of a simulation in which a call may fail.
#[derive(Clone, Copy)]
struct Outcome {
    /// Whether that call was made.
    has_failed: bool,
    answer: Result<Summary, SimFault>,
    /// Whether what was written is right.
    is_written: bool,
}

impl Outcome {
    /// Whether it is right, if the failing call is reported as `fault`.
    fn is_right(&self, fault: SimFault) -> bool {
        let want = if self.has_failed { Err(fault) } else { Ok(ALL) };
        self.is_written && self.answer == want
    }
}

/// Whether these are the refusal lines of the lines that end within the first `bytes` bytes.
fn are_refusals(alloc: Global, taken: &[u8], bytes: usize) -> Result<bool, AllocError> {
    Ok(taken == refusals_within(alloc, bytes)?.as_bytes())
}

/// Simulates with a read that fails after `calls` others: then the output is the refusals of whole
/// lines, else the whole output.
fn with_a_failing_read(
    alloc: Global,
    case: &Case,
    piece: usize,
    calls: u64,
) -> Result<Outcome, AllocError> {
    let mut source = Fused::new(MemorySource::new(LINES.as_bytes(), piece), calls);
    let mut sink = MemorySink::new(alloc, ROOM)?;
    let answer = run(alloc, &case.net, &mut source, &mut sink);
    let has_failed = source.has_failed();
    let is_written = if has_failed {
        are_refusals(alloc, sink.taken(), (calls as usize).saturating_mul(piece))?
    } else {
        sink.taken() == case.output.as_bytes()
    };
    Ok(Outcome {
        has_failed,
        answer,
        is_written,
    })
}

/// Simulates with a write that fails after `calls` others: then the output is cut short, else
/// whole.
fn with_a_failing_write(
    alloc: Global,
    case: &Case,
    piece: usize,
    calls: u64,
) -> Result<Outcome, AllocError> {
    let mut source = MemorySource::new(LINES.as_bytes(), piece);
    let mut sink = Fused::new(MemorySink::new(alloc, ROOM)?, calls);
    let answer = run(alloc, &case.net, &mut source, &mut sink);
    let has_failed = sink.has_failed();
    let taken = sink.inner().taken();
    let is_whole = taken.len() == case.output.len();
    Ok(Outcome {
        has_failed,
        answer,
        is_written: case.output.as_bytes().starts_with(taken) && is_whole != has_failed,
    })
}

/// The first number of calls before the failing read for which a simulation is wrong, or fails
/// though there is no further read, if any.
fn first_wrong_read(alloc: Global, case: &Case, piece: usize) -> Result<Option<u64>, AllocError> {
    // As many reads as there are pieces, and one that finds the end.
    let reads = LINES.len().div_ceil(piece.max(1)) as u64 + 1;
    for calls in 0..=reads {
        let outcome = with_a_failing_read(alloc, case, piece, calls)?;
        if !outcome.is_right(SimFault::Read) || outcome.has_failed != (calls < reads) {
            return Ok(Some(calls));
        }
    }
    Ok(None)
}

/// The same for a failing write: there is at least one write, and after all writes no call fails.
fn first_wrong_write(alloc: Global, case: &Case, piece: usize) -> Result<Option<u64>, AllocError> {
    for calls in 0..1000u64 {
        let outcome = with_a_failing_write(alloc, case, piece, calls)?;
        if !outcome.is_right(SimFault::Write) || (calls == 0 && !outcome.has_failed) {
            return Ok(Some(calls));
        }
        if !outcome.has_failed {
            return Ok(None);
        }
    }
    Ok(Some(1000))
}

/// The first size of pieces for which there is such a number, and the number.
fn first_wrong_of_all<F: Fn(Global, &Case, usize) -> Result<Option<u64>, AllocError>>(
    alloc: Global,
    first_wrong: F,
) -> Result<Option<(usize, u64)>, Fail>
    requires { F.IsAlwaysCallable first_wrong }
{
    let case = case_of_two(alloc)?;
    for piece in PIECES {
        if let Some(calls) = first_wrong(alloc, &case, piece)? {
            return Ok(Some((piece, calls)));
        }
    }
    Ok(None)
}

#[test]
fn a_read_that_fails_leaves_the_refusals_of_whole_lines(rt: HostRuntime) -> Result<(), Fail> {
    as_expected(first_wrong_of_all(rt.alloc(), first_wrong_read), &None)
}

#[test]
fn a_write_that_fails_leaves_a_beginning(rt: HostRuntime) -> Result<(), Fail> {
    as_expected(first_wrong_of_all(rt.alloc(), first_wrong_write), &None)
}

/// Simulates into a sink with `room` bytes. Returns the answer, and whether all of them are
/// filled.
fn with_room(
    alloc: Global,
    case: &Case,
    room: usize,
) -> Result<(Result<Summary, SimFault>, bool), AllocError> {
    let mut source = MemorySource::new(LINES.as_bytes(), 7);
    let mut sink = MemorySink::new(alloc, room)?;
    let answer = run(alloc, &case.net, &mut source, &mut sink);
    let is_filled = sink.taken().len() == room && case.output.as_bytes().starts_with(sink.taken());
    Ok((answer, is_filled))
}

/// The right result.
fn wanted_with_room(case: &Case, room: usize) -> (Result<Summary, SimFault>, bool) {
    let answer = if room < case.output.len() {
        Err(SimFault::Write)
    } else {
        Ok(ALL)
    };
    (answer, true)
}

/// The first number of bytes of a sink with a different result, if any.
fn first_wrong_room(alloc: Global) -> Result<Option<usize>, Fail> {
    let case = case_of_two(alloc)?;
    for room in 0..=case.output.len() {
        if with_room(alloc, &case, room)? != wanted_with_room(&case, room) {
            return Ok(Some(room));
        }
    }
    Ok(None)
}

#[test]
fn a_sink_with_too_little_room_is_filled(rt: HostRuntime) -> Result<(), Fail> {
    as_expected(first_wrong_room(rt.alloc()), &None)
}

/// The size, in units of 16 bytes, of the first heap that does not refuse a simulation, or keeps
/// something, or writes something although it refuses; the answer there, and how much stays taken.
fn first_heap(
    alloc: Global,
    net: &Net,
    source: &mut MemorySource<'_>,
    sink: &mut MemorySink,
) -> Result<Option<(usize, Result<Summary, SimFault>, usize)>, Fail> {
    for units in 1..1000usize {
        let (answer, used) = on_heap(
            alloc,
            units * 16,
            |_, heap| Ok(run(heap, net, source, sink)),
        )?;
        if answer != Err(SimFault::Memory) || used > 0 || !sink.taken().is_empty() {
            return Ok(Some((units, answer, used)));
        }
    }
    Ok(None)
}

/// Whether the first heap that does not refuse a simulation has more than ten units; the answer
/// there, how much stays taken, and whether the output is written.
type LeastHeap = (bool, Result<Summary, SimFault>, usize, bool);

/// What is found there; none if all heaps refuse.
fn least_heap(alloc: Global) -> Result<Option<LeastHeap>, Fail> {
    let case = case_of_two(alloc)?;
    let mut source = MemorySource::new(LINES.as_bytes(), 7);
    let mut sink = MemorySink::new(alloc, ROOM)?;
    let Some((units, answer, used)) = first_heap(alloc, &case.net, &mut source, &mut sink)? else {
        return Ok(None);
    };
    let is_written = sink.taken() == case.output.as_bytes();
    Ok(Some((units > 10, answer, used, is_written)))
}

#[test]
fn refused_memory_leaves_all_unread_and_unwritten(rt: HostRuntime) -> Result<(), Fail> {
    // The same as with ample memory; the source still had all its bytes, and the sink all its
    // room.
    let want = Some((true, Ok(ALL), 0, true));
    as_expected(least_heap(rt.alloc()), &want)
}
