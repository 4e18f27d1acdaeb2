//! How long a text of events may be.
use super::{ROOM, run};
use crate::tests::texts::{TWO_AT_REST, TWO_AT_START, joined};
use crate::tests::worlds::two_nodes;
use std::alloc::{AllocError, Global};
use std::test::Fail;
use test_parts::as_expected;
use world::Net;
use world::simulation::{SimFault, Summary};
use world::streams::{Failed, MemorySink, Source};

/// A refused line, and then a comment.
#[derive(Drop)]
struct LongText {
    /// How many bytes it still has to give.
    left: usize,
    has_begun: bool,
}

impl Source for LongText {
    ghost use Rattle.std.specs.Prelude.{None};

    ghost rest = { λ _. None };

    ghost failures = { λ _. 0 };

    fn read(&mut self, buffer: &mut [u8]) -> Result<usize, Failed> {
        let count = buffer.len().min(self.left);
        buffer.fill(b'#');
        if !self.has_begun && count >= 7 {
            buffer[..7].copy_from_slice(b"Tick 0\n");
            self.has_begun = true;
        }
        self.left -= count;
        Ok(count)
    }
}

/// Simulates a text of `bytes` bytes with a refused line. Returns the answer, and whether `want`
/// is written.
fn with_long_text(
    alloc: Global,
    net: &Net,
    bytes: usize,
    want: &str,
) -> Result<(Result<Summary, SimFault>, bool), AllocError> {
    let mut source = LongText {
        left: bytes,
        has_begun: false,
    };
    let mut sink = MemorySink::new(alloc, ROOM)?;
    let answer = run(alloc, net, &mut source, &mut sink);
    Ok((answer, sink.taken() == want.as_bytes()))
}

/// The refusal line of that text.
const UNREAD: &str = "line 1: Unread\n";

/// The report of it.
const ONE_REFUSED: Summary = Summary {
    refused: 1,
    sweeps: 0,
    lending: 0,
};

/// Whether a text of a gibibyte leads to the state at the start, after its refusal line; and whether
/// a text with one byte more is refused, after the same line.
fn is_limited(alloc: Global, net: &Net) -> Result<(bool, bool), AllocError> {
    let output = joined(alloc, &[UNREAD, TWO_AT_START, TWO_AT_REST])?;
    let whole = with_long_text(alloc, net, 1_073_741_824, output.as_str())?;
    let long = with_long_text(alloc, net, 1_073_741_825, UNREAD)?;
    Ok((
        whole == (Ok(ONE_REFUSED), true),
        long == (Err(SimFault::Long), true),
    ))
}

/// The same for two nodes.
fn is_limited_for_two(alloc: Global) -> Result<(bool, bool), Fail> {
    let net = two_nodes(alloc)?;
    Ok(is_limited(alloc, &net)?)
}

#[test]
fn a_text_may_have_a_gibibyte_and_no_more(rt: HostRuntime) -> Result<(), Fail> {
    as_expected(is_limited_for_two(rt.alloc()), &(true, true))
}
