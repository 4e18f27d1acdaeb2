//! Recordings whose source fails, and recordings without enough memory.
use super::texts::FORGED;
use super::worlds::two_nodes;
use linked_list_allocator::LocalHeap;
use run_recording::{Window, record};
use std::alloc::{Allocator, Global};
use std::test::Fail;
use test_parts::{as_expected, on_heap};
use world::Net;
use world::simulation::SimFault;
use world::streams::{Fused, MemorySource, Source};

/// How many events a recording has, how many columns, and how many nodes are privileged in the last
/// of them.
type Recorded = Result<(u64, usize, Option<usize>), SimFault>;

/// Records what the source gives in at most four columns.
fn recorded<A: Allocator + Copy, R: Source>(alloc: A, net: &Net, source: &mut R) -> Recorded {
    let recording = record(alloc, net, source, 4, Window::ALL)?;
    let columns = recording.strip().columns();
    let last = columns.last().map(|column| column.privileged);
    Ok((recording.events(), columns.len(), last))
}

/// The recording of the forged tokens: nine moments, in columns of four, four and one.
const RECORDED: (u64, usize, Option<usize>) = (8, 3, Some(2));

/// Records the forged tokens on a heap; a read fails after `calls` reads of at most `piece` bytes.
/// Returns whether it failed; none if the answer is wrong, or memory stays allocated.
fn read_failed(heap: &LocalHeap, net: &Net, piece: usize, calls: u64) -> Option<bool> {
    let mut source = Fused::new(MemorySource::new(FORGED.as_bytes(), piece), calls);
    let answer = recorded(heap, net, &mut source);
    let failed = source.has_failed();
    let want = if failed {
        Err(SimFault::Read)
    } else {
        Ok(RECORDED)
    };
    (answer == want && heap.used() == 0).then_some(failed)
}

/// The most bytes of a read.
const PIECES: [usize; 3] = [1, 7, 4096];

/// The first size of pieces, and the number of reads before the failing one, with which a read
/// wrongly fails or does not fail.
fn first_unlike_read(heap: &LocalHeap, net: &Net) -> Option<(usize, u64)> {
    for piece in PIECES {
        // As many reads as there are pieces, and one that finds the end.
        let reads = FORGED.len().div_ceil(piece) as u64 + 1;
        for calls in 0..=reads {
            if read_failed(heap, net, piece, calls) != Some(calls < reads) {
                return Some((piece, calls));
            }
        }
    }
    None
}

/// The same on a heap of its own.
fn unlike_read_of(alloc: Global, net: &Net) -> Result<Option<(usize, u64)>, Fail> {
    let heap = LocalHeap::new(alloc, 65536)?;
    Ok(first_unlike_read(&heap, net))
}

/// The same for two nodes.
fn unlike_read(alloc: Global) -> Result<Option<(usize, u64)>, Fail> {
    unlike_read_of(alloc, &two_nodes(alloc)?)
}

#[test]
fn each_read_of_a_recording_fails_once(rt: HostRuntime) -> Result<(), Fail> {
    as_expected(unlike_read(rt.alloc()), &None)
}

/// What is recorded on a heap of this size, and how much of it stays allocated.
fn recorded_within<R: Source>(
    alloc: Global,
    net: &Net,
    source: &mut R,
    size: usize,
) -> Result<(Recorded, usize), Fail> {
    on_heap(alloc, size, |_, heap| Ok(recorded(heap, net, source)))
}

/// The recording of the forged tokens on the smallest heap with enough memory, and whether that
/// has more than 40 units of 16 bytes; none if memory stays allocated, or no heap below 2000 units
/// is enough. All heaps use the same source.
fn recorded_at_last(alloc: Global, net: &Net) -> Result<Option<(Recorded, bool)>, Fail> {
    let mut source = MemorySource::new(FORGED.as_bytes(), 7);
    for units in 1..2000usize {
        let (answer, used) = recorded_within(alloc, net, &mut source, units * 16)?;
        if used != 0 {
            return Ok(None);
        }
        if answer != Err(SimFault::Memory) {
            return Ok(Some((answer, units > 40)));
        }
    }
    Ok(None)
}

/// The same for two nodes.
fn recorded_of_two(alloc: Global) -> Result<Option<(Recorded, bool)>, Fail> {
    recorded_at_last(alloc, &two_nodes(alloc)?)
}

#[test]
fn refused_memory_leaves_the_source_unread(rt: HostRuntime) -> Result<(), Fail> {
    // The source still had all its bytes.
    as_expected(recorded_of_two(rt.alloc()), &Some((Ok(RECORDED), true)))
}
