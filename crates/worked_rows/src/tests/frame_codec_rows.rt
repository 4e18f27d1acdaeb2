//! Frame lines and hellos: at the ends of their ranges, cut at every place, and with memory
//! refused.
use frame_codec::{LineReader, decode, decode_hello, encode, encode_hello};
use linked_list_allocator::LocalHeap;
use std::alloc::{AllocError, Allocator, Global};
use std::test::Fail;
use test_parts::{as_expected, is_expected};
use topology::{Frame, Net, Payload};

/// Three nodes in a line, with capacity 1: counters are below 5 and ring values below 13.
fn line_of_three(alloc: Global) -> Result<Net, Fail> {
    Ok(Net::make(alloc, 3, 0, 1, 0, &[(0, 1), (1, 2)])?)
}

/// Node 0 with 63 neighbours, with capacity 4096.
fn star_of_64(alloc: Global) -> Result<Net, Fail> {
    let mut edges = Vec::new(alloc);
    for leaf in 1..64i64 {
        edges.push((0i64, leaf))?;
    }
    Ok(Net::make(alloc, 64, 0, 4096, 0, &edges)?)
}

/// The frame of a node at distance 1 whose parent is 0.
const FIRST: Frame = Frame {
    seq: 0,
    ack: 0,
    payload: Payload {
        distance: 1,
        parent: Some(0),
        ring: 12,
    },
};

/// The frame of a node at distance 0 that has no parent.
const SECOND: Frame = Frame {
    seq: 4,
    ack: 3,
    payload: Payload {
        distance: 0,
        parent: None,
        ring: 0,
    },
};

/// Whether this is the line of a frame, without its newline.
fn is_line_of(frame: &Frame, line: &[u8]) -> bool {
    match encode(frame).split_last() {
        Some((end, front)) => *end == b'\n' && front == line,
        None => false,
    }
}

/// Whether a line is read as this frame and the frame is written as this line, or the line is read
/// as no frame.
fn is_read_as(net: &Net, line: &[u8], want: Option<Frame>) -> bool {
    match want {
        Some(frame) => decode(line, net) == want && is_line_of(&frame, line),
        None => decode(line, net).is_none(),
    }
}

/// The place of the first line for which that is wrong.
fn first_unlike(
    net: Result<Net, Fail>,
    rows: &[(&[u8], Option<Frame>)],
) -> Result<Option<usize>, Fail> {
    let net = net?;
    for (at, (line, want)) in rows.iter().enumerate() {
        if !is_read_as(&net, line, *want) {
            return Ok(Some(at));
        }
    }
    Ok(None)
}

/// Lines of three nodes.
const LINES: [(&[u8], Option<Frame>); 2] = [
    (b"F0000000000010000000c", Some(FIRST)),
    (b"F000400030000ffff0000", Some(SECOND)),
];

#[test]
fn lines_of_three_nodes(rt: HostRuntime) -> Result<(), Fail> {
    as_expected(first_unlike(line_of_three(rt.alloc()), &LINES), &None)
}

/// Invalid lines for three nodes.
const NOISE: [(&[u8], Option<Frame>); 10] = [
    (b"F0000000000010000000d", None),
    (b"F0000000000010000000C", None),
    (b"F00050000000100000000", None),
    (b"F00000000000400000000", None),
    (b"F00000000000000030000", None),
    (b"f0000000000010000000c", None),
    (b"F0000000000010000000c\r", None),
    (b"F0000000000010000000", None),
    (b"F0000000000010000000c0", None),
    (b"", None),
];

#[test]
fn lines_that_are_noise(rt: HostRuntime) -> Result<(), Fail> {
    as_expected(first_unlike(line_of_three(rt.alloc()), &NOISE), &None)
}

/// A frame of the star with each field at its greatest.
const GREATEST: Frame = Frame {
    seq: 8194,
    ack: 8194,
    payload: Payload {
        distance: 64,
        parent: Some(63),
        ring: 378,
    },
};

/// Its line, and a line with a greater number.
const GREATEST_LINES: [(&[u8], Option<Frame>); 2] = [
    (b"F200220020040003f017a", Some(GREATEST)),
    (b"F200320020040003f017a", None),
];

#[test]
fn each_field_at_its_greatest(rt: HostRuntime) -> Result<(), Fail> {
    as_expected(first_unlike(star_of_64(rt.alloc()), &GREATEST_LINES), &None)
}

/// Whether this is the hello of a node, without its newline.
fn is_hello_of(id: u16, line: &[u8]) -> bool {
    match encode_hello(id).split_last() {
        Some((end, front)) => *end == b'\n' && front == line,
        None => false,
    }
}

/// Whether a line is read as the hello of this node and its hello is written as this line, or the
/// line is read as no hello.
fn is_hello_as(net: &Net, line: &[u8], want: Option<u16>) -> bool {
    match want {
        Some(id) => decode_hello(line, net) == want && is_hello_of(id, line),
        None => decode_hello(line, net).is_none(),
    }
}

/// Lines, and the nodes whose hellos they are.
const HELLOS: [(&[u8], Option<u16>); 5] = [
    (b"H0002", Some(2)),
    (b"H0003", None),
    (b"H002", None),
    (b"h0002", None),
    (b"", None),
];

/// The place of the first line for which that is wrong among three nodes.
fn first_unlike_hello(alloc: Global, rows: &[(&[u8], Option<u16>)]) -> Result<Option<usize>, Fail> {
    let net = line_of_three(alloc)?;
    for (at, (line, want)) in rows.iter().enumerate() {
        if !is_hello_as(&net, line, *want) {
            return Ok(Some(at));
        }
    }
    Ok(None)
}

#[test]
fn hellos(rt: HostRuntime) -> Result<(), Fail> {
    as_expected(first_unlike_hello(rt.alloc(), &HELLOS), &None)
}

/// A line of junk that runs into a good line, and then a good line.
const STREAM: &[u8] = b"xyzF0000000000010000000c\nF0000000000010000000c\n";

/// Feeds a reader. Rows need nothing of the contract of this call; called from here, it does not
/// burden the prover.
fn feed<A: Allocator>(
    reader: &mut LineReader,
    piece: &[u8],
    net: &Net,
    frames: &mut Vec<Frame, A>,
) -> Result<(), AllocError> {
    reader.feed(piece, net, frames)
}

/// Whether this is the first frame alone.
fn is_first_alone(frames: &[Frame]) -> bool {
    frames == [FIRST].as_slice()
}

/// Feeds two pieces to a new reader; the half line that the first piece leaves may be dropped.
fn read_pieces(
    net: &Net,
    front: &[u8],
    back: &[u8],
    drops: bool,
    frames: &mut Vec<Frame>,
) -> Result<(), AllocError> {
    let mut reader = LineReader::new();
    feed(&mut reader, front, net, frames)?;
    if drops {
        reader.drop_half();
    }
    feed(&mut reader, back, net, frames)
}

/// Whether that gives just the first frame.
fn gives_the_first(
    alloc: Global,
    net: &Net,
    front: &[u8],
    back: &[u8],
    drops: bool,
) -> Result<bool, AllocError> {
    let mut frames = Vec::new(alloc);
    read_pieces(net, front, back, drops, &mut frames)?;
    Ok(is_first_alone(&frames))
}

/// Whether the stream gives one frame, cut at a place.
fn is_read_cut(alloc: Global, net: &Net, cut: usize) -> Result<bool, AllocError> {
    let (front, back) = STREAM.split_at(cut.min(STREAM.len()));
    gives_the_first(alloc, net, front, back, false)
}

/// The first cut of the stream after which it does not give one frame.
fn first_wrong_cut(alloc: Global) -> Result<Option<usize>, Fail> {
    let net = line_of_three(alloc)?;
    for cut in 0..=STREAM.len() {
        if !is_read_cut(alloc, &net, cut)? {
            return Ok(Some(cut));
        }
    }
    Ok(None)
}

#[test]
fn every_cut_gives_the_same_frame(rt: HostRuntime) -> Result<(), Fail> {
    as_expected(first_wrong_cut(rt.alloc()), &None)
}

/// The first byte of the stream that ends a frame and is not the last byte, or the last byte if it
/// ends none.
fn first_wrong_byte(alloc: Global) -> Result<Option<usize>, Fail> {
    let net = line_of_three(alloc)?;
    let mut reader = LineReader::new();
    for (at, byte) in STREAM.iter().enumerate() {
        if reader.push(*byte, &net).is_some() != (at == 46) {
            return Ok(Some(at));
        }
    }
    Ok(None)
}

#[test]
fn bytes_one_by_one(rt: HostRuntime) -> Result<(), Fail> {
    as_expected(first_wrong_byte(rt.alloc()), &None)
}

/// Half a line.
const HALF: &[u8] = b"F000000000";

/// The rest of that line, and a good line.
const AFTER_HALF: &[u8] = b"0010000000c\nF0000000000010000000c\n";

/// Whether a dropped half line, what ends it and a good line give one frame among three nodes.
fn half_spoils_nothing(alloc: Global) -> Result<bool, Fail> {
    let net = line_of_three(alloc)?;
    Ok(gives_the_first(alloc, &net, HALF, AFTER_HALF, true)?)
}

#[test]
fn a_dropped_half_line_spoils_nothing(rt: HostRuntime) -> Result<(), Fail> {
    as_expected(half_spoils_nothing(rt.alloc()), &true)
}

/// A line and a half.
const LINE_AND_HALF: &[u8] = b"F0000000000010000000c\nF00000000";

/// The end of the half line, and four more lines: more frames than there is room for after one.
const REST: &[u8] = b"00010000000c\nF000400030000ffff0000\nF000400030000ffff0000\n\
    F000400030000ffff0000\nF000400030000ffff0000\n";

/// The frames of both pieces.
const ALL_FRAMES: &[Frame] = &[FIRST, FIRST, SECOND, SECOND, SECOND, SECOND];

/// What a reader with frames on a heap did.
#[derive(Clone, Copy)]
enum Outcome {
    /// The first piece was refused; whether nothing was read of it.
    FirstRefused(bool),
    /// The second piece was refused; whether nothing was read of it: the half line before it is
    /// still there.
    SecondRefused(bool),
    /// Both were read; whether they were read right.
    Read(bool),
}

/// What ends the half line.
const END: &[u8] = b"00010000000c\n";

/// Whether a half line that a reader holds is still there: its end completes the first frame.
fn goes_on(alloc: Global, reader: &mut LineReader, net: &Net) -> Result<bool, AllocError> {
    let mut ample = Vec::new(alloc);
    feed(reader, END, net, &mut ample)?;
    Ok(is_first_alone(&ample))
}

/// Feeds a line and a half to a new reader, and then `REST`.
fn read_into<A: Allocator>(
    alloc: Global,
    net: &Net,
    frames: &mut Vec<Frame, A>,
) -> Result<Outcome, AllocError> {
    let mut reader = LineReader::new();
    if feed(&mut reader, LINE_AND_HALF, net, frames).is_err() {
        return Ok(Outcome::FirstRefused(frames.is_empty()));
    }
    if feed(&mut reader, REST, net, frames).is_err() {
        let is_first = is_first_alone(frames);
        return Ok(Outcome::SecondRefused(goes_on(alloc, &mut reader, net)? && is_first));
    }
    Ok(Outcome::Read(frames.as_slice() == ALL_FRAMES))
}

/// The same with frames on a heap.
fn read_over(alloc: Global, heap: &LocalHeap, net: &Net) -> Result<Outcome, AllocError> {
    let mut frames = Vec::new(heap);
    read_into(alloc, net, &mut frames)
}

/// The same with frames on a heap of this size in bytes.
fn read_within(alloc: Global, bytes: usize, net: &Net) -> Result<Outcome, AllocError> {
    let heap = LocalHeap::new(alloc, bytes)?;
    read_over(alloc, &heap, net)
}

/// How many heaps, each 16 bytes larger than the one before, refuse the second piece until one has
/// room for both; none if one of them reads wrongly, or all refuse.
fn refusals(alloc: Global) -> Result<Option<u32>, Fail> {
    let net = line_of_three(alloc)?;
    let mut refused = 0u32;
    for units in 1..100usize {
        match read_within(alloc, units * 16, &net)? {
            Outcome::FirstRefused(true) => {}
            Outcome::SecondRefused(true) => refused = refused.wrapping_add(1),
            Outcome::Read(true) => return Ok(Some(refused)),
            _ => return Ok(None),
        }
    }
    Ok(None)
}

#[test]
fn a_refused_growth_reads_nothing(rt: HostRuntime) -> Result<(), Fail> {
    let refused = refusals(rt.alloc())?;
    is_expected(&(refused.unwrap_or(0) > 0), &true)
}
