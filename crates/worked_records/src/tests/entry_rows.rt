//! Entries as bytes.
use flight_records::{Deed, Entry, EntryReader, Noted, StatePart, Unread, write_entry};
use std::alloc::Global;
use std::test::Fail;
use test_parts::as_expected;
use topology::{Frame, Payload};

/// What a node without a parent says.
const ALONE: Payload = Payload {
    distance: 300,
    parent: None,
    ring: 0,
};

/// What a node with the parent 0 says.
const CHILD: Payload = Payload {
    distance: 1,
    parent: Some(0),
    ring: 12,
};

/// A frame with that payload.
const FRAME: Frame = Frame {
    seq: 5,
    ack: 130,
    payload: CHILD,
};

/// A record: the instant of each entry, what it notes, and its bytes.
pub const RECORD: [(u64, Noted, &[u8]); 7] = [
    // 2000 is 15 * 128 + 80; the sum is 1 + 208 + 15 + 255 + 255 + 3 + 1 = 738, and 738 is 226 more
    // than 512
    (
        2000,
        Noted::State(StatePart::Start {
            network: 65535,
            node: 1,
        }),
        &[1, 208, 15, 255, 255, 3, 1, 29],
    ),
    // the neighbour, 4 and 3; 300 is 2 * 128 + 44, no parent, 0; 1, the parent 0, 12; and 7
    (
        2000,
        Noted::State(StatePart::Port {
            neighbour: 0,
            seq: 4,
            last: 3,
            staged: ALONE,
            copy: CHILD,
            value: 7,
        }),
        &[3, 0, 0, 4, 3, 172, 2, 0, 0, 1, 1, 12, 7, 50],
    ),
    (
        2000,
        Noted::Deed(Deed::Takes {
            from: 2,
            frame: FRAME,
        }),
        &[8, 0, 2, 5, 130, 1, 1, 1, 12, 95],
    ),
    // two milliseconds later
    (4000, Noted::Deed(Deed::Ticks), &[7, 208, 15, 25]),
    (
        4040,
        Noted::Deed(Deed::SendsAgain { to: 3 }),
        &[11, 40, 3, 201],
    ),
    // 40000 is 2 * 16384 + 56 * 128 + 64
    (
        4040,
        Noted::Deed(Deed::Asks { ticket: 40000 }),
        &[12, 0, 192, 184, 2, 121],
    ),
    (
        4041,
        Noted::Deed(Deed::Disconnects { neighbour: 2 }),
        &[17, 1, 2, 235],
    ),
];

/// The bytes of the record, one entry after the other.
pub fn written(alloc: Global) -> Result<Vec<u8>, Fail> {
    let mut bytes = Vec::with_capacity(alloc, 1000)?;
    let mut last = 0;
    for (instant, noted, _) in &RECORD {
        let entry = Entry {
            instant: *instant,
            noted: *noted,
        };
        if entry.instant >= last && bytes.len() + 121 <= bytes.capacity() {
            write_entry(last, &entry, &mut bytes);
        }
        last = entry.instant;
    }
    Ok(bytes)
}

/// The place of the first entry with other bytes.
fn first_unlike(alloc: Global) -> Result<Option<usize>, Fail> {
    let bytes = written(alloc)?;
    let mut rest = bytes.as_slice();
    for (at, (_, _, spelled)) in RECORD.iter().enumerate() {
        match rest.strip_prefix(*spelled) {
            Some(after) => rest = after,
            None => return Ok(Some(at)),
        }
    }
    Ok(if rest.is_empty() { None } else { Some(7) })
}

#[test]
fn entries_as_bytes(rt: HostRuntime) -> Result<(), Fail> {
    as_expected(first_unlike(rt.alloc()), &None)
}

/// How many entries of the record are read right, one after the other, from some bytes; how many
/// bytes are left; and why no more was read.
fn read(bytes: &[u8]) -> (usize, usize, Option<Unread>) {
    let mut reader = EntryReader::new();
    let mut rest = bytes;
    for (at, (instant, noted, _)) in RECORD.iter().enumerate() {
        match reader.next(rest) {
            Ok((found, after)) if found.instant == *instant && found.noted == *noted => {
                rest = after;
            }
            Ok(_) => return (at, rest.len(), None),
            Err(unread) => return (at, rest.len(), Some(unread)),
        }
    }
    (RECORD.len(), rest.len(), reader.next(rest).err())
}

/// Where the bytes of each entry end.
pub const ENDS: [usize; 7] = [8, 22, 32, 36, 40, 46, 50];

/// What is read of the record if it is cut at a place.
fn wanted(cut: usize) -> (usize, usize, Option<Unread>) {
    let whole = ENDS.iter().filter(|end| **end <= cut).count();
    let last_end = ENDS.iter().copied().filter(|end| *end <= cut).max();
    let left = cut.saturating_sub(last_end.unwrap_or(0));
    (whole, left, Some(Unread::Short))
}

/// The first cut after which something else is read.
fn first_other_cut(alloc: Global) -> Result<Option<usize>, Fail> {
    let bytes = written(alloc)?;
    for cut in 0..51 {
        if read(&bytes[..cut.min(bytes.len())]) != wanted(cut) {
            return Ok(Some(cut));
        }
    }
    Ok(None)
}

#[test]
fn cut_at_every_place(rt: HostRuntime) -> Result<(), Fail> {
    as_expected(first_other_cut(rt.alloc()), &None)
}

/// Bytes that begin no entry, and why.
const UNREAD: [(&[u8], Unread); 10] = [
    (&[], Unread::Short),
    // zeros, as in a file whose end was never written: no kind
    (&[0, 0, 0, 0], Unread::Invalid),
    (&[18, 0, 0, 237], Unread::Invalid),
    // a different check
    (&[7, 208, 15, 24], Unread::Invalid),
    // one byte of a tick changed
    (&[7, 209, 15, 25], Unread::Invalid),
    // 1 in two bytes
    (&[11, 0, 129, 0, 115], Unread::Invalid),
    // a ticket of 65536, which is 4 * 128 * 128
    (&[12, 0, 128, 128, 4, 239], Unread::Invalid),
    // a loan whose mark of service is not 0 or 1
    (&[5, 0, 0, 0, 2, 248], Unread::Invalid),
    // the check is missing
    (&[7, 208, 15], Unread::Short),
    (&[7, 208], Unread::Short),
];

/// The place of the first of them that is read differently.
fn first_read() -> Option<usize> {
    UNREAD.iter().position(|(bytes, why)| EntryReader::new().next(bytes).err() != Some(*why))
}

#[test]
fn bytes_that_no_entry_begins_with(_rt: HostRuntime) -> Result<(), Fail> {
    as_expected(Ok(first_read()), &None)
}
