//! Records, read a page at a time: the one of `entry_rows`, cut at every place and given in pieces of
//! some sizes; one that is longer than a page; and one whose source fails once.
use super::entry_rows::{ENDS, RECORD, written};
use byte_streams::{Fused, MemorySource, Source};
use flight_records::{Deed, Entry, Noted, write_entry};
use record_pages::{PageReader, Stop};
use std::alloc::Global;
use std::test::Fail;
use test_parts::as_expected;

/// How many entries of the record of `entry_rows` are read right, one after the other, and why no more
/// is read; no reason if a different entry was read.
fn read<S: Source + Drop>(alloc: Global, source: S) -> Result<(usize, Option<Stop>), Fail> {
    let mut reader = PageReader::new(alloc, source)?;
    for (at, (instant, noted, _)) in RECORD.iter().enumerate() {
        match reader.next() {
            Ok(found) if found.instant == *instant && found.noted == *noted => {}
            Ok(_) => return Ok((at, None)),
            Err(stop) => return Ok((at, Some(stop))),
        }
    }
    Ok((RECORD.len(), reader.next().err()))
}

/// What is read of the record if it is cut at a place.
fn wanted(cut: usize) -> (usize, Option<Stop>) {
    let whole = ENDS.iter().filter(|end| **end <= cut).count();
    let is_at_end = cut == 0 || ENDS.iter().any(|end| *end == cut);
    let stop = if is_at_end { Stop::End } else { Stop::Torn };
    (whole, Some(stop))
}

/// The first place at which a cut record is read differently, if it is given in pieces of this size.
fn first_unlike(alloc: Global, piece: usize) -> Result<Option<usize>, Fail> {
    let bytes = written(alloc)?;
    for cut in 0..bytes.len() + 1 {
        let Some(front) = bytes.get(..cut) else {
            return Ok(Some(cut));
        };
        if read(alloc, MemorySource::new(front, piece))? != wanted(cut) {
            return Ok(Some(cut));
        }
    }
    Ok(None)
}

#[test]
fn one_byte_at_a_time(rt: HostRuntime) -> Result<(), Fail> {
    as_expected(first_unlike(rt.alloc(), 1), &None)
}

#[test]
fn seven_bytes_at_a_time(rt: HostRuntime) -> Result<(), Fail> {
    as_expected(first_unlike(rt.alloc(), 7), &None)
}

#[test]
fn all_at_once(rt: HostRuntime) -> Result<(), Fail> {
    as_expected(first_unlike(rt.alloc(), 65536), &None)
}

/// What is read of the record if this byte is put at a place.
fn with_byte(alloc: Global, place: usize, byte: u8) -> Result<(usize, Option<Stop>), Fail> {
    let mut bytes = written(alloc)?;
    if let Some(changed) = bytes.get_mut(place) {
        *changed = byte;
    }
    read(alloc, MemorySource::new(&bytes, 7))
}

// the first byte of the fourth entry, the tick: no entry is of kind 0
#[test]
fn a_kind_that_is_none(rt: HostRuntime) -> Result<(), Fail> {
    as_expected(with_byte(rt.alloc(), 32, 0), &(3, Some(Stop::Invalid)))
}

// the check of the fifth entry
#[test]
fn another_check(rt: HostRuntime) -> Result<(), Fail> {
    as_expected(with_byte(rt.alloc(), 39, 200), &(4, Some(Stop::Invalid)))
}

/// How many ticks are written, each a microsecond after the one before it: 3 bytes each, so 15,000
/// bytes, in four pages.
const TICKS: u64 = 5000;

/// How many of these ticks are read right, and how the record ends.
fn ticks(alloc: Global, piece: usize) -> Result<(u64, Option<Stop>), Fail> {
    let mut bytes = Vec::with_capacity(alloc, 20000)?;
    for instant in 0..TICKS {
        let tick = Entry {
            instant,
            noted: Noted::Deed(Deed::Ticks),
        };
        if bytes.len() + 121 <= bytes.capacity() {
            write_entry(instant.saturating_sub(1), &tick, &mut bytes);
        }
    }
    let mut reader = PageReader::new(alloc, MemorySource::new(&bytes, piece))?;
    for instant in 0..TICKS {
        match reader.next() {
            Ok(found) if found.instant == instant && found.noted == Noted::Deed(Deed::Ticks) => {}
            Ok(_) => return Ok((instant, None)),
            Err(stop) => return Ok((instant, Some(stop))),
        }
    }
    Ok((TICKS, reader.next().err()))
}

#[test]
fn more_than_a_page(rt: HostRuntime) -> Result<(), Fail> {
    as_expected(ticks(rt.alloc(), 65536), &(5000, Some(Stop::End)))
}

#[test]
fn more_than_a_page_in_pieces(rt: HostRuntime) -> Result<(), Fail> {
    as_expected(ticks(rt.alloc(), 1000), &(5000, Some(Stop::End)))
}

/// The answers about the record if its source fails at a read: how many entries were read before that,
/// how often a read failed, and how many entries are read after it.
fn failing(alloc: Global, calls: u64) -> Result<(usize, usize, usize), Fail> {
    let bytes = written(alloc)?;
    let mut reader = PageReader::new(alloc, Fused::new(MemorySource::new(&bytes, 10), calls))?;
    let mut counts = (0usize, 0usize, 0usize);
    for _ in 0..RECORD.len() + 1 {
        match reader.next() {
            Ok(_) if counts.1 == 0 => counts.0 = counts.0.saturating_add(1),
            Ok(_) => counts.2 = counts.2.saturating_add(1),
            Err(Stop::Failed) => counts.1 = counts.1.saturating_add(1),
            Err(_) => break,
        }
    }
    Ok(counts)
}

// It reads until 121 bytes are at hand or the source has ended, here at once: 50 bytes in five reads,
// and a sixth that gives none. The first of them fails, or the third; the seventh is asked for the
// second entry.
#[test]
fn the_first_read_fails(rt: HostRuntime) -> Result<(), Fail> {
    as_expected(failing(rt.alloc(), 0), &(0, 1, 7))
}

#[test]
fn the_third_read_fails(rt: HostRuntime) -> Result<(), Fail> {
    as_expected(failing(rt.alloc(), 2), &(0, 1, 7))
}

#[test]
fn the_seventh_read_fails(rt: HostRuntime) -> Result<(), Fail> {
    as_expected(failing(rt.alloc(), 6), &(1, 1, 6))
}
