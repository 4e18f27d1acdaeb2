//! The pages with which a record begins.
ghost use Rattle.std.specs.Prelude.{◌≡◌, ◌≤◌, IfOk};
ghost use Rattle.record_files.specs.Files.{file_bytes, side_to_begin};
ghost use Rattle.record_files.specs.Files.{AreFirstPages, ArePagesAfter};

use crate::instants::micros_of;
use crate::names::RecordNames;
use node_recorder::{LEAST_SIZE, Recorder, Side};
use process_parts::RecordSize;
use std::alloc::{AllocError, Global};
use std::fs;
use std::rt::Files;

/// The most bytes of a file that a start goes on with: 16 MiB. Longer ones take too long to read.
const MOST_READ: u64 = 16_777_216;

/// The pages with which the record of node `id` begins, in two files of these names, of at most
/// `size` each, or 65536 bytes if that is more. `network` is the number of its network, as
/// `network_mark` gives it. The record goes on in the file that was written last, if that is a
/// plain file of at most 16 MiB, begins as a record of this node in this network, and has room for
/// one more page of 32768 bytes. Else it begins the other file, in place of what is there. All
/// memory of the pages is reserved here; no file is made or changed yet.
///
/// # Errors
/// If memory for the pages runs out. A file that cannot be read, even if only for want of memory, counts as
/// one that is not there.
pub fn first_pages<R: Files + AllocGlobal>(
    rt: &R,
    names: &RecordNames,
    size: RecordSize,
    network: u32,
    id: u16,
) -> Result<Recorder, AllocError>
    ensures { IfOk result (AreFirstPages (file_bytes size)) }
{
    let earlier = side_to_begin(
        written_at(rt, names.of(Side::First)),
        written_at(rt, names.of(Side::Second)),
    );
    let (alloc, size) = (rt.alloc(), file_bytes(size));
    match read_file(rt, names.of(earlier.other())) {
        Some(last) => pages_after(alloc, size, earlier, last.as_slice(), network, id),
        None => Recorder::new(alloc, size, earlier),
    }
}

/// The pages with which a record begins, in files of at most `size` bytes: after the whole entries of the
/// file that was written last, if it begins as a record of this node and has room; else at the start of the
/// other one.
fn pages_after(
    alloc: Global,
    size: u64,
    earlier: Side,
    last: &[u8],
    network: u32,
    id: u16,
) -> Result<Recorder, AllocError>
    requires { 65536 ≤ size }
    ensures { IfOk result (ArePagesAfter size earlier network id last.now) }
{
    match Recorder::resumed(alloc, size, earlier.other(), last, network, id)? {
        Some(pages) => Ok(pages),
        None => Recorder::new(alloc, size, earlier),
    }
}

/// The bytes of a plain file of at most 16 MiB; none if there is no such file or it cannot be read.
fn read_file<R: Files + AllocGlobal>(rt: &R, path: &str) -> Option<Vec<u8>> {
    let found = fs::symlink_metadata(rt, path).ok()?;
    if !found.is_file() || found.len() > MOST_READ {
        return None;
    }
    fs::read(rt, path).ok()
}

/// The most bytes of a file.
fn file_bytes(size: RecordSize) -> u64
    ensures bytes { result ≡ file_bytes size }
    ensures least { 65536 ≤ result }
{
    size.bytes.max(LEAST_SIZE)
}

/// The file with which a record begins, by when each file that is there was written: the one that
/// was written earlier, or one that is not there.
fn side_to_begin(first: Option<u64>, second: Option<u64>) -> Side
    ensures { result ≡ side_to_begin first second }
{
    match (first, second) {
        (Some(first), Some(second)) if first > second => Side::Second,
        (Some(_), None) => Side::Second,
        _ => Side::First,
    }
}

/// When a file was written last, in microseconds since the start of 1970, UTC; none if it is not
/// there, or if its time is not known or out of range.
fn written_at<F: Files>(files: &F, name: &str) -> Option<u64> {
    let written = fs::symlink_metadata(files, name).ok()?.modified().ok()?;
    micros_of(written)
}
