//! The store over a real file, with states of any length.
use node_state_file::{FileStore, LOADED_BYTES, MOST_BYTES, Store, StoreFault};
use std::fs;
use std::rt::Files;
use std::test::Fail;
use test_parts::as_expected;

/// What a load answers: the number of bytes, and the last of them.
fn loaded<F: Files>(files: &F, path: &str) -> Result<(usize, Option<u8>), StoreFault> {
    let mut buffer = [0; LOADED_BYTES];
    let count = FileStore::new(files, path).load(&mut buffer)?;
    Ok((count, buffer[..count.min(LOADED_BYTES)].last().copied()))
}

/// Saves these bytes. Returns whether they are loaded again, and are all that the file has.
fn goes_in_place<R: Files + AllocGlobal>(rt: &R, path: &str, bytes: &[u8]) -> Result<bool, Fail> {
    let is_saved = FileStore::new(rt, path).save(bytes) == Ok(());
    let is_loaded = loaded(rt, path) == Ok((bytes.len(), bytes.last().copied()));
    let is_whole = fs::read(rt, path)?.as_slice() == bytes;
    Ok(is_saved && is_loaded && is_whole)
}

/// The states to save, one after the other: the longest, and shorter ones than any node has.
const STATES: [&[u8]; 4] = [&[1; MOST_BYTES], &[2; 16], b"", &[3; 36]];

/// The place of the first of these states that is not saved in place. Removes the file.
fn first_not_in_place<R: Files + AllocGlobal>(rt: &R, path: &str) -> Result<Option<usize>, Fail> {
    for (at, bytes) in STATES.iter().enumerate() {
        if !goes_in_place(rt, path, *bytes)? {
            return Ok(Some(at));
        }
    }
    fs::remove_file(rt, path)?;
    Ok(None)
}

#[test]
fn a_file_is_written_in_place(rt: HostRuntime) -> Result<(), Fail> {
    as_expected(first_not_in_place(&rt, "node.state"), &None)
}
