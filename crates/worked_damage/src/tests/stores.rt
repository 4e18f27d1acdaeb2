//! Stores without room, and stores that fail once.
use super::calls::{File, NEWER, started, two};
use node_state_file::{FusedStore, MemoryStore, StartFault, Store, StoreFault};
use std::alloc::{AllocError, Global};
use std::test::Fail;
use test_parts::as_expected;
use topology::Net;

/// The file of a state that is not the default one.
const OTHER: &[u8; 36] = b"TKT2\0\x02\0\x01\0\x01\0\x01\0\x01\0\0\
    \0\0\0\x04\0\x03\0\x01\0\0\0\x06\0\0\xff\xff\0\x05\0\x04";

/// The fault of a node's start from a store, and the store's answers to two saves of the state that
/// the node started with.
type Answers = (Option<StartFault>, [Result<(), StoreFault>; 2]);

/// Starts node 1 from a store, and saves its state twice. Returns the file of that state, too.
fn answers_of<S: Store>(
    alloc: Global,
    store: &mut S,
    net: &Net,
) -> Result<(File, Answers), AllocError> {
    let (file, fault) = started(alloc, store, net, 1)?;
    let saves = [store.save(&file), store.save(&file)];
    Ok((file, (fault, saves)))
}

/// Whether node 1 starts from a store without room with the default state, and the store's answers.
fn without_room(alloc: Global) -> Result<(bool, Answers), Fail> {
    let net = two(alloc)?;
    let mut empty = MemoryStore::new(alloc, 0)?;
    let (file, answers) = answers_of(alloc, &mut empty, &net)?;
    Ok((file.as_slice() == NEWER.as_slice(), answers))
}

#[test]
fn nothing_stands_in_a_store_without_room(rt: HostRuntime) -> Result<(), Fail> {
    let answers = (Some(StartFault::Absent), [Err(StoreFault::Device); 2]);
    as_expected(without_room(rt.alloc()), &(true, answers))
}

/// The answers of a store with the other state in which the call after this many fails, whether it
/// failed, and what the store holds in the end.
type Failing = (u64, Answers, bool, &'static [u8]);

/// How a save fails.
const FAILS: Result<(), StoreFault> = Err(StoreFault::Device);

const FAILING: [Failing; 4] = [
    (0, (Some(StartFault::Device), [Ok(()), Ok(())]), true, NEWER),
    (1, (None, [FAILS, Ok(())]), true, OTHER),
    (2, (None, [Ok(()), FAILS]), true, OTHER),
    (3, (None, [Ok(()), Ok(())]), false, OTHER),
];

/// A store with the other state.
fn store_of_other(alloc: Global) -> Result<MemoryStore, Fail> {
    let mut store = MemoryStore::new(alloc, 36)?;
    store.save(OTHER)?;
    Ok(store)
}

/// Whether such a store behaves like this row.
fn fails_so(alloc: Global, net: &Net, row: &Failing) -> Result<bool, Fail> {
    let (calls, want, fails, held) = row;
    let mut store = FusedStore::new(store_of_other(alloc)?, *calls);
    let (_file, answers) = answers_of(alloc, &mut store, net)?;
    Ok(answers == *want && store.has_failed() == *fails && store.inner().stored() == Some(*held))
}

/// The place of the first row that is wrong.
fn first_other_failure(alloc: Global) -> Result<Option<usize>, Fail> {
    let net = two(alloc)?;
    for (at, row) in FAILING.iter().enumerate() {
        if !fails_so(alloc, &net, row)? {
            return Ok(Some(at));
        }
    }
    Ok(None)
}

#[test]
fn each_call_of_a_store_fails_once(rt: HostRuntime) -> Result<(), Fail> {
    as_expected(first_other_failure(rt.alloc()), &None)
}
