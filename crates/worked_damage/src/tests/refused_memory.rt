//! Memory that is refused at each growth in turn, and a heap without a free byte.
use super::calls::{NEWER, reread, started, two, written};
use super::heaps::{End, meets_each_refusal};
use damage_tool::{scramble_node, scramble_world};
use linked_list_allocator::LocalHeap;
use node_core::NodeState;
use node_state_file::{FileFault, MemoryStore, Store};
use rand_core::SeedableRng;
use rand_pcg::Lcg64Xsh32;
use std::alloc::{AllocError, Allocator, Global};
use std::test::Fail;
use test_parts::{as_expected, fill};
use topology::Net;
use world::Event;

/// Whether a state was read, and is written as before; false if memory was refused.
fn is_read<A: Allocator + Copy>(alloc: A, net: &Net) -> Result<bool, FileFault> {
    let file = reread(alloc, NEWER, net, 1)?;
    Ok(file.as_slice() == NEWER.as_slice())
}

/// How a state is read on a heap.
fn read_on(heap: &LocalHeap, net: &Net) -> End {
    match is_read(heap, net) {
        Ok(true) => End::Done,
        Err(FileFault::Memory) => End::Refused,
        _ => End::Wrong,
    }
}

/// The same for a node that starts from a store.
fn is_started<A: Allocator + Copy>(alloc: A, net: &Net) -> Result<bool, AllocError> {
    let mut store = MemoryStore::new(alloc, 36)?;
    if store.save(NEWER).is_err() {
        return Ok(false);
    }
    let (file, fault) = started(alloc, &mut store, net, 1)?;
    Ok(file.as_slice() == NEWER.as_slice() && fault.is_none())
}

/// How a node starts on a heap.
fn started_on(heap: &LocalHeap, net: &Net) -> End {
    match is_started(heap, net) {
        Ok(true) => End::Done,
        Ok(false) => End::Wrong,
        Err(AllocError) => End::Refused,
    }
}

/// Whether a state is read on ever larger heaps, and a node starts there.
fn read_in_turn(alloc: Global) -> Result<[bool; 2], Fail> {
    let net = two(alloc)?;
    Ok([
        meets_each_refusal(alloc, 8, |heap| read_on(heap, &net))?,
        meets_each_refusal(alloc, 11, |heap| started_on(heap, &net))?,
    ])
}

#[test]
fn decode_and_start_meet_each_refusal(rt: HostRuntime) -> Result<(), Fail> {
    as_expected(read_in_turn(rt.alloc()), &[true; 2])
}

/// Draws the harms of a world, and returns whether there was memory.
fn draw<A: Allocator>(net: &Net, generator: &mut Lcg64Xsh32, out: &mut Vec<Event, A>) -> bool {
    scramble_world(net, generator, out).is_ok()
}

/// How the harms of a world are drawn on a heap; with ample memory they are these.
fn drawn_on(heap: &LocalHeap, net: &Net, generator: &mut Lcg64Xsh32, ample: &[Event]) -> End {
    let mut out = Vec::new(heap);
    match draw(net, generator, &mut out) {
        true if out.as_slice() == ample => End::Done,
        false if out.is_empty() => End::Refused,
        _ => End::Wrong,
    }
}

/// The harms of a world, drawn with ample memory.
fn harms(alloc: Global, net: &Net) -> Result<Vec<Event>, AllocError> {
    let mut generator = Lcg64Xsh32::seed_from_u64(5);
    let mut events = Vec::new(alloc);
    scramble_world(net, &mut generator, &mut events)?;
    Ok(events)
}

/// Whether the harms of a world of this network are drawn on ever larger heaps.
fn drawn_in_turn(alloc: Global, net: &Net) -> Result<bool, AllocError> {
    let ample = harms(alloc, net)?;
    let mut again = Lcg64Xsh32::seed_from_u64(5);
    meets_each_refusal(alloc, 20, |heap| drawn_on(heap, net, &mut again, &ample))
}

/// The same for three nodes in a line.
fn drawn_of_three(alloc: Global) -> Result<bool, Fail> {
    let net = Net::make(alloc, 3, 0, 1, 0, &[(0, 1), (1, 2)])?;
    Ok(drawn_in_turn(alloc, &net)?)
}

/// If memory is refused, no harms are drawn, or the same as with ample memory.
#[test]
fn harms_meet_each_refusal(rt: HostRuntime) -> Result<(), Fail> {
    as_expected(drawn_of_three(rt.alloc()), &true)
}

/// The default state of node 1 of two nodes, scrambled with the seed 7. Another program computed these
/// bytes, from the definitions of the draws and of the generator.
const OF_SEVEN: &[u8; 36] = b"TKT2\0\x02\0\x01\0\x01\0\x01\0\x02\xff\xff\
    \0\0\0\0\0\x04\0\0\0\0\0\x03\0\x01\xff\xff\0\x01\0\x02";

/// Node 1 of two nodes on a heap that has nothing free. Returns how much is free at the end, and
/// whether its default state and its scrambled one are written right.
fn without_memory(alloc: Global, heap: &LocalHeap, net: &Net) -> Result<(usize, bool, bool), Fail> {
    if net.nodes() != 2 {
        return Err(Fail::new("two nodes are wanted"));
    }
    let mut node = NodeState::new(heap, net, 1)?;
    let _full = fill(alloc, heap)?;
    let is_default = written(&node, net, 1).as_slice() == NEWER.as_slice();
    let mut generator = Lcg64Xsh32::seed_from_u64(7);
    scramble_node(&mut node, net, &mut generator);
    let is_scrambled = written(&node, net, 1).as_slice() == OF_SEVEN.as_slice();
    Ok((heap.free(), is_default, is_scrambled))
}

/// The same on a heap of 4,096 bytes.
fn on_a_heap(alloc: Global) -> Result<(usize, bool, bool), Fail> {
    let net = two(alloc)?;
    let heap = LocalHeap::new(alloc, 4096)?;
    without_memory(alloc, &heap, &net)
}

#[test]
fn a_state_is_written_and_scrambled_without_memory(rt: HostRuntime) -> Result<(), Fail> {
    as_expected(on_a_heap(rt.alloc()), &(0, true, true))
}
