//! State files with one byte changed.
use super::calls::{File, NEWER, reread, two};
use node_state_file::FileFault;
use std::alloc::Global;
use std::test::Fail;
use test_parts::is_expected;
use topology::{Net, NetFault};

/// How many files are read as a state whose file ends with the same 24 bytes: all except the network,
/// the node and its neighbours. Then how many have the faults `Magic`, `Shape` and `Range`, and how
/// many have any other answer.
type Tally = [u32; 5];

/// Whether both files end with the same 24 bytes.
fn ends_so(again: &[u8], file: &[u8]) -> bool {
    again.len() == 36 && file.len() >= 24 && again.ends_with(&file[file.len() - 24..])
}

/// The place in a tally of how node 1 reads a file.
fn place_of(alloc: Global, net: &Net, file: &[u8]) -> usize {
    match reread(alloc, file, net, 1) {
        Ok(again) => { if ends_so(&again, file) { 0 } else { 4 } }
        Err(FileFault::Magic) => 1,
        Err(FileFault::Shape) => 2,
        Err(FileFault::Range) => 3,
        Err(_) => 4,
    }
}

/// That file with this change of the byte at this place.
fn with_change(good: &[u8], at: usize, change: u8) -> File {
    let mut file = File::new();
    let _all = file.try_extend_from_slice(good);
    if let Some(byte) = file.get_mut(at) {
        *byte ^= change;
    }
    file
}

/// How all files that differ in one byte from a file of node 1 of two are read.
fn tally_of(alloc: Global, net: &Net, good: &[u8]) -> Tally {
    let mut tally = [0u32; 5];
    for at in 0..good.len() {
        for change in 1..=255u8 {
            let place = place_of(alloc, net, &with_change(good, at, change));
            if let Some(count) = tally.get_mut(place) {
                *count = count.saturating_add(1);
            }
        }
    }
    tally
}

/// The default state of node 1 of two nodes, in the older layout.
const OLDER: &[u8; 34] =
    b"TKT1\0\x02\0\x01\0\x01\0\x02\xff\xff\0\0\0\0\0\0\0\x02\xff\xff\0\0\0\x02\xff\xff\0\0\0\0";

/// The tallies of the present layout and of the older one.
fn tallies(alloc: Global) -> Result<[Tally; 2], NetFault> {
    let net = two(alloc)?;
    Ok([tally_of(alloc, &net, NEWER), tally_of(alloc, &net, OLDER)])
}

/// Of the 255 changes of a byte these can be read: of the distances (now 2) two each, of the
/// numbers (below 5) four each, of the three ring values (below 7) six each; no parent differs in
/// just one byte from none.
const READ: u32 = 3 * 2 + 2 * 4 + 3 * 6;

/// Nodes, id, capacity, degree and neighbour have two bytes each; the older layout lacks the
/// capacity. The first word may become the other one: then the numbers are at other places, and the
/// neighbour or the degree is invalid. In eleven fields of two bytes each, what cannot be read is out
/// of range.
const TALLIES: [Tally; 2] = [
    [READ, 4 * 255 - 1, 5 * 510 + 1, 11 * 510 - READ, 0],
    [READ, 4 * 255 - 1, 4 * 510 + 1, 11 * 510 - READ, 0],
];

#[test]
fn one_byte_has_changed(rt: HostRuntime) -> Result<(), Fail> {
    is_expected(&tallies(rt.alloc())?, &TALLIES)
}
