//! All ports of a node in one table; also with memory refused.
use super::least_heap::least_heap;
use linked_list_allocator::LocalHeap;
use registers::{Heard, OutOfRange, Registers};
use std::alloc::{Allocator, Global};
use std::test::Fail;
use test_parts::{as_expected, on_full, on_heap};
use topology::{Frame, Net, NetFault, Payload};

/// Writes both numbers of a neighbour; any other node is refused.
fn write<A: Allocator>(
    registers: &mut Registers<A>,
    port: u16,
    numbers: (u16, u16),
) -> Result<(), OutOfRange> {
    if !registers.is_neighbour(port) {
        return Err(OutOfRange);
    }
    registers.set_counters(port, numbers.0, numbers.1)
}

/// Writes the value of a neighbour's machine; any other node is refused.
fn write_value<A: Allocator>(
    registers: &mut Registers<A>,
    port: u16,
    value: u16,
) -> Result<(), OutOfRange> {
    if !registers.is_neighbour(port) {
        return Err(OutOfRange);
    }
    registers.set_value(port, value)
}

/// Takes a frame, with the frame's own payload as the present one, if all is in range.
fn hear<A: Allocator>(registers: &mut Registers<A>, port: u16, frame: &Frame) -> Option<Heard> {
    let ranges = registers.ranges();
    if registers.is_neighbour(port) && ranges.fits(frame) && ranges.fits_payload(&frame.payload) {
        return Some(registers.hear(port, frame, frame.payload));
    }
    None
}

/// A frame that is news to new registers.
const FRAME: Frame = Frame {
    seq: 4,
    ack: 0,
    payload: Payload {
        distance: 1,
        parent: Some(0),
        ring: 3,
    },
};

/// What that frame does there.
const NEWS: Heard = Heard {
    moved: true,
    accepted: true,
};

/// Writes all that can be written, and returns whether exactly the neighbours 1 and 2 could be.
fn are_written<A: Allocator>(registers: &mut Registers<A>) -> bool {
    let mut written = 0u16;
    for id in 0..registers.ranges().nodes {
        if hear(registers, id, &FRAME) == Some(NEWS)
            && write(registers, id, (1, 2)) == Ok(())
            && write_value(registers, id, 6) == Ok(())
        {
            written |= id;
        }
    }
    written == 3
}

/// The numbers of a port and the value of its machine; none for a node outside the network.
fn numbers(registers: &Registers, id: u16) -> Option<(u16, u16, u16)> {
    if id >= registers.ranges().nodes {
        return None;
    }
    Some((registers.seq(id), registers.last(id), registers.value(id)))
}

/// A square; the neighbours of its root are 1 and 2.
fn square(alloc: Global) -> Result<Net, NetFault> {
    Net::make(alloc, 4, 0, 1, 0, &[(0, 1), (0, 2), (1, 3), (2, 3)])
}

/// The registers of the root of a square.
fn of_a_square<A: Allocator + Copy>(alloc: Global, on: A) -> Result<Registers<A>, Fail> {
    let net = square(alloc)?;
    Ok(Registers::new(on, &net, net.root())?)
}

/// What is done to the registers of a square's root, and what they answer.
#[derive(Clone, Copy)]
enum Deed<'a> {
    /// Both numbers of a port are written.
    Writes(u16, (u16, u16), Result<(), OutOfRange>),
    WritesValue(u16, u16, Result<(), OutOfRange>),
    /// No act: these are the neighbours.
    HasNeighbours(&'a [u16]),
    /// No act: these are the numbers of a port and its machine's value.
    Has(u16, Option<(u16, u16, u16)>),
}

use Deed::{Has, HasNeighbours, Writes, WritesValue};

/// Does this, and returns whether the registers answer like this.
fn answer_so(registers: &mut Registers, deed: &Deed<'_>) -> bool {
    match *deed {
        Writes(port, both, want) => write(registers, port, both) == want,
        WritesValue(port, value, want) => write_value(registers, port, value) == want,
        HasNeighbours(want) => registers.neighbours() == want,
        Has(port, want) => numbers(registers, port) == want,
    }
}

/// The place of the first deed that the registers of a square's root answer differently.
fn first_wrong(alloc: Global, deeds: &[Deed<'_>]) -> Result<Option<usize>, Fail> {
    let mut registers = of_a_square(alloc, alloc)?;
    for (at, deed) in deeds.iter().enumerate() {
        if !answer_so(&mut registers, deed) {
            return Ok(Some(at));
        }
    }
    Ok(None)
}

/// Port 1 is written, up to its greatest values and beyond.
const WRITES: [Deed<'static>; 9] = [
    HasNeighbours(&[1, 2]),
    Writes(1, (4, 3), Ok(())),
    Writes(1, (5, 3), Err(OutOfRange)),
    WritesValue(1, 18, Ok(())),
    WritesValue(1, 19, Err(OutOfRange)),
    Has(1, Some((4, 3, 18))),
    Has(2, Some((0, 0, 0))),
    Has(3, Some((0, 0, 0))),
    Has(4, None),
];

#[test]
fn one_port_alone_is_written(rt: HostRuntime) -> Result<(), Fail> {
    as_expected(first_wrong(rt.alloc(), &WRITES), &None)
}

/// Uses the registers of the root, and returns whether exactly its two neighbours could be
/// written; none if memory is refused.
fn used<A: Allocator + Copy>(alloc: A, net: &Net) -> Option<bool> {
    match Registers::new(alloc, net, net.root()) {
        Ok(mut registers) => Some(are_written(&mut registers)),
        Err(_) => None,
    }
}

/// Whether the smallest heap with room for them has more than three units of 16 bytes, and they are
/// written both there and with enough memory.
fn are_used_on_the_least(alloc: Global) -> Result<bool, Fail> {
    let net = square(alloc)?;
    let (units, is_so) = least_heap(alloc, |heap| Ok(used(heap, &net)))?;
    Ok(is_so && units > 3 && used(alloc, &net) == Some(true))
}

#[test]
fn each_growth_of_new_may_be_refused(rt: HostRuntime) -> Result<(), Fail> {
    as_expected(are_used_on_the_least(rt.alloc()), &true)
}

/// Whether they are written on a heap with nothing left, and how much the heap had left.
fn written_on_full(alloc: Global, heap: &LocalHeap) -> Result<(bool, usize), Fail> {
    let mut registers = of_a_square(alloc, heap)?;
    on_full(alloc, heap, || are_written(&mut registers))
}

#[test]
fn registers_take_no_memory(rt: HostRuntime) -> Result<(), Fail> {
    as_expected(on_heap(rt.alloc(), 4096, written_on_full), &((true, 0), 0))
}
