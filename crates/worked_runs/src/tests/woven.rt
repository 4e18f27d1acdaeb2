//! Journals that are woven into the caller's room.
ghost use Rattle.std.specs.Prelude.{◌≡◌, ◌≤◌, ℕ, [], IfOk, vec_capacity};
ghost use Rattle.weaving.specs.Journals.{entries_in, entry_count, journal_of};
ghost use Rattle.weaving.specs.Woven.{AreRising};

use linked_list_allocator::LocalHeap;
use run_model::Event;
use std::alloc::{AllocError, Allocator, Global};
use std::test::Fail;
use test_parts::{as_expected, fill, on_heap};
use weaving::{Journal, JournalEntry, weave};

const SEND: Event = Event::Send { from: 0, to: 1 };

const TAKE: Event = Event::Take { from: 0, to: 1 };

/// An entry.
fn entry(stamp: u64, event: Event) -> JournalEntry
    ensures { result.stamp ≡ stamp }
{
    JournalEntry { stamp, event }
}

/// The journals of two nodes side by side: node 0 ticks, sends and ticks, and node 1 ticks, takes
/// what was sent, and ticks.
fn journals<A: Allocator + Copy>(alloc: A) -> Result<[Journal<A>; 2], AllocError>
    ensures rising { IfOk result (λ journals.
        (v : ℕ) → AreRising (journal_of (entries_in journals) v)) }
    ensures count { IfOk result (λ journals. entry_count (entries_in journals) ≡ 6) }
{
    let [first, second] = [Event::Tick { node: 0 }, Event::Tick { node: 1 }];
    Ok([
        Journal {
            entries: vec![in alloc; entry(1, first), entry(2, SEND), entry(5, first)]?,
        },
        Journal {
            entries: vec![in alloc; entry(1, second), entry(3, TAKE), entry(4, second)]?,
        },
    ])
}

/// The list that is woven from them.
const WOVEN: [Event; 6] = [
    Event::Tick { node: 0 },
    Event::Tick { node: 1 },
    SEND,
    TAKE,
    Event::Tick { node: 1 },
    Event::Tick { node: 0 },
];

/// Whether that list is woven from journals into this room.
fn is_woven<A: Allocator + Copy>(both: &[Journal<A>; 2], events: &mut Vec<Event, A>) -> bool
    requires rising { (v : ℕ) → AreRising (journal_of (entries_in both.now) v) }
    requires empty { events.old.items ≡ [] }
    requires room { entry_count (entries_in both.now) ≤ vec_capacity events.old }
{
    weave(both, events);
    events.as_slice() == WOVEN.as_slice()
}

/// The same while a heap has nothing left, and how much it had left.
fn woven_without_memory<'h>(
    alloc: Global,
    heap: &'h LocalHeap,
    both: &[Journal<&'h LocalHeap>; 2],
    events: &mut Vec<Event, &'h LocalHeap>,
) -> Result<(bool, usize), Fail>
    requires rising { (v : ℕ) → AreRising (journal_of (entries_in both.now) v) }
    requires empty { events.old.items ≡ [] }
    requires room { entry_count (entries_in both.now) ≤ vec_capacity events.old }
{
    let _full = fill(alloc, heap)?;
    Ok((is_woven(both, events), heap.free()))
}

/// The same with the journals and the room on a heap, and how much the heap had left.
fn woven_on_full(alloc: Global, heap: &LocalHeap) -> Result<(bool, usize), Fail> {
    let both = journals(heap)?;
    let mut events = Vec::with_capacity(heap, 6)?;
    woven_without_memory(alloc, heap, &both, &mut events)
}

#[test]
fn weaving_fills_the_room_that_is_there_and_takes_no_memory(rt: HostRuntime) -> Result<(), Fail> {
    as_expected(on_heap(rt.alloc(), 4096, woven_on_full), &((true, 0), 0))
}
