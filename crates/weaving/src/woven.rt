//! One list of events from many journals.
ghost use Rattle.std.specs.Prelude.{◌≡◌, ◌+◌, ◌≤◌, ℕ, [], length, map, drop, slice_index, vec_len};
ghost use Rattle.std.specs.Prelude.{vec_capacity};
ghost use Rattle.weaving.specs.Woven.{AreRising, IsWoven};
ghost use Rattle.weaving.specs.Journals.{entries_in, journal_of, unread, entry_count, IsFirst};
ghost use Rattle.weaving.specs.Journals.{earlier, with_next};

use crate::journal::{Journal, JournalEntry};
use run_model::Event;
use std::alloc::Allocator;

/// The most journals that can be woven.
const MOST: usize = 64;

/// The earlier of two entries by stamp; if the stamps are equal, the first.
fn earlier(
    first: Option<(usize, JournalEntry)>,
    node: usize,
    entry: JournalEntry,
) -> Option<(usize, JournalEntry)>
    ensures { result ≡ earlier first node entry }
{
    match first {
        Some((_, best)) if best.stamp <= entry.stamp => first,
        _ => Some((node, entry)),
    }
}

/// The earliest entry, once the next entry of one more node, if any, is seen.
fn with_next<A: Allocator>(
    first: Option<(usize, JournalEntry)>,
    node: usize,
    journal: &Journal<A>,
    read: usize,
) -> Option<(usize, JournalEntry)>
    ensures { result ≡ with_next first node (drop read journal.now.entries.items) }
{
    match journal.entries.get(read) {
        Some(entry) => earlier(first, node, *entry),
        None => first,
    }
}

/// The earliest unread entry, by stamp and then by node, with its node.
fn first_unread<A: Allocator>(
    journals: &[Journal<A>],
    read: &[usize; MOST],
) -> Option<(usize, JournalEntry)>
    requires { length journals.now ≤ 64 }
    ensures { IsFirst (unread (entries_in journals.now) read.now) (length journals.now) result }
{
    let mut first = None;
    for node in 0..journals.len() {
        first = with_next(first, node, &journals[node], read[node]);
    }
    first
}

/// No entry of any journal has been read.
fn nothing_read() -> [usize; MOST]
    ensures len { length result ≡ 64 }
    ensures zero { (i : ℕ) → slice_index result i ≡ 0 }
{
    [0; MOST]
}

/// Weaves journals, each at the place of its node's id: all their entries, by stamp, then by node.
/// There must be at most 64 journals, and the stamps of each must rise strictly. `out` must be
/// empty, with room for all entries. Takes no memory.
pub fn weave<A: Allocator, B: Allocator>(journals: &[Journal<A>], out: &mut Vec<Event, B>)
    requires few { length journals.now ≤ 64 }
    // A journal's own order is that of its stamps.
    requires rising { (v : ℕ) → AreRising (journal_of (entries_in journals.now) v) }
    requires empty { out.old.items ≡ [] }
    requires room { entry_count (entries_in journals.now) ≤ vec_capacity out.old }
    ensures woven { IsWoven (journal_of (entries_in journals.now)) out.new.items }
    ensures room { vec_capacity out.new ≡ vec_capacity out.old }
{
    let mut read = nothing_read();
    while let Some((node, entry)) = first_unread(journals, &read) {
        out.push_reserved(entry.event);
        read[node] += 1;
    }
}
