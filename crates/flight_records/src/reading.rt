//! Reads entries.
ghost use Rattle.std.specs.Prelude.{◌≡◌, ◌≤◌, ℕ, length, IfOk};
ghost use Rattle.leb128.specs.Reading.{Gives, number_at, numbers_at};
ghost use Rattle.flight_records.specs.Reading.{count_of, entry_of};
ghost use Rattle.flight_records.specs.Reading.{checked, entry_at, Stands};

use crate::entry::{Entry, Noted};
use crate::writing::check;
use arrayvec::ArrayVec;
use leb128::{Unread, number_at};
use std::marker::Model;

/// The numbers that follow a kind: the microseconds since the entry before, and the fields.
type Following = ArrayVec<u64, 11>;

/// The entry at the front of some bytes, after one of the instant `last`, and the bytes after it.
#[tactic(auto, unfolding(crate::specs::Reading::entry_at))]
fn read_entry(last: u64, bytes: &[u8]) -> Result<(Entry, &[u8]), Unread>
    ensures { Gives (λ x. (x.0, x.1.now)) result (entry_at last bytes.now) }
{
    let (kind, rest) = number_at(bytes)?;
    let count = count_of(kind)?;
    let (numbers, rest) = numbers_at(count, rest)?;
    checked(last, kind, &numbers, bytes, rest)
}

/// How many numbers follow a kind.
#[tactic(auto, unfolding(crate::specs::Reading::count_of))]
fn count_of(kind: u64) -> Result<usize, Unread>
    ensures count { Gives (λ n. n) result (count_of kind) }
    ensures most { IfOk result (λ n. n ≤ 11) }
{
    match kind {
        1 | 2 => Ok(3),
        3 => Ok(11),
        5 => Ok(4),
        6 | 7 => Ok(1),
        8 | 10 => Ok(7),
        4 | 9 | 11..=17 => Ok(2),
        _ => Err(Unread::Invalid),
    }
}

/// This many numbers at the front of some bytes, and the bytes after them.
fn numbers_at(count: usize, bytes: &[u8]) -> Result<(Following, &[u8]), Unread>
    requires { count ≤ 11 }
    ensures read { Gives (λ x. (x.0.items, x.1.now)) result (numbers_at count bytes.now) }
    ensures no_more { IfOk result (λ x. length x.1.now ≤ length bytes.now) }
{
    let mut numbers = Following::new();
    let mut rest = bytes;
    for _ in 0..count {
        let (number, after) = number_at(rest)?;
        numbers.push(number);
        rest = after;
    }
    Ok((numbers, rest))
}

/// The entry whose numbers were read from the front of some bytes, if the check at the front of the
/// rest matches.
#[tactic(auto, unfolding(crate::specs::Reading::checked))]
fn checked<'a>(
    last: u64,
    kind: u64,
    numbers: &[u64],
    bytes: &[u8],
    rest: &'a [u8],
) -> Result<(Entry, &'a [u8]), Unread>
    requires { length rest.now ≤ length bytes.now }
    ensures { Gives (λ x. (x.0, x.1.now)) result
        (checked last kind numbers.now bytes.now rest.now) }
{
    let [found, after @ ..] = rest else {
        return Err(Unread::Short);
    };
    if *found != check(&bytes[..bytes.len() - rest.len()]) {
        return Err(Unread::Invalid);
    }
    Ok((entry_of(last, kind, numbers)?, after))
}

/// The entry that some numbers spell.
#[tactic(auto, unfolding(crate::specs::Reading::entry_of))]
fn entry_of(last: u64, kind: u64, numbers: &[u64]) -> Result<Entry, Unread>
    ensures { Gives (λ e. e) result (entry_of last kind numbers.now) }
{
    let [passed, fields @ ..] = numbers else {
        return Err(Unread::Invalid);
    };
    let Some(noted) = Noted::of(kind, fields) else {
        return Err(Unread::Invalid);
    };
    match last.checked_add(*passed) {
        Some(instant) => Ok(Entry { instant, noted }),
        None => Err(Unread::Invalid),
    }
}

/// Reads the entries of a record, one after the other.
#[derive(Drop)]
pub struct EntryReader {
    /// The instant of the entry that was read last; 0 if none was.
    instant: u64,
}

impl Model for EntryReader {
    ghost Value = { ℕ };

    ghost view = { λ r. r.instant };
}

impl EntryReader {
    /// A reader that stands at the start of a record.
    pub fn new() -> EntryReader
        ensures { result ≡ 0 }
    {
        EntryReader { instant: 0 }
    }

    /// Reads the next entry, which stands at the front of these bytes, and returns it with the
    /// bytes after it.
    ///
    /// # Errors
    /// `Short` if the bytes end within an entry, or there are none; `Invalid` if no entry begins
    /// like this. In both cases the reader stays where it was.
    pub fn next<'a>(&mut self, bytes: &'a [u8]) -> Result<(Entry, &'a [u8]), Unread>
        ensures read { Gives (λ x. (x.0, x.1.now)) result (entry_at self.old bytes.now) }
        ensures stands { Stands (λ x. x.0) result self.old self.new }
    {
        let (entry, rest) = read_entry(self.instant, bytes)?;
        self.instant = entry.instant;
        Ok((entry, rest))
    }
}
