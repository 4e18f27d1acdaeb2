//! Writes entries.
ghost use Rattle.std.specs.Prelude.{◌≡◌, ◌+◌, ◌*◌, ◌≤◌, ◌++◌, length, vec_len, vec_capacity};
ghost use Rattle.leb128.specs.Spelling.{in_a_row};
ghost use Rattle.flight_records.specs.Numbers.{fields};
ghost use Rattle.flight_records.specs.Spelling.{check, spelling};

use crate::entry::{Deed, Entry, Noted};
use crate::fields::frame_fields;
use leb128::push_number;
use std::alloc::Allocator;

/// Writes an entry at the end of `out`, which must have room for 121 bytes, the most that an entry
/// takes. `last` is the instant of the entry before it, and 0 at the start of a record.
#[tactic(auto, unfolding(crate::specs::Spelling::spelling))]
pub fn write_entry<A: Allocator>(last: u64, entry: &Entry, out: &mut Vec<u8, A>)
    requires later { last ≤ entry.now.instant }
    requires room { vec_len out.old + 121 ≤ vec_capacity out.old }
    ensures items { out.new.items ≡ out.old.items ++ spelling last entry.now }
    ensures most { vec_len out.new ≤ vec_len out.old + 121 }
    ensures room { vec_capacity out.new ≡ vec_capacity out.old }
{
    let start = out.len();
    push_number(out, entry.noted.kind());
    push_number(out, entry.instant - last);
    push_fields(&entry.noted, out);
    let check = check(&out[start..]);
    out.push_reserved(check);
}

/// Writes the fields of what is noted at the end of `out`, which must have room for 100 bytes. Most
/// entries of a record are frames, in their long or short form: their fields are written without
/// making a list of them.
fn push_fields<A: Allocator>(noted: &Noted, out: &mut Vec<u8, A>)
    requires { vec_len out.old + 100 ≤ vec_capacity out.old }
    ensures items { out.new.items ≡ out.old.items ++ in_a_row (fields noted.now) }
    ensures most { vec_len out.new ≤ vec_len out.old + 100 }
    ensures room { vec_capacity out.new ≡ vec_capacity out.old }
{
    match *noted {
        Noted::Deed(Deed::Takes { from, frame }) => push_numbers(&frame_fields(from, &frame), out),
        Noted::Deed(Deed::Sends { to, frame }) => push_numbers(&frame_fields(to, &frame), out),
        Noted::Deed(Deed::TakesAgain { from }) => push_number(out, u64::from(from)),
        Noted::Deed(Deed::SendsAgain { to }) => push_number(out, u64::from(to)),
        _ => push_numbers(&noted.fields(), out),
    }
}

/// Writes numbers at the end of `out`, which must have room for ten bytes a number.
fn push_numbers<A: Allocator>(numbers: &[u64], out: &mut Vec<u8, A>)
    requires { vec_len out.old + 10 * length numbers.now ≤ vec_capacity out.old }
    ensures items { out.new.items ≡ out.old.items ++ in_a_row numbers.now }
    ensures most { vec_len out.new ≤ vec_len out.old + 10 * length numbers.now }
    ensures room { vec_capacity out.new ≡ vec_capacity out.old }
{
    for number in numbers {
        push_number(out, *number);
    }
}

/// The check of some bytes.
pub(crate) fn check(bytes: &[u8]) -> u8
    ensures { result ≡ check bytes.now }
{
    let mut total: u8 = 0;
    for byte in bytes {
        total = total.wrapping_add(*byte);
    }
    255 - total
}
