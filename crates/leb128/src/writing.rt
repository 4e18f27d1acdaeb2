//! Writes numbers.
ghost use Rattle.std.specs.Prelude.{◌≡◌, ◌++◌, ◌+◌, ◌≤◌, vec_len, vec_capacity};
ghost use Rattle.leb128.specs.Spelling.{leb128};

use std::alloc::Allocator;

/// Writes a number at the end, into room that is reserved: at most ten bytes.
pub fn push_number<A: Allocator>(out: &mut Vec<u8, A>, number: u64)
    requires { vec_len out.old + 10 ≤ vec_capacity out.old }
    ensures items { out.new.items ≡ out.old.items ++ leb128 number }
    ensures most { vec_len out.new ≤ vec_len out.old + 10 }
    ensures room { vec_capacity out.new ≡ vec_capacity out.old }
{
    let mut rest = number;
    while rest >= 128 {
        out.push_reserved((rest % 128) as u8 + 128);
        rest /= 128;
    }
    out.push_reserved(rest as u8);
}
