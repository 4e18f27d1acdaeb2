//! Bytes that were given and are not yet read.
ghost use Rattle.std.specs.Prelude.{◌≡◌, ◌+◌, ◌≤◌, ◌++◌, [], IfOk, drop, length, vec_capacity, vec_len};

use std::alloc::{AllocError, Allocator, Global};
use std::marker::Model;

/// The most bytes that are added at a time.
pub const PAGE: usize = 4096;

/// The most bytes of an entry.
pub const LONGEST: usize = 121;

/// The most bytes of a page: those that are added, and less than an entry before them.
const ROOM: usize = PAGE + LONGEST;

/// Bytes that were given and are not yet read.
#[derive(Drop)]
pub struct UnreadBytes<A: Allocator = Global> {
    bytes: Vec<u8, A>,
    /// How many of them are read.
    start: usize,
}

impl<A: Allocator> Model for UnreadBytes<A> {
    ghost use Rattle.std.specs.Prelude.{ℕ, ◌≤◌, List, drop, vec_capacity, vec_len};

    ghost Value = { List ℕ };

    ghost view = { λ p. drop p.start p.bytes.items };

    ghost invariant = { λ p. (p.start ≤ vec_len p.bytes) × (4217 ≤ vec_capacity p.bytes) };
}

impl<A: Allocator> UnreadBytes<A> {
    /// No bytes. All memory is reserved here; `AllocError` comes only if that is refused.
    pub fn new(alloc: A) -> Result<UnreadBytes<A>, AllocError>
        ensures { IfOk result (λ page. page ≡ []) }
    {
        Ok(UnreadBytes {
            bytes: Vec::with_capacity(alloc, ROOM)?,
            start: 0,
        })
    }

    /// The bytes.
    pub fn bytes(&self) -> &[u8]
        ensures { result.now ≡ self.now }
    {
        &self.bytes[self.start..]
    }

    /// Counts the first `count` bytes as read.
    pub fn pass(&mut self, count: usize)
        requires { count ≤ length self.old }
        ensures { self.new ≡ drop count self.old }
    {
        self.start += count;
    }

    /// Adds more bytes, into room that is reserved: with those that are unread, at most a page and
    /// an entry.
    pub fn add(&mut self, more: &[u8])
        requires { length self.old + length more.now ≤ 4217 }
        ensures { self.new ≡ self.old ++ more.now }
    {
        remove_front(&mut self.bytes, self.start);
        self.start = 0;
        append(&mut self.bytes, more);
    }
}

/// Removes the first `count` bytes.
#[tactic(auto, using(crate::proofs::Fronts::moved_front))]
fn remove_front<A: Allocator>(bytes: &mut Vec<u8, A>, count: usize)
    requires { count ≤ vec_len bytes.old }
    ensures items { bytes.new.items ≡ drop count bytes.old.items }
    ensures room { vec_capacity bytes.new ≡ vec_capacity bytes.old }
{
    let left = bytes.len() - count;
    bytes.rotate_left(count);
    bytes.truncate(left);
}

/// Adds bytes at the end, into room that is reserved.
fn append<A: Allocator>(bytes: &mut Vec<u8, A>, more: &[u8])
    requires { vec_len bytes.old + length more.now ≤ vec_capacity bytes.old }
    ensures items { bytes.new.items ≡ bytes.old.items ++ more.now }
    ensures room { vec_capacity bytes.new ≡ vec_capacity bytes.old }
{
    for byte in more {
        bytes.push_reserved(*byte);
    }
}
