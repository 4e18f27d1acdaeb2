//! Sources and sinks over memory.
ghost use Rattle.std.specs.Prelude.{◌≡◌, ◌≢◌, ◌<◌, ◌-◌, ◌⊎◌, [], Some, Ok, IfOk, IsErr, min, max};
ghost use Rattle.std.specs.Prelude.{length};
ghost use Rattle.byte_streams.specs.Streams.{Reads, Writes};

use crate::streams::{Failed, Sink, Source};
use std::alloc::{AllocError, Allocator, Global};
use std::marker::Model;

/// Gives the bytes of a slice, some at a time. It never fails.
#[derive(Drop)]
pub struct MemorySource<'a> {
    rest: &'a [u8],
    /// The most bytes of one read, at least 1.
    piece: usize,
}

impl<'a> Model for MemorySource<'a> {
    ghost use Rattle.std.specs.Prelude.{◌<◌};
    ghost use Rattle.byte_streams.specs.MemorySourceView.{MemorySourceView};

    ghost Value = { MemorySourceView };

    ghost view = { λ s. record { rest = s.rest.now; piece = s.piece } };

    ghost invariant = { λ s. 0 < s.piece };
}

impl<'a> MemorySource<'a> {
    /// A source of these bytes, which gives at most `piece` in one read, and at least one.
    pub fn new(bytes: &'a [u8], piece: usize) -> MemorySource<'a>
        ensures { result ≡ record { rest = bytes.now; piece = max piece 1 } }
    {
        MemorySource {
            rest: bytes,
            piece: piece.max(1),
        }
    }
}

impl<'a> Source for MemorySource<'a> {
    ghost rest = { λ s. Some s.rest };

    ghost failures = { λ _. 0 };

    /// Gives a piece, or fewer bytes if the buffer has less room or fewer are left.
    fn read(&mut self, buffer: &mut [u8]) -> Result<usize, Failed>
        ensures len { length buffer.new ≡ length buffer.old }
        ensures reads { Reads result (Some self.old.rest) (Some self.new.rest) buffer.new 0 0 }
        ensures count { result
            ≡ Ok (min (min (length buffer.old) self.old.piece) (length self.old.rest)) }
        ensures piece { self.new.piece ≡ self.old.piece }
    {
        let count = buffer.len().min(self.piece).min(self.rest.len());
        buffer[..count].copy_from_slice(&self.rest[..count]);
        self.rest = &self.rest[count..];
        Ok(count)
    }
}

/// Keeps the bytes that it takes, in room that its maker reserved. It fails if that is full.
#[derive(Drop)]
pub struct MemorySink<A: Allocator + Copy = Global> {
    taken: Vec<u8, A>,
    /// How many bytes there is still room for.
    room: usize,
    failures: u64,
}

impl<A: Allocator + Copy> Model for MemorySink<A> {
    ghost use Rattle.std.specs.Prelude.{◌+◌, ◌≤◌, vec_len, vec_capacity};
    ghost use Rattle.byte_streams.specs.MemorySinkView.{MemorySinkView};

    ghost Value = { MemorySinkView };

    ghost view = { λ s. record { taken = s.taken.items; room = s.room; failures = s.failures } };

    ghost invariant = { λ s. vec_len s.taken + s.room ≤ vec_capacity s.taken };
}

impl<A: Allocator + Copy> MemorySink<A> {
    /// A sink with room for `room` bytes. All memory is reserved here; `AllocError` comes only
    /// if that is refused.
    pub fn new(alloc: A, room: usize) -> Result<MemorySink<A>, AllocError>
        ensures { IfOk result (λ sink. sink ≡ record { taken = []; room = room; failures = 0 }) }
    {
        Ok(MemorySink {
            taken: Vec::with_capacity(alloc, room)?,
            room,
            failures: 0,
        })
    }

    /// The bytes that it has taken.
    pub fn taken(&self) -> &[u8]
        ensures { result.now ≡ self.now.taken }
    {
        self.taken.as_slice()
    }
}

impl<A: Allocator + Copy> Sink for MemorySink<A> {
    ghost taken = { λ s. Some s.taken };

    ghost failures = { λ s. s.failures };

    /// Takes as many bytes as there is room for; fails if there are bytes but no room.
    fn write(&mut self, bytes: &[u8]) -> Result<usize, Failed>
        ensures writes { Writes result bytes.now (Some self.old.taken) (Some self.new.taken)
            self.old.failures self.new.failures }
        ensures fits { (0 < self.old.room) ⊎ (bytes.now ≡ [])
            → result ≡ Ok (min (length bytes.now) self.old.room) }
        ensures full { self.old.room ≡ 0 → bytes.now ≢ [] → IsErr result }
        ensures room { self.new.room ≡ self.old.room - length bytes.now }
    {
        let count = bytes.len().min(self.room);
        if count == 0 && !bytes.is_empty() {
            self.failures = self.failures.saturating_add(1);
            return Err(Failed);
        }
        if self.taken.extend_from_slice(&bytes[..count]).is_err() {
            self.failures = self.failures.saturating_add(1);
            return Err(Failed);
        }
        self.room -= count;
        Ok(count)
    }
}
