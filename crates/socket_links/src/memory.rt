//! Pipes over memory, and pipes that fail once.
ghost use Rattle.std.specs.Prelude.{◌≡◌, ◌≤◌, ◌<◌, ◌+◌, [], Some, IfOk, take, max, length, vec_len};
ghost use Rattle.std.specs.Prelude.{vec_capacity, ◌-◌, min};
ghost use Rattle.byte_streams.specs.Fuse.{failures_of};

use crate::pipe::{Pipe, ReadAnswer, WriteAnswer};
use byte_streams::Fused;
use std::alloc::{AllocError, Allocator, Global};

/// A pipe over memory. It gives the bytes of a slice, a piece at a time, and then answers `Closed`
/// or, if it stays open, `Later`. It keeps what it takes, in room that was reserved when it was
/// made, and answers `Later` if that is full.
#[derive(Drop)]
pub struct MemoryPipe<'a, A: Allocator + Copy = Global> {
    input: &'a [u8],
    given: usize,
    /// The most bytes of one read or write, at least 1.
    piece: usize,
    stays_open: bool,
    output: Vec<u8, A>,
    later: u64,
    closed: u64,
    failed: u64,
    ghost within: { (given ≤ length input.now) × (0 < piece) },
}

impl<'a, A: Allocator + Copy> MemoryPipe<'a, A> {
    /// A pipe that gives these bytes, at most `piece` in one read, or one if `piece` is 0, and has
    /// room for `room` bytes. All memory is reserved here; `AllocError` comes only if that is
    /// refused.
    pub fn new(
        alloc: A,
        input: &'a [u8],
        piece: usize,
        stays_open: bool,
        room: usize,
    ) -> Result<MemoryPipe<'a, A>, AllocError>
        // It has given and taken nothing.
        ensures fresh { IfOk result (λ pipe. (pipe.input.now ≡ input.now) × (pipe.given ≡ 0)
            × (pipe.output.items ≡ [])) }
        ensures manner { IfOk result (λ pipe. (pipe.piece ≡ max piece 1)
            × (pipe.stays_open ≡ stays_open)) }
        ensures room { IfOk result (λ pipe. room ≤ vec_capacity pipe.output) }
    {
        Ok(MemoryPipe {
            input,
            given: 0,
            piece: piece.max(1),
            stays_open,
            output: Vec::with_capacity(alloc, room)?,
            later: 0,
            closed: 0,
            failed: 0,
        })
    }

    /// How many of these bytes one write takes.
    fn room_for(&self, bytes: &[u8]) -> usize
        ensures { result ≡ min (min (length bytes.now) self.now.piece)
            (vec_capacity self.now.output - vec_len self.now.output) }
    {
        let room = self.output.capacity() - self.output.len();
        bytes.len().min(self.piece).min(room)
    }

    /// The bytes that it took.
    pub fn taken(&self) -> &[u8]
        ensures { result.now ≡ self.now.output.items }
    {
        self.output.as_slice()
    }
}

impl<'a, A: Allocator + Copy> Pipe for MemoryPipe<'a, A> {
    ghost gave = { λ p. Some (take p.given p.input.now) };

    ghost took = { λ p. Some p.output.items };

    ghost counts = { λ p. record { later = p.later; closed = p.closed; failed = p.failed } };

    fn try_read(&mut self, buffer: &mut [u8]) -> ReadAnswer {
        let count = buffer
            .len()
            .min(self.piece)
            .min(self.input.len() - self.given);
        if count == 0 {
            if self.stays_open {
                self.later = self.later.saturating_add(1);
                return ReadAnswer::Later;
            }
            self.closed = self.closed.saturating_add(1);
            return ReadAnswer::Closed;
        }
        buffer[..count].copy_from_slice(&self.input[self.given..self.given + count]);
        self.given += count;
        ReadAnswer::Got(count)
    }

    fn try_write(&mut self, bytes: &[u8]) -> WriteAnswer {
        let count = self.room_for(bytes);
        if count == 0 {
            self.later = self.later.saturating_add(1);
            return WriteAnswer::Later;
        }
        match self.output.extend_from_slice(&bytes[..count]) {
            Ok(()) => WriteAnswer::Wrote(count),
            Err(_) => {
                self.failed = self.failed.saturating_add(1);
                WriteAnswer::Failed
            }
        }
    }
}

/// A pipe that fails once: it tests what becomes of a link whose pipe fails.
impl<P: Pipe> Pipe for Fused<P> {
    ghost gave = { λ p. P.gave p.inner };

    ghost took = { λ p. P.took p.inner };

    ghost counts = { λ p. record (P.counts p.inner)
        { failed = (P.counts p.inner).failed + failures_of p.fuse } };

    fn try_read(&mut self, buffer: &mut [u8]) -> ReadAnswer {
        if self.fuse.pass().is_err() {
            return ReadAnswer::Failed;
        }
        self.inner.try_read(buffer)
    }

    fn try_write(&mut self, bytes: &[u8]) -> WriteAnswer {
        if self.fuse.pass().is_err() {
            return WriteAnswer::Failed;
        }
        self.inner.try_write(bytes)
    }
}
