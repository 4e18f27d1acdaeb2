//! Stores over memory.
ghost use Rattle.std.specs.Prelude.{◌≡◌, ◌≤◌, None, Some, IfOk, if◌then◌else◌, false};
ghost use Rattle.std.specs.Prelude.{vec_capacity, option_map};

use state_writing::{LOADED_BYTES, Store, StoreFault};
use std::alloc::{AllocError, Allocator, Global};

/// A store over memory, with the room that was reserved when it was made. It fails if that is too
/// small.
#[derive(Drop)]
pub struct MemoryStore<A: Allocator + Copy = Global> {
    bytes: Vec<u8, A>,
    is_present: bool,
    failures: u64,
}

impl<A: Allocator + Copy> MemoryStore<A> {
    /// A store with nothing in it, and room for `room` bytes. All memory is reserved here; it
    /// returns `AllocError` only if that is refused.
    pub fn new(alloc: A, room: usize) -> Result<MemoryStore<A>, AllocError>
        ensures empty { IfOk result (λ store. store.is_present ≡ false) }
        ensures room { IfOk result (λ store. room ≤ vec_capacity store.bytes) }
    {
        Ok(MemoryStore {
            bytes: Vec::with_capacity(alloc, room)?,
            is_present: false,
            failures: 0,
        })
    }

    /// What is stored, if anything is.
    pub fn stored(&self) -> Option<&[u8]>
        ensures { option_map (λ bytes. bytes.now) result
            ≡ (if self.now.is_present then Some self.now.bytes.items else None) }
    {
        if self.is_present {
            Some(self.bytes.as_slice())
        } else {
            None
        }
    }
}

impl<A: Allocator + Copy> Store for MemoryStore<A> {
    ghost use Rattle.std.specs.Prelude.{Some, None, if◌then◌else◌};

    ghost stored = { λ s. Some (if s.is_present then Some s.bytes.items else None) };

    ghost failures = { λ s. s.failures };

    fn load(&mut self, buffer: &mut [u8; LOADED_BYTES]) -> Result<usize, StoreFault> {
        if !self.is_present {
            return Err(StoreFault::Absent);
        }
        let count = self.bytes.len().min(buffer.len());
        buffer[..count].copy_from_slice(&self.bytes[..count]);
        Ok(count)
    }

    fn save(&mut self, bytes: &[u8]) -> Result<(), StoreFault> {
        if bytes.len() > self.bytes.capacity() {
            self.failures = self.failures.saturating_add(1);
            return Err(StoreFault::Device);
        }
        self.bytes.clear();
        self.is_present = true;
        if self.bytes.extend_from_slice(bytes).is_err() {
            self.failures = self.failures.saturating_add(1);
            return Err(StoreFault::Device);
        }
        Ok(())
    }
}
