//! Where a node's state is kept.
ghost use Rattle.std.specs.Prelude.{◌≡◌, ◌+◌, ℕ, List, Option};
ghost use Rattle.byte_streams.specs.Fuse.{failures_of, Passes};
ghost use Rattle.state_writing.specs.Stores.{Loads, Saves};

use crate::layout::LOADED_BYTES;
use byte_streams::Fused;
use thiserror::Error;

/// Why a store gives or takes no bytes.
#[derive(Clone, Copy, Debug, PartialEq, Eq, Drop, Error)]
pub enum StoreFault {
    /// Nothing is stored.
    #[error("Absent")]
    Absent,
    /// The store failed in this call.
    #[error("Device")]
    Device,
}

/// Keeps the bytes of one state.
pub trait Store {
    /// What is stored: the outer option is none if the store does not say, the inner one if nothing
    /// is stored.
    ghost stored: { Self → Option (Option (List ℕ)) };

    /// How often it has failed; the count may stay at 2^64 - 1.
    ghost failures: { Self → ℕ };

    /// Puts the first bytes of what is stored at the front of the buffer, and says how many: all of
    /// them, or as many as the buffer has room for, which is one more than any state has.
    ///
    /// # Errors
    /// `Absent` only if nothing is stored, or the store does not say; `Device` only if the store
    /// failed in this call.
    fn load(&mut self, buffer: &mut [u8; LOADED_BYTES]) -> Result<usize, StoreFault>
        ensures { Loads result (stored self.old) (stored self.new) buffer.new (failures self.old)
            (failures self.new) };

    /// Stores these bytes in place of what was stored.
    ///
    /// # Errors
    /// `Device` only if the store failed in this call; then anything may be stored.
    fn save(&mut self, bytes: &[u8]) -> Result<(), StoreFault>
        ensures { Saves result bytes.now (stored self.old) (stored self.new) (failures self.old)
            (failures self.new) };
}

/// A store that fails once. It tests what becomes of a node whose store fails.
impl<S: Store> Store for Fused<S> {
    ghost stored = { λ s. S.stored s.inner };

    ghost failures = { λ s. S.failures s.inner + failures_of s.fuse };

    fn load(&mut self, buffer: &mut [u8; LOADED_BYTES]) -> Result<usize, StoreFault>
        ensures loads { Loads result (S.stored self.old.inner) (S.stored self.new.inner) buffer.new
            (S.failures self.old.inner + failures_of self.old.fuse)
            (S.failures self.new.inner + failures_of self.new.fuse) }
        // The call that fails does not reach the store.
        ensures fuse { Passes self.old.fuse self.new.fuse self.old.inner self.new.inner result }
    {
        self.fuse.pass().map_err(|_| StoreFault::Device)?;
        self.inner.load(buffer)
    }

    fn save(&mut self, bytes: &[u8]) -> Result<(), StoreFault>
        ensures saves { Saves result bytes.now (S.stored self.old.inner) (S.stored self.new.inner)
            (S.failures self.old.inner + failures_of self.old.fuse)
            (S.failures self.new.inner + failures_of self.new.fuse) }
        // The call that fails does not reach the store.
        ensures fuse { Passes self.old.fuse self.new.fuse self.old.inner self.new.inner result }
    {
        self.fuse.pass().map_err(|_| StoreFault::Device)?;
        self.inner.save(bytes)
    }
}
