//! A source, a sink or anything else that takes calls, which fails once.
ghost use Rattle.std.specs.Prelude.{◌≡◌, ◌≢◌, ◌+◌, Some, is_none, length};
ghost use Rattle.byte_streams.specs.Fuse.{failures_of, Passes};
ghost use Rattle.byte_streams.specs.Streams.{Reads, Writes};

use crate::fuse::Fuse;
use crate::streams::{Failed, Sink, Source};

/// Passes some calls on to what it holds, fails one, and passes on all others. It tests what
/// becomes of a call whose source or sink fails; another crate's trait can be fused with it too.
#[derive(Drop)]
pub struct Fused<T> {
    /// What it holds.
    pub inner: T,
    /// Which call is the one that fails.
    pub fuse: Fuse,
}

impl<T> Fused<T> {
    /// Passes `calls` calls on and fails the next one.
    pub fn new(inner: T, calls: u64) -> Fused<T>
        ensures inner { result.inner ≡ inner }
        ensures fuse { result.fuse ≡ Some calls }
    {
        Fused {
            inner,
            fuse: Fuse::new(calls),
        }
    }

    /// What it holds.
    pub fn inner(&self) -> &T
        ensures { result.now ≡ self.now.inner }
    {
        &self.inner
    }

    /// Whether it has failed.
    pub fn has_failed(&self) -> bool
        ensures { result ≡ is_none self.now.fuse }
    {
        self.fuse.has_failed()
    }
}

impl<S: Source> Source for Fused<S> {
    ghost rest = { λ s. S.rest s.inner };

    ghost failures = { λ s. S.failures s.inner + failures_of s.fuse };

    fn read(&mut self, buffer: &mut [u8]) -> Result<usize, Failed>
        ensures len { length buffer.new ≡ length buffer.old }
        ensures reads { Reads result (S.rest self.old.inner) (S.rest self.new.inner) buffer.new
            (S.failures self.old.inner + failures_of self.old.fuse)
            (S.failures self.new.inner + failures_of self.new.fuse) }
        // The call that fails does not reach the source.
        ensures fuse { Passes self.old.fuse self.new.fuse self.old.inner self.new.inner result }
    {
        self.fuse.pass()?;
        self.inner.read(buffer)
    }
}

impl<W: Sink> Sink for Fused<W> {
    ghost taken = { λ s. W.taken s.inner };

    ghost failures = { λ s. W.failures s.inner + failures_of s.fuse };

    fn write(&mut self, bytes: &[u8]) -> Result<usize, Failed>
        ensures writes { Writes result bytes.now (W.taken self.old.inner) (W.taken self.new.inner)
            (W.failures self.old.inner + failures_of self.old.fuse)
            (W.failures self.new.inner + failures_of self.new.fuse) }
        // The call that fails does not reach the sink.
        ensures fuse { Passes self.old.fuse self.new.fuse self.old.inner self.new.inner result }
    {
        self.fuse.pass()?;
        self.inner.write(bytes)
    }
}
