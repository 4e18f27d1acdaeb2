//! A connection that never waits.
ghost use Rattle.std.specs.Prelude.{◌≡◌, ◌<◌, ℕ, List, Option, length};
ghost use Rattle.socket_links.specs.Counts.{Counts};
ghost use Rattle.socket_links.specs.Pipes.{Reads, Writes};

/// What a read answers.
#[derive(Clone, Copy)]
pub enum ReadAnswer {
    /// It gave this many bytes, at least one.
    Got(usize),
    /// There are none now.
    Later,
    /// The other end is closed.
    Closed,
    /// It failed.
    Failed,
}

/// What a write answers.
#[derive(Clone, Copy)]
pub enum WriteAnswer {
    /// It took this many bytes, at least one.
    Wrote(usize),
    /// It has no room now.
    Later,
    /// It failed.
    Failed,
}

/// A connection. It counts how often it answered `Later`, `Closed` and `Failed`, and may show its
/// bytes to contracts.
pub trait Pipe: Drop {
    /// All bytes that it gave; none if it does not say.
    ghost gave: { Self → Option (List ℕ) };

    /// All bytes that it took; none if it does not say.
    ghost took: { Self → Option (List ℕ) };

    /// Counts of the answers `Later`, `Closed` and `Failed`. Each rises with its answer, or is at
    /// 2^64 - 1, and none ever falls.
    ghost counts: { Self → Counts };

    /// Puts its next bytes at the front of the buffer, which has room for at least one.
    fn try_read(&mut self, buffer: &mut [u8]) -> ReadAnswer
        requires { 0 < length buffer.old }
        ensures len { length buffer.new ≡ length buffer.old }
        ensures reads { Reads result buffer.new (gave self.old) (gave self.new)
            (counts self.old) (counts self.new) }
        // A read writes nothing.
        ensures took { took self.new ≡ took self.old };

    /// Takes the first of these bytes, of which there is at least one.
    fn try_write(&mut self, bytes: &[u8]) -> WriteAnswer
        requires { 0 < length bytes.now }
        ensures writes { Writes result bytes.now (took self.old) (took self.new)
            (counts self.old) (counts self.new) }
        // A write reads nothing.
        ensures gave { gave self.new ≡ gave self.old };
}
