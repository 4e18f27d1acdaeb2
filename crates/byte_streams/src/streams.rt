//! The two ends of a stream of bytes.
ghost use Rattle.std.specs.Prelude.{◌≡◌, ℕ, List, Option, length};
ghost use Rattle.byte_streams.specs.Streams.{Reads, Writes, WritesAll};

/// A read or a write that failed.
#[derive(Clone, Copy, Debug, PartialEq, Eq)]
pub struct Failed;

/// Where bytes come from.
pub trait Source {
    /// The bytes that it has still to give; none if it does not say.
    ghost rest: { Self → Option (List ℕ) };

    /// How often it has failed; the count may stay at 2^64 - 1.
    ghost failures: { Self → ℕ };

    /// Puts its next bytes at the front of the buffer, and says how many: 0 only at its end, or
    /// if the buffer is empty.
    ///
    /// # Errors
    /// [`Failed`] if it failed in this call; then it gave nothing, and may be read again.
    fn read(&mut self, buffer: &mut [u8]) -> Result<usize, Failed>
        ensures len { length buffer.new ≡ length buffer.old }
        ensures reads { Reads result (rest self.old) (rest self.new) buffer.new
            (failures self.old) (failures self.new) };
}

/// Where bytes go to.
pub trait Sink {
    /// The bytes that it has taken; none if it does not say.
    ghost taken: { Self → Option (List ℕ) };

    /// How often it has failed; the count may stay at 2^64 - 1.
    ghost failures: { Self → ℕ };

    /// Takes the first of these bytes, and says how many: at least one, if there is any.
    ///
    /// # Errors
    /// [`Failed`] if it failed in this call; then it took nothing.
    fn write(&mut self, bytes: &[u8]) -> Result<usize, Failed>
        ensures { Writes result bytes.now (taken self.old) (taken self.new)
            (failures self.old) (failures self.new) };
}

/// Writes all the bytes, in as many writes as that takes.
///
/// # Errors
/// [`Failed`] if the sink failed; then it took a beginning of them.
pub fn write_all<W: Sink>(sink: &mut W, bytes: &[u8]) -> Result<(), Failed>
    ensures { WritesAll result bytes.now (W.taken sink.old) (W.taken sink.new)
        (W.failures sink.old) (W.failures sink.new) }
{
    let mut written = 0;
    while written < bytes.len() {
        written += sink.write(&bytes[written..])?;
    }
    Ok(())
}
