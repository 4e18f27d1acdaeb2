//! Whether a text has carriage returns, so that a user learns why its lines are refused.
ghost use Rattle.std.specs.Prelude.{◌≡◌, ◌||◌, false, length, option_map};
ghost use Rattle.byte_streams.specs.Streams.{Reads};
ghost use Rattle.command_parts.specs.Returns.{gave_return, has_return, return_hint};

use memchr::memchr;
use world::streams::{Failed, Source};

/// A source that notes whether any byte that it gave was a carriage return.
#[derive(Drop)]
pub struct Returns<S> {
    source: S,
    were_seen: bool,
}

impl<S> Returns<S> {
    /// A source that gives what the other gives, and has seen nothing yet.
    pub fn new(source: S) -> Returns<S>
        ensures source { result.source ≡ source }
        ensures seen { result.were_seen ≡ false }
    {
        Returns {
            source,
            were_seen: false,
        }
    }

    /// Whether a carriage return was among the bytes that it gave.
    pub fn were_seen(&self) -> bool
        ensures { result ≡ self.now.were_seen }
    {
        self.were_seen
    }
}

impl<S: Source> Source for Returns<S> {
    ghost rest = { λ s. S.rest s.source };

    ghost failures = { λ s. S.failures s.source };

    fn read(&mut self, buffer: &mut [u8]) -> Result<usize, Failed>
        ensures len { length buffer.new ≡ length buffer.old }
        ensures reads { Reads result (S.rest self.old.source) (S.rest self.new.source) buffer.new
            (S.failures self.old.source) (S.failures self.new.source) }
        ensures seen { self.new.were_seen ≡ (self.old.were_seen || gave_return result buffer.new) }
    {
        let count = self.source.read(buffer)?;
        self.were_seen |= has_return(&buffer[..count]);
        Ok(count)
    }
}

/// Whether one of the bytes is a carriage return.
fn has_return(bytes: &[u8]) -> bool
    ensures { result ≡ has_return bytes.now }
{
    memchr(b'\r', bytes).is_some()
}

/// The hint for a text of events with this many refused lines, if it has carriage returns.
pub fn return_hint(refused: u64, were_returns_seen: bool) -> Option<&'static str>
    ensures { option_map (λ text. text.now) result ≡ return_hint refused were_returns_seen }
{
    if refused > 0 && were_returns_seen {
        Some("the events have carriage returns (CRLF): a line ends in a newline alone")
    } else {
        None
    }
}

/// Prints a hint on standard error, if there is one.
pub fn say_hint<R: Eprint>(rt: &R, hint: Option<&str>) {
    if let Some(hint) = hint {
        let _ = eprintln!(rt; "tokentree: {hint}");
    }
}
