//! Shows on a terminal how much of the events was read.
ghost use Rattle.std.specs.Prelude.{◌≡◌, None, false, length};
ghost use Rattle.byte_streams.specs.Streams.{Reads};
ghost use Rattle.run_picture.specs.Shown.{is_due};

use byte_streams::{Failed, Source};
use std::time::{Clock, Instant};

/// How many milliseconds a tenth of a second has.
const MILLISECONDS_A_TENTH: u128 = 100;

/// For how many tenths of a second nothing is shown at first.
const QUIET_TENTHS: u64 = 20;

/// How many bytes a megabyte has.
const MEGABYTE: u64 = 1_000_000;

/// A source that shows how much it has given, on one line of standard error that it overwrites: at
/// most once in each tenth of a second, and not in the first two seconds. At its end it takes the
/// line away.
#[derive(Drop)]
pub struct Watched<'a, R, S> {
    rt: &'a R,
    source: S,
    /// When it began; none if nothing is shown.
    started: Option<Instant>,
    /// How many bytes it has given.
    given: u64,
    /// The last tenth of a second in which it has shown anything; 0 if it has shown nothing.
    shown: u64,
}

impl<'a, R: Clock + Eprint, S: Source> Watched<'a, R, S> {
    /// A source that gives what the given source gives from now on, and shows how much, if `shows`
    /// is set.
    pub fn start(rt: &'a R, source: S, shows: bool) -> Watched<'a, R, S>
        ensures source { result.source ≡ source }
        ensures quiet { shows ≡ false → result.started ≡ None }
    {
        let started = if shows { Instant::now(rt).ok() } else { None };
        Watched {
            rt,
            source,
            started,
            given: 0,
            shown: 0,
        }
    }

    /// Takes the line away, if there is one, and returns the source given to [`Watched::start`].
    pub fn end(mut self) -> S
        ensures { result ≡ self.entry.source }
    {
        self.take_away();
        self.source
    }

    /// Takes the line away, if there is one.
    fn take_away(&mut self)
        ensures source { self.new.source ≡ self.old.source }
    {
        if self.shown > 0 {
            self.shown = 0;
            let _ = eprint!(self.rt; "\r\x1b[K");
        }
    }

    /// Shows how much was given, if it is time.
    fn show(&mut self)
        ensures source { self.new.source ≡ self.old.source }
        ensures quiet { self.old.started ≡ None → self.new ≡ self.old }
    {
        let Some(tenth) = self.tenth() else {
            return;
        };
        if is_due(self.shown, tenth) {
            self.shown = tenth;
            let megabytes = self.given / MEGABYTE;
            let _ = eprint!(self.rt; "\r{megabytes} MB of events");
        }
    }

    /// How many tenths of a second have passed since the start; none if nothing is shown.
    fn tenth(&self) -> Option<u64>
        ensures { self.now.started ≡ None → result ≡ None }
    {
        let elapsed = self.started.as_ref()?.elapsed(self.rt).ok()?;
        u64::try_from(elapsed.as_millis() / MILLISECONDS_A_TENTH).ok()
    }
}

impl<R: Clock + Eprint, S: Source> Source for Watched<'_, R, S> {
    ghost rest = { λ s. S.rest s.source };

    ghost failures = { λ s. S.failures s.source };

    fn read(&mut self, buffer: &mut [u8]) -> Result<usize, Failed>
        ensures len { length buffer.new ≡ length buffer.old }
        ensures reads { Reads result (S.rest self.old.source) (S.rest self.new.source) buffer.new
            (S.failures self.old.source) (S.failures self.new.source) }
    {
        let count = self.source.read(buffer)?;
        if count == 0 {
            self.take_away();
        } else {
            self.given = self.given.saturating_add(count as u64);
            self.show();
        }
        Ok(count)
    }
}

/// Whether something is shown in the given tenth of a second, if it was last shown in the tenth
/// `shown`.
fn is_due(shown: u64, tenth: u64) -> bool
    ensures { result ≡ is_due shown tenth }
{
    tenth >= QUIET_TENTHS && tenth > shown
}
