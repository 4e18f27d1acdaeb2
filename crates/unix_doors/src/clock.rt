//! Microseconds of a clock that never goes back.
ghost use Rattle.std.specs.Prelude.{◌≡◌, ◌≤◌, IfOk};

use std::io;
use std::rt::Clock;
use std::time::Instant;

/// Microseconds since its start, by the system's monotonic clock. If the system gives no time,
/// it stands still.
#[derive(Drop)]
pub struct Stopwatch<'a, C> {
    clock: &'a C,
    start: Instant,
    last: u64,
}

impl<'a, C: Clock> Stopwatch<'a, C> {
    /// A stopwatch that starts now.
    ///
    /// # Errors
    /// If the system gives no time.
    pub fn start(clock: &'a C) -> io::Result<Stopwatch<'a, C>>
        ensures { IfOk result (λ watch. watch.last ≡ 0) }
    {
        Ok(Stopwatch {
            clock,
            start: Instant::now(clock)?,
            last: 0,
        })
    }

    /// The microseconds since the start, at least as many as it gave before.
    pub fn now(&mut self) -> u64
        ensures never_back { self.old.last ≤ result }
        ensures said { self.new.last ≡ result }
    {
        if let Ok(elapsed) = self.start.elapsed(self.clock) {
            let micros = u64::try_from(elapsed.as_micros()).unwrap_or(u64::MAX);
            self.last = self.last.max(micros);
        }
        self.last
    }

    /// What it gave last.
    pub fn last(&self) -> u64
        ensures { result ≡ self.now.last }
    {
        self.last
    }
}
