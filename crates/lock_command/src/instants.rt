//! The clock of one acquisition of the lock.
ghost use Rattle.std.specs.Prelude.{◌≡◌, ◌/◌, min};
ghost use Rattle.std.specs.Duration.{as_nanos};

use std::time::{Clock, Duration, Instant};

/// A clock that shows milliseconds since its start. If the system's clock cannot be read, it shows
/// 0.
#[derive(Drop)]
pub struct MillisecondClock {
    start: Instant,
}

impl MillisecondClock {
    /// A clock that starts now; none if the system has no clock.
    pub fn start<R: Clock>(rt: &R) -> Option<MillisecondClock> {
        let start = Instant::now(rt).ok()?;
        Some(MillisecondClock { start })
    }

    /// How many milliseconds have passed.
    pub fn millis<R: Clock>(&self, rt: &R) -> u64 {
        match Instant::now(rt) {
            Ok(now) => whole_millis(now.duration_since(self.start)),
            Err(_) => 0,
        }
    }
}

/// A time in whole milliseconds.
fn whole_millis(time: Duration) -> u64
    ensures { result ≡ min (as_nanos time / 1000000) 18446744073709551615 }
{
    u64::try_from(time.as_millis()).unwrap_or(u64::MAX)
}
