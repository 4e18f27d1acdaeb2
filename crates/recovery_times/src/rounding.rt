//! Microseconds, rounded up.
ghost use Rattle.std.specs.Prelude.{◌≡◌, ◌<◌, ◌≤◌, ◌+◌, ◌*◌};
ghost use Rattle.recovery_times.specs.Times.{millis_up, tenths_up};

/// The least number of whole milliseconds that is no shorter.
pub fn millis_up(micros: u64) -> u64
    ensures up { result ≡ millis_up micros }
    ensures enough { micros ≤ 1000 * result }
    ensures least { 1000 * result < micros + 1000 }
{
    micros / 1000 + u64::from(micros % 1000 > 0)
}

/// The least number of tenths of a millisecond that is no shorter.
pub fn tenths_up(micros: u64) -> u64
    ensures up { result ≡ tenths_up micros }
    ensures enough { micros ≤ 100 * result }
    ensures least { 100 * result < micros + 100 }
{
    micros / 100 + u64::from(micros % 100 > 0)
}
