//! Instants of the system, in microseconds since the start of 1970, UTC.
use std::rt::Clock;
use std::time::{SystemTime, UNIX_EPOCH};

/// The microseconds since the start of 1970, UTC; none if the system gives no clock, or if its clock is
/// before 1970, or too late for a `u64`.
pub fn micros_now<C: Clock>(clock: &C) -> Option<u64> {
    micros_of(SystemTime::now(clock).ok()?)
}

/// The microseconds from the start of 1970, UTC, to this time; none if it is before 1970, or too late for
/// a `u64`.
pub fn micros_of(time: SystemTime) -> Option<u64> {
    u64::try_from(time.duration_since(UNIX_EPOCH).ok()?.as_micros()).ok()
}
