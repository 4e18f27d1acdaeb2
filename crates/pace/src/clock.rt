//! Times that are over.
ghost use Rattle.std.specs.Prelude.{◌≡◌};
ghost use Rattle.pace.specs.Clock.{is_over, time_left};

/// The longest rest, in microseconds.
pub const LONGEST_REST: u64 = 2_000;

/// Whether a time of `span` has passed since that moment. A moment that lies ahead counts as long
/// ago.
pub fn is_over(since: u64, span: u64, now: u64) -> bool
    ensures { result ≡ is_over since span now }
{
    since > now || now - since >= span
}

/// How long it is until a time of `span` has passed since that moment.
pub fn time_left(since: u64, span: u64, now: u64) -> u64
    ensures { result ≡ time_left since span now }
{
    if is_over(since, span, now) {
        0
    } else {
        span - (now - since)
    }
}
