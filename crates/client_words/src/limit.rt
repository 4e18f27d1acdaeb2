//! How long to wait for the lock, as a word spells it.
ghost use Rattle.std.specs.Prelude.{◌≡◌};
ghost use Rattle.client_words.specs.Words.{limit_of};

use recovery_times::micros_of;

/// The longest time to wait for the lock, in milliseconds.
const LONGEST: u32 = 65_535_000;

/// The milliseconds of a time in seconds, at most 65535: a decimal number with no sign and no zero in
/// front of other digits, optionally followed by a point and one to three digits.
pub fn limit_of(word: &str) -> Option<u32>
    ensures { result ≡ limit_of word.now }
{
    match micros_of(word.as_bytes()) {
        Some(millis) if millis <= LONGEST => Some(millis),
        _ => None,
    }
}
