//! A time, as a word spells it.
ghost use Rattle.std.specs.Prelude.{◌≡◌, ◌≤◌, IfSome, length, take};
ghost use Rattle.recovery_times.specs.Reading.{point_at, whole_of, thousandths_of};
ghost use Rattle.recovery_times.specs.Reading.{micros_of, thousandths_in, within_an_hour};

use line_words::digits_up_to;

/// The longest time that is read, an hour, in microseconds.
pub(crate) const HOUR: u32 = 3_600_000_000;

/// The same in milliseconds.
const HOUR_IN_MILLIS: u32 = 3_600_000;

/// The microseconds of a time in milliseconds, at most an hour: a decimal number with no sign and no
/// zero in front of other digits, optionally followed by a point and one to three digits.
pub fn micros_of(word: &[u8]) -> Option<u32>
    ensures time { result ≡ micros_of word.now }
    ensures within { IfSome result (λ micros. micros ≤ 3600000000) }
{
    let point = point_at(word);
    let whole = whole_of(&word[..point])?;
    let part = thousandths_in(word.get(point + 1..))?;
    within_an_hour(1_000 * whole + part)
}

/// A time that is at most an hour.
fn within_an_hour(micros: u32) -> Option<u32>
    ensures time { result ≡ within_an_hour micros }
    ensures within { IfSome result (λ micros. micros ≤ 3600000000) }
{
    if micros <= HOUR { Some(micros) } else { None }
}

/// How many bytes stand in front of the first point.
fn point_at(word: &[u8]) -> usize
    ensures at { result ≡ point_at word.now }
    ensures within { result ≤ length word.now }
{
    for (i, byte) in word.iter().enumerate() {
        if *byte == b'.' {
            return i;
        }
    }
    word.len()
}

/// The whole milliseconds that digits spell, with no zero in front of other digits.
fn whole_of(digits: &[u8]) -> Option<u32>
    ensures whole { result ≡ whole_of digits.now }
    ensures within { IfSome result (λ whole. whole ≤ 3600000) }
{
    if digits.len() > 1 && digits[0] == b'0' {
        return None;
    }
    digits_up_to(digits, HOUR_IN_MILLIS)
}

/// The microseconds that stand after the point, if there is one.
fn thousandths_in(digits: Option<&[u8]>) -> Option<u32>
    ensures part { result ≡ thousandths_in digits.entry }
    ensures within { IfSome result (λ part. part ≤ 360000000) }
{
    match digits {
        None => Some(0),
        Some(digits) => thousandths_of(digits),
    }
}

/// The microseconds that one to three digits after the point spell.
fn thousandths_of(digits: &[u8]) -> Option<u32>
    ensures part { result ≡ thousandths_of digits.now }
    ensures within { IfSome result (λ part. part ≤ 360000000) }
{
    let value = digits_up_to(digits, HOUR_IN_MILLIS)?;
    match digits.len() {
        1 => Some(100 * value),
        2 => Some(10 * value),
        3 => Some(value),
        _ => None,
    }
}
