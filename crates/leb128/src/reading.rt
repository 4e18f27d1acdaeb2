//! Reads numbers.
ghost use Rattle.std.specs.Prelude.{◌≡◌, ◌≤◌, ◌<◌, IfOk, length};
ghost use Rattle.leb128.specs.Reading.{Gives, number_in, number_at, with_low};

use crate::unread::Unread;

/// The number at the front, and the bytes after it.
///
/// # Errors
/// `Short` if the bytes end within it, `Invalid` if no number below 2^64 is spelled like this.
#[tactic(auto, unfolding(crate::specs::Reading::number_at))]
pub fn number_at(bytes: &[u8]) -> Result<(u64, &[u8]), Unread>
    ensures read { Gives (λ x. (x.0, x.1.now)) result (number_at bytes.now) }
    ensures fewer { IfOk result (λ x. length x.1.now < length bytes.now) }
{
    number_in(9, bytes)
}

/// The number at the front, of at most `more` + 1 bytes, and the bytes after it.
fn number_in(more: u32, bytes: &[u8]) -> Result<(u64, &[u8]), Unread>
    ensures read { Gives (λ x. (x.0, x.1.now)) result (number_in more bytes.now) }
    ensures fewer { IfOk result (λ x. length x.1.now < length bytes.now) }
{
    let [byte, rest @ ..] = bytes else {
        return Err(Unread::Short);
    };
    if *byte < 128 {
        return Ok((u64::from(*byte), rest));
    }
    if more == 0 {
        return Err(Unread::Invalid);
    }
    let (high, after) = number_in(more - 1, rest)?;
    Ok((with_low(*byte, high)?, after))
}

/// The number with the low seven bits of a byte, and with `high` as its other bits.
fn with_low(byte: u8, high: u64) -> Result<u64, Unread>
    requires { 128 ≤ byte }
    ensures { result ≡ with_low byte high }
{
    if high == 0 || high >= 1 << 57 {
        return Err(Unread::Invalid);
    }
    Ok(128 * high + u64::from(byte - 128))
}
