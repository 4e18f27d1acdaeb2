//! What one word says.
ghost use Rattle.std.specs.Prelude.{◌≡◌, ◌≤◌, IfSome};
ghost use Rattle.line_words.specs.Numbers.{digits_up_to, number, number_or_none, yes_or_no};

/// The number that a word spells: decimal, at most 65535, with no leading zero.
pub fn number(word: &[u8]) -> Option<u16>
    ensures { result ≡ number word.now }
{
    if word.len() > 1 && word[0] == b'0' {
        return None;
    }
    digits_up_to(word, u32::from(u16::MAX)).map(|number| number as u16)
}

/// The number that decimal digits spell, at least one of them, if it is at most `most`. It may have leading
/// zeros.
pub fn digits_up_to(digits: &[u8], most: u32) -> Option<u32>
    ensures number { result ≡ digits_up_to most digits.now }
    ensures within { IfSome result (λ number. number ≤ most) }
{
    if digits.is_empty() {
        return None;
    }
    let mut value: u64 = 0;
    for digit in digits {
        if !digit.is_ascii_digit() {
            return None;
        }
        value = 10 * value + u64::from(*digit - b'0');
        if value > u64::from(most) {
            return None;
        }
    }
    Some(value as u32)
}

/// The number that a word spells, or `none`.
pub fn number_or_none(word: &[u8]) -> Option<Option<u16>>
    ensures { result ≡ number_or_none word.now }
{
    if word == b"none".as_slice() {
        Some(None)
    } else {
        number(word).map(Some)
    }
}

/// Whether a word is `yes`; none if it is neither `yes` nor `no`.
pub fn yes_or_no(word: &[u8]) -> Option<bool>
    ensures { result ≡ yes_or_no word.now }
{
    match word {
        b"yes" => Some(true),
        b"no" => Some(false),
        _ => None,
    }
}
