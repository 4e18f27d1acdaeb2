//! Numbers as four lower-case hexadecimal digits.
ghost use Rattle.std.specs.Prelude.{◌≡◌, ◌≢◌, ℕ, ◌+◌, ◌^◌, ◌<◌, ◌≤◌, length, take, drop, IfSome};
ghost use Rattle.std.specs.Prelude.{IfNone};
ghost use Rattle.frame_codec.specs.Spelling.{digit, digits};
ghost use Rattle.frame_codec.specs.Reading.{digit_value, number_from};

/// The digit of a value below 16.
fn digit(value: u16) -> u8
    requires { value < 16 }
    ensures { result ≡ digit value }
{
    let value = value as u8;
    if value < 10 {
        b'0' + value
    } else {
        b'a' + (value - 10)
    }
}

/// The four digits of a number, the highest first.
pub fn digits(number: u16) -> [u8; 4]
    ensures { result ≡ digits number }
{
    [
        digit(number / 4096 % 16),
        digit(number / 256 % 16),
        digit(number / 16 % 16),
        digit(number % 16),
    ]
}

/// The value of a digit; none if the byte is no lower-case hexadecimal digit.
fn digit_value(byte: u8) -> Option<u16>
    ensures some { IfSome result (λ value. (value < 16) × (byte ≡ digit value)
        × (value ≡ digit_value byte)) }
    ensures none { IfNone result ((value : ℕ) → value < 16 → byte ≢ digit value) }
{
    match byte {
        b'0'..=b'9' => Some(u16::from(byte - b'0')),
        b'a'..=b'f' => Some(u16::from(byte - b'a') + 10),
        _ => None,
    }
}

/// The number whose four digits begin at an index; none if the four bytes there are the digits of
/// no number.
pub fn number_at(line: &[u8], at: usize) -> Option<u16>
    requires { at + 4 ≤ length line.now }
    // The four bytes are the digits of this number.
    ensures some { IfSome result (λ number. (take 4 (drop at line.now) ≡ digits number)
        × (number ≡ number_from line.now at)) }
    // The four bytes are the digits of no number.
    ensures none { IfNone result ((number : ℕ) → take 4 (drop at line.now) ≢ digits number) }
{
    let first = digit_value(line[at])?;
    let second = digit_value(line[at + 1])?;
    let third = digit_value(line[at + 2])?;
    let fourth = digit_value(line[at + 3])?;
    Some(first * 4096 + second * 256 + third * 16 + fourth)
}
