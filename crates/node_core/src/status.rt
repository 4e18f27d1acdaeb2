//! The line of text that shows a node.
ghost use Rattle.std.specs.Prelude.{◌≡◌, ◌≤◌, ◌+◌, ◌++◌, length, decimal};
ghost use Rattle.arrayvec.specs.ArrayString.{array_string_len};
ghost use Rattle.node_core.specs.Status.{number_or_none, yes_or_no};

use arrayvec::ArrayString;
use itoa::Buffer;

/// The most bytes that a status line has, with its newline.
pub const STATUS_BYTES: usize = 96;

/// A status line that is being built.
pub type StatusText = ArrayString<STATUS_BYTES>;

/// Adds a name and a number.
pub fn push_number(text: &mut StatusText, name: &str, number: u16)
    requires { array_string_len text.old + length name.now + 5 ≤ 96 }
    ensures bytes { text.new.bytes ≡ text.old.bytes ++ name.now ++ decimal number }
    // A number below 65536 has at most 5 digits.
    ensures short { array_string_len text.new ≤ array_string_len text.old + length name.now + 5 }
{
    text.push_str(name);
    let mut digits = Buffer::new();
    text.push_str(digits.format(number));
}

/// Adds a name, and a number or `none`.
pub fn push_number_or_none(text: &mut StatusText, name: &str, number: Option<u16>)
    requires { array_string_len text.old + length name.now + 5 ≤ 96 }
    ensures bytes { text.new.bytes ≡ text.old.bytes ++ name.now ++ number_or_none number }
    // A number below 65536 has at most 5 digits, and `none` has 4.
    ensures short { array_string_len text.new ≤ array_string_len text.old + length name.now + 5 }
{
    match number {
        Some(number) => push_number(text, name, number),
        None => {
            text.push_str(name);
            text.push_str("none");
        }
    }
}

/// Adds a name, and `yes` or `no`.
pub fn push_yes_or_no(text: &mut StatusText, name: &str, is_so: bool)
    requires { array_string_len text.old + length name.now + 3 ≤ 96 }
    ensures bytes { text.new.bytes ≡ text.old.bytes ++ name.now ++ yes_or_no is_so }
    // `yes` has 3 letters.
    ensures short { array_string_len text.new ≤ array_string_len text.old + length name.now + 3 }
{
    text.push_str(name);
    if is_so {
        text.push_str("yes");
    } else {
        text.push_str("no");
    }
}
