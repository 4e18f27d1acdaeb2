//! A line of output.
ghost use Rattle.std.specs.Prelude.{◌≡◌, ◌+◌, ◌≤◌, ◌++◌, length, decimal};
ghost use Rattle.arrayvec.specs.ArrayString.{array_string_len};

use arrayvec::ArrayString;
use itoa::Buffer;

/// The most bytes of a line under way. The longest has three words and two numbers.
const MOST_BYTES: usize = 96;

/// A line under way.
pub type Line = ArrayString<MOST_BYTES>;

/// Adds a word and a number.
pub fn push_number(line: &mut Line, word: &str, number: u64)
    requires { array_string_len line.old + length word.now + 20 ≤ 96 }
    ensures bytes { line.new.bytes ≡ line.old.bytes ++ word.now ++ decimal number }
    // A number of 64 bits has at most 20 digits.
    ensures short { array_string_len line.new ≤ array_string_len line.old + length word.now + 20 }
{
    line.push_str(word);
    let mut digits = Buffer::new();
    line.push_str(digits.format(number));
}
