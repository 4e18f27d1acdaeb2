//! Numbers of two bytes, the higher byte first.
ghost use Rattle.std.specs.Prelude.{◌≡◌, ◌≤◌, ◌+◌, length};
ghost use Rattle.node_state_file.specs.Reading.{number_at, parent_of};

use byteorder::{BigEndian, ByteOrder};
use state_writing::NO_PARENT;

/// The number at a place.
pub(crate) fn number_at(bytes: &[u8], at: usize) -> u16
    requires { at + 2 ≤ length bytes.now }
    ensures { result ≡ number_at bytes.now at }
{
    BigEndian::read_u16(&bytes[at..])
}

/// The parent at a place.
pub(crate) fn parent_at(bytes: &[u8], at: usize) -> Option<u16>
    requires { at + 2 ≤ length bytes.now }
    ensures { result ≡ parent_of (number_at bytes.now at) }
{
    let number = number_at(bytes, at);
    if number == NO_PARENT {
        None
    } else {
        Some(number)
    }
}
