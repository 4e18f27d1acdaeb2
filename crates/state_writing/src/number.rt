//! A parent as a number of two bytes.
ghost use Rattle.std.specs.Prelude.{◌≡◌};
ghost use Rattle.state_writing.specs.Spelling.{parent_number};

/// What stands for no parent.
pub const NO_PARENT: u16 = 0xffff;

/// A parent as a number.
pub(crate) fn parent_number(parent: Option<u16>) -> u16
    ensures { result ≡ parent_number parent }
{
    parent.unwrap_or(NO_PARENT)
}
