//! How a test ends, depending on what it found.
ghost use Rattle.std.specs.Prelude.{◌≡◌, ◌↔◌, IsOk, IfOk, Bool, true};

use std::fmt::Debug;
use std::test::Fail;

/// Passes a test exactly if it found what it should.
///
/// # Errors
/// Both values, if they differ.
pub fn is_expected<T: PartialEq + Debug>(found: &T, want: &T) -> Result<(), Fail>
    ensures { IsOk result ↔ (T.eq found.now want.now ≡ true) }
{
    if *found == *want {
        Ok(())
    } else {
        Err(Fail::new(format_args!("{found:?} was found, not {want:?}")))
    }
}

/// Passes a test exactly if it found what it should, and nothing failed on the way.
///
/// # Errors
/// What failed on the way; both values, if they differ.
pub fn as_expected<T: PartialEq + Debug + Drop>(
    found: Result<T, Fail>,
    want: &T,
) -> Result<(), Fail>
    ensures { IsOk result ↔ (IsOk found × IfOk found (λ value. T.eq value want.now ≡ true)) }
{
    is_expected(&found?, want)
}
