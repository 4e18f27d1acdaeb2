//! Which processes belong to a command.
ghost use Rattle.std.specs.Prelude.{◌≡◌, ℕ, Option, is_some};
ghost use Rattle.memchr.specs.Find.{FindsNeedle};

use memchr::memmem;

/// Whether these bytes of an entry occur in an environment, as `/proc` shows it: at any place, so
/// they may be a part of another entry, too. They must be such that no two programs share them.
/// No bytes at all occur in each environment.
pub fn has_entry(environment: &[u8], entry: &[u8]) -> bool
    ensures { (place : Option ℕ)
        × FindsNeedle environment.now entry.now 0 place
        × (result ≡ is_some place) }
{
    memmem::find(environment, entry).is_some()
}
