//! An unknown key that is like one that is missing.
ghost use Rattle.std.specs.Prelude.{◌≡◌, IfOk, IfSome, true, false};
ghost use Rattle.network_hints.specs.Keys.{is_key_name, key_name};
ghost use Rattle.network_hints.specs.Likeness.{is_like};

use crate::key::{Key, is_key_name};
use std::alloc::{AllocError, Global};
use strsim::levenshtein;
use toml::Table;

/// Whether at most two edits make one name of the other.
fn is_like(alloc: Global, name: &str, other: &str) -> Result<bool, AllocError>
    ensures { IfOk result (λ like. like ≡ is_like name.now other.now) }
{
    Ok(levenshtein(alloc, name, other)? <= 2)
}

/// An unknown key that is like this one; none if none was found.
pub fn like<'a>(alloc: Global, table: &'a Table, key: Key) -> Result<Option<&'a str>, AllocError>
    ensures { IfOk result (λ found. IfSome found (λ name. (is_key_name name.now ≡ false)
        × (is_like name.now (key_name key) ≡ true))) }
{
    for name in table.keys() {
        if !is_key_name(name.as_str()) && is_like(alloc, name.as_str(), key.name())? {
            return Ok(Some(name.as_str()));
        }
    }
    Ok(None)
}
