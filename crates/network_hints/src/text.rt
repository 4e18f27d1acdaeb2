//! The hint for a text.
ghost use Rattle.std.specs.Prelude.{◌≡◌};
ghost use Rattle.network_hints.specs.Places.{place_after, step};

use crate::flaw::{Hint, ValueFlaw};
use crate::likeness::like;
use crate::reading::table_flaw;
use std::alloc::{AllocError, Global};
use toml::Table;

/// What is wrong with the text of this file, in one line; none if nothing that is looked for is wrong.
///
/// # Errors
/// If memory runs out.
pub fn hint(alloc: Global, file: &str, text: &str) -> Result<Option<String>, AllocError> {
    match toml::table_from_str(alloc, text) {
        Ok(table) => table_hint(alloc, file, &table),
        Err(error) => match error.span() {
            None => Err(AllocError),
            Some(span) => {
                let place = place_after(&text.as_bytes()[..span.start]);
                place_hint(alloc, file, place, error.message())
            }
        },
    }
}

/// What is wrong at a line and a column.
fn place_hint(
    alloc: Global,
    file: &str,
    place: (u64, u64),
    message: &str,
) -> Result<Option<String>, AllocError> {
    let (line, column) = place;
    Ok(Some(format!(in alloc; "{file}: line {line}, column {column}: {message}")?))
}

/// What is wrong with a table.
fn table_hint(alloc: Global, file: &str, table: &Table) -> Result<Option<String>, AllocError> {
    let Some(flaw) = table_flaw(alloc, table)? else {
        return Ok(None);
    };
    let like = match flaw {
        ValueFlaw::NoKey(key) => like(alloc, table, key)?,
        _ => None,
    };
    let hint = Hint { file, flaw, like };
    Ok(Some(hint.to_string(alloc)?))
}

/// The line and the column, both from 1, of the place after these bytes. A column counts characters.
fn place_after(before: &[u8]) -> (u64, u64)
    ensures { result ≡ place_after before.now }
{
    before.iter().fold((1, 1), |place, byte| step(place, *byte))
}

/// The place after one more byte.
fn step(place: (u64, u64), byte: u8) -> (u64, u64)
    ensures { result ≡ step place byte }
{
    if byte == b'\n' {
        (place.0.saturating_add(1), 1)
    } else if (0x80..0xc0).contains(&byte) {
        place
    } else {
        (place.0, place.1.saturating_add(1))
    }
}
