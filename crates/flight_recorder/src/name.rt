//! The names of a record's files.
ghost use Rattle.std.specs.Prelude.{◌≡◌, IfOk, string_bytes};
ghost use Rattle.flight_recorder.specs.Names.{record_name, side_number};

use crate::recorder::Side;
use std::alloc::{AllocError, Global};

/// The name of a file of the record of node `id` in a folder.
///
/// # Errors
/// If memory runs out.
pub fn record_name(alloc: Global, dir: &str, id: u16, side: Side) -> Result<String, AllocError>
    ensures { IfOk result (λ name. string_bytes name ≡ record_name dir.now id side) }
{
    let number = side_number(side);
    format!(in alloc; "{dir}/record-{id}.{number}")
}

/// The number of a file of a record.
fn side_number(side: Side) -> u8
    ensures { result ≡ side_number side }
{
    match side {
        Side::First => 0,
        Side::Second => 1,
    }
}
