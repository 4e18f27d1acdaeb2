//! The names of a record's two files.
ghost use Rattle.std.specs.Prelude.{◌≡◌, IfOk, string_bytes};
ghost use Rattle.node_recorder.specs.flight_recorder.Names.{record_name};
ghost use Rattle.node_recorder.specs.flight_recorder.declared.recorder.Side.TheVariants.{First, Second};
ghost use Rattle.record_files.specs.Files.{of_side};

use node_recorder::{Side, record_name};
use std::alloc::{AllocError, Global};

/// The names of a record's two files.
#[derive(Drop)]
pub struct RecordNames {
    /// The name of the file that is written first.
    pub first: String,
    /// The name of the other file.
    pub second: String,
}

impl RecordNames {
    /// The names for node `id` in a folder: DIR/record-ID.0 and DIR/record-ID.1.
    ///
    /// # Errors
    /// If memory runs out.
    pub fn new(alloc: Global, dir: &str, id: u16) -> Result<RecordNames, AllocError>
        ensures { IfOk result (λ names. (string_bytes names.first ≡ record_name dir.now id First)
            × (string_bytes names.second ≡ record_name dir.now id Second)) }
    {
        Ok(RecordNames {
            first: record_name(alloc, dir, id, Side::First)?,
            second: record_name(alloc, dir, id, Side::Second)?,
        })
    }

    /// The name of one of them.
    pub fn of(&self, side: Side) -> &str
        ensures { result.now
            ≡ of_side side (string_bytes self.now.first) (string_bytes self.now.second) }
    {
        match side {
            Side::First => self.first.as_str(),
            Side::Second => self.second.as_str(),
        }
    }
}
