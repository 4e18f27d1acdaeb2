//! The name of the network's file beside the records.
ghost use Rattle.std.specs.Prelude.{◌≡◌, IfOk, string_bytes};
ghost use Rattle.node_recorder.specs.Names.{network_name};

use std::alloc::{AllocError, Global};

/// The name of the file in which the nodes of a folder keep their network's text, beside their records.
///
/// # Errors
/// If memory runs out.
pub fn network_name(alloc: Global, dir: &str) -> Result<String, AllocError>
    ensures { IfOk result (λ name. string_bytes name ≡ network_name dir.now) }
{
    format!(in alloc; "{dir}/record.toml")
}
