//! The file of the records' network: the one that is given, or the one that the nodes kept.
ghost use Rattle.std.specs.Prelude.{◌≡◌, IfOk, option_map, string_bytes};
ghost use Rattle.gather_command.specs.Network.{network_path};

use command_parts::Fault;
use node_recorder::network_name;
use std::alloc::{AllocError, Global};
use std::fmt;

/// The path of the file that is given, or else of the one in which the nodes of a folder keep their
/// network.
///
/// # Errors
/// If memory runs out.
pub fn network_path(alloc: Global, dir: &str, network: Option<&str>) -> Result<String, AllocError>
    ensures { IfOk result (λ path. string_bytes path
        ≡ network_path dir.now (option_map (λ file. file.now) network.entry)) }
{
    match network {
        Some(file) => String::from_str(alloc, file),
        None => network_name(alloc, dir),
    }
}

/// That the nodes kept no network in this file, why not, and what to do, as a line without its
/// newline.
#[derive(Clone, Copy)]
pub struct NoneKeptLine<'a> {
    /// The file.
    pub path: &'a str,
    /// Why.
    pub fault: Fault,
}

impl fmt::Display for NoneKeptLine<'_> {
    ghost use Rattle.std.specs.Prelude.{Some};
    ghost use Rattle.gather_command.specs.Network.{none_kept_line};

    ghost output = { λ line. Some (none_kept_line line.path.now line.fault) };

    fn fmt<W: fmt::Write>(&self, f: &mut fmt::Formatter<W>) -> fmt::Result {
        let (path, fault) = (self.path, self.fault);
        write!(
            f,
            "no network is kept in {path} ({fault}); give --network FILE"
        )
    }
}
