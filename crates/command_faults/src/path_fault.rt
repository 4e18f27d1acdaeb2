//! Why a command that changes a file fails.
ghost use Rattle.std.specs.Prelude.{Some, ◌≡◌};
ghost use Rattle.command_faults.specs.PathFaultText.{path_fault_text};
ghost use Rattle.command_faults.specs.declared.fault.Fault.TheVariants.{Network};
ghost use Rattle.command_faults.specs.declared.path_fault.PathFault.TheVariants.{Fault as Said};

use crate::fault::Fault;
use network_file::NetworkFault;
use std::fmt;

/// Why a command that changes a file ends with status 1. Printed, it is the fault's line without
/// `tokentree: `.
#[derive(Clone, Copy, Debug, Drop)]
pub enum PathFault<'a> {
    /// A fault that any command may have.
    Fault(Fault),
    /// The file of this path cannot be written, or is no plain file.
    Unwritable(&'a str),
}

impl fmt::Display for PathFault<'_> {
    ghost output = { λ fault. Some (path_fault_text fault) };

    fn fmt<W: fmt::Write>(&self, f: &mut fmt::Formatter<W>) -> fmt::Result {
        match *self {
            PathFault::Fault(fault) => f.write(fault),
            PathFault::Unwritable(path) => {
                f.write_str("cannot write ")?;
                f.write_str(path)
            }
        }
    }
}

impl std::error::Error for PathFault<'_> {}

impl From<NetworkFault> for PathFault<'_> {
    ghost from_gives = { λ refused said. said ≡ Said (Network refused) };

    fn from(refused: NetworkFault) -> Self {
        PathFault::Fault(Fault::Network(refused))
    }
}

impl From<Fault> for PathFault<'_> {
    ghost from_gives = { λ fault said. said ≡ Said fault };

    fn from(fault: Fault) -> Self {
        PathFault::Fault(fault)
    }
}
