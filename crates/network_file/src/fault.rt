//! Why a file gives no network.
ghost use Rattle.std.specs.Prelude.{Some};
ghost use Rattle.network_file.specs.FaultText.{network_fault_text};

use std::fmt;
use topology::NetFault;

/// Why a file gives no network. Printed, it is what a fault line has after `tokentree: `.
#[derive(Clone, Copy, Debug, PartialEq, Eq, Drop)]
pub enum NetworkFault {
    /// The file cannot be read, or has too many bytes.
    Unreadable,
    /// The file was read, and its text is no network.
    Refused(NetFault),
}

impl fmt::Display for NetworkFault {
    ghost output = { λ fault. Some (network_fault_text fault) };

    fn fmt<W: fmt::Write>(&self, f: &mut fmt::Formatter<W>) -> fmt::Result {
        match *self {
            NetworkFault::Unreadable => f.write_str("network Unreadable"),
            NetworkFault::Refused(fault) => {
                f.write_str("network ")?;
                f.write_str(fault.name())
            }
        }
    }
}

impl std::error::Error for NetworkFault {}
