//! Why a command fails.
ghost use Rattle.std.specs.Prelude.{Some, ◌≡◌};
ghost use Rattle.command_faults.specs.FaultText.{fault_text};
ghost use Rattle.command_faults.specs.declared.fault.Fault.TheVariants.{Network};

use network_file::NetworkFault;
use std::fmt;

/// Why a command ends with status 1, or quietly if the reader of standard output is gone. Printed,
/// it is the fault's line without `tokentree: `.
#[derive(Clone, Copy, Debug, PartialEq, Eq, Drop)]
pub enum Fault {
    /// The network file gives no network.
    Network(NetworkFault),
    /// The network has no node of the id that was given.
    NoNode,
    /// The events file cannot be opened, or a read of the events failed.
    EventsUnreadable,
    /// The events text is too long.
    EventsLong,
    /// Memory ran out in the command's own work.
    Memory,
    /// Standard output failed.
    Output,
    /// The reader of standard output is gone.
    Closed,
    /// The file for the events cannot be written.
    EventsUnwritable,
    /// A thread could not be started.
    Threads,
}

impl fmt::Display for Fault {
    ghost output = { λ fault. Some (fault_text fault) };

    fn fmt<W: fmt::Write>(&self, f: &mut fmt::Formatter<W>) -> fmt::Result {
        match *self {
            Fault::Network(fault) => f.write(fault),
            Fault::NoNode => f.write_str("the network has no such node"),
            Fault::EventsUnreadable => f.write_str("the events cannot be read"),
            Fault::EventsLong => f.write_str("the events are too long"),
            Fault::Memory => f.write_str("out of memory"),
            Fault::Output => f.write_str("standard output cannot be written"),
            Fault::Closed => f.write_str("nobody reads standard output"),
            Fault::EventsUnwritable => f.write_str("the file for the events cannot be written"),
            Fault::Threads => f.write_str("a thread cannot be started"),
        }
    }
}

impl std::error::Error for Fault {}

impl From<NetworkFault> for Fault {
    ghost from_gives = { λ refused fault. fault ≡ Network refused };

    fn from(refused: NetworkFault) -> Fault {
        Fault::Network(refused)
    }
}
