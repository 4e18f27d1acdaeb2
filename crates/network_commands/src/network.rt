//! `network KIND N`: the network file of a usual graph.
ghost use Rattle.std.specs.Prelude.{◌≡◌, ◌⊎◌, IfOk, IfErr, Ok, string_bytes};
ghost use Rattle.command_faults.specs.Ends.{DoneMeansZero};
ghost use Rattle.command_faults.specs.Output.{IsUntaken};
ghost use Rattle.command_faults.specs.declared.fault.Fault.TheVariants.{Memory};
ghost use Rattle.network_commands.specs.Named.{IsTextOf, IsUnnamed};
ghost use Rattle.topology.specs.Reading.{read_text};
ghost use Rattle.topology.specs.Refusal.{values_of};

use crate::bound::done;
use command_faults::{Fault, NetworkFault, printed};
use network_kinds::{Kind, network_of, network_text};
use std::alloc::Global;
use std::process::ExitCode;
use topology::Net;

/// The network to make.
#[derive(Clone, Copy)]
pub struct WantedNetwork {
    /// Its kind.
    pub kind: Kind,
    /// How many nodes it has.
    pub nodes: u16,
    /// Its root.
    pub root: u16,
    /// How many items each direction of an edge holds.
    pub capacity: u16,
    /// The most ticks of a loan; 0 is no limit.
    pub lease: u16,
}

/// Prints the network file of this network.
///
/// # Errors
/// If there is no such network, memory runs out, or standard output fails.
pub fn run<R: Print + Eprint + AllocGlobal>(
    rt: &R,
    wanted: WantedNetwork,
) -> Result<ExitCode, Fault>
    ensures ok { DoneMeansZero result }
    ensures err { IfErr result (λ fault. IsUnnamed wanted fault ⊎ IsUntaken fault) }
{
    let text = named_text(rt.alloc(), wanted)?;
    done(printed(rt, rt.print(text.as_str())))
}

/// The network file of this network.
///
/// # Errors
/// If there is no such network, with the first fault of its numbers and edges; or if memory runs out.
#[tactic(auto, using(crate::proofs::Naming::named_if, crate::proofs::Naming::unnamed_if))]
pub fn named_text(alloc: Global, wanted: WantedNetwork) -> Result<String, Fault>
    // It reads as the network with these numbers and exactly the edges of the kind.
    ensures text { IfOk result (λ text. IsTextOf wanted (string_bytes text)) }
    ensures err { IfErr result (IsUnnamed wanted) }
{
    let made = network_of(
        alloc,
        wanted.kind,
        wanted.nodes,
        wanted.root,
        wanted.capacity,
        wanted.lease,
    );
    match made {
        Ok(net) => text_of(alloc, &net),
        Err(fault) => Err(Fault::from(NetworkFault::Refused(fault))),
    }
}

/// The network file of a network.
///
/// # Errors
/// If memory runs out.
fn text_of(alloc: Global, net: &Net) -> Result<String, Fault>
    ensures text { IfOk result (λ text. read_text (string_bytes text) ≡ Ok (values_of net.now)) }
    ensures err { IfErr result (λ fault. fault ≡ Memory) }
{
    network_text(alloc, net).map_err(|_| Fault::Memory)
}
