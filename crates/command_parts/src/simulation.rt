//! A simulation that writes all its text, and the status of a run of events.
ghost use Rattle.std.specs.Prelude.{◌≡◌, ℕ, List, [], Some, ◌==◌, if◌then◌else◌, IfOk, OnOk};
ghost use Rattle.std.specs.Process.{exit_status};
ghost use Rattle.world.specs.Simulating.{summary_in};
ghost use Rattle.world.specs.SimulatedText.{events_of, simulated_start};
ghost use Rattle.world.specs.judge.configuration.ConfigurationView.{world_of};
ghost use Rattle.world.specs.run_model.Run.{run};
ghost use Rattle.command_parts.specs.Simulated.{IsCaused, IsDone};
ghost use Rattle.command_parts.specs.SimulationFault.{fault_of};

use crate::streams::Flush;
use command_faults::Fault;
use std::alloc::Global;
use std::process::ExitCode;
use topology::Net;
use world::simulation::{SimFault, Simulated, simulate_to};
use world::streams::Source;

/// The name that means standard input, in place of a file of events.
pub const STANDARD_INPUT: &str = "-";

/// The status if a line was refused.
const LINES_REFUSED: u8 = 3;

/// Simulates from the source to the sink, and writes all its text or, after a fault, the text up to
/// there.
///
/// What is unproved: that the bytes that were simulated are those of the file or of standard
/// input, and that the text reaches standard output. Neither end shows its bytes, so for them the
/// contract only says when a fault comes. For ends that show theirs it says all that [`simulate_to`]
/// says.
///
/// # Errors
/// If memory runs out, the source fails or gives too many bytes, or the sink fails.
pub fn simulate_between<S: Source, W: Flush>(
    alloc: Global,
    net: &Net,
    source: &mut S,
    sink: &mut W,
) -> Result<Simulated, Fault>
    // If both ends show their bytes, this is a simulation of them.
    ensures text { (bytes : List ℕ) → S.rest source.old ≡ Some bytes
        → IsDone (simulated_start net.now) bytes (S.rest source.new) (W.taken sink.old)
        (W.taken sink.new) (summary_in (λ simulated. simulated.summary) result) }
    // The world is the one that the events lead to.
    ensures led { (bytes : List ℕ) → S.rest source.old ≡ Some bytes
        → IfOk result (λ simulated. world_of simulated.world
        ≡ run (simulated_start net.now) (events_of bytes)) }
    ensures written { OnOk result (W.unwritten sink.new ≡ []) }
    // A fault of the events comes only if the source failed, one of the output only if the sink
    // did.
    ensures cause { IsCaused result (S.failures source.old) (S.failures source.new)
        (W.failures sink.old) (W.failures sink.new) }
{
    let simulated = simulate_to(alloc, net, source, sink);
    let flushed = sink.flush();
    match (simulated, flushed) {
        (Ok(simulated), Ok(())) => Ok(simulated),
        (Ok(_), Err(_)) => Err(Fault::Output),
        (Err(fault), _) => Err(simulation_fault(fault)),
    }
}

/// The fault of a command whose simulation ended with this one.
pub fn simulation_fault(fault: SimFault) -> Fault
    ensures { result ≡ fault_of fault }
{
    match fault {
        SimFault::Memory => Fault::Memory,
        SimFault::Read => Fault::EventsUnreadable,
        SimFault::Long => Fault::EventsLong,
        SimFault::Write => Fault::Output,
    }
}

/// The status of a command that read a text of events with this many refused lines.
pub fn events_status(refused: u64) -> ExitCode
    ensures { exit_status result ≡ (if refused == 0 then 0 else 3) }
{
    if refused == 0 {
        ExitCode::SUCCESS
    } else {
        ExitCode::from(LINES_REFUSED)
    }
}
