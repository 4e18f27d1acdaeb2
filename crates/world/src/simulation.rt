//! A run that comes as a text, and is shown as one.
//!
//! ```
//! let mut source = MemorySource::new(b"tick 0\nsend 0 1\ntake 0 1\n", 4096);
//! let mut sink = MemorySink::new(alloc, 4096)?;
//! let Summary { refused, sweeps, lending } = simulate(alloc, &net, &mut source, &mut sink)?;
//! ```
//!
//! The events text may be as long as [`LONGEST_TEXT`] says; memory is taken only for the network,
//! whatever the length.
ghost use Rattle.std.specs.Prelude.{◌≡◌, ◌≤◌, List, ℕ, Some, IfErr, IfOk};
ghost use Rattle.world.specs.Simulating.{IsSimulated, HasCause, summary_in};
ghost use Rattle.world.specs.SimulatedText.{events_of, simulated_start};
ghost use Rattle.world.specs.StateText.{state_text};
ghost use Rattle.byte_streams.specs.Streams.{WritesAll};
ghost use Rattle.judge.specs.configuration.ConfigurationView.{world_of};
ghost use Rattle.judge.specs.run_model.Run.{run};
ghost use Rattle.world.specs.declared.simulation.SimFault.TheVariants.{Write};

mod line;
mod refusal;
mod state;
mod under_way;

use byte_streams::{Sink, Source};
use judge::World;
use state::write_state;
use std::alloc::{AllocError, Allocator, Global};
use thiserror::Error;
use topology::Net;
use under_way::Simulation;

/// The most bytes of an events text: 1 GiB.
pub const LONGEST_TEXT: usize = 1_073_741_824;

/// The most bytes of one read.
const PIECE: usize = 8192;

/// How many pairs of links are spare at the start of a simulation: that many more edges may join.
const SPARE_PAIRS: u16 = 8;

/// What a simulation has counted.
#[derive(Clone, Copy, Debug, PartialEq, Eq)]
pub struct Summary {
    /// The refused lines, which are those with a refusal line in the output; the count stops at
    /// its greatest value.
    pub refused: u64,
    /// The sweeps since the last accepted damage, or since the start if there was none; the count
    /// stops at its greatest value.
    pub sweeps: u64,
    /// How many nodes lend the lock at the end.
    pub lending: usize,
}

/// What a simulation returns.
#[derive(Drop)]
pub struct Simulated<A: Allocator + Copy = Global> {
    /// What it has counted.
    pub summary: Summary,
    /// The world that its events led to.
    pub world: World<A>,
}

/// Why a simulation failed.
#[derive(Clone, Copy, Debug, PartialEq, Eq, Drop, Error)]
pub enum SimFault {
    /// Memory was refused. Nothing was read or written.
    #[error("Memory")]
    Memory,
    /// The source failed. The refusal lines for the whole lines that it gave were written.
    #[error("Read")]
    Read,
    /// The text has more bytes than `LONGEST_TEXT`. The refusal lines for the whole lines in the
    /// first `LONGEST_TEXT` bytes were written.
    #[error("Long")]
    Long,
    /// The sink failed. Only a beginning of the simulated text was written.
    #[error("Write")]
    Write,
}

impl From<AllocError> for SimFault {
    ghost use Rattle.std.specs.Prelude.{◌≡◌};
    ghost use Rattle.world.specs.declared.simulation.SimFault.TheVariants.{Memory};

    ghost from_gives = { λ _ fault. fault ≡ Memory };

    fn from(_: AllocError) -> Self {
        SimFault::Memory
    }
}

/// Writes the text that shows a world: the status line of each node by ascending id; `link U V
/// items I` for each directed link, by ascending source and then destination; `privileged P
/// lending L`, the numbers of nodes that are privileged and that lend; and `sweeps A of R`, with
/// the given A and with `Net::bound` as R. Each line ends with a newline.
///
/// # Errors
/// [`SimFault::Write`] if the sink failed; then a beginning of the text was written.
pub fn state_text<A: Allocator + Copy, W: Sink>(
    world: &World<A>,
    sweeps: u64,
    sink: &mut W,
) -> Result<(), SimFault>
    ensures text { WritesAll result (state_text (world_of world.now) sweeps) (W.taken sink.old)
        (W.taken sink.new) (W.failures sink.old) (W.failures sink.new) }
    ensures err { IfErr result (λ fault. fault ≡ Write) }
{
    let Ok(()) = write_state(world.configuration(), sweeps, sink) else {
        return Err(SimFault::Write);
    };
    Ok(())
}

/// Runs the events of a text, from fresh nodes, empty links and 8 spare pairs of links, and writes
/// the outcome: for each refused line, as it comes, `line N: NAME`, with lines numbered from 1 and
/// NAME the refusal of its event, or `Unread`; and at the end the text of the world, as
/// [`state_text`] writes it with the count of sweeps since the last accepted damage.
///
/// # Errors
/// The first that happens: [`SimFault::Memory`], before anything is read; [`SimFault::Read`] if
/// the source failed; [`SimFault::Long`] if it gave more bytes than [`LONGEST_TEXT`];
/// [`SimFault::Write`] if the sink failed.
pub fn simulate<A: Allocator + Copy, N: Allocator + Copy, R: Source, W: Sink>(
    alloc: A,
    net: &Net<N>,
    source: &mut R,
    sink: &mut W,
) -> Result<Summary, SimFault>
    // If the source shows its bytes: what was read and written, case by case.
    ensures text { (bytes : List ℕ) → R.rest source.old ≡ Some bytes
        → IsSimulated (simulated_start net.now) bytes (R.rest source.new) (W.taken sink.old)
        (W.taken sink.new) result }
    // Failures are counted, and no count falls.
    ensures counts { (R.failures source.old ≤ R.failures source.new)
        × (W.failures sink.old ≤ W.failures sink.new) }
    // The fault `Read` is returned only if the source failed, and `Write` only if the sink failed.
    ensures cause { HasCause result (R.failures source.old) (R.failures source.new)
        (W.failures sink.old) (W.failures sink.new) }
{
    match simulate_to(alloc, net, source, sink) {
        Ok(simulated) => Ok(simulated.summary),
        Err(fault) => Err(fault),
    }
}

/// Does the same as [`simulate`], and also returns the world that the events led to.
///
/// # Errors
/// Those of [`simulate`].
pub fn simulate_to<A: Allocator + Copy, N: Allocator + Copy, R: Source, W: Sink>(
    alloc: A,
    net: &Net<N>,
    source: &mut R,
    sink: &mut W,
) -> Result<Simulated<A>, SimFault>
    ensures text { (bytes : List ℕ) → R.rest source.old ≡ Some bytes
        → IsSimulated (simulated_start net.now) bytes (R.rest source.new) (W.taken sink.old)
        (W.taken sink.new) (summary_in (λ simulated. simulated.summary) result) }
    // The world is that to which the events of the text lead.
    ensures led { (bytes : List ℕ) → R.rest source.old ≡ Some bytes
        → IfOk result (λ simulated. world_of simulated.world
        ≡ run (simulated_start net.now) (events_of bytes)) }
    ensures counts { (R.failures source.old ≤ R.failures source.new)
        × (W.failures sink.old ≤ W.failures sink.new) }
    ensures cause { HasCause result (R.failures source.old) (R.failures source.new)
        (W.failures sink.old) (W.failures sink.new) }
{
    let world = World::with_spares(alloc, net, SPARE_PAIRS)?;
    let mut simulation = Simulation::new(world);
    simulation.read_all(source, sink)?;
    let summary = simulation.finish(sink)?;
    Ok(Simulated {
        summary,
        world: simulation.into_world(),
    })
}
