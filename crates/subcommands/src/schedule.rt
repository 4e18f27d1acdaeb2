//! `schedule FILE`: the events of a schedule for a network.
ghost use Rattle.std.specs.Prelude.{◌≡◌, ◌⊎◌, [], Err, IfErr, OnOk, option_map};
ghost use Rattle.std.specs.Io.Buffered.{writer_buffer, writer_contents};
ghost use Rattle.command_parts.specs.command_faults.Ends.{DoneMeansZero};
ghost use Rattle.byte_streams.specs.Streams.{Rose};
ghost use Rattle.experiments.specs.Plan.{planned};
ghost use Rattle.subcommands.specs.PlanFault.{fault_of};
ghost use Rattle.command_parts.specs.EventText.{GrowsByText};
ghost use Rattle.subcommands.specs.Damaged.{seeded};
ghost use Rattle.subcommands.specs.Turns.{order_of};
ghost use Rattle.network_commands.specs.Faults.{IsUnprinted};
ghost use Rattle.command_parts.specs.command_faults.declared.fault.Fault.TheVariants.{Memory, Output};

use command_parts::{EventText, Fault, read_network};
use experiments::{Chances, Order, PlanFault, give_plan};
use rand_core::SeedableRng;
use rand_pcg::Lcg64Xsh32;
use std::alloc::Global;
use std::io::{BufWriter, Write, writer};
use std::process::ExitCode;
use std::rt::Files;
use topology::Net;

/// What follows the scramble.
#[derive(Clone, Copy)]
pub enum Turns {
    /// This many rounds.
    Rounds(u32),
    /// Steps drawn from a seed.
    Random {
        /// How many.
        steps: u32,
        /// The seed.
        seed: u32,
        /// The steps other than ticks, sends and takes.
        chances: Chances,
    },
}

impl Turns {
    /// The order, with the generator of its seed.
    pub fn order(self) -> Order
        ensures { result ≡ order_of self }
    {
        match self {
            Turns::Rounds(count) => Order::Rounds {
                count: u64::from(count),
            },
            Turns::Random {
                steps,
                seed,
                chances,
            } => Order::Random {
                steps: u64::from(steps),
                chances,
                generator: seeded(seed),
            },
        }
    }
}

/// The generator of a seed.
pub fn seeded(seed: u32) -> Lcg64Xsh32
    ensures { result ≡ seeded seed }
{
    Lcg64Xsh32::seed_from_u64(u64::from(seed))
}

/// The fault of a command whose schedule failed.
fn fault_of(fault: PlanFault) -> Fault
    ensures { result ≡ fault_of fault }
{
    match fault {
        PlanFault::Memory => Fault::Memory,
        PlanFault::Sink => Fault::Output,
    }
}

/// Prints the events text of a schedule for the network of a file: the damage of a scramble, if a
/// seed is given, and then its turns, with loans of `loan` ticks, if that is given.
///
/// What is unproved: that the text reaches standard output, which does not show its bytes.
///
/// # Errors
/// If the file gives no network, memory runs out, or standard output fails: the first of these
/// that happens.
pub fn run<R: Files + Print + Eprint + AllocGlobal>(
    rt: &R,
    network: &str,
    scramble: Option<u32>,
    loan: Option<u16>,
    turns: Turns,
) -> Result<ExitCode, Fault>
    ensures ok { DoneMeansZero result }
    ensures err { IfErr result IsUnprinted }
{
    let net = read_network(rt, network)?;
    let Ok(output) = BufWriter::new(rt.alloc(), writer(rt)) else {
        return Err(Fault::Memory);
    };
    let mut text = EventText::new(output);
    match write_plan(rt.alloc(), &net, scramble, loan, turns, &mut text) {
        Ok(()) => Ok(ExitCode::SUCCESS),
        Err(fault) => Err(text.fault(rt, fault)),
    }
}

/// Writes the lines of a schedule's events: the damage of a scramble, if a seed is given, and then
/// its turns. It writes all of the lines; after a fault, those up to the fault. If `loan` is given,
/// whoever has the lock releases it after that many ticks of its node; 0 counts as 1.
///
/// # Errors
/// If memory runs out, or the writer fails.
pub fn write_plan<W: Write + Drop>(
    alloc: Global,
    net: &Net,
    scramble: Option<u32>,
    loan: Option<u16>,
    turns: Turns,
    text: &mut EventText<W>,
) -> Result<(), Fault>
    // If the writer shows its bytes, they are the text.
    ensures text { OnOk result (GrowsByText (writer_contents W.contents text.old.writer)
        (planned net.now (option_map seeded scramble) loan (order_of turns))
        (writer_contents W.contents text.new.writer)) }
    ensures written { OnOk result (writer_buffer text.new.writer ≡ []) }
    // A fault is one of memory or of the output, the latter only if the writer failed.
    ensures fault { IfErr result (λ fault. (fault ≡ Memory) ⊎ (fault ≡ Output)) }
    ensures cause { result ≡ Err Output → Rose text.old.failures text.new.failures }
{
    let given = give_plan(alloc, net, scramble.map(seeded), loan, turns.order(), text);
    let flushed = text.flush();
    match (given, flushed) {
        (Err(fault), _) => Err(fault_of(fault)),
        (Ok(()), Err(_)) => Err(Fault::Output),
        (Ok(()), Ok(())) => Ok(()),
    }
}
