//! `simulate FILE EVENTS`: replays a list of events on a network.
ghost use Rattle.std.specs.Prelude.{◌≡◌, option_map};
ghost use Rattle.command_parts.specs.command_faults.Ends.{DoneMeansZeroOr};
ghost use Rattle.subcommands.specs.Hints.{loan_hint};

use crate::layers_text::layers_text;
use command_parts::{
    Fault, ReadSource, Returns, STANDARD_INPUT, Simulated, Summary, World, WriteSink,
    events_status, printed, read_network, return_hint, say_hint, simulate_between,
};
use std::fs;
use std::io::{BufWriter, Input, Read, writer};
use std::process::ExitCode;
use std::rt::Files;
use topology::Net;

/// Prints what the events of a file, or of standard input for `-`, lead to on the network of a
/// file, and with `layers` what has settled. Then it prints hints on standard error, each on a line
/// of its own: that lines were refused because they end in a carriage return, if that is so, and
/// what holds up the sweeps, if anything does.
///
/// # Errors
/// If the file gives no network, the events cannot be read or are too long, memory runs out, or
/// standard output fails: the first of these that happens.
pub fn run<R: Files + Input + Print + Eprint + AllocGlobal>(
    rt: &R,
    network: &str,
    events: &str,
    layers: bool,
) -> Result<ExitCode, Fault>
    ensures { DoneMeansZeroOr 3 result }
{
    let net = read_network(rt, network)?;
    let summary = if events == STANDARD_INPUT {
        print_simulation(rt, &net, rt.reader(), layers)?
    } else {
        let file = fs::open(rt, events).map_err(|_| Fault::EventsUnreadable)?;
        print_simulation(rt, &net, file, layers)?
    };
    Ok(events_status(summary.refused))
}

/// Prints what the events of a reader lead to, and then the hints.
fn print_simulation<R: Print + Eprint + AllocGlobal, E: Read + Drop>(
    rt: &R,
    net: &Net,
    events: E,
    layers: bool,
) -> Result<Summary, Fault> {
    let Ok(output) = BufWriter::new(rt.alloc(), writer(rt)) else {
        return Err(Fault::Memory);
    };
    let mut source = Returns::new(ReadSource::new(events));
    let mut sink = WriteSink::new(output);
    let simulated = match simulate_between(rt.alloc(), net, &mut source, &mut sink) {
        Ok(simulated) => simulated,
        Err(fault) => return Err(sink.fault(rt, fault)),
    };
    let Simulated { summary, world } = simulated;
    if layers {
        print_layers(rt, &world)?;
    }
    say_hint(rt, return_hint(summary.refused, source.were_seen()));
    say_hint(rt, loan_hint(net.lease(), net.bound(), &summary));
    Ok(summary)
}

/// Prints what has settled of a world.
fn print_layers<R: Print + Eprint + AllocGlobal>(rt: &R, world: &World) -> Result<(), Fault> {
    let text = layers_text(rt.alloc(), world).map_err(|_| Fault::Memory)?;
    printed(rt, rt.print(text.as_str()))
}

/// The hint if there were too few sweeps and a loan that no lease ends holds them up.
fn loan_hint(lease: u16, bound: u32, summary: &Summary) -> Option<&'static str>
    ensures { option_map (λ text. text.now) result ≡ loan_hint lease bound summary.now }
{
    if lease == 0 && summary.lending > 0 && summary.sweeps < u64::from(bound) {
        Some("a node lends the lock without a lease: no sweep ends until its ticket leaves")
    } else {
        None
    }
}
