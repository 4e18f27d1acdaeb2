//! `threads FILE TURNS`: runs each node of a network on its own thread, and shows the state that
//! this leads to.
ghost use Rattle.std.specs.Prelude.{◌≡◌, [], IfOk, IfErr, OnOk};
ghost use Rattle.std.specs.Io.Buffered.{writer_buffer, writer_contents};
ghost use Rattle.byte_streams.specs.Streams.{Rose};
ghost use Rattle.command_parts.specs.world.run_model.Start.{default_world};
ghost use Rattle.command_parts.specs.world.judge.configuration.ConfigurationView.{world_of};
ghost use Rattle.command_parts.specs.EventText.{GrowsByText};
ghost use Rattle.live_commands.specs.Threads.{AllRan, IsStateWritten, IsUnwritten, refused};
ghost use Rattle.command_parts.specs.command_faults.Ends.{DoneMeansZero};
ghost use Rattle.command_parts.specs.command_faults.declared.fault.Fault.TheVariants.{EventsUnwritable, Memory};
ghost use Rattle.command_parts.specs.command_faults.declared.fault.Fault.TheVariants.{Output};

mod progress;
mod together;

use command_parts::{
    Event, EventText, Fault, Flush, World, WriteSink, give_events, judge, read_network, state_text,
};
use progress::ProgressGate;
use std::alloc::Global;
use std::fs;
use std::io::{BufWriter, Write, writer};
use std::process::ExitCode;
use std::rt::Files;
use std::sync::Wait;
use std::thread::Threads;
use std::time::Clock;
use thread_net::{Gate, RunFault, Woven, run_threads};
use topology::Net;

/// Runs each node of the network of a file on its own thread, from fresh nodes and empty links,
/// and prints the state that they lead to, with the sweeps of what they did. Writes what they did
/// to the file `events`, if one is named, as an events text. If `says` is set, a line on standard
/// error shows the progress.
///
/// # Errors
/// If no network is read from the file, memory runs out, a thread is refused, the events cannot be
/// written, or standard output does not take the text: the first of these that is met.
pub fn run<R: Files + Clock + Print + Eprint + Threads + Wait + Sync + AllocGlobal>(
    rt: &R,
    network: &str,
    turns: u32,
    events: Option<&str>,
    says: bool,
) -> Result<ExitCode, Fault>
    ensures { DoneMeansZero result }
{
    let net = read_network(rt, network)?;
    let start = new_world(rt.alloc(), &net)?;
    let woven = run_watched(rt, &net, turns, says)?;
    show(rt, start, &woven, events)
}

/// What the nodes of a network do on threads; if `says` is set, a line shows the progress.
fn run_watched<R: Clock + Eprint + Threads + Wait + Sync + AllocGlobal>(
    rt: &R,
    net: &Net,
    turns: u32,
    says: bool,
) -> Result<Woven, Fault>
    ensures { IfOk result (AllRan turns net.now) }
{
    let watch = ProgressGate::start(rt, net.nodes(), turns, says);
    let ran = run_nodes(rt, rt.alloc(), net, turns, &watch);
    watch.end();
    ran
}

/// Writes what the nodes did from the start to the file `events`, if one is named, and prints the
/// state that it led to.
fn show<R: Files + Print + Eprint + AllocGlobal>(
    rt: &R,
    start: World,
    woven: &Woven,
    events: Option<&str>,
) -> Result<ExitCode, Fault>
    ensures ok { DoneMeansZero result }
    ensures err { IfErr result IsUnwritten }
{
    if let Some(path) = events {
        write_file(rt, path, woven.events.as_slice())?;
    }
    print_state(rt, start, woven)?;
    Ok(ExitCode::SUCCESS)
}

/// The world of fresh nodes and empty links.
fn new_world(alloc: Global, net: &Net) -> Result<World, Fault>
    ensures ok { IfOk result (λ world. world_of world ≡ default_world net.now) }
    ensures err { IfErr result (λ fault. fault ≡ Memory) }
{
    match World::new(alloc, net) {
        Ok(world) => Ok(world),
        Err(_) => Err(Fault::Memory),
    }
}

/// What the nodes of a network do on threads, from this world on.
fn run_nodes<R: Threads + Wait + Sync, G: Gate>(
    rt: &R,
    alloc: Global,
    net: &Net,
    turns: u32,
    gate: &G,
) -> Result<Woven, Fault>
    ensures { IfOk result (AllRan turns net.now) }
{
    let start = new_world(alloc, net)?;
    match run_threads(rt, alloc, start, turns, gate) {
        Ok(woven) => Ok(woven),
        Err(fault) => Err(refused(&fault)),
    }
}

/// The program's fault for what was refused.
fn refused(fault: &RunFault) -> Fault
    ensures { result ≡ refused fault.now }
{
    match fault {
        RunFault::Memory(_) => Fault::Memory,
        RunFault::Spawn(_) => Fault::Threads,
    }
}

/// Writes the events text of what nodes did to a file, line by line.
///
/// What is unproved: that the text reaches the file, which does not show its bytes.
fn write_file<R: Files + AllocGlobal>(rt: &R, path: &str, events: &[Event]) -> Result<(), Fault>
    ensures { IfErr result IsUnwritten }
{
    let file = fs::create(rt, path).map_err(|_| Fault::EventsUnwritable)?;
    let Ok(writer) = BufWriter::new(rt.alloc(), file) else {
        return Err(Fault::Memory);
    };
    write_events(events, &mut EventText::new(writer))
}

/// Writes the lines of all events.
fn write_events<W: Write + Drop>(events: &[Event], text: &mut EventText<W>) -> Result<(), Fault>
    // If the writer says what its bytes are, they are the text.
    ensures text { OnOk result (GrowsByText (writer_contents W.contents text.old.writer) events.now
        (writer_contents W.contents text.new.writer)) }
    ensures written { OnOk result (writer_buffer text.new.writer ≡ []) }
    // A fault only if the writer failed.
    ensures cause { IfErr result (λ fault. (fault ≡ EventsUnwritable)
        × Rose text.old.failures text.new.failures) }
{
    let given = give_events(events, text);
    let flushed = text.flush();
    if given.is_err() {
        return Err(Fault::EventsUnwritable);
    }
    match flushed {
        Ok(()) => Ok(()),
        Err(_) => Err(Fault::EventsUnwritable),
    }
}

/// Prints the state to which the nodes have led from a start.
///
/// What is unproved: that the text reaches standard output, which does not show its bytes.
fn print_state<R: Print + Eprint + AllocGlobal>(
    rt: &R,
    start: World,
    woven: &Woven,
) -> Result<(), Fault>
    ensures { IfErr result IsUnwritten }
{
    let Ok(output) = BufWriter::new(rt.alloc(), writer(rt)) else {
        return Err(Fault::Memory);
    };
    let mut sink = WriteSink::new(output);
    match write_state(start, woven, &mut sink) {
        Ok(()) => Ok(()),
        Err(fault) => Err(sink.fault(rt, fault)),
    }
}

/// Judges what nodes did from a start on, and writes the whole state that it led to, with the
/// sweeps that the judge has counted.
///
/// # Errors
/// [`Fault::Output`] if the sink fails.
pub fn write_state<W: Flush>(start: World, woven: &Woven, sink: &mut W) -> Result<(), Fault>
    ensures text { OnOk result (IsStateWritten (world_of start) woven.now.events.items
        (world_of woven.now.world) (W.taken sink.old) (W.taken sink.new)) }
    ensures written { OnOk result (W.unwritten sink.new ≡ []) }
    ensures err { IfErr result
        (λ fault. (fault ≡ Output) × Rose (W.failures sink.old) (W.failures sink.new)) }
{
    let report = judge(start, woven.events.as_slice());
    let Ok(()) = state_text(&woven.world, report.sweeps, sink) else {
        return Err(Fault::Output);
    };
    match sink.flush() {
        Ok(()) => Ok(()),
        Err(_) => Err(Fault::Output),
    }
}
