//! `gather DIR`: what the nodes of a folder did, as a list of events.
ghost use Rattle.std.specs.Prelude.{◌≡◌, ◌⊎◌, [], IfOk, IfErr, Err, None, OnOk, is_some, length};
ghost use Rattle.std.specs.Io.Buffered.{writer_buffer, writer_contents};
ghost use Rattle.std.specs.Process.{exit_status};
ghost use Rattle.command_parts.specs.command_faults.Ends.{DoneMeansZeroOr};
ghost use Rattle.command_parts.specs.EventText.{GrowsByText};
ghost use Rattle.command_parts.specs.command_faults.declared.fault.Fault.TheVariants.{Memory, Network};
ghost use Rattle.gather_command.specs.Reading.{MayFail, Reads, Begins};
ghost use Rattle.gather_command.specs.Gathered.{IsRefused};
ghost use Rattle.gather_command.specs.Part.{IsGatheredAs};
ghost use Rattle.gather_command.specs.Ends.{EndsWith, flaws_status, print_fault};
ghost use Rattle.gather_command.specs.Ends.{IsPrintFault, PrintingEndsWith};
ghost use Rattle.gather_command.specs.Network.{network_by, IsNetworkBy};

use crate::damage::Difference;
use crate::fault::{Flaw, GatherFault};
use crate::folder::FolderRecords;
use crate::gathered::Gathered;
use crate::lines::{
    DifferenceLine, DifferencesLine, FlawLine, FoundLine, GatherFaultLine, LoansLine, StretchLine,
};
use crate::network::{NoneKeptLine, network_path};
use crate::part::gather_stretch;
use crate::records::Records;
use crate::stretch::TimeStretch;
use crate::summary::RecordingSummary;
use command_parts::{EventText, Fault, NetworkFault, read_network};
use std::alloc::Global;
use std::fs;
use std::io::{BufWriter, Write, writer};
use std::process::ExitCode;
use std::rt::Files;
use topology::Net;

/// Prints what the nodes of a file's network did in a stretch of time, according to their records
/// in a folder, as a list of events, one a line. If no file is given, the network is the one that
/// the nodes kept there. If the stretch does not begin with the records, the list begins with
/// events that set up the network as it stood then. Afterwards a line on standard error names each
/// file that was not read to its end, another line names each of the first fields that differed
/// from what their nodes' records led to, and four lines say in numbers what the list shows. The
/// status is 1 if a file was not read to its end, if a record gives no events, if there is no such
/// folder, or if no network was kept there; then a line on standard error says which and why.
///
/// It is unproved which network the file gives, that the entries that are woven are those of the
/// folder's files, that the text reaches standard output, and what is said on standard error:
/// neither the files nor the outputs say what their bytes are. [`gather_text`] says what list is
/// made of given entries.
///
/// # Errors
/// If the file that is given gives no network, memory runs out, or standard output fails. Then the
/// beginning of the list may have been printed.
pub fn run<R: Files + Print + Eprint + AllocGlobal>(
    rt: &R,
    dir: &str,
    network: Option<&str>,
    stretch: TimeStretch,
) -> Result<ExitCode, Fault>
    ensures { DoneMeansZeroOr 1 result }
{
    let Some(net) = network_of(rt, dir, network)? else {
        return Ok(ExitCode::FAILURE);
    };
    if !is_folder(rt, dir) {
        say_no_folder(rt, dir);
        return Ok(ExitCode::FAILURE);
    }
    printing_ended(rt, dir, print_events(rt, dir, &net, stretch))
}

/// The network of the file that is given, or else of the one that the nodes of the folder kept. If they
/// kept none, a line says so and what to do, and none is returned.
///
/// It is not proved which network the file gives, since a file shows its text to no contract.
/// [`network_by`] says what follows from what it gives.
///
/// # Errors
/// If the file that is given gives no network, or memory runs out.
fn network_of<R: Files + Eprint + AllocGlobal>(
    rt: &R,
    dir: &str,
    network: Option<&str>,
) -> Result<Option<Net>, Fault>
    ensures given { IfOk result (λ net. net ≡ None → network.entry ≡ None) }
    ensures kept { network.entry ≡ None → IfErr result (λ fault. fault ≡ Memory) }
    // Unless memory runs out, the answer follows from what the file gave.
    ensures by { (result ≡ Err Memory) ⊎ IsNetworkBy Network (is_some network.entry) result }
{
    let Ok(path) = network_path(rt.alloc(), dir, network) else {
        return Err(Fault::Memory);
    };
    let read = read_network(rt, path.as_str());
    network_by(rt, dir, path.as_str(), network.is_some(), read)
}

/// The network, by what its file gave: the one that is given, or else the one that the nodes of the folder
/// kept. If they kept none, a line says so and what to do, and none is returned.
///
/// # Errors
/// If the file that is given gave no network.
fn network_by<R: Files + Eprint>(
    rt: &R,
    dir: &str,
    path: &str,
    is_given: bool,
    read: Result<Net, NetworkFault>,
) -> Result<Option<Net>, Fault>
    ensures { result ≡ network_by Network is_given read }
{
    match read {
        Ok(net) => Ok(Some(net)),
        Err(fault) if is_given => Err(Fault::Network(fault)),
        Err(fault) => {
            say_none_kept(rt, dir, path, Fault::Network(fault));
            Ok(None)
        }
    }
}

/// Says that the nodes of a folder kept no network in this file, or that there is no folder.
fn say_none_kept<R: Files + Eprint>(rt: &R, dir: &str, path: &str, fault: Fault) {
    if is_folder(rt, dir) {
        let line = NoneKeptLine { path, fault };
        let _ = eprintln!(rt; "tokentree: {line}");
    } else {
        say_no_folder(rt, dir);
    }
}

/// Says that there is no such folder.
fn say_no_folder<R: Eprint>(rt: &R, dir: &str) {
    let _ = eprintln!(rt; "tokentree: there is no folder {dir}");
}

/// Whether there is such a folder.
fn is_folder<F: Files>(files: &F, dir: &str) -> bool {
    match fs::metadata(files, dir) {
        Ok(found) => found.is_dir(),
        Err(_) => false,
    }
}

/// Why not all events were printed.
#[derive(Clone, Copy)]
enum PrintFault {
    /// The records become no events, or memory ran out, or there are too many entries.
    Gathering(GatherFault),
    /// Standard output did not take the events.
    Output(Fault),
}

/// Prints the events that the records of a folder become.
///
/// # Errors
/// As [`gather_text`]. A fault of the output is the one that the command ends with.
fn print_events<R: Files + Print + Eprint + AllocGlobal>(
    rt: &R,
    dir: &str,
    net: &Net,
    stretch: TimeStretch,
) -> Result<Gathered, PrintFault>
    ensures { IfErr result IsPrintFault }
{
    let Ok(output) = BufWriter::new(rt.alloc(), writer(rt)) else {
        return Err(PrintFault::Gathering(GatherFault::Memory));
    };
    let mut records = FolderRecords::new(rt, dir);
    let mut text = EventText::new(output);
    match gather_text(rt.alloc(), net, &mut records, stretch, &mut text) {
        Ok(gathered) => Ok(gathered),
        Err(fault) => Err(print_fault(rt, fault, &text)),
    }
}

/// Why a text of events that goes to standard output ended with this fault.
fn print_fault<R: Eprint, W: Write + Drop>(
    rt: &R,
    fault: GatherFault,
    text: &EventText<W>,
) -> PrintFault
    ensures fault { result ≡ print_fault fault text.now.first }
    ensures is_one { IsPrintFault result }
{
    match fault {
        GatherFault::Output => PrintFault::Output(text.fault(rt, Fault::Output)),
        _ => PrintFault::Gathering(fault),
    }
}

/// Weaves a stretch of the records of all nodes of a network into one list of events, and writes its
/// whole text.
///
/// # Errors
/// As [`gather_stretch`].
pub fn gather_text<R: Records, W: Write + Drop>(
    alloc: Global,
    net: &Net,
    records: &mut R,
    stretch: TimeStretch,
    text: &mut EventText<W>,
) -> Result<Gathered, GatherFault>
    // The writer got the text of the events, if it shows its bytes.
    ensures gathered { IfOk result (λ g.
        IsGatheredAs stretch
        (Reads (R.opens records.old) R.File.rest (MayFail R.File.failures))
        (λ a events b. GrowsByText (writer_contents W.contents a.writer) events
        (writer_contents W.contents b.writer))
        net.now text.old g.summary g.differences.items g.flaws.items text.new) }
    ensures written { OnOk result (writer_buffer text.new.writer ≡ []) }
    ensures refused { IfErr result (λ fault.
        IsRefused (Reads (R.opens records.old) R.File.rest (MayFail R.File.failures))
        (Begins (R.opens records.old) R.File.rest) (λ t. t.failures) net.now text.old fault text.new) }
{
    let gathered = gather_stretch(alloc, net, records, stretch, text)?;
    match text.flush() {
        Ok(()) => Ok(gathered),
        Err(_) => Err(GatherFault::Output),
    }
}

/// Says which files were not read to their ends, which fields of nodes differed from what their records
/// led to, and what the records show, in numbers.
fn say_gathered<R: Eprint>(rt: &R, dir: &str, gathered: &Gathered) {
    for flaw in &gathered.flaws {
        say_flaw(rt, dir, *flaw);
    }
    for difference in &gathered.differences {
        say_difference(rt, *difference);
    }
    let named = gathered.differences.len();
    say_summary(rt, gathered.summary, named);
}

/// Says what the records show, in numbers. `named` is how many differences were named before.
fn say_summary<R: Eprint>(rt: &R, summary: RecordingSummary, named: usize) {
    let (stretch, found, loans) = (
        StretchLine(summary),
        FoundLine(summary.found),
        LoansLine(summary),
    );
    let differences = DifferencesLine {
        count: summary.differences,
        named,
    };
    let _ = eprintln!(rt; "tokentree: {stretch}");
    let _ = eprintln!(rt; "tokentree: {found}");
    let _ = eprintln!(rt; "tokentree: {differences}");
    let _ = eprintln!(rt; "tokentree: {loans}");
}

/// Says which field of a node differed.
fn say_difference<R: Eprint>(rt: &R, difference: Difference) {
    let line = DifferenceLine(difference);
    let _ = eprintln!(rt; "tokentree: {line}");
}

/// Says where a file was not read to its end.
fn say_flaw<R: Eprint>(rt: &R, dir: &str, flaw: Flaw) {
    let line = FlawLine { dir, flaw };
    let _ = eprintln!(rt; "tokentree: {line}");
}

/// How the command ends after this printing. Says what the records show, or why they become no events.
fn printing_ended<R: Eprint>(
    rt: &R,
    dir: &str,
    printed: Result<Gathered, PrintFault>,
) -> Result<ExitCode, Fault>
    ensures { PrintingEndsWith printed result }
{
    match printed {
        Ok(gathered) => {
            say_gathered(rt, dir, &gathered);
            Ok(flaws_status(&gathered.flaws))
        }
        Err(PrintFault::Gathering(fault)) => ended(rt, dir, fault),
        Err(PrintFault::Output(fault)) => Err(fault),
    }
}

/// The status after events were gathered, with these flaws.
fn flaws_status(flaws: &[Flaw]) -> ExitCode
    ensures { exit_status result ≡ flaws_status flaws.now }
{
    if flaws.is_empty() {
        ExitCode::SUCCESS
    } else {
        ExitCode::FAILURE
    }
}

/// How the command ends if nothing is gathered. Says what is wrong with the records, if that is why.
fn ended<R: Eprint>(rt: &R, dir: &str, fault: GatherFault) -> Result<ExitCode, Fault>
    ensures { EndsWith fault result }
{
    match fault {
        GatherFault::Memory => Err(Fault::Memory),
        GatherFault::Output => Err(Fault::Output),
        _ => {
            let line = GatherFaultLine { dir, fault };
            let _ = eprintln!(rt; "tokentree: {line}");
            Ok(ExitCode::FAILURE)
        }
    }
}
