//! `measure FILE`: after how many sweeps scrambled worlds served.
ghost use Rattle.std.specs.Prelude.{◌≡◌, ◌↔◌, ◌+◌, ◌++◌, Err, OnOk, IfOk, IfErr, IsOk, IsTrue};
ghost use Rattle.std.specs.Prelude.{string_bytes, if◌then◌else◌};
ghost use Rattle.std.specs.Process.{exit_status};
ghost use Rattle.command_parts.specs.command_faults.Ends.{DoneMeansZeroOr};
ghost use Rattle.subcommands.specs.Measured.{has_served, run_line, served_sweeps, summary_line};
ghost use Rattle.subcommands.specs.Measured.{shown_line, run_lines, totals, IsMeasured};
ghost use Rattle.subcommands.specs.Measured.{HaveServed};
ghost use Rattle.subcommands.specs.MeasuredData.{IsPlanMeasured, IsTextOrJson};
ghost use Rattle.command_parts.specs.command_faults.Output.{IsUntaken};
ghost use Rattle.network_commands.specs.Faults.{IsUnprinted};

use crate::measure_csv::plan_csv;
use crate::measure_json::measured_json;
use crate::side_by_side::measured;
use command_parts::{Fault, printed, read_network};
use experiments::{Recovery, Scheduler, ThreeNumberSummary, summary_of};
use network_commands::bound::push_number;
use std::alloc::{AllocError, Global};
use std::fmt::Write;
use std::process::ExitCode;
use std::rt::Files;
use std::thread::Threads;
use std::time::Clock;
use topology::Net;

/// What to measure.
#[derive(Clone, Copy)]
pub struct MeasurePlan {
    /// How many runs there are.
    pub runs: u32,
    /// The seed of the first run; each further run has the next seed.
    pub seed: u32,
    /// The order of the events.
    pub scheduler: Scheduler,
    /// Whether each run has a line.
    pub table: bool,
    /// Whether standard error shows how many runs are done.
    pub progress: bool,
}

/// How the runs are shown.
#[derive(Clone, Copy)]
pub enum Form {
    /// A line for each run that the plan shows, and lines that sum all of them up.
    Lines,
    /// The names of the columns, and a row for each run, in the order of their seeds.
    Rows,
    /// A JSON object on one line.
    Json,
}

/// Prints after how many sweeps the runs served, in this form.
///
/// # Errors
/// If the file gives no network, memory runs out, or standard output fails: the first of these
/// that happens.
pub fn run<R: Files + Print + Eprint + Clock + AllocGlobal + Threads + Sync>(
    rt: &R,
    network: &str,
    plan: MeasurePlan,
    form: Form,
) -> Result<ExitCode, Fault>
    ensures ok { DoneMeansZeroOr 1 result }
    ensures err { IfErr result IsUnprinted }
{
    let net = read_network(rt, network)?;
    let shown = match form {
        Form::Lines => plan_text(rt, rt.alloc(), &net, plan, false),
        Form::Rows => plan_csv(rt, rt.alloc(), &net, plan),
        Form::Json => plan_text(rt, rt.alloc(), &net, plan, true),
    };
    match shown {
        Ok((text, all_served)) => ending(print_as(rt, form, text.as_str()), all_served),
        Err(AllocError) => Err(Fault::Memory),
    }
}

/// Prints the text of a form; that of an object has no newline of its own.
fn print_as<R: Print + Eprint>(rt: &R, form: Form, text: &str) -> Result<(), Fault>
    ensures { IfErr result IsUntaken }
{
    let done = match form {
        Form::Lines | Form::Rows => rt.print(text),
        Form::Json => rt.println(text),
    };
    printed(rt, done)
}

/// Makes the runs of a plan. Returns their lines or their object, and whether each has served.
fn plan_text<R: Eprint + Clock + Threads + Sync>(
    rt: &R,
    alloc: Global,
    net: &Net,
    plan: MeasurePlan,
    is_json: bool,
) -> Result<(String, bool), AllocError>
    ensures { IfOk result (λ said. IsPlanMeasured is_json net.now plan (string_bytes said.0) said.1) }
{
    let runs: Vec<Recovery> = measured(rt, alloc, net, plan)?;
    let text = text_or_json(alloc, net, runs.as_slice(), plan.table, is_json)?;
    let served = have_served(runs.as_slice(), net.sharp_bound());
    Ok((text, served))
}

/// The object of runs, or their lines.
fn text_or_json(
    alloc: Global,
    net: &Net,
    runs: &[Recovery],
    table: bool,
    is_json: bool,
) -> Result<String, AllocError>
    ensures { IfOk result (λ text. IsTextOrJson is_json net.now runs.now table (string_bytes text)) }
{
    if is_json {
        measured_json(alloc, net, runs, table)
    } else {
        measured_text(alloc, net, runs, table)
    }
}

/// How the command ends after all its runs, by the result of printing their text.
///
/// # Errors
/// If the text was not printed.
pub fn ending(printed: Result<(), Fault>, all_served: bool) -> Result<ExitCode, Fault>
    ensures printed { IsOk printed ↔ IsOk result }
    ensures ok { IfOk result (λ status. exit_status status ≡ (if all_served then 0 else 1)) }
    ensures err { IfErr result (λ fault. printed ≡ Err fault) }
{
    match printed {
        Ok(()) if all_served => Ok(ExitCode::SUCCESS),
        Ok(()) => Ok(ExitCode::FAILURE),
        Err(fault) => Err(fault),
    }
}

/// Whether a run had as many sweeps as the sharper bound says, and served by then.
pub fn has_served(run: &Recovery, bound: u32) -> bool
    ensures { result ≡ has_served run.now bound }
{
    run.seen >= u64::from(bound) && run.sweeps <= u64::from(bound)
}

/// Whether each of these runs has served.
pub(crate) fn have_served(runs: &[Recovery], bound: u32) -> bool
    ensures { IsTrue result ↔ HaveServed runs.now bound }
{
    runs.iter().all(|run| has_served(run, bound))
}

/// The lines of all runs, with a table, or else of those that have not served; and the lines that
/// sum up the runs.
pub fn measured_text(
    alloc: Global,
    net: &Net,
    runs: &[Recovery],
    table: bool,
) -> Result<String, AllocError>
    ensures { IfOk result (λ text. IsMeasured net.now runs.now table (string_bytes text)) }
{
    let mut text = String::new(alloc);
    let bound = net.sharp_bound();
    push_runs(&mut text, runs, bound, table)?;
    let mut served = served_sweeps(alloc, runs, bound)?;
    let summary = summary_of(served.as_mut_slice());
    push_totals(&mut text, net, runs.len(), summary)?;
    Ok(text)
}

/// Adds the lines that sum the runs up.
fn push_totals(
    text: &mut String,
    net: &Net,
    runs: usize,
    summary: Option<ThreeNumberSummary>,
) -> Result<(), AllocError>
    ensures { OnOk result (string_bytes text.new
        ≡ string_bytes text.old ++ totals net.now runs summary) }
{
    writeln!(text, "runs {runs}")?;
    push_summary(text, summary)?;
    push_number(text, "sharp", net.sharp_bound())?;
    push_number(text, "sweeps-bound", net.bound())
}

/// Adds the lines of the runs: of all, or only of those that have not served.
fn push_runs(
    text: &mut String,
    runs: &[Recovery],
    bound: u32,
    table: bool,
) -> Result<(), AllocError>
    ensures { OnOk result (string_bytes text.new
        ≡ string_bytes text.old ++ run_lines bound table runs.now) }
{
    for run in runs {
        push_shown(text, run, bound, table)?;
    }
    Ok(())
}

/// Adds the line of a run, if it is shown.
fn push_shown(text: &mut String, run: &Recovery, bound: u32, table: bool) -> Result<(), AllocError>
    ensures { OnOk result (string_bytes text.new
        ≡ string_bytes text.old ++ shown_line bound table run.now) }
{
    if table || !has_served(run, bound) {
        push_run(text, run, bound)
    } else {
        Ok(())
    }
}

/// Adds the line of a run: its seed, and after how many sweeps it served, or `none`.
fn push_run(text: &mut String, run: &Recovery, bound: u32) -> Result<(), AllocError>
    ensures { OnOk result (string_bytes text.new
        ≡ string_bytes text.old ++ run_line bound run.now) }
{
    if has_served(run, bound) {
        writeln!(text, "seed {} sweeps {}", run.seed, run.sweeps)
    } else {
        writeln!(text, "seed {} sweeps none", run.seed)
    }
}

/// After how many sweeps each of the runs that served did so.
pub(crate) fn served_sweeps(
    alloc: Global,
    runs: &[Recovery],
    bound: u32,
) -> Result<Vec<u64>, AllocError>
    ensures { IfOk result (λ sweeps. sweeps.items ≡ served_sweeps runs.now bound) }
{
    let mut sweeps = Vec::new(alloc);
    for run in runs {
        if has_served(run, bound) {
            sweeps.push(run.sweeps)?;
        }
    }
    Ok(sweeps)
}

/// Adds the line of the least, the median and the most.
fn push_summary(text: &mut String, summary: Option<ThreeNumberSummary>) -> Result<(), AllocError>
    ensures { OnOk result (string_bytes text.new
        ≡ string_bytes text.old ++ summary_line summary) }
{
    match summary {
        Some(
            ThreeNumberSummary {
                least,
                median,
                most,
            },
        ) => writeln!(text, "sweeps least {least} median {median} most {most}"),
        None => text.push_str("sweeps least none median none most none\n"),
    }
}
