//! `measure FILE --csv --plot PATH`: the same rows, and a plot of them.
ghost use Rattle.std.specs.Prelude.{◌≡◌, IfOk, IfErr};
ghost use Rattle.command_parts.specs.command_faults.Ends.{DoneMeansZeroOr};
ghost use Rattle.subcommands.specs.MeasuredPlot.{IsFigureOf, IsReportOf, settled_sweeps};
ghost use Rattle.subcommands.specs.MeasuredPlot.{sweeps_of};
ghost use Rattle.subcommands.specs.Faults.{IsUnplotted};

use crate::measure::{MeasurePlan, ending};
use crate::measure_csv::{csv_text, has_settled, have_settled};
use crate::side_by_side::measured;
use command_parts::{Fault, PathFault, printed, read_network};
use experiments::Settling;
use settling_plot::{Distribution, Figure, PlottedLayer, plotted};
use std::alloc::{AllocError, Global};
use std::fs;
use std::io::Write;
use std::process::ExitCode;
use std::rt::Files;
use std::thread::Threads;
use std::time::Clock;
use topology::Net;

/// What is reported of the runs of a plan.
#[derive(Drop)]
pub struct PlanReport {
    /// A row for each run, after the names of the columns.
    pub rows: String,
    /// The plot of their distributions.
    pub plot: Vec<u8>,
    /// Whether each run has served.
    pub all_served: bool,
}

/// Writes a plot of the runs of a plan to the file of a path, and then prints a row for each run, in
/// the order of their seeds, after the names of the columns. The file is not touched before the whole
/// plot is made.
///
/// # Errors
/// If the file gives no network, memory runs out, the plot cannot be written, or standard output
/// fails: the first of these that happens.
pub fn run<'a, R: Files + Print + Eprint + Clock + AllocGlobal + Threads + Sync>(
    rt: &R,
    network: &str,
    plan: MeasurePlan,
    path: &'a str,
) -> Result<ExitCode, PathFault<'a>>
    ensures ok { DoneMeansZeroOr 1 result }
    ensures err { IfErr result (IsUnplotted path.entry) }
{
    let net = read_network(rt, network)?;
    let report = report_of(rt, rt.alloc(), &net, plan).map_err(|_| Fault::Memory)?;
    if save(rt, path, report.plot.as_slice()).is_err() {
        return Err(PathFault::Unwritable(path));
    }
    Ok(ending(
        printed(rt, rt.print(report.rows.as_str())),
        report.all_served,
    )?)
}

/// Makes the runs of a plan, and the report on them.
fn report_of<R: Eprint + Clock + Threads + Sync>(
    rt: &R,
    alloc: Global,
    net: &Net,
    plan: MeasurePlan,
) -> Result<PlanReport, AllocError>
    ensures { IfOk result (IsReportOf net.now plan) }
{
    let runs: Vec<Settling> = measured(rt, alloc, net, plan)?;
    let figure = figure_of(alloc, net, plan, runs.as_slice())?;
    Ok(PlanReport {
        rows: csv_text(alloc, runs.as_slice(), net.sharp_bound())?,
        plot: plotted(alloc, &figure)?,
        all_served: have_settled(runs.as_slice(), net.sharp_bound()),
    })
}

/// What is plotted of the runs of a plan: when each layer stood permanently in the runs that
/// served, and by when it is proved to stand in each run.
pub fn figure_of(
    alloc: Global,
    net: &Net,
    plan: MeasurePlan,
    runs: &[Settling],
) -> Result<Figure, AllocError>
    ensures { IfOk result (IsFigureOf net.now plan runs.now) }
{
    let bound = net.sharp_bound();
    let distance = u32::from(net.eccentricity());
    Ok(Figure {
        nodes: net.nodes(),
        runs: plan.runs,
        seed: plan.seed,
        links: Distribution {
            sweeps: settled_sweeps(alloc, runs, bound, PlottedLayer::Links)?,
            bound: 6,
        },
        tree: Distribution {
            sweeps: settled_sweeps(alloc, runs, bound, PlottedLayer::Tree)?,
            bound: 6 + 4 * (distance + 2),
        },
        ring: Distribution {
            sweeps: settled_sweeps(alloc, runs, bound, PlottedLayer::Ring)?,
            bound: bound.saturating_sub(1),
        },
        served: Distribution {
            sweeps: settled_sweeps(alloc, runs, bound, PlottedLayer::Served)?,
            bound,
        },
    })
}

/// After how many sweeps a layer stood permanently, in each of the runs that served by the bound.
fn settled_sweeps(
    alloc: Global,
    runs: &[Settling],
    bound: u32,
    layer: PlottedLayer,
) -> Result<Vec<u64>, AllocError>
    ensures { IfOk result (λ sweeps. sweeps.items ≡ settled_sweeps bound layer runs.now) }
{
    let mut sweeps = Vec::new(alloc);
    for run in runs {
        if has_settled(run, bound) {
            sweeps.push(sweeps_of(run, layer))?;
        }
    }
    Ok(sweeps)
}

/// After how many sweeps a layer stood permanently in a run.
fn sweeps_of(run: &Settling, layer: PlottedLayer) -> u64
    ensures { result ≡ sweeps_of layer run.now }
{
    match layer {
        PlottedLayer::Links => run.links,
        PlottedLayer::Tree => run.tree,
        PlottedLayer::Ring => run.ring,
        PlottedLayer::Served => run.served,
    }
}

/// Writes a plot to the file of a path.
fn save<R: Files>(rt: &R, path: &str, plot: &[u8]) -> std::io::Result<()> {
    let mut file = fs::create(rt, path)?;
    file.write_all(plot)
}
