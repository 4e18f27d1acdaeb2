//! `measure FILE --csv`: when each layer stood permanently in scrambled worlds, as rows.
ghost use Rattle.std.specs.Prelude.{◌≡◌, ◌↔◌, ◌++◌, OnOk, IfOk, IsTrue};
ghost use Rattle.std.specs.Prelude.{string_bytes};
ghost use Rattle.subcommands.specs.MeasuredCsv.{csv_row, csv_rows, csv_text, has_settled};
ghost use Rattle.subcommands.specs.MeasuredCsv.{HaveSettled, IsPlanCsv};

use crate::measure::MeasurePlan;
use crate::side_by_side::measured;
use experiments::Settling;
use std::alloc::{AllocError, Global};
use std::fmt::Write;
use std::thread::Threads;
use std::time::Clock;
use topology::Net;

/// Makes the runs of a plan. Returns their rows, and whether each has served.
pub(crate) fn plan_csv<R: Eprint + Clock + Threads + Sync>(
    rt: &R,
    alloc: Global,
    net: &Net,
    plan: MeasurePlan,
) -> Result<(String, bool), AllocError>
    ensures { IfOk result (λ said. IsPlanCsv net.now plan (string_bytes said.0) said.1) }
{
    let runs: Vec<Settling> = measured(rt, alloc, net, plan)?;
    let text = csv_text(alloc, runs.as_slice(), net.sharp_bound())?;
    let served = have_settled(runs.as_slice(), net.sharp_bound());
    Ok((text, served))
}

/// Whether a run had as many sweeps as the sharper bound says, and served by then.
pub(crate) fn has_settled(run: &Settling, bound: u32) -> bool
    ensures { result ≡ has_settled run.now bound }
{
    run.seen >= u64::from(bound) && run.served <= u64::from(bound)
}

/// Whether each of these runs has served.
pub fn have_settled(runs: &[Settling], bound: u32) -> bool
    ensures { IsTrue result ↔ HaveSettled runs.now bound }
{
    runs.iter().all(|run| has_settled(run, bound))
}

/// The names of the columns, and the rows of the runs, by the sharper bound.
pub fn csv_text(alloc: Global, runs: &[Settling], bound: u32) -> Result<String, AllocError>
    ensures { IfOk result (λ text. string_bytes text ≡ csv_text bound runs.now) }
{
    let mut text = String::new(alloc);
    text.push_str("seed,events,links,tree,ring,served\n")?;
    push_rows(&mut text, runs, bound)?;
    Ok(text)
}

/// Adds the rows of the runs.
fn push_rows(text: &mut String, runs: &[Settling], bound: u32) -> Result<(), AllocError>
    ensures { OnOk result (string_bytes text.new
        ≡ string_bytes text.old ++ csv_rows bound runs.now) }
{
    for run in runs {
        push_row(text, run, bound)?;
    }
    Ok(())
}

/// Adds the row of a run.
fn push_row(text: &mut String, run: &Settling, bound: u32) -> Result<(), AllocError>
    ensures { OnOk result (string_bytes text.new
        ≡ string_bytes text.old ++ csv_row bound run.now) }
{
    let Settling {
        seed,
        events,
        links,
        tree,
        ring,
        served,
        ..
    } = *run;
    if has_settled(run, bound) {
        writeln!(text, "{seed},{events},{links},{tree},{ring},{served}")
    } else {
        writeln!(text, "{seed},{events},,,,")
    }
}
