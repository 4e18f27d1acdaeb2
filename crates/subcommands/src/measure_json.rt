//! `measure FILE --json`: after how many sweeps scrambled worlds served, as a JSON object.
ghost use Rattle.std.specs.Prelude.{◌≡◌, IfOk, OnOk, [], map, string_bytes};
ghost use Rattle.serde_json.specs.Data.{array, object};
ghost use Rattle.serde_json.specs.View.{view, items_of, members_view};
ghost use Rattle.subcommands.specs.MeasuredData.{run_data, runs_data, summary_members, measured_members};
ghost use Rattle.network_commands.specs.BoundData.{or_null};
ghost use Rattle.subcommands.specs.MeasuredData.{sweeps_data, measured_data, IsMeasuredJson};

use crate::measure::{has_served, served_sweeps};
use experiments::{Recovery, ThreeNumberSummary, summary_of};
use serde_json::{Map, Value, push, put};
use std::alloc::{AllocError, Global};
use topology::Net;

/// The object of runs. It has the runs that have a line in the text: all with a table, else those
/// that have not served.
///
/// # Errors
/// If memory runs out.
pub fn measured_json(
    alloc: Global,
    net: &Net,
    runs: &[Recovery],
    table: bool,
) -> Result<String, AllocError>
    ensures { IfOk result (λ text. IsMeasuredJson net.now runs.now table (string_bytes text)) }
{
    let mut served = served_sweeps(alloc, runs, net.sharp_bound())?;
    let summary = summary_of(served.as_mut_slice());
    let value = measured_value(alloc, net, runs, table, summary)?;
    value.to_string(alloc)
}

/// The same as a value, by the summary of the runs.
fn measured_value(
    alloc: Global,
    net: &Net,
    runs: &[Recovery],
    table: bool,
    summary: Option<ThreeNumberSummary>,
) -> Result<Value, AllocError>
    ensures { IfOk result (λ value. view value ≡ measured_data net.now runs.now table summary) }
{
    let mut map = Map::new(alloc);
    put_summary(&mut map, alloc, summary)?;
    put_runs(&mut map, alloc, net, runs, table)?;
    Ok(Value::Object(map))
}

/// Adds the number of runs, the runs that are shown, and both bounds.
fn put_runs(
    map: &mut Map<String, Value>,
    alloc: Global,
    net: &Net,
    runs: &[Recovery],
    table: bool,
) -> Result<(), AllocError>
    ensures { OnOk result (members_view map.new.entries
        ≡ measured_members net.now runs.now table (members_view map.old.entries)) }
{
    let bound = net.sharp_bound();
    put(map, alloc, "runs", Value::from(runs.len()))?;
    put(map, alloc, "seeds", runs_value(alloc, runs, bound, table)?)?;
    put(map, alloc, "sharp", Value::from(bound))?;
    put(map, alloc, "sweeps-bound", Value::from(net.bound()))
}

/// Adds the least, the median and the most.
fn put_summary(
    map: &mut Map<String, Value>,
    alloc: Global,
    summary: Option<ThreeNumberSummary>,
) -> Result<(), AllocError>
    ensures { OnOk result (members_view map.new.entries
        ≡ summary_members summary (members_view map.old.entries)) }
{
    put(map, alloc, "least", or_null(summary.map(|sums| sums.least)))?;
    put(
        map,
        alloc,
        "median",
        or_null(summary.map(|sums| sums.median)),
    )?;
    put(map, alloc, "most", or_null(summary.map(|sums| sums.most)))
}

/// The list of the runs that are shown.
fn runs_value(
    alloc: Global,
    runs: &[Recovery],
    bound: u32,
    table: bool,
) -> Result<Value, AllocError>
    ensures { IfOk result (λ value. view value ≡ array (items_of (runs_data bound table runs.now))) }
{
    let mut list = Vec::new(alloc);
    push_runs(&mut list, alloc, runs, bound, table)?;
    Ok(Value::Array(list))
}

/// Adds the runs that are shown to an empty list.
fn push_runs(
    list: &mut Vec<Value>,
    alloc: Global,
    runs: &[Recovery],
    bound: u32,
    table: bool,
) -> Result<(), AllocError>
    requires { list.old.items ≡ [] }
    ensures { OnOk result (map view list.new.items ≡ runs_data bound table runs.now) }
{
    for run in runs {
        if table || !has_served(run, bound) {
            push(list, run_value(alloc, run, bound)?)?;
        }
    }
    Ok(())
}

/// The object of a run.
fn run_value(alloc: Global, run: &Recovery, bound: u32) -> Result<Value, AllocError>
    ensures { IfOk result (λ value. view value ≡ run_data bound run.now) }
{
    let mut map = Map::new(alloc);
    put(&mut map, alloc, "seed", Value::from(run.seed))?;
    put(&mut map, alloc, "sweeps", sweeps_value(run, bound))?;
    Ok(Value::Object(map))
}

/// After how many sweeps a run served, or null.
fn sweeps_value(run: &Recovery, bound: u32) -> Value
    ensures { view result ≡ sweeps_data bound run.now }
{
    if has_served(run, bound) {
        Value::from(run.sweeps)
    } else {
        Value::Null
    }
}

/// A number, or null.
fn or_null(number: Option<u64>) -> Value
    ensures { view result ≡ or_null number }
{
    match number {
        Some(number) => Value::from(number),
        None => Value::Null,
    }
}
