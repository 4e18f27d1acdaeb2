//! `bound FILE --json`: a network's numbers as a JSON object.
ghost use Rattle.std.specs.Prelude.{◌≡◌, ◌<◌, ◌++◌, IfOk, IfErr, OnOk, [], map, string_bytes};
ghost use Rattle.std.specs.List.{range_with_len};
ghost use Rattle.command_faults.specs.Ends.{DoneMeansZero};
ghost use Rattle.serde_json.specs.Data.{array};
ghost use Rattle.serde_json.specs.View.{view, items_view, members_view, items_of};
ghost use Rattle.serde_json.specs.Written.{IsInOrder};
ghost use Rattle.network_commands.specs.BoundData.{bound_data, bound_members, shape_members, sharp_members};
ghost use Rattle.network_commands.specs.BoundData.{time_members, or_null, column_data, column_value};
ghost use Rattle.network_commands.specs.Faults.{IsUnprinted};

use crate::bound::{NodeColumn, done};
use command_faults::{Fault, printed, read_network};
use recovery_times::{Premises, millis_up};
use serde_json::{Map, Value, push, put};
use std::alloc::{AllocError, Global};
use std::process::ExitCode;
use std::rt::Files;
use topology::Net;

/// Prints the numbers of the network of a file as a JSON object on one line, with the sharp bound
/// if asked for, and times if premises are given. The names are those of the lines of `bound`,
/// except for the times: `window_us` is in microseconds, and `recovers_within_ms` and
/// `lends_within_ms` are in milliseconds, rounded up. `none` is null.
///
/// # Errors
/// If the file gives no network, memory runs out, or standard output fails.
pub fn run<R: Files + Print + Eprint + AllocGlobal>(
    rt: &R,
    path: &str,
    sharp: bool,
    premises: Option<Premises>,
) -> Result<ExitCode, Fault>
    ensures ok { DoneMeansZero result }
    ensures err { IfErr result IsUnprinted }
{
    let net = read_network(rt, path)?;
    let text = bound_json(rt.alloc(), &net, sharp, premises).map_err(|_| Fault::Memory)?;
    done(printed(rt, rt.println(text.as_str())))
}

/// The numbers of a network as a JSON object, without a newline.
///
/// # Errors
/// If memory runs out.
pub fn bound_json(
    alloc: Global,
    net: &Net,
    sharp: bool,
    premises: Option<Premises>,
) -> Result<String, AllocError>
    ensures { IfOk result (λ text. IsInOrder (string_bytes text) (bound_data net.now sharp premises)) }
{
    let value = bound_value(alloc, net, sharp, premises)?;
    value.to_string(alloc)
}

/// The same numbers as a value.
fn bound_value(
    alloc: Global,
    net: &Net,
    sharp: bool,
    premises: Option<Premises>,
) -> Result<Value, AllocError>
    ensures { IfOk result (λ value. view value ≡ bound_data net.now sharp premises) }
{
    let mut map = Map::new(alloc);
    put_bound(&mut map, alloc, net)?;
    put_sharp(&mut map, alloc, net, sharp)?;
    put_times(&mut map, alloc, net, premises)?;
    Ok(Value::Object(map))
}

/// Adds the numbers of the eight lines.
fn put_bound(map: &mut Map<String, Value>, alloc: Global, net: &Net) -> Result<(), AllocError>
    ensures { OnOk result (members_view map.new.entries
        ≡ bound_members net.now (members_view map.old.entries)) }
{
    put_shape(map, alloc, net)?;
    put(
        map,
        alloc,
        "distances",
        list_of(alloc, net, NodeColumn::Distances)?,
    )?;
    put(
        map,
        alloc,
        "parents",
        list_of(alloc, net, NodeColumn::Parents)?,
    )?;
    put(map, alloc, "sweeps", Value::from(net.bound()))
}

/// Adds the numbers of the first five lines.
fn put_shape(map: &mut Map<String, Value>, alloc: Global, net: &Net) -> Result<(), AllocError>
    ensures { OnOk result (members_view map.new.entries
        ≡ shape_members net.now (members_view map.old.entries)) }
{
    put(map, alloc, "nodes", Value::from(net.nodes()))?;
    put(map, alloc, "edges", Value::from(net.edges().len()))?;
    put(map, alloc, "capacity", Value::from(net.capacity()))?;
    put(map, alloc, "counter", Value::from(net.counter()))?;
    put(map, alloc, "ring", Value::from(net.ring()))
}

/// Adds the sharp bound, if it is asked for.
fn put_sharp(
    map: &mut Map<String, Value>,
    alloc: Global,
    net: &Net,
    sharp: bool,
) -> Result<(), AllocError>
    ensures { OnOk result (members_view map.new.entries
        ≡ sharp_members net.now sharp (members_view map.old.entries)) }
{
    if sharp {
        put(map, alloc, "sharp", Value::from(net.sharp_bound()))
    } else {
        Ok(())
    }
}

/// Adds the times, if premises are given.
fn put_times(
    map: &mut Map<String, Value>,
    alloc: Global,
    net: &Net,
    premises: Option<Premises>,
) -> Result<(), AllocError>
    ensures { OnOk result (members_view map.new.entries
        ≡ time_members net.now premises (members_view map.old.entries)) }
{
    let Some(premises) = premises else {
        return Ok(());
    };
    let recovers = millis_up(premises.recovers_within(net));
    let lends = millis_up(premises.lends_within(net));
    put(map, alloc, "window_us", Value::from(premises.window()))?;
    put(map, alloc, "recovers_within_ms", Value::from(recovers))?;
    put(map, alloc, "lends_within_ms", Value::from(lends))
}

/// What a column says of all nodes, by ascending id.
fn list_of(alloc: Global, net: &Net, column: NodeColumn) -> Result<Value, AllocError>
    ensures { IfOk result (λ value. view value ≡ array (items_of (column_data column net.now net.now.nodes))) }
{
    let mut list = Vec::new(alloc);
    push_column(&mut list, net, column)?;
    Ok(Value::Array(list))
}

/// Adds what a column says of all nodes to an empty list.
fn push_column(list: &mut Vec<Value>, net: &Net, column: NodeColumn) -> Result<(), AllocError>
    requires { list.old.items ≡ [] }
    ensures { OnOk result (map view list.new.items ≡ column_data column net.now net.now.nodes) }
{
    for v in 0..net.nodes() {
        push(list, column_value(net, column, v))?;
    }
    Ok(())
}

/// What a column says of a node.
fn column_value(net: &Net, column: NodeColumn, v: u16) -> Value
    requires { v < net.now.nodes }
    ensures { view result ≡ column_value column net.now v }
{
    match column {
        NodeColumn::Distances => Value::from(net.distance(v)),
        NodeColumn::Parents => or_null(net.parent(v)),
    }
}

/// An id, or null.
fn or_null(id: Option<u16>) -> Value
    ensures { view result ≡ or_null id }
{
    match id {
        Some(id) => Value::from(id),
        None => Value::Null,
    }
}
