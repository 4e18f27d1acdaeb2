//! The text of a network.
ghost use Rattle.std.specs.Prelude.{◌≡◌, IfOk, OnOk, Ok, pos, string_bytes};
ghost use Rattle.toml.specs.Data.{integer};
ghost use Rattle.toml.specs.View.{view, table_view, items_view};
ghost use Rattle.topology.specs.Reading.{read_text};
ghost use Rattle.topology.specs.Refusal.{values_of};
ghost use Rattle.network_kinds.specs.Text.{edge_data, edges_data, network_data, with_member};

use std::alloc::{AllocError, Global};
use toml::{Table, Value};
use topology::Net;

/// The text of a network, as a network file has it. It reads as the values of this network.
///
/// # Errors
/// If memory runs out.
#[tactic(auto, using(crate::proofs::Members::text_reads))]
pub fn network_text(alloc: Global, net: &Net) -> Result<String, AllocError>
    // The text reads as the values of this network, whatever it is.
    ensures { IfOk result (λ text. read_text (string_bytes text) ≡ Ok (values_of net.now)) }
{
    let _known_nodes = net.nodes();
    let table = network_table(alloc, net)?;
    match toml::table_to_string(alloc, &table) {
        Ok(text) => Ok(text),
        Err(_) => Err(AllocError),
    }
}

/// The five values of a network, under their keys.
#[tactic(auto, using(crate::proofs::Members::members_done))]
fn network_table(alloc: Global, net: &Net) -> Result<Table, AllocError>
    ensures { IfOk result (λ table. table_view table ≡ network_data net.now) }
{
    let mut table = Table::new(alloc);
    put_number(alloc, &mut table, "nodes", net.nodes())?;
    put_number(alloc, &mut table, "root", net.root())?;
    put_number(alloc, &mut table, "capacity", net.capacity())?;
    put_number(alloc, &mut table, "lease", net.lease())?;
    let edges = edge_values(alloc, net.edges())?;
    put(alloc, &mut table, "edges", Value::Array(edges))?;
    Ok(table)
}

/// Puts a number under a key.
fn put_number(alloc: Global, table: &mut Table, key: &str, number: u16) -> Result<(), AllocError>
    ensures { OnOk result (table_view table.new
        ≡ with_member key.now (integer (pos number)) (table_view table.old)) }
{
    put(alloc, table, key, Value::Integer(i64::from(number)))
}

/// Puts a value under a key.
fn put(alloc: Global, table: &mut Table, key: &str, value: Value) -> Result<(), AllocError>
    ensures { OnOk result (table_view table.new
        ≡ with_member key.now (view value) (table_view table.old)) }
{
    let name = String::from_str(alloc, key)?;
    match table.insert(name, value) {
        Ok(_) => Ok(()),
        Err(_) => Err(AllocError),
    }
}

/// The edges as values, each an array of its two ends.
fn edge_values(alloc: Global, edges: &[(u16, u16)]) -> Result<Vec<Value>, AllocError>
    ensures { IfOk result (λ values. items_view values.items ≡ edges_data edges.now) }
{
    let mut values = Vec::new(alloc);
    for edge in edges {
        values.push(edge_value(alloc, *edge)?)?;
    }
    Ok(values)
}

/// An edge as a value.
fn edge_value(alloc: Global, edge: (u16, u16)) -> Result<Value, AllocError>
    ensures { IfOk result (λ value. view value ≡ edge_data edge) }
{
    let mut ends = Vec::with_capacity(alloc, 2)?;
    ends.push(Value::Integer(i64::from(edge.0)))?;
    ends.push(Value::Integer(i64::from(edge.1)))?;
    Ok(Value::Array(ends))
}
