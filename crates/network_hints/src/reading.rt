//! The values of a table, or why it has none.
ghost use Rattle.std.specs.Prelude.{◌≡◌, IfOk, option_map};
ghost use Rattle.toml.specs.View.{view, table_view, items_view};
ghost use Rattle.toml.specs.Data.{get_member};
ghost use Rattle.network_hints.specs.Reading.{has_key, missing, integer_of, two_integers, ends_of};
ghost use Rattle.network_hints.specs.Reading.{ends_in, edges_of, mapped, values_of, table_flaw};
ghost use Rattle.network_hints.specs.ValuesView.{values_view};

use crate::flaw::ValueFlaw;
use crate::key::Key;
use crate::values::{Values, value_flaw};
use std::alloc::{AllocError, Global};
use toml::{Table, Value};

/// The value at a key.
fn value_at<'a>(table: &'a Table, key: &str) -> Option<&'a Value>
    ensures { option_map (λ v. view v.now) result ≡ get_member key.now (table_view table.now) }
{
    table.get(key)
}

fn has_key(table: &Table, key: Key) -> bool
    ensures { result ≡ has_key key (table_view table.now) }
{
    value_at(table, key.name()).is_some()
}

/// The first key that is missing.
pub fn missing(table: &Table) -> Option<Key>
    ensures { result ≡ missing (table_view table.now) }
{
    if !has_key(table, Key::Nodes) {
        Some(Key::Nodes)
    } else if !has_key(table, Key::Root) {
        Some(Key::Root)
    } else if !has_key(table, Key::Capacity) {
        Some(Key::Capacity)
    } else if !has_key(table, Key::Lease) {
        Some(Key::Lease)
    } else if !has_key(table, Key::Edges) {
        Some(Key::Edges)
    } else {
        None
    }
}

/// The integer at a key.
fn integer_of(table: &Table, key: Key) -> Result<i64, ValueFlaw>
    ensures { result ≡ integer_of key (table_view table.now) }
{
    let Some(value) = value_at(table, key.name()) else {
        return Err(ValueFlaw::NoInteger(key));
    };
    match value.as_integer() {
        Some(integer) => Ok(integer),
        None => Err(ValueFlaw::NoInteger(key)),
    }
}

/// An edge is an array of exactly two integers.
fn ends_of(value: &Value) -> Option<(i64, i64)>
    ensures { result ≡ ends_of (view value.now) }
{
    match value.as_array() {
        Some(ends) => two_integers(ends.as_slice()),
        None => None,
    }
}

fn two_integers(ends: &[Value]) -> Option<(i64, i64)>
    ensures { result ≡ two_integers (items_view ends.now) }
{
    if ends.len() != 2 {
        return None;
    }
    let Some(first) = ends[0].as_integer() else {
        return None;
    };
    let Some(second) = ends[1].as_integer() else {
        return None;
    };
    Some((first, second))
}

/// The edges of an array, or the place of the first value that is no edge, counted from 0.
fn ends_in(alloc: Global, values: &[Value]) -> Result<Result<Vec<(i64, i64)>, usize>, AllocError>
    ensures { IfOk result (λ r. mapped (λ es. es.items) r ≡ ends_in 0 (items_view values.now)) }
{
    let mut edges = Vec::new(alloc);
    for (place, value) in values.iter().enumerate() {
        match ends_of(value) {
            Some(edge) => edges.push(edge)?,
            None => return Ok(Err(place)),
        }
    }
    Ok(Ok(edges))
}

/// The edges of a table.
fn edges_of(alloc: Global, table: &Table) -> Result<Result<Vec<(i64, i64)>, ValueFlaw>, AllocError>
    ensures { IfOk result (λ r. mapped (λ es. es.items) r ≡ edges_of (table_view table.now)) }
{
    let array = match value_at(table, Key::Edges.name()) {
        Some(value) => value.as_array(),
        None => None,
    };
    let Some(array) = array else {
        return Ok(Err(ValueFlaw::NoArray));
    };
    match ends_in(alloc, array.as_slice())? {
        Ok(edges) => Ok(Ok(edges)),
        Err(place) => Ok(Err(ValueFlaw::NoEdge(place))),
    }
}

/// The values of a table, or the first of the wrong shape.
fn values_of(alloc: Global, table: &Table) -> Result<Result<Values, ValueFlaw>, AllocError>
    ensures { IfOk result (λ r. mapped values_view r ≡ values_of (table_view table.now)) }
{
    let nodes = match integer_of(table, Key::Nodes) {
        Ok(nodes) => nodes,
        Err(flaw) => return Ok(Err(flaw)),
    };
    let root = match integer_of(table, Key::Root) {
        Ok(root) => root,
        Err(flaw) => return Ok(Err(flaw)),
    };
    let capacity = match integer_of(table, Key::Capacity) {
        Ok(capacity) => capacity,
        Err(flaw) => return Ok(Err(flaw)),
    };
    let lease = match integer_of(table, Key::Lease) {
        Ok(lease) => lease,
        Err(flaw) => return Ok(Err(flaw)),
    };
    match edges_of(alloc, table)? {
        Ok(edges) => Ok(Ok(Values {
            nodes,
            root,
            capacity,
            lease,
            edges,
        })),
        Err(flaw) => Ok(Err(flaw)),
    }
}

/// The first flaw of a table.
pub fn table_flaw(alloc: Global, table: &Table) -> Result<Option<ValueFlaw>, AllocError>
    ensures { IfOk result (λ flaw. flaw ≡ table_flaw (table_view table.now)) }
{
    if let Some(key) = missing(table) {
        return Ok(Some(ValueFlaw::NoKey(key)));
    }
    match values_of(alloc, table)? {
        Ok(values) => Ok(value_flaw(&values)),
        Err(flaw) => Ok(Some(flaw)),
    }
}
