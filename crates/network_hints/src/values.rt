//! The values of a network file, and the first that is wrong.
ghost use Rattle.std.specs.Prelude.{◌≡◌};
ghost use Rattle.std.specs.List.{find, list_any};
ghost use Rattle.network_hints.specs.Values.{has_bad_end, is_loop, is_twice, range_flaw, value_flaw};
ghost use Rattle.network_hints.specs.Values.{edge_flaw, first_twice, number_flaw};
ghost use Rattle.network_hints.specs.ValuesView.{values_view};

use crate::flaw::ValueFlaw;
use crate::key::Key;

/// The values of the five keys.
#[derive(Drop)]
pub struct Values {
    pub nodes: i64,
    pub root: i64,
    pub capacity: i64,
    pub lease: i64,
    pub edges: Vec<(i64, i64)>,
}

/// What is wrong with a value that must be in a range.
fn range_flaw(key: Key, value: i64, least: i64, most: i64) -> Option<ValueFlaw>
    ensures { result ≡ range_flaw key value least most }
{
    if value < least || value > most {
        Some(ValueFlaw::OutOfRange(key, value, least, most))
    } else {
        None
    }
}

/// The first flaw of the values.
pub fn value_flaw(values: &Values) -> Option<ValueFlaw>
    ensures { result ≡ value_flaw (values_view values.now) }
{
    match number_flaw(values) {
        None => edge_flaw(values.nodes, values.edges.as_slice()),
        flaw => flaw,
    }
}

/// The first flaw of the numbers, and of how many edges there are.
fn number_flaw(values: &Values) -> Option<ValueFlaw>
    ensures { result ≡ number_flaw (values_view values.now) }
{
    if let Some(flaw) = range_flaw(Key::Nodes, values.nodes, 2, 64) {
        return Some(flaw);
    }
    if values.edges.len() > 256 {
        return Some(ValueFlaw::TooMany(values.edges.len()));
    }
    if values.root < 0 || values.nodes <= values.root {
        return Some(ValueFlaw::NoRoot(values.root, values.nodes));
    }
    if let Some(flaw) = range_flaw(Key::Capacity, values.capacity, 1, 4096) {
        return Some(flaw);
    }
    range_flaw(Key::Lease, values.lease, 0, 65_535)
}

/// The first flaw of the edges.
fn edge_flaw(nodes: i64, edges: &[(i64, i64)]) -> Option<ValueFlaw>
    ensures { result ≡ edge_flaw nodes edges.now }
{
    if let Some(edge) = first_outside(nodes, edges) {
        return Some(ValueFlaw::NoNode(edge.0, edge.1, nodes));
    }
    if let Some(edge) = first_loop(edges) {
        return Some(ValueFlaw::Loop(edge.0));
    }
    match first_twice(edges) {
        Some(edge) => Some(ValueFlaw::Twice(edge.0, edge.1)),
        None => None,
    }
}

/// The first edge with an end that is no node.
fn first_outside(nodes: i64, edges: &[(i64, i64)]) -> Option<(i64, i64)>
    ensures { result ≡ find (has_bad_end nodes) edges.now }
{
    edges.iter().copied().find(|edge| has_bad_end(nodes, *edge))
}

/// Whether an end of the edge is no node.
fn has_bad_end(nodes: i64, edge: (i64, i64)) -> bool
    ensures { result ≡ has_bad_end nodes edge }
{
    edge.0 < 0 || nodes <= edge.0 || edge.1 < 0 || nodes <= edge.1
}

/// The first edge that joins a node with itself.
fn first_loop(edges: &[(i64, i64)]) -> Option<(i64, i64)>
    ensures { result ≡ find is_loop edges.now }
{
    edges.iter().copied().find(|edge| is_loop(*edge))
}

fn is_loop(edge: (i64, i64)) -> bool
    ensures { result ≡ is_loop edge }
{
    edge.0 == edge.1
}

/// The first edge that occurs again later.
fn first_twice(edges: &[(i64, i64)]) -> Option<(i64, i64)>
    ensures { result ≡ first_twice edges.now }
{
    match edges {
        [] => None,
        [edge, rest @ ..] if stands_among(*edge, rest) => Some(*edge),
        [_, rest @ ..] => first_twice(rest),
    }
}

/// Whether an edge is among others, either way round.
fn stands_among(edge: (i64, i64), others: &[(i64, i64)]) -> bool
    ensures { result ≡ list_any (is_twice edge) others.now }
{
    others.iter().any(|other| is_twice(edge, *other))
}

/// Whether two edges have the same ends.
fn is_twice(edge: (i64, i64), other: (i64, i64)) -> bool
    ensures { result ≡ is_twice edge other }
{
    (other.0 == edge.0 && other.1 == edge.1) || (other.0 == edge.1 && other.1 == edge.0)
}
