//! What `status --json` prints.
ghost use Rattle.std.specs.Prelude.{◌≡◌, ◌++◌, [], IfOk, OnOk, string_bytes};
ghost use Rattle.serde_json.specs.Data.{array, object};
ghost use Rattle.serde_json.specs.View.{view, items_of, items_view, members_view};
ghost use Rattle.serde_json.specs.Written.{IsInOrder};
ghost use Rattle.status_readings.specs.JsonData.{status_data, node_data, node_members};
ghost use Rattle.status_readings.specs.JsonData.{line_members, nodes_data, or_null};

use crate::answers::NodeAnswer;
use crate::counts::{lending, privileged};
use node_texts::StatusLine;
use serde_json::{Map, Value, push, put};
use std::alloc::{AllocError, Global};

/// A JSON object with what each node answered, how many nodes are privileged, and how many lend.
/// Names are those of the status line; `none` is null, and `yes` true. For a node that gave no
/// answer, it has only the node's id, and that there was no answer. It is one line, without its
/// newline, and members are in the order of their names.
///
/// # Errors
/// If memory runs out.
pub fn status_json(alloc: Global, answers: &[NodeAnswer]) -> Result<String, AllocError>
    ensures { IfOk result (λ text. IsInOrder (string_bytes text) (status_data answers.now)) }
{
    let value = status_value(alloc, answers)?;
    value.to_string(alloc)
}

/// The same as a value: the nodes, and the counts.
fn status_value(alloc: Global, answers: &[NodeAnswer]) -> Result<Value, AllocError>
    ensures { IfOk result (λ value. view value ≡ status_data answers.now) }
{
    let nodes = nodes_value(alloc, answers)?;
    let mut map = Map::new(alloc);
    put(&mut map, alloc, "nodes", nodes)?;
    put(
        &mut map,
        alloc,
        "privileged",
        Value::from(privileged(answers)),
    )?;
    put(&mut map, alloc, "lending", Value::from(lending(answers)))?;
    Ok(Value::Object(map))
}

/// What each node answered.
fn nodes_value(alloc: Global, answers: &[NodeAnswer]) -> Result<Value, AllocError>
    ensures { IfOk result (λ value. view value ≡ array (nodes_data answers.now)) }
{
    let mut list = Vec::new(alloc);
    push_nodes(&mut list, alloc, answers)?;
    Ok(Value::Array(list))
}

/// Adds what each node answered to an empty list.
fn push_nodes(
    list: &mut Vec<Value>,
    alloc: Global,
    answers: &[NodeAnswer],
) -> Result<(), AllocError>
    requires { list.old.items ≡ [] }
    ensures { OnOk result (items_view list.new.items ≡ nodes_data answers.now) }
{
    for answer in answers {
        push(list, node_value(alloc, answer)?)?;
    }
    Ok(())
}

/// What a node answered.
fn node_value(alloc: Global, answer: &NodeAnswer) -> Result<Value, AllocError>
    ensures { IfOk result (λ value. view value ≡ node_data answer.now) }
{
    let mut map = Map::new(alloc);
    put_node(&mut map, alloc, answer)?;
    Ok(Value::Object(map))
}

/// Adds the node, whether it answered, and what.
fn put_node(
    map: &mut Map<String, Value>,
    alloc: Global,
    answer: &NodeAnswer,
) -> Result<(), AllocError>
    ensures { OnOk result (members_view map.new.entries
        ≡ node_members answer.now (members_view map.old.entries)) }
{
    put(map, alloc, "node", Value::from(answer.node))?;
    put(map, alloc, "answer", Value::from(answer.line.is_some()))?;
    match &answer.line {
        Some(line) => put_line(map, alloc, line),
        None => Ok(()),
    }
}

/// Adds what a status line says after the node.
fn put_line(
    map: &mut Map<String, Value>,
    alloc: Global,
    line: &StatusLine,
) -> Result<(), AllocError>
    ensures { OnOk result (members_view map.new.entries
        ≡ line_members line.now (members_view map.old.entries)) }
{
    put(map, alloc, "distance", Value::from(line.distance))?;
    put(map, alloc, "parent", or_null(line.parent))?;
    put(map, alloc, "token", Value::from(line.token))?;
    put(map, alloc, "lent", or_null(line.lent))?;
    put(map, alloc, "waiting", Value::from(line.waiting))
}

/// A number, or null.
fn or_null(number: Option<u16>) -> Value
    ensures { view result ≡ or_null number }
{
    match number {
        Some(number) => Value::from(number),
        None => Value::Null,
    }
}
