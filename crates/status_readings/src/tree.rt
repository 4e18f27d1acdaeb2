//! The order in which a watch shows nodes: children under their parents.
ghost use Rattle.std.specs.Prelude.{◌≡◌, ◌++◌, IfOk, OnOk};
ghost use Rattle.std.specs.List.{list_any};
ghost use Rattle.status_readings.specs.Tree.{has_parent, parent_named, is_asked, is_top, below, top_rows};
ghost use Rattle.status_readings.specs.Tree.{is_placed, rest_rows, tree_rows};

use crate::answers::NodeAnswer;
use std::alloc::{AllocError, Global};

/// A line of the picture.
#[derive(Clone, Copy, Drop)]
pub struct Row {
    /// How many nodes the node is under.
    pub depth: usize,
    /// What the node answered.
    pub answer: NodeAnswer,
}

/// The nodes, each under the parent that it names, in the order in which the tour of the tree first
/// reaches them. The children of a node are in the order of the answers. At the left are nodes that
/// name no parent, such as the root, nodes that gave no answer, and nodes whose parent was not
/// asked. Nodes that are under none of these, such as nodes that are each other's parents after
/// damage, come last, also at the left.
///
/// # Errors
/// If memory runs out.
pub fn rows(alloc: Global, answers: &[NodeAnswer]) -> Result<Vec<Row>, AllocError>
    ensures { IfOk result (λ rows. rows.items ≡ tree_rows answers.now) }
{
    let mut rows = top_rows(alloc, answers)?;
    let rest = rest_rows(alloc, rows.as_slice(), answers)?;
    rows.extend_from_slice(rest.as_slice())?;
    Ok(rows)
}

/// The nodes at the left, and all under them.
fn top_rows(alloc: Global, answers: &[NodeAnswer]) -> Result<Vec<Row>, AllocError>
    ensures { IfOk result (λ rows. rows.items ≡ top_rows answers.now answers.now) }
{
    let mut rows = Vec::new(alloc);
    for answer in answers {
        if is_top(answers, answer) {
            push_below(&mut rows, answers, *answer, answers.len())?;
        }
    }
    Ok(rows)
}

/// Adds a node and all nodes under it, at most `left` levels in all.
fn push_below(
    rows: &mut Vec<Row>,
    all: &[NodeAnswer],
    answer: NodeAnswer,
    left: usize,
) -> Result<(), AllocError>
    ensures { OnOk result (rows.new.items ≡ rows.old.items ++ below all.now left answer) }
{
    if left == 0 {
        return Ok(());
    }
    let depth = all.len().saturating_sub(left);
    rows.push(Row { depth, answer })?;
    for child in all {
        if has_parent(child, answer.node) {
            push_below(rows, all, *child, left - 1)?;
        }
    }
    Ok(())
}

/// The nodes that are in none of these rows.
fn rest_rows(alloc: Global, rows: &[Row], answers: &[NodeAnswer]) -> Result<Vec<Row>, AllocError>
    ensures { IfOk result (λ rest. rest.items ≡ rest_rows rows.now answers.now) }
{
    let mut rest = Vec::new(alloc);
    for answer in answers {
        if !is_placed(rows, answer.node) {
            rest.push(Row {
                depth: 0,
                answer: *answer,
            })?;
        }
    }
    Ok(rest)
}

/// Whether a node is in one of these rows.
fn is_placed(rows: &[Row], node: u16) -> bool
    ensures { result ≡ is_placed rows.now node }
{
    rows.iter().any(|row| row.answer.node == node)
}

/// Whether a node names this one as its parent.
fn has_parent(answer: &NodeAnswer, parent: u16) -> bool
    ensures { result ≡ has_parent answer.now parent }
{
    matches!(answer.line, Some(line) if line.parent == Some(parent))
}

/// Whether a node is at the left: it names no parent that was asked.
fn is_top(all: &[NodeAnswer], answer: &NodeAnswer) -> bool
    ensures { result ≡ is_top all.now answer.now }
{
    match parent_of(answer) {
        Some(parent) => !is_asked(all, parent),
        None => true,
    }
}

/// The parent that a node names.
fn parent_of(answer: &NodeAnswer) -> Option<u16>
    ensures { result ≡ parent_named answer.now }
{
    answer.line?.parent
}

/// Whether a node was asked.
fn is_asked(all: &[NodeAnswer], node: u16) -> bool
    ensures { result ≡ is_asked all.now node }
{
    all.iter().any(|answer| answer.node == node)
}
