//! Nodes that have no room for a client: their sockets for lookers show how they stand.
ghost use Rattle.std.specs.Prelude.{◌≡◌, ◌==◌, IfOk};
ghost use Rattle.status_command.specs.Windows.{is_without_room, without_room, own_standing, standing_in};
ghost use Rattle.status_command.specs.Asking.{nodes_in, nodes_of, answers_in};
ghost use Rattle.status_command.specs.Windows.{filled_one, filled};

use crate::answering::{answers, own_line};
use crate::asking::Asked;
use crate::looks::line_of;
use node_texts::StatusLine;
use status_readings::{NodeAnswer, read_standing};
use std::alloc::{AllocError, Global};

/// The nodes that closed the connection at their desk and gave no line, in their order.
///
/// # Errors
/// If memory runs out.
pub fn without_room(alloc: Global, all: &[Asked]) -> Result<Vec<u16>, AllocError>
    ensures { IfOk result (λ nodes. nodes.items ≡ without_room all.now) }
{
    let mut nodes = Vec::new(alloc);
    for asked in all {
        if asked.is_closed() {
            nodes.push(asked.node)?;
        }
    }
    Ok(nodes)
}

/// What each node said at its desk, or, if it gave no line there, at its window.
///
/// # Errors
/// If memory runs out.
pub fn answers_with(
    alloc: Global,
    desks: &[Asked],
    windows: &[Asked],
) -> Result<Vec<NodeAnswer>, AllocError>
    ensures answers { IfOk result (λ all. all.items ≡ filled windows.now (answers_in desks.now)) }
    ensures nodes { IfOk result (λ all. nodes_of all.items ≡ nodes_in desks.now) }
{
    let said = answers(alloc, desks)?;
    let all = filled(alloc, said.as_slice(), windows)?;
    Ok(all)
}

/// The answers; for a node that gave no line, what it says at its window.
///
/// # Errors
/// If memory runs out.
fn filled(
    alloc: Global,
    answers: &[NodeAnswer],
    windows: &[Asked],
) -> Result<Vec<NodeAnswer>, AllocError>
    ensures { IfOk result (λ all. all.items ≡ filled windows.now answers.now) }
{
    let mut all = Vec::new(alloc);
    for answer in answers {
        all.push(filled_one(alloc, *answer, windows)?)?;
    }
    Ok(all)
}

/// The answer; if it has no line, what the node says at its window.
fn filled_one(
    alloc: Global,
    answer: NodeAnswer,
    windows: &[Asked],
) -> Result<NodeAnswer, AllocError>
    ensures { IfOk result (λ done. done ≡ filled_one windows.now answer) }
{
    if answer.line.is_some() {
        return Ok(answer);
    }
    Ok(NodeAnswer {
        node: answer.node,
        line: standing_in(alloc, answer.node, windows)?,
    })
}

/// How a node stands, by what it says at its window, if it is one of these.
fn standing_in(
    alloc: Global,
    node: u16,
    windows: &[Asked],
) -> Result<Option<StatusLine>, AllocError>
    ensures { IfOk result (λ said. said ≡ standing_in node windows.now) }
{
    for asked in windows {
        if asked.node == node {
            return own_standing(alloc, asked);
        }
    }
    Ok(None)
}

/// How the node stands, by its own line.
fn own_standing(alloc: Global, asked: &Asked) -> Result<Option<StatusLine>, AllocError>
    ensures { IfOk result (λ said. said ≡ own_standing asked.now) }
{
    match read_standing(alloc, line_of(asked))? {
        Some(said) => Ok(own_line(asked.node, said)),
        None => Ok(None),
    }
}
