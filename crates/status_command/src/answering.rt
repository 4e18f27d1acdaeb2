//! What a node answered, from the bytes that came.
ghost use Rattle.std.specs.Prelude.{◌≡◌, ◌==◌, IfOk, take};
ghost use Rattle.std.specs.List.{position};
ghost use Rattle.std.specs.Option.{option_map};
ghost use Rattle.status_command.specs.Answering.{first_line, line_said, own_line, status_in, answer_in};
ghost use Rattle.status_command.specs.Asking.{answers_in};

use crate::asking::Asked;
use node_texts::{MOST_STATUS_BYTES, StatusLine};
use status_readings::NodeAnswer;
use std::alloc::{AllocError, Global};

/// The first line of what came, without its newline; none if no line has ended.
pub fn first_line(came: &[u8]) -> Option<&[u8]>
    ensures { option_map (λ line. line.now) result ≡ first_line came.now }
{
    let end = newline_at(came)?;
    Some(&came[..end])
}

/// Where the first newline is.
fn newline_at(came: &[u8]) -> Option<usize>
    ensures { result ≡ position (λ byte. byte == 10) came.now }
{
    came.iter().position(|byte| *byte == b'\n')
}

/// What a node answered: its status line, if that is the first line that came and is about this
/// node.
pub fn answer(node: u16, came: &[u8]) -> NodeAnswer
    ensures { result ≡ answer_in node came.now }
{
    NodeAnswer {
        node,
        line: status_in(node, came),
    }
}

/// This node's status line, if it is the first line that came.
fn status_in(node: u16, came: &[u8]) -> Option<StatusLine>
    ensures { result ≡ status_in node came.now }
{
    own_line(node, line_said(first_line(came)?)?)
}

/// A node's line, if it is about this node.
pub fn own_line(node: u16, line: StatusLine) -> Option<StatusLine>
    ensures { result ≡ own_line node line }
{
    if line.node == node { Some(line) } else { None }
}

/// What a line says, if it is a status line.
fn line_said(line: &[u8]) -> Option<StatusLine>
    ensures { result ≡ line_said line.now }
{
    if line.len() > MOST_STATUS_BYTES {
        None
    } else {
        StatusLine::read(line)
    }
}

/// What each node answered, in their order.
///
/// # Errors
/// If memory runs out.
pub fn answers(alloc: Global, all: &[Asked]) -> Result<Vec<NodeAnswer>, AllocError>
    ensures { IfOk result (λ answers. answers.items ≡ answers_in all.now) }
{
    let mut answers = Vec::new(alloc);
    for asked in all {
        answers.push(answer(asked.node, asked.came.as_slice()))?;
    }
    Ok(answers)
}
