//! What `status` prints.
ghost use Rattle.std.specs.Prelude.{◌≡◌, ◌++◌, IfOk, OnOk, string_bytes};
ghost use Rattle.std.specs.List.{list_all};
ghost use Rattle.status_readings.specs.Report.{answer_text, answer_lines, counts_line, report_text};
ghost use Rattle.status_readings.specs.Report.{has_answered};

use crate::counts::{has_answered, lending, privileged};
use node_texts::StatusLine;
use std::alloc::{AllocError, Global};
use std::fmt::Write;

/// What a node answered.
#[derive(Clone, Copy, Drop)]
pub struct NodeAnswer {
    /// The node that was asked.
    pub node: u16,
    /// Its status line; none if it gave none in time.
    pub line: Option<StatusLine>,
}

/// What is printed of the nodes' answers: the status line of each node, or that it gave none; and
/// how many of the nodes are privileged, and how many lend.
///
/// # Errors
/// If memory runs out.
pub fn report(alloc: Global, answers: &[NodeAnswer]) -> Result<String, AllocError>
    ensures { IfOk result (λ text. string_bytes text ≡ report_text answers.now) }
{
    let mut text = String::new(alloc);
    push_lines(&mut text, answers)?;
    push_counts(&mut text, privileged(answers), lending(answers))?;
    Ok(text)
}

/// Adds the line that says how many nodes are privileged, and how many lend.
pub fn push_counts(text: &mut String, privileged: usize, lending: usize) -> Result<(), AllocError>
    ensures { OnOk result (string_bytes text.new
        ≡ string_bytes text.old ++ counts_line privileged lending) }
{
    writeln!(text, "privileged {privileged} lending {lending}")
}

/// Whether each node gave its status line.
pub fn all_answered(answers: &[NodeAnswer]) -> bool
    ensures { result ≡ list_all has_answered answers.now }
{
    answers.iter().all(has_answered)
}

/// Adds the line of each node.
fn push_lines(text: &mut String, answers: &[NodeAnswer]) -> Result<(), AllocError>
    ensures { OnOk result (string_bytes text.new
        ≡ string_bytes text.old ++ answer_lines answers.now) }
{
    for answer in answers {
        push_line(text, answer)?;
    }
    Ok(())
}

/// Adds the line of a node, or that it gave none.
fn push_line(text: &mut String, answer: &NodeAnswer) -> Result<(), AllocError>
    ensures { OnOk result (string_bytes text.new
        ≡ string_bytes text.old ++ answer_text answer.now.node answer.now.line) }
{
    match answer.line {
        Some(line) => writeln!(text, "{line}"),
        None => writeln!(text, "node {} no answer", answer.node),
    }
}
