//! `status`: shows how nodes stand.
ghost use Rattle.std.specs.Prelude.{◌≡◌, IfOk, string_bytes};
ghost use Rattle.status_command.specs.Asking.{nodes_of};
ghost use Rattle.status_command.specs.Shown.{IsTextOf};
ghost use Rattle.status_command.specs.Reasons.{why_not_asked, IsEnd};

use crate::asking::ask_all;
use crate::folder::{nodes_asked, was_never};
use crate::notice::{StatusNotice, StatusNoticeLine, reported, why_not_written};
use crate::question::Question;
use crate::windows::{answers_with, without_room};
use status_readings::{NodeAnswer, all_answered, report, status_json};
use std::alloc::{AllocError, Global};
use std::io;
use std::io::ErrorKind;
use std::net::Net;
use std::rt::Files;
use std::time::Clock;

/// How many milliseconds a node has to send its line.
pub const WAIT: u32 = 1000;

/// The status if a node gave no answer.
pub const NO_ANSWER: u8 = 1;

/// The form in which answers are printed.
#[derive(Clone, Copy, Drop)]
pub enum AnswerForm {
    /// A line for each node, and their counts.
    Lines,
    /// A line with a JSON object.
    Json,
}

/// Prints the status line of each of these nodes, and how many of them are privileged, and how many
/// lend. If no node is named, these are the nodes that have a socket in the folder, by ascending id. A
/// node that closes the connection, as a node without room does, is asked again, and then at its socket
/// for lookers. A node that gives no line within a second is reported as silent. Returns the exit
/// status: 1 if a node gave no line, or nothing can be shown; 141 if the reader of standard output is
/// gone.
///
/// No contract can say what the nodes answer. [`StatusLine::read`](node_texts::StatusLine::read)
/// says how their lines are read, and [`report`] what is printed of them.
pub fn run<R: Net + Files + Clock + Print + Eprint + AllocGlobal>(
    rt: &R,
    folder: &str,
    nodes: &[u16],
    form: AnswerForm,
) -> u8
    ensures { IsEnd result }
{
    match print_status(rt, folder, nodes, form) {
        Ok(true) => 0,
        Ok(false) => NO_ANSWER,
        Err(notice) => reported(rt, notice),
    }
}

/// Asks and prints. Returns whether each node answered.
fn print_status<'a, R: Net + Files + Clock + Print + Eprint + AllocGlobal>(
    rt: &R,
    folder: &'a str,
    nodes: &[u16],
    form: AnswerForm,
) -> Result<bool, StatusNotice<'a>> {
    let nodes = nodes_asked(rt, folder, nodes)?;
    match answers_of(rt, rt.alloc(), folder, nodes.as_slice(), WAIT) {
        Ok(answers) => print_answers(rt, folder, answers.as_slice(), form),
        Err(error) => Err(why_not_asked(error.kind())),
    }
}

/// What the nodes answer within `wait` milliseconds, in their order. A node that has no room for a
/// client is then asked at its socket for lookers, and has as long again.
///
/// # Errors
/// If the system or memory fails.
pub fn answers_of<R: Net + Clock>(
    rt: &R,
    alloc: Global,
    folder: &str,
    nodes: &[u16],
    wait: u32,
) -> io::Result<Vec<NodeAnswer>>
    ensures { IfOk result (λ answers. nodes_of answers.items ≡ nodes.now) }
{
    let desks = ask_all(rt, alloc, Question::Status, folder, nodes, wait)?;
    let closed = without_room(alloc, desks.as_slice())?;
    let windows = ask_all(rt, alloc, Question::Look, folder, closed.as_slice(), wait)?;
    Ok(answers_with(alloc, desks.as_slice(), windows.as_slice())?)
}

/// Why nodes are not asked, by the system's answer.
pub fn why_not_asked<'a>(kind: ErrorKind) -> StatusNotice<'a>
    ensures { result ≡ why_not_asked kind }
{
    match kind {
        ErrorKind::Uncategorized => StatusNotice::System,
        _ => StatusNotice::Memory,
    }
}

/// Prints what the nodes answered. Returns whether each node gave an answer.
fn print_answers<'a, R: Files + Print + Eprint + AllocGlobal>(
    rt: &R,
    folder: &'a str,
    answers: &[NodeAnswer],
    form: AnswerForm,
) -> Result<bool, StatusNotice<'a>> {
    let Ok(text) = text_of(rt.alloc(), answers, form) else {
        return Err(StatusNotice::Memory);
    };
    match rt.print(text.as_str()) {
        Ok(()) => {
            tell_of_absent(rt, folder, answers);
            Ok(all_answered(answers))
        }
        Err(error) => Err(why_not_written(rt, error)),
    }
}

/// What is printed of the answers.
///
/// # Errors
/// If memory runs out.
pub fn text_of(
    alloc: Global,
    answers: &[NodeAnswer],
    form: AnswerForm,
) -> Result<String, AllocError>
    ensures { IfOk result (λ text. IsTextOf form answers.now (string_bytes text)) }
{
    match form {
        AnswerForm::Lines => report(alloc, answers),
        AnswerForm::Json => {
            let mut text = status_json(alloc, answers)?;
            text.push_str("\n")?;
            Ok(text)
        }
    }
}

/// Reports the nodes that gave no answer and have no file in the folder: they never ran there.
fn tell_of_absent<R: Files + Eprint + AllocGlobal>(rt: &R, folder: &str, answers: &[NodeAnswer]) {
    for answer in answers {
        let node = answer.node;
        if answer.line.is_none() && was_never(rt, folder, node) {
            let _ = rt.eprintln(StatusNoticeLine(StatusNotice::NeverWas { folder, node }));
        }
    }
}
