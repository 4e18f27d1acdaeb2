//! `status --premises` and `status --links`: what nodes say at their sockets for lookers.
ghost use Rattle.std.specs.Prelude.{◌≡◌, IfOk};
ghost use Rattle.status_command.specs.Reasons.{IsEnd};
ghost use Rattle.status_command.specs.Asking.{text_or_empty, text_in, loans_in};

use crate::answering::first_line;
use crate::asking::{Asked, ask_all};
use crate::folder::nodes_asked;
use crate::notice::{StatusNotice, reported, why_not_written};
use crate::question::Question;
use crate::status::{NO_ANSWER, WAIT, why_not_asked};
use status_readings::{
    LinksSaid, LoansSaid, NodeLoans, PremisesLine, TurnsSaid, links_report, premises_report,
    read_links,
};
use std::alloc::{AllocError, Global};
use std::net::Net;
use std::rt::Files;
use std::time::Clock;

/// What to show of the nodes' lines for lookers.
#[derive(Clone, Copy, Drop)]
pub enum LinePart {
    /// The longest times between two turns.
    Premises,
    /// How each link stands.
    Links,
}

/// Prints this part of what the nodes say to lookers. Returns the exit status: 1 if a node gave no
/// answer, or nothing can be shown; 141 if the reader of standard output is gone.
pub fn run<R: Net + Files + Clock + Print + Eprint + AllocGlobal>(
    rt: &R,
    folder: &str,
    nodes: &[u16],
    part: LinePart,
) -> u8
    ensures { IsEnd result }
{
    match print_part(rt, folder, nodes, part) {
        Ok(true) => 0,
        Ok(false) => NO_ANSWER,
        Err(notice) => reported(rt, notice),
    }
}

/// Asks and prints. Returns whether each node answered.
fn print_part<'a, R: Net + Files + Clock + Print + Eprint + AllocGlobal>(
    rt: &R,
    folder: &'a str,
    nodes: &[u16],
    part: LinePart,
) -> Result<bool, StatusNotice<'a>> {
    let nodes = nodes_asked(rt, folder, nodes)?;
    let asked = ask_all(
        rt,
        rt.alloc(),
        Question::Look,
        folder,
        nodes.as_slice(),
        WAIT,
    );
    match asked {
        Ok(all) => print_said(rt, all.as_slice(), part),
        Err(error) => Err(why_not_asked(error.kind())),
    }
}

/// Prints what came. Returns whether each node answered.
fn print_said<'a, R: Print + Eprint + AllocGlobal>(
    rt: &R,
    all: &[Asked],
    part: LinePart,
) -> Result<bool, StatusNotice<'a>> {
    let said = match part {
        LinePart::Premises => premises_text(rt.alloc(), all),
        LinePart::Links => links_text(rt.alloc(), all),
    };
    let Ok((text, all_said)) = said else {
        return Err(StatusNotice::Memory);
    };
    match rt.print(text.as_str()) {
        Ok(()) => Ok(all_said),
        Err(error) => Err(why_not_written(rt, error)),
    }
}

/// The line that came from a node, if it is a text; else an empty text.
pub fn line_of(asked: &Asked) -> &str
    ensures { result.now ≡ text_in asked.now }
{
    match first_line(asked.came.as_slice()) {
        Some(line) => text_or_empty(line),
        None => "",
    }
}

/// These bytes, if they are a text; else an empty text.
fn text_or_empty(line: &[u8]) -> &str
    ensures { result.now ≡ text_or_empty line.now }
{
    match str::from_utf8(line) {
        Ok(text) => text,
        Err(_) => "",
    }
}

/// The lines of the turns, and whether each node said them.
fn premises_text(alloc: Global, all: &[Asked]) -> Result<(String, bool), AllocError> {
    let mut lines = Vec::new(alloc);
    for asked in all {
        lines.push(PremisesLine {
            node: asked.node,
            said: TurnsSaid::read(alloc, line_of(asked))?,
        })?;
    }
    let text = premises_report(alloc, lines.as_slice())?;
    Ok((text, lines.iter().all(|line| line.said.is_some())))
}

/// The lines of the links, and whether each node said them.
fn links_text(alloc: Global, all: &[Asked]) -> Result<(String, bool), AllocError> {
    let mut lines = Vec::new(alloc);
    for asked in all {
        lines.push(LinksSaid {
            node: asked.node,
            links: read_links(alloc, line_of(asked))?,
        })?;
    }
    let text = links_report(alloc, lines.as_slice())?;
    Ok((text, lines.iter().all(|line| line.links.is_some())))
}

/// What each node said of its loans, in their order.
///
/// # Errors
/// If memory runs out.
pub fn loans_of(alloc: Global, all: &[Asked]) -> Result<Vec<NodeLoans>, AllocError>
    ensures { IfOk result (λ loans. loans.items ≡ loans_in all.now) }
{
    let mut loans = Vec::new(alloc);
    for asked in all {
        loans.push(NodeLoans {
            node: asked.node,
            said: LoansSaid::read(alloc, line_of(asked))?,
        })?;
    }
    Ok(loans)
}
