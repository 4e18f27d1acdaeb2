//! The line for lookers at a node.
ghost use Rattle.std.specs.Prelude.{◌≡◌, ◌<◌, IfOk, length, string_bytes};
ghost use Rattle.node_core.specs.View.{site_in, state_of};
ghost use Rattle.look_window.specs.NodeLook.{node_look};
ghost use Rattle.look_window.specs.NodeStatus.{line_of};

use node_core::Node;
use node_texts::{LoanPart, LookAnswer, ProcessPart, StatusLine, TurnPart, link_parts, look_line};
use std::alloc::{AllocError, Allocator, Global};
use turn_watch::TurnNotes;

/// What a node says about its process.
#[derive(Clone, Copy)]
pub struct ProcessSaid<'a> {
    /// The process.
    pub process: ProcessPart,
    /// The version of the program, in letters, digits and dots.
    pub version: &'a str,
}

/// The line for lookers at this node at that time, with its newline: what its status line says, and what
/// was noted about its links, loans and turns, and about the token.
///
/// # Errors
/// If memory runs out.
pub fn line_of_node<A: Allocator>(
    alloc: Global,
    node: &Node<A>,
    notes: &TurnNotes,
    said: &ProcessSaid<'_>,
    now: u64,
) -> Result<String, AllocError>
    ensures line { IfOk result (λ line. string_bytes line ≡ node_look (site_in node.now)
        (state_of node.now) notes.now said.now.process said.now.version.now now) }
    ensures some { IfOk result (λ line. 0 < length (string_bytes line)) }
{
    let links = link_parts(alloc, node.neighbours(), notes, now)?;
    let look = LookAnswer {
        status: status_of(node),
        links: links.as_slice(),
        loans: LoanPart::of(notes.loans(), now),
        turns: TurnPart::of(notes.turns(), notes.limit(), now),
        process: said.process,
        version: said.version,
        rounds: notes.rounds().count,
    };
    look_line(alloc, &look)
}

/// What the status line of a node says.
fn status_of<A: Allocator>(node: &Node<A>) -> StatusLine
    ensures { result ≡ line_of (site_in node.now) (state_of node.now) }
{
    StatusLine {
        node: node.id(),
        distance: node.distance(),
        parent: node.parent(),
        token: node.privileged(),
        lent: node.lent(),
        waiting: node.waiting() as u16,
    }
}
