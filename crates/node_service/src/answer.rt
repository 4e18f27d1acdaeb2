//! What a node answers to a client's line.
ghost use Rattle.std.specs.Prelude.{◌≡◌, ◌≤◌, length, take};
ghost use Rattle.node_core.specs.View.{site_in, state_of};
ghost use Rattle.node_service.specs.Answers.{after_line, answer_text};

use lock_desk::{AskFault, ClientLine, Stranger};
use node_core::Node;
use std::alloc::Allocator;

/// The most bytes of an answer.
pub(crate) const ANSWER: usize = 96;

/// Does what the line of the client with this ticket asks for. Writes the answer to the front of
/// `text`, with its newline, and returns its length: 0 if there is none.
pub(crate) fn answer<A: Allocator>(
    node: &mut Node<A>,
    ticket: u16,
    line: ClientLine,
    text: &mut [u8; ANSWER],
) -> usize
    ensures text { take result text.new
        ≡ answer_text (site_in node.old) ticket line (state_of node.old) }
    ensures within { result ≤ 96 }
    ensures state { state_of node.new ≡ after_line ticket line (state_of node.old) }
    ensures site { site_in node.new ≡ site_in node.old }
{
    match line {
        ClientLine::Lock => match node.ask(ticket) {
            Ok(()) => 0,
            Err(AskFault::Full) => write(text, b"full\n"),
            Err(AskFault::Twice) => write(text, b"twice\n"),
        },
        ClientLine::Unlock => match node.leave(ticket) {
            Ok(()) => write(text, b"released\n"),
            Err(Stranger) => write(text, b"stranger\n"),
        },
        ClientLine::Status => node.status(text),
        ClientLine::Unknown => write(text, b"unknown\n"),
    }
}

/// Writes a word to the front of `text`, and returns its length.
fn write(text: &mut [u8; ANSWER], word: &[u8]) -> usize
    requires { length word.now ≤ 96 }
    ensures count { result ≡ length word.now }
    ensures front { take result text.new ≡ word.now }
{
    text[..word.len()].copy_from_slice(word);
    word.len()
}
