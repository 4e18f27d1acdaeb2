//! What a node says to whoever looks: one line, a JSON object.
ghost use Rattle.std.specs.Prelude.{◌≡◌, ◌++◌, IfOk, OnOk, codes, string_bytes, Some};
ghost use Rattle.node_texts.specs.LookText.{look_text, status_part, links_text, other_links_text};
ghost use Rattle.node_texts.specs.LookText.{link_text, rest_text, rounds_text, link_parts};

use crate::StatusLine;
use crate::look_parts::{LinkPart, LoanPart, ProcessPart, TurnPart};
use crate::status_line::OrWord;
use std::alloc::{AllocError, Global};
use std::fmt;
use std::fmt::Write;
use turn_watch::TurnNotes;

/// What a node says of itself to whoever looks.
#[derive(Drop)]
pub struct LookAnswer<'a> {
    /// What its status line says.
    pub status: StatusLine,
    /// The link to each neighbour.
    pub links: &'a [LinkPart],
    /// Its loans.
    pub loans: LoanPart,
    /// Its turns.
    pub turns: TurnPart,
    /// Its process.
    pub process: ProcessPart,
    /// The version of the program, in letters, digits and dots.
    pub version: &'a str,
    /// How often the token came round.
    pub rounds: u64,
}

/// The links to these neighbours at that time, by the notes.
///
/// # Errors
/// If memory runs out.
pub fn link_parts(
    alloc: Global,
    neighbours: &[u16],
    notes: &TurnNotes,
    now: u64,
) -> Result<Vec<LinkPart>, AllocError>
    ensures { IfOk result (λ parts. parts.items ≡ link_parts notes.now.links now neighbours.now) }
{
    let mut parts = Vec::with_capacity(alloc, neighbours.len())?;
    for id in neighbours {
        parts.push(LinkPart::of(*id, &notes.link(*id), now))?;
    }
    Ok(parts)
}

/// The line for whoever looks at a node, with its newline.
///
/// # Errors
/// If memory runs out.
pub fn look_line(alloc: Global, look: &LookAnswer<'_>) -> Result<String, AllocError>
    ensures { IfOk result (λ line. string_bytes line
        ≡ look_text look.now.status look.now.links.now look.now.loans look.now.turns
        look.now.process look.now.version.now look.now.rounds) }
{
    let mut text = String::new(alloc);
    push_look(&mut text, look)?;
    Ok(text)
}

/// Adds that line.
fn push_look(text: &mut String, look: &LookAnswer<'_>) -> Result<(), AllocError>
    ensures { OnOk result (string_bytes text.new ≡ string_bytes text.old
        ++ look_text look.now.status look.now.links.now look.now.loans look.now.turns
        look.now.process look.now.version.now look.now.rounds) }
{
    push_status(text, look.status)?;
    push_links(text, look.links)?;
    push_rest(text, look)?;
    push_rounds(text, look.rounds)
}

/// Begins the object with what the status line says.
fn push_status(text: &mut String, status: StatusLine) -> Result<(), AllocError>
    ensures { OnOk result (string_bytes text.new
        ≡ string_bytes text.old ++ (codes "{" ++ status_part status)) }
{
    write!(text, "{{{}", StatusPart(status))
}

/// Adds the links.
fn push_links(text: &mut String, links: &[LinkPart]) -> Result<(), AllocError>
    ensures { OnOk result (string_bytes text.new
        ≡ string_bytes text.old ++ (codes ",\"links\":[" ++ (links_text links.now ++ codes "]"))) }
{
    text.push_str(",\"links\":[")?;
    push_each(text, links)?;
    text.push(']')
}

/// Adds each link, with commas between.
fn push_each(text: &mut String, links: &[LinkPart]) -> Result<(), AllocError>
    ensures { OnOk result (string_bytes text.new
        ≡ string_bytes text.old ++ links_text links.now) }
{
    match links {
        [] => Ok(()),
        [first, others @ ..] => {
            write!(text, "{first}")?;
            push_others(text, others)
        }
    }
}

/// Adds links after the first.
fn push_others(text: &mut String, links: &[LinkPart]) -> Result<(), AllocError>
    ensures { OnOk result (string_bytes text.new
        ≡ string_bytes text.old ++ other_links_text links.now) }
{
    for link in links {
        push_other(text, link)?;
    }
    Ok(())
}

/// Adds a link after another.
fn push_other(text: &mut String, link: &LinkPart) -> Result<(), AllocError>
    ensures { OnOk result (string_bytes text.new
        ≡ string_bytes text.old ++ (codes "," ++ link_text link.now)) }
{
    write!(text, ",{link}")
}

/// Adds the rest except the rounds.
fn push_rest(text: &mut String, look: &LookAnswer<'_>) -> Result<(), AllocError>
    ensures { OnOk result (string_bytes text.new
        ≡ string_bytes text.old ++ rest_text look.now.loans look.now.turns look.now.process
        look.now.version.now) }
{
    let (loans, turns, version) = (look.loans, look.turns, look.version);
    let (process, start) = (
        OrWord(look.process.id, "null"),
        OrWord(look.process.start, "null"),
    );
    write!(
        text,
        ",\"loans\":{loans},\"turns\":{turns},\"process\":{process},\"version\":\"{version}\",\"start_ms\":{start}"
    )
}

/// Adds how often the token came round, and ends the object and the line.
fn push_rounds(text: &mut String, rounds: u64) -> Result<(), AllocError>
    ensures { OnOk result (string_bytes text.new
        ≡ string_bytes text.old ++ rounds_text rounds) }
{
    writeln!(text, ",\"rounds\":{rounds}}}")
}

/// What the status line says, as members of a JSON object.
#[derive(Drop)]
struct StatusPart(StatusLine);

impl fmt::Display for StatusPart {
    ghost output = { λ status. Some (status_part status.0) };

    fn fmt<W: fmt::Write>(&self, f: &mut fmt::Formatter<W>) -> fmt::Result {
        write!(
            f,
            "\"node\":{},\"distance\":{},\"parent\":{},\"token\":{},\"lent\":{},\"waiting\":{}",
            self.0.node,
            self.0.distance,
            OrWord::small(self.0.parent, "null"),
            self.0.token,
            OrWord::small(self.0.lent, "null"),
            self.0.waiting
        )
    }
}
