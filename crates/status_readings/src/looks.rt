//! What a node's line for whoever looks at it says of links and loans.
ghost use Rattle.std.specs.Prelude.{◌≡◌, ◌++◌, IfOk, OnOk, string_bytes};
ghost use Rattle.std.specs.Option.{option_map};
ghost use Rattle.serde_json.specs.Read.{read};
ghost use Rattle.serde_json.specs.View.{view, items_view};
ghost use Rattle.status_readings.specs.PremisesText.{member_number};
ghost use Rattle.status_readings.specs.LookSaid.{loans_said, root_rounds, line_loans, member_truth};
ghost use Rattle.status_readings.specs.LookSaid.{link_said, links_in};
ghost use Rattle.status_readings.specs.LookSaid.{links_listed, links_said, line_links};
ghost use Rattle.status_readings.specs.LinksText.{link_line, link_lines, links_text, links_lines};

use node_texts::Thousandths;
use serde_json::Value;
use std::alloc::{AllocError, Global};
use std::fmt;
use std::fmt::Write;

/// The loans of a node, and how often the token came round, as its line for whoever looks at it
/// says. Lengths are in microseconds.
#[derive(Clone, Copy, Drop)]
pub struct LoansSaid {
    /// The loans so far.
    pub count: u64,
    /// The longest of those that ended in the last minute.
    pub lately: u64,
    /// How long the present one has lasted, if there is one.
    pub present: Option<u64>,
    /// How often the token came round, if the node takes itself for the root; else 0.
    pub rounds: u64,
}

impl LoansSaid {
    /// What a line says, if it is a JSON object with a distance and with all these numbers. Only
    /// the length of the present loan may be absent, or be no number.
    ///
    /// # Errors
    /// If memory runs out.
    pub fn read(alloc: Global, line: &str) -> Result<Option<LoansSaid>, AllocError>
        ensures { IfOk result (λ said. said ≡ line_loans line.now) }
    {
        let value = value_of(alloc, line)?;
        Ok(value.as_ref().and_then(loans_said))
    }
}

/// The value of a line, if it is JSON.
///
/// # Errors
/// If memory runs out.
pub fn value_of(alloc: Global, line: &str) -> Result<Option<Value>, AllocError>
    ensures { IfOk result (λ value. option_map view value ≡ read line.now) }
{
    match Value::from_str(alloc, line) {
        Ok(value) => Ok(Some(value)),
        Err(error) if error.is_memory() => Err(AllocError),
        Err(_) => Ok(None),
    }
}

/// What a value says of a node's loans.
fn loans_said(value: &Value) -> Option<LoansSaid>
    ensures { result ≡ loans_said (view value.now) }
{
    let loans = value.get("loans")?;
    Some(LoansSaid {
        count: member_number(loans, "count")?,
        lately: member_number(loans, "lately_us")?,
        present: member_number(loans, "present_us"),
        rounds: root_rounds(value)?,
    })
}

/// How often the token came round at a node that takes itself for the root; 0 at any other node.
fn root_rounds(value: &Value) -> Option<u64>
    ensures { result ≡ root_rounds (view value.now) }
{
    let distance = member_number(value, "distance")?;
    let rounds = member_number(value, "rounds")?;
    Some(if distance == 0 { rounds } else { 0 })
}

/// The number that is a member of an object.
pub fn member_number(object: &Value, name: &str) -> Option<u64>
    ensures { result ≡ member_number name.now (view object.now) }
{
    object.get(name)?.as_u64()
}

/// The truth value that is a member of an object.
pub fn member_truth(object: &Value, name: &str) -> Option<bool>
    ensures { result ≡ member_truth name.now (view object.now) }
{
    object.get(name)?.as_bool()
}

/// The link to a neighbour, as a node's line for whoever looks at it says.
#[derive(Clone, Copy, Drop)]
pub struct LinkSaid {
    /// The neighbour.
    pub node: u64,
    /// Whether the link is connected.
    pub is_up: bool,
    /// How long this has been so, in microseconds.
    pub since: u64,
    /// How often a connection broke, or was replaced by a newer one.
    pub breaks: u64,
}

/// What a value says of a link.
fn link_said(value: &Value) -> Option<LinkSaid>
    ensures { result ≡ link_said (view value.now) }
{
    Some(LinkSaid {
        node: member_number(value, "node")?,
        is_up: member_truth(value, "up")?,
        since: member_number(value, "for_us")?,
        breaks: member_number(value, "breaks")?,
    })
}

/// What a line says of a node's links, if it is a JSON object with a list `links`. Anything in that
/// list that is not a link is left out.
///
/// # Errors
/// If memory runs out.
pub fn read_links(alloc: Global, line: &str) -> Result<Option<Vec<LinkSaid>>, AllocError>
    ensures { IfOk result (λ said. option_map (λ links. links.items) said ≡ line_links line.now) }
{
    match value_of(alloc, line)? {
        Some(value) => links_of(alloc, &value),
        None => Ok(None),
    }
}

/// The links that are a member of a value.
fn links_of(alloc: Global, value: &Value) -> Result<Option<Vec<LinkSaid>>, AllocError>
    ensures { IfOk result (λ said. option_map (λ links. links.items) said ≡ links_said (view value.now)) }
{
    match listed(value) {
        Some(list) => Ok(Some(links_in(alloc, list)?)),
        None => Ok(None),
    }
}

/// The list of links that is a member of a value.
fn listed(value: &Value) -> Option<&[Value]>
    ensures { option_map (λ list. items_view list.now) result ≡ links_listed (view value.now) }
{
    Some(value.get("links")?.as_array()?.as_slice())
}

/// Those values that are links.
fn links_in(alloc: Global, list: &[Value]) -> Result<Vec<LinkSaid>, AllocError>
    ensures { IfOk result (λ links. links.items ≡ links_in (items_view list.now)) }
{
    let mut links = Vec::new(alloc);
    for value in list {
        if let Some(link) = link_said(value) {
            links.push(link)?;
        }
    }
    Ok(links)
}

/// What a node said of its links; none if it gave no answer.
#[derive(Drop)]
pub struct LinksSaid {
    /// The node.
    pub node: u16,
    /// Its links.
    pub links: Option<Vec<LinkSaid>>,
}

/// What `status --links` prints: a line for each link, or that a node gave no answer.
///
/// # Errors
/// If memory runs out.
pub fn links_report(alloc: Global, all: &[LinksSaid]) -> Result<String, AllocError>
    ensures { IfOk result (λ text. string_bytes text ≡ links_text all.now) }
{
    let mut text = String::new(alloc);
    for said in all {
        push_links(&mut text, said)?;
    }
    Ok(text)
}

/// Adds the lines of a node.
fn push_links(text: &mut String, said: &LinksSaid) -> Result<(), AllocError>
    ensures { OnOk result (string_bytes text.new ≡ string_bytes text.old ++ links_lines said.now) }
{
    match &said.links {
        Some(links) => push_lines(text, said.node, links.as_slice()),
        None => writeln!(text, "node {} no answer", said.node),
    }
}

/// Adds the line of each link of a node.
fn push_lines(text: &mut String, node: u16, links: &[LinkSaid]) -> Result<(), AllocError>
    ensures { OnOk result (string_bytes text.new
        ≡ string_bytes text.old ++ link_lines node links.now) }
{
    for link in links {
        push_line(text, node, link)?;
    }
    Ok(())
}

/// Adds the line of a link of a node.
fn push_line(text: &mut String, node: u16, link: &LinkSaid) -> Result<(), AllocError>
    ensures { OnOk result (string_bytes text.new
        ≡ string_bytes text.old ++ link_line node link.now) }
{
    let (neighbour, breaks) = (link.node, link.breaks);
    let up = if link.is_up { "up" } else { "down" };
    let since = Thousandths(link.since / 1000);
    writeln!(
        text,
        "node {node} link {neighbour} {up} for {since} s breaks {breaks}"
    )
}
