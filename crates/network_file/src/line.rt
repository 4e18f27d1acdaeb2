//! The line that says what a node finds in its network file.
ghost use Rattle.std.specs.Prelude.{◌≡◌, ◌++◌, OnOk, IfOk, string_bytes};
ghost use Rattle.network_file.specs.Line.{news_line, taken_line, or_none, new_edges_text, edge_if_new};

use crate::fault::NetworkFault;
use std::alloc::{AllocError, Global};
use topology::Net;

/// The line which says whether node `id`, which has this network, takes up what it read in the file, without
/// a newline: which edges came and which went, or why it does not.
///
/// # Errors
/// If memory runs out.
pub fn news_line(
    alloc: Global,
    id: u16,
    file: &str,
    own: &Net,
    read: &Result<Net, NetworkFault>,
) -> Result<String, AllocError>
    ensures { IfOk result
        (λ line. string_bytes line ≡ news_line id file.now own.now read.now) }
{
    match read {
        Err(fault) => {
            let fault = *fault;
            format!(in alloc; "tokentree: node {id} does not take up {file}: {fault}")
        }
        Ok(net) if !own.same_frame(net) => format!(in alloc;
            "tokentree: node {id} does not take up {file}: while nodes run, only edges may change"
        ),
        Ok(net) => taken_line(alloc, id, file, own, net),
    }
}

/// The line of a file that is taken up.
fn taken_line(
    alloc: Global,
    id: u16,
    file: &str,
    own: &Net,
    net: &Net,
) -> Result<String, AllocError>
    ensures { IfOk result
        (λ line. string_bytes line ≡ taken_line id file.now own.now net.now) }
{
    let came = new_edges_text(alloc, own, net)?;
    let went = new_edges_text(alloc, net, own)?;
    let came = or_none(came.as_str());
    let went = or_none(went.as_str());
    format!(in alloc;
        "tokentree: node {id} takes up {file}: edges that came:{came}; that went:{went}"
    )
}

/// A list, or ` none` if it is empty.
fn or_none<'a>(list: &'a str) -> &'a str
    ensures { result.now ≡ or_none list.now }
{
    if list.is_empty() { " none" } else { list }
}

/// The edges of the second network that the first does not have, with a space before each.
fn new_edges_text(alloc: Global, first: &Net, second: &Net) -> Result<String, AllocError>
    ensures { IfOk result
        (λ text. string_bytes text ≡ new_edges_text first.now.edges second.now.edges) }
{
    let mut text = String::new(alloc);
    push_new(&mut text, first, second.edges())?;
    Ok(text)
}

/// Adds those of these edges that a network does not have.
fn push_new(text: &mut String, net: &Net, edges: &[(u16, u16)]) -> Result<(), AllocError>
    ensures { OnOk result (string_bytes text.new
        ≡ string_bytes text.old ++ new_edges_text net.now.edges edges.now) }
{
    for edge in edges {
        push_if_new(text, net, *edge)?;
    }
    Ok(())
}

/// Adds an edge, unless a network has it.
fn push_if_new(text: &mut String, net: &Net, edge: (u16, u16)) -> Result<(), AllocError>
    ensures { OnOk result (string_bytes text.new
        ≡ string_bytes text.old ++ edge_if_new net.now.edges edge) }
{
    let (v, w) = edge;
    if net.are_joined(v, w) {
        return Ok(());
    }
    write!(text, " [{v}, {w}]")
}
