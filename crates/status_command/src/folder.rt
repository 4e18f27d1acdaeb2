//! The nodes that have a socket in a folder.
ghost use Rattle.std.specs.Prelude.{◌≡◌, ◌≢◌, [], IfOk, IsSorted, nat_le};
ghost use Rattle.std.specs.Ordering.{nat_cmp};
ghost use Rattle.std.specs.List.{find};
ghost use Rattle.status_command.specs.Reasons.{why_no_nodes};

use crate::notice::StatusNotice;
use desk_sockets::nodes_in;
use node_texts::NodePaths;
use std::alloc::Global;
use std::io::ErrorKind;
use std::rt::Files;
use std::{fs, io};

/// The nodes that are asked: the named ones, in their order; or, if none is named, those that have a
/// socket in the folder, by ascending id.
///
/// # Errors
/// If none is named, and the folder cannot be read or has no socket of a node; or if memory runs out.
pub fn nodes_asked<'a, R: Files + AllocGlobal>(
    rt: &R,
    folder: &'a str,
    named: &[u16],
) -> Result<Vec<u16>, StatusNotice<'a>>
    ensures named { IfOk result (λ nodes. named.now ≢ [] → nodes.items ≡ named.now) }
    ensures ascending { IfOk result (λ nodes. named.now ≡ [] → IsSorted nat_cmp nodes.items) }
    ensures some { IfOk result (λ nodes. nodes.items ≢ []) }
{
    let nodes = if named.is_empty() {
        nodes_in(rt, folder)
    } else {
        copied(rt.alloc(), named)
    };
    match nodes {
        Ok(nodes) if nodes.is_empty() => Err(StatusNotice::NoSockets(folder)),
        Ok(nodes) => Ok(nodes),
        Err(error) => Err(why_no_nodes(error.kind(), folder)),
    }
}

/// A copy of the nodes.
fn copied(alloc: Global, nodes: &[u16]) -> io::Result<Vec<u16>>
    ensures { IfOk result (λ all. all.items ≡ nodes.now) }
{
    Ok(nodes.iter().copied().collect(alloc)?)
}

/// Why the nodes of a folder are not known, by the system's answer.
pub fn why_no_nodes<'a>(kind: ErrorKind, folder: &'a str) -> StatusNotice<'a>
    ensures { result ≡ why_no_nodes kind folder.entry }
{
    match kind {
        ErrorKind::NotFound | ErrorKind::NotADirectory => StatusNotice::NoFolder(folder),
        ErrorKind::OutOfMemory => StatusNotice::Memory,
        ErrorKind::Uncategorized => StatusNotice::System,
        _ => StatusNotice::Forbidden(folder),
    }
}

/// Whether a folder has neither the socket nor the state of a node, so that it counts as one that
/// never ran there. If that cannot be seen, the node counts as one that may have run.
pub fn was_never<R: Files + AllocGlobal>(rt: &R, folder: &str, node: u16) -> bool {
    match NodePaths::new(rt.alloc(), folder, node) {
        Ok(paths) => {
            is_missing(rt, paths.clients.as_str()) && is_missing(rt, paths.state.as_str())
        }
        Err(_) => false,
    }
}

/// Whether the system says that there is no such file.
fn is_missing<R: Files>(rt: &R, path: &str) -> bool {
    matches!(fs::exists(rt, path), Ok(false))
}

/// The first of these nodes that a network of `count` nodes does not have.
pub fn first_beyond(nodes: &[u16], count: u16) -> Option<u16>
    ensures { result ≡ find (λ node. nat_le count node) nodes.now }
{
    nodes.iter().copied().find(|node| *node >= count)
}
