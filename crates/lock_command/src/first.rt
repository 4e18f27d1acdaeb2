//! Which node of a folder answers first.
ghost use Rattle.std.specs.Prelude.{◌≡◌, IfOk, IfErr, ℕ};
ghost use Rattle.lock_command.specs.Reaching.{IsUnanswered, IsUnread, unread_notice};

use crate::desk::{DeskAnswer, DeskConnection};
use crate::notice::Notice;
use desk_sockets::{desk_path, nodes_in};
use lock_desk::ClientLine;
use std::alloc::AllocError;
use std::io::ErrorKind;
use std::net::Net;
use std::rt::{Clock, Files};
use std::time::Duration;
use std::{io, thread};

/// How many looks at the nodes there are, and how many milliseconds pass between two of them: a
/// second in all.
const LOOKS: u32 = 1000;

const BETWEEN_LOOKS: u64 = 1;

/// Connects to all nodes that have a socket in a folder, and returns the desk of the first that
/// says how it stands.
///
/// # Errors
/// If there is no such folder, it may not be read, it has no socket, nobody listens, nobody answers
/// within a second, memory runs out, or the system has no descriptor left.
pub fn reach_first<'a, R: Net + Files + Clock + AllocGlobal>(
    rt: &R,
    folder: &'a str,
) -> Result<DeskConnection, Notice<'a>>
    ensures { IfErr result (λ notice. IsUnanswered folder.entry notice) }
{
    let nodes = nodes_of(rt, folder)?;
    if nodes.is_empty() {
        return Err(Notice::NoSockets(folder));
    }
    let Ok(mut desks) = ask_all(rt, folder, nodes.as_slice()) else {
        return Err(Notice::Memory);
    };
    if desks.is_empty() {
        return Err(Notice::NobodyListens(folder));
    }
    match wait_for_one(rt, &mut desks) {
        Some(desk) => Ok(desk),
        None => Err(Notice::NoAnswer(folder)),
    }
}

/// Waits until one of the nodes answers, for a second at most.
fn wait_for_one<R: Clock>(rt: &R, desks: &mut Vec<DeskConnection>) -> Option<DeskConnection> {
    for _ in 0..LOOKS {
        let found = take_first(desks);
        if found.is_some() {
            return found;
        }
        thread::sleep(rt, Duration::from_millis(BETWEEN_LOOKS));
    }
    None
}

/// Takes out the first desk at which a line came.
fn take_first(desks: &mut Vec<DeskConnection>) -> Option<DeskConnection> {
    for at in 0..desks.len() {
        if let Some(desk) = desks.get_mut(at)
            && matches!(desk.hear(), DeskAnswer::Line(_))
            && at < desks.len()
        {
            return Some(desks.swap_remove(at));
        }
    }
    None
}

/// Asks each of these nodes how it stands, and keeps the open connections.
fn ask_all<R: Net + AllocGlobal>(
    rt: &R,
    folder: &str,
    nodes: &[u16],
) -> Result<Vec<DeskConnection>, AllocError> {
    let mut desks = Vec::new(rt.alloc());
    for node in nodes {
        let path = desk_path(rt.alloc(), folder, *node)?;
        if let Ok(desk) = ask(rt, path.as_str(), *node) {
            desks.push(desk)?;
        }
    }
    Ok(desks)
}

/// Connects to a node, and asks it how it stands.
fn ask<R: Net>(rt: &R, path: &str, node: u16) -> io::Result<DeskConnection> {
    let mut desk = DeskConnection::connect(rt, path, node)?;
    desk.write(ClientLine::Status)?;
    Ok(desk)
}

/// The nodes that have a socket in a folder, by ascending id.
fn nodes_of<'a, R: Files + AllocGlobal>(rt: &R, folder: &'a str) -> Result<Vec<u16>, Notice<'a>>
    ensures { IfErr result (λ notice. IsUnread folder.entry notice) }
{
    match nodes_in(rt, folder) {
        Ok(nodes) => Ok(nodes),
        Err(error) => Err(why_unread(error.kind(), folder)),
    }
}

/// Why a folder cannot be read, by the system's answer.
fn why_unread<'a>(kind: ErrorKind, folder: &'a str) -> Notice<'a>
    ensures { result ≡ unread_notice kind folder.entry }
{
    match kind {
        ErrorKind::NotFound | ErrorKind::NotADirectory => Notice::NoFolder(folder),
        ErrorKind::OutOfMemory => Notice::Memory,
        ErrorKind::Uncategorized => Notice::System,
        _ => Notice::Forbidden(folder),
    }
}
