//! Asking nodes for a line, all at once.
ghost use Rattle.std.specs.Prelude.{◌≡◌, ◌≤◌, ◌%◌, ◌==◌, IfOk, IfSome, ◌++◌, OnOk, length};
ghost use Rattle.status_command.specs.Asking.{nodes_in, is_answered};
ghost use Rattle.status_command.specs.Windows.{is_without_room};

use crate::answering::first_line;
use crate::question::Question;
use mio::net::UnixStream;
use std::alloc::Global;
use std::io::{ErrorKind, Read, Write};
use std::net::Net;
use std::time::{Clock, Duration};
use std::{io, thread};

/// How many milliseconds pass between two looks at the nodes that have not answered yet.
const BETWEEN_LOOKS: u64 = 1;

/// A node that closed the connection, as a node without room for a client does, is asked again each
/// time this many looks have passed.
const LOOKS_AGAIN: u32 = 100;

/// How many bytes are read at once.
const PIECE: usize = 1024;

/// The state of a connection.
#[derive(Drop)]
enum Contact {
    /// It is open, and the line has not come.
    Open(UnixStream),
    /// The node closed it, and gave no line.
    Closed,
    /// The line has come, or nobody listens.
    Done,
}

/// A node that was asked.
#[derive(Drop)]
pub struct Asked {
    /// The node.
    pub node: u16,
    /// What has come over the last connection.
    pub came: Vec<u8>,
    question: Question,
    /// The path of its socket.
    path: String,
    contact: Contact,
}

/// Asks all the nodes at once, and waits for their lines, for at most `looks` looks, a millisecond
/// apart. A node that closes the connection, as a node without room does, is asked again. The result
/// is in the order of the nodes.
///
/// # Errors
/// If the system or memory fails. A silent node is no error.
pub fn ask_all<R: Net + Clock>(
    rt: &R,
    alloc: Global,
    question: Question,
    folder: &str,
    nodes: &[u16],
    looks: u32,
) -> io::Result<Vec<Asked>>
    ensures { IfOk result (λ all. nodes_in all.items ≡ nodes.now) }
{
    let mut all = Vec::new(alloc);
    ask_each(rt, alloc, question, folder, nodes, &mut all)?;
    wait_for_all(rt, all.as_mut_slice(), looks)?;
    Ok(all)
}

/// Asks these nodes, and adds them in their order.
fn ask_each<R: Net>(
    rt: &R,
    alloc: Global,
    question: Question,
    folder: &str,
    nodes: &[u16],
    all: &mut Vec<Asked>,
) -> io::Result<()>
    ensures { OnOk result (nodes_in all.new.items ≡ nodes_in all.old.items ++ nodes.now) }
{
    for node in nodes {
        all.push(ask(rt, alloc, question, folder, *node)?)?;
    }
    Ok(())
}

/// Waits until no line is missing, for at most this many looks.
fn wait_for_all<R: Net + Clock>(rt: &R, all: &mut [Asked], looks: u32) -> io::Result<()>
    ensures { nodes_in all.new ≡ nodes_in all.old }
{
    for look in 0..looks {
        if !look_at_all(rt, all, is_time_again(look))? {
            break;
        }
        thread::sleep(rt, Duration::from_millis(BETWEEN_LOOKS));
    }
    Ok(())
}

/// Whether nodes that closed the connection are asked again at this look: at every hundredth look,
/// beginning with the fiftieth. So a node has time to close once more before the last look.
fn is_time_again(look: u32) -> bool
    ensures { result ≡ (look % 100 == 49) }
{
    look % LOOKS_AGAIN == LOOKS_AGAIN / 2 - 1
}

/// Looks at what came from each node, and, if it is time, asks those that closed the connection
/// again. Returns whether a line is still missing.
fn look_at_all<R: Net>(rt: &R, all: &mut [Asked], is_time: bool) -> io::Result<bool>
    ensures { nodes_in all.new ≡ nodes_in all.old }
{
    let mut waits = false;
    for place in 0..all.len() {
        waits |= look_at(rt, &mut all[place], is_time)?;
    }
    Ok(waits)
}

/// Looks at what came from one node, and asks it again if it is time and it closed the connection.
/// Returns whether its line is still missing.
fn look_at<R: Net>(rt: &R, asked: &mut Asked, is_time: bool) -> io::Result<bool>
    ensures { asked.new.node ≡ asked.old.node }
{
    if is_time {
        asked.ask_again(rt);
    }
    asked.look()
}

/// Asks one node.
fn ask<R: Net>(
    rt: &R,
    alloc: Global,
    question: Question,
    folder: &str,
    node: u16,
) -> io::Result<Asked>
    ensures { IfOk result (λ asked. asked.node ≡ node) }
{
    let path = question.path(alloc, folder, node)?;
    let contact = connect(rt, question, path.as_str())?;
    Ok(Asked {
        node,
        came: Vec::new(alloc),
        question,
        path,
        contact,
    })
}

/// Connects and sends the question. The contact is closed if the node does not take the question, and
/// done if nobody listens.
fn connect<R: Net>(rt: &R, question: Question, path: &str) -> io::Result<Contact> {
    match UnixStream::connect(rt, path) {
        Ok(mut stream) => match stream.write_all(question.words()) {
            Ok(()) => Ok(Contact::Open(stream)),
            // It was closed before it took the words.
            Err(_) => Ok(Contact::Closed),
        },
        Err(error) => match error.kind() {
            ErrorKind::Uncategorized | ErrorKind::OutOfMemory => Err(error),
            _ => Ok(Contact::Done),
        },
    }
}

impl Asked {
    /// Whether the node closed the last connection and gave no line, as a node without room for a
    /// client does.
    pub fn is_closed(&self) -> bool
        ensures { result ≡ is_without_room self.now }
    {
        matches!(self.contact, Contact::Closed)
    }

    /// Connects again if the node closed the connection. If nobody listens any more, no line is
    /// expected.
    fn ask_again<R: Net>(&mut self, rt: &R)
        ensures { self.new.node ≡ self.old.node }
    {
        if let Contact::Closed = self.contact {
            self.came.clear();
            self.contact = match connect(rt, self.question, self.path.as_str()) {
                Ok(contact) => contact,
                Err(_) => Contact::Done,
            };
        }
    }

    /// Reads what came. Returns whether the line is still missing.
    fn look(&mut self) -> io::Result<bool>
        ensures { self.new.node ≡ self.old.node }
    {
        let mut piece = [0u8; PIECE];
        let Contact::Open(stream) = &mut self.contact else {
            return Ok(matches!(self.contact, Contact::Closed));
        };
        match bytes_read(stream, &mut piece) {
            Some(0) => self.contact = Contact::Closed,
            Some(count) => self.take(&piece[..count])?,
            None => {}
        }
        Ok(!matches!(self.contact, Contact::Done))
    }

    /// Takes these bytes. Once the answer is there, no more are expected.
    fn take(&mut self, piece: &[u8]) -> io::Result<()>
        ensures node { self.new.node ≡ self.old.node }
        ensures came { OnOk result (self.new.came.items ≡ self.old.came.items ++ piece.now) }
    {
        self.came.extend_from_slice(piece)?;
        if is_answered(self.question, self.came.as_slice()) {
            self.contact = Contact::Done;
        }
        Ok(())
    }
}

/// How many bytes were read; 0 if the connection was closed or broke. None if nothing new has come.
fn bytes_read(stream: &mut UnixStream, piece: &mut [u8]) -> Option<usize>
    ensures { IfSome result (λ count. count ≤ length piece.old) }
{
    match stream.read(piece) {
        Ok(count) => Some(count.min(piece.len())),
        Err(error) => match error.kind() {
            ErrorKind::WouldBlock | ErrorKind::Interrupted => None,
            _ => Some(0),
        },
    }
}

/// Whether the answer is there: its first line, or more bytes than that line may have.
fn is_answered(question: Question, came: &[u8]) -> bool
    ensures { result ≡ is_answered question came.now }
{
    first_line(came).is_some() || came.len() > question.most()
}
