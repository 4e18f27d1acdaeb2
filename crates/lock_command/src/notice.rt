//! The lines on standard error.
ghost use Rattle.std.specs.Prelude.{◌≡◌, Some};
ghost use Rattle.lock_command.specs.Notices.{loss_notice, end_notice, why_unserved, course_notice};
ghost use Rattle.lock_command.specs.NoticeText.{notice_line, cause_text, fate_text, notice_text};

use crate::seconds::Seconds;
use lock_client::{Answer, ClientDeed, ClientEvent, Outcome};
use std::fmt;

/// Why a lock is lost.
#[derive(Clone, Copy, Drop)]
pub enum Cause {
    /// The node said something while the command ran: that it ended the loan, since its lease was
    /// over, or something else, as a damaged node may.
    Ended,
    /// The node went away, or its connection failed.
    WentAway,
}

/// What becomes of the command if the lock is lost.
#[derive(Clone, Copy, Drop)]
pub enum Fate {
    /// It is ended.
    Ended,
    /// It runs on.
    RunsOn,
    /// There is none.
    NoCommand,
}

/// A line on standard error. Printed, it is that line without the program's name.
#[derive(Clone, Copy, Drop)]
pub enum Notice<'a> {
    /// There is no such folder.
    NoFolder(&'a str),
    /// The folder may not be read or entered, or the socket may not be used.
    Forbidden(&'a str),
    /// No node has a socket in the folder.
    NoSockets(&'a str),
    /// Nobody listens where this node's socket in the folder would be.
    NoNode {
        folder: &'a str,
        node: u16,
    },
    /// The name of the node's socket in this folder has more bytes than a socket's name may have.
    TooLong {
        folder: &'a str,
        node: u16,
    },
    /// The node went away before it lent the lock.
    WentAway(u16),
    /// What answers for the node is no lock service, or a corrupted one, or it accepts no
    /// connection.
    NoService(u16),
    /// The node did not lend the lock within this time.
    NotInTime {
        node: u16,
        limit: Seconds,
    },
    /// The lock was not granted in time, the node had closed a connection, and the latest one had
    /// not lasted half a second: it seems to serve as many clients as it has room for.
    NoRoom(u16),
    /// Nobody listens at any of the sockets in this folder.
    NobodyListens(&'a str),
    /// No node that has a socket in this folder answered.
    NoAnswer(&'a str),
    /// The node was asked for the lock.
    Waiting(u16),
    /// The node granted the lock.
    Granted(u16),
    /// The node took the lock back.
    Released(u16),
    /// The guard of the command is gone while the command runs.
    GuardGone(Fate),
    /// The guard says that the process that ran the command is gone.
    ClientGone,
    /// No guard of the command could be started.
    NoGuard,
    /// The lock is lost while the command runs.
    Lost {
        node: u16,
        cause: Cause,
        command: Fate,
    },
    /// The command has ended, and the node did not say that the lock was held until then.
    InDoubt(u16),
    /// There is no such command.
    NoCommand(&'a str),
    /// The command cannot be run.
    CannotRun(&'a str),
    /// The system does not say how the command ended.
    UnknownEnd,
    /// The system gives no descriptor, no poll or no clock.
    System,
    /// Memory ran out.
    Memory,
    /// Standard output took no more.
    Output,
}

/// The whole line of a notice, without its newline.
#[derive(Drop)]
pub struct NoticeLine<'a>(pub Notice<'a>);

impl fmt::Display for NoticeLine<'_> {
    ghost output = { λ line. Some (notice_line line.0) };

    fn fmt<W: fmt::Write>(&self, f: &mut fmt::Formatter<W>) -> fmt::Result {
        f.write_str("tokentree: ")?;
        f.write(self.0)
    }
}

impl fmt::Display for Cause {
    ghost output = { λ cause. Some (cause_text cause) };

    fn fmt<W: fmt::Write>(&self, f: &mut fmt::Formatter<W>) -> fmt::Result {
        match *self {
            Cause::Ended => f.write_str("ended the loan"),
            Cause::WentAway => f.write_str("went away"),
        }
    }
}

impl fmt::Display for Fate {
    ghost output = { λ fate. Some (fate_text fate) };

    fn fmt<W: fmt::Write>(&self, f: &mut fmt::Formatter<W>) -> fmt::Result {
        match *self {
            Fate::Ended => f.write_str("the command is ended"),
            Fate::RunsOn => f.write_str("the command runs on without it"),
            Fate::NoCommand => f.write_str("no command ran under it"),
        }
    }
}

impl fmt::Display for Notice<'_> {
    ghost output = { λ notice. Some (notice_text notice) };

    fn fmt<W: fmt::Write>(&self, f: &mut fmt::Formatter<W>) -> fmt::Result {
        match *self {
            Notice::NoFolder(folder) => write!(f, "there is no folder {folder}"),
            Notice::Forbidden(folder) => {
                write!(f, "this user may not use the sockets in {folder}")
            }
            Notice::NoSockets(folder) => {
                write!(f, "no node has a socket in {folder}: start one there")
            }
            Notice::NoNode { folder, node } => {
                write!(
                    f,
                    "nobody listens at {folder}/desk-{node}.sock: start node {node}, if the network \
                    has it"
                )
            }
            Notice::TooLong { folder, node } => {
                write!(
                    f,
                    "{folder}/desk-{node}.sock is too long for a socket's name: 107 bytes at most"
                )
            }
            Notice::WentAway(node) => { write!(f, "node {node} went away before it lent the lock") }
            Notice::NoService(node) => {
                write!(f, "what answers for node {node} is no lock service")
            }
            Notice::NotInTime { node, limit } => {
                write!(f, "node {node} did not lend the lock within {limit} s")
            }
            Notice::NoRoom(node) => {
                write!(f, "node {node} has no room for a client: 128 are connected")
            }
            Notice::NobodyListens(folder) => {
                write!(
                    f,
                    "nobody listens at the sockets in {folder}: start a node there"
                )
            }
            Notice::NoAnswer(folder) => write!(f, "no node in {folder} answers"),
            Notice::Waiting(node) => write!(f, "waiting at node {node}"),
            Notice::Granted(node) => write!(f, "node {node} granted the lock"),
            Notice::Released(node) => write!(f, "node {node} took the lock back"),
            Notice::Lost {
                node,
                cause,
                command,
            } => write!(f, "the lock is lost, since node {node} {cause}: {command}"),
            Notice::GuardGone(command) => {
                write!(
                    f,
                    "the second process of this lock is gone, which guards the command: {command}"
                )
            }
            Notice::ClientGone => f.write_str(
                "the first process of this lock is gone, which ran the command: the command is ended",
            ),
            Notice::NoGuard => {
                f.write_str(
                    "no second process can be started to guard the command, which was not run",
                )
            }
            Notice::InDoubt(node) => write!(
                f,
                "the lock may have been lost: node {node} did not say that it was held to the end"
            ),
            Notice::NoCommand(name) => write!(f, "there is no command {name}"),
            Notice::CannotRun(name) => write!(f, "{name} cannot be run"),
            Notice::UnknownEnd => f.write_str("the system does not say how the command ended"),
            Notice::System => {
                f.write_str("the system has no descriptor, poll or clock to give; try again")
            }
            Notice::Memory => f.write_str("out of memory"),
            Notice::Output => f.write_str("standard output cannot be written"),
        }
    }
}

/// The line for a lock that this event lost, and for its command.
pub fn loss_notice<'a>(node: u16, event: ClientEvent, command: Fate) -> Notice<'a>
    ensures { result ≡ loss_notice node event command }
{
    match event {
        ClientEvent::GuardGone => Notice::GuardGone(command),
        ClientEvent::Gone => Notice::Lost {
            node,
            cause: Cause::WentAway,
            command,
        },
        _ => Notice::Lost {
            node,
            cause: Cause::Ended,
            command,
        },
    }
}

/// The line at the end, by the last event and the outcome: none if the command shows it, a signal
/// stopped the client, or it was reported before. `waited` is the line if the lock was not granted
/// in time.
pub fn end_notice<'a>(
    node: u16,
    waited: Notice<'a>,
    event: ClientEvent,
    outcome: Outcome,
) -> Option<Notice<'a>>
    ensures { result ≡ end_notice node waited.entry event outcome }
{
    match (outcome, event) {
        (Outcome::NoService, ClientEvent::Unserved) => None,
        (Outcome::NoService, _) => Some(Notice::NoService(node)),
        (Outcome::NotInTime, _) => Some(waited),
        (Outcome::Lost, ClientEvent::Ended(_)) | (Outcome::Done(_) | Outcome::Stopped(_), _) =>
            None,
        (Outcome::Lost, _) => Some(Notice::InDoubt(node)),
    }
}

/// The line for a node that closed a connection and then could not be reached: if nobody listens
/// there any more, it went away.
pub fn why_unserved(notice: Notice<'_>) -> Notice<'_>
    ensures { result ≡ why_unserved notice.entry }
{
    match notice {
        Notice::NoNode { node, .. } => Notice::WentAway(node),
        _ => notice,
    }
}

/// The line of `--verbose`, by the event and the deed: the lock is granted, or the node took it
/// back.
pub fn course_notice<'a>(node: u16, event: ClientEvent, deed: ClientDeed) -> Option<Notice<'a>>
    ensures { result ≡ course_notice node event deed }
{
    match (event, deed) {
        (_, ClientDeed::Start) => Some(Notice::Granted(node)),
        (ClientEvent::Line(Answer::Released), ClientDeed::Finish(Outcome::Done(_))) => {
            Some(Notice::Released(node))
        }
        _ => None,
    }
}
