//! `lock`: runs a command under the lock.
ghost use Rattle.std.specs.Prelude.{◌≡◌, ℕ, Some, IfOk, IfErr};
ghost use Rattle.lock_command.specs.Held.{held_status};
ghost use Rattle.lock_command.specs.Reaching.{IsUnreachable, IsUnasked};

use crate::desk::DeskConnection;
use crate::driver::{Driven, drive};
use crate::first::reach_first;
use crate::notice::{Notice, NoticeLine};
use crate::reach::reach;
use crate::seconds::Seconds;
use crate::session::{Live, Session};
use crate::system::System;
use lock_client::Outcome;
use std::net::Net;
use std::rt::Files;
use std::time::Clock;

/// What `lock` must do.
#[derive(Clone, Copy)]
pub struct Request<'a> {
    /// The folder of the nodes' sockets.
    pub folder: &'a str,
    /// The node to ask for the lock; if none, the node that answers first.
    pub node: Option<u16>,
    /// How long to wait for the lock; none for no limit.
    pub limit: Option<Seconds>,
    /// The status if the lock is lost.
    pub lost: u8,
    /// Whether to report that it waits, and that the lock is granted and released.
    pub is_verbose: bool,
    /// Whether the command runs on if the lock is lost.
    pub keeps_running: bool,
    /// Whether the lock is released only when all that the command started has ended too.
    pub waits_for_children: bool,
    /// The words that make this program the guard of the command ([`crate::guard::run`]).
    pub guard: &'a [&'a str],
    /// The command and its arguments. If there are none, it prints `granted` and holds the lock
    /// until standard input ends.
    pub command: &'a [&'a str],
}

/// Takes the lock, runs the command, releases the lock, and returns the exit status: the command's
/// own, or 128 plus the number of the signal that ended it, or that came before the lock was
/// granted; `lost` if the lock was lost; 124 if it was not granted in time; 125 if it could not be
/// asked for, there is no lock service, no guard could be started, or the system does not say how
/// the command ended; 126 if the command cannot be run, and 127 if there is no such command;
/// without a command 0 at the end of standard input, or 1 if `granted` cannot be printed. A line on
/// standard error explains each of `lock`'s own statuses, except a signal's.
///
/// While the command runs, a guard holds the lock too, so that nobody else gets it if this process
/// is killed. A [`LockClient`](lock_client::LockClient), whose laws are proved, decides what it
/// does next. No contract covers its socket, command and clock; tests do.
pub fn run<R: System>(rt: &R, request: &Request) -> u8 {
    let held = hold(rt, request);
    if let Err(notice) = &held {
        let _ = rt.eprintln(NoticeLine(*notice));
    }
    held_status(&held, request.lost)
}

/// The exit status, by how it all ended, or by why the lock could not be asked for.
fn held_status(held: &Result<Driven, Notice>, lost: u8) -> u8
    ensures { result ≡ held_status held.now lost }
{
    match held {
        Ok(driven) => driven.outcome().status_or(lost),
        Err(_) => Outcome::NoService.status(),
    }
}

/// Connects, and holds the lock.
fn hold<'a, R: System>(rt: &R, request: &Request<'a>) -> Result<Driven, Notice<'a>>
    ensures { IfErr result (IsUnasked request.now.folder request.now.node) }
{
    let desk = desk_of(rt, request)?;
    if request.is_verbose {
        let _ = rt.eprintln(NoticeLine(Notice::Waiting(desk.node())));
    }
    let mut session = Session::new(rt, *request, desk)?;
    session.prepare_guard(rt);
    let mut live = Live { rt, session };
    Ok(drive(rt, &mut live, request.keeps_running))
}

/// A connection to the desk of the node that is asked.
pub fn desk_of<'a, R: Net + Files + Clock + AllocGlobal>(
    rt: &R,
    request: &Request<'a>,
) -> Result<DeskConnection, Notice<'a>>
    ensures desk { (node : ℕ) → request.now.node ≡ Some node
        → IfOk result (λ desk. desk.node ≡ node) }
    ensures why { IfErr result (IsUnreachable request.now.folder request.now.node) }
{
    match request.node {
        Some(node) => reach(rt, request.folder, node),
        None => reach_first(rt, request.folder),
    }
}
