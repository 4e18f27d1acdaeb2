//! Ends nodes.
ghost use Rattle.std.specs.Prelude.{◌≡◌, if◌then◌else◌, ◌≤◌};

use crate::lines::{Ending, EndingLine};
use crate::steps::{LockSight, StopStep, next};
use desk_sockets::nodes_in;
use node_texts::NodePaths;
use std::fs::{File, OpenOptions};
use std::io::ErrorKind;
use std::rt::Files;
use std::time::{Clock, Duration};
use std::{fs, io, thread};

/// The time between two looks at a node's lock file, in milliseconds.
const BETWEEN_LOOKS: u64 = 20;

/// The number of looks in a second.
const LOOKS_A_SECOND: u64 = 50;

/// Ends these nodes of a folder, or each that has a socket there if none is named, and prints how
/// it went with each. Waits about `seconds` seconds for each at most. If `up` keeps the nodes of
/// the folder running, it ends none, and says so. Returns the status to end with: 0 if all ran and
/// have ended, else 1.
pub fn run<R>(rt: &R, dir: &str, ids: &[u16], seconds: u16) -> u8
where
    R: Files<File = File> + Clock + Print + Eprint + AllocGlobal,
    ensures { result ≤ 1 }
{
    status_of(have_ended(rt, dir, ids, seconds))
}

/// The status, by whether all nodes have ended.
fn status_of(is_done: bool) -> u8
    ensures { result ≡ (if is_done then 0 else 1) }
{
    if is_done { 0 } else { 1 }
}

/// Ends these nodes, and says whether all have ended.
fn have_ended<R>(rt: &R, dir: &str, ids: &[u16], seconds: u16) -> bool
where
    R: Files<File = File> + Clock + Print + Eprint + AllocGlobal,
{
    if is_kept_up(rt, dir) {
        let _ = eprintln!(rt;
            "tokentree: {dir}/lock-up: up keeps these nodes running; end up itself (Ctrl-C, or SIGTERM)"
        );
        return false;
    }
    match nodes_of(rt, dir, ids) {
        Ok(found) if found.is_empty() => {
            let _ = eprintln!(rt; "tokentree: no node has a socket in {dir}");
            false
        }
        Ok(found) => end_all(rt, dir, found.as_slice(), seconds),
        Err(error) => {
            let _ = eprintln!(rt; "tokentree: {dir}: {error}");
            false
        }
    }
}

/// Whether `up` keeps the nodes of a folder running, so that it would start again what is ended.
fn is_kept_up<R: Files<File = File> + AllocGlobal>(rt: &R, dir: &str) -> bool {
    match format!(in rt.alloc(); "{dir}/lock-up") {
        Ok(path) => is_held(rt, path.as_str()),
        Err(_) => false,
    }
}

/// Whether a process holds a lock file.
pub fn is_held<F: Files<File = File>>(files: &F, path: &str) -> bool {
    look_at(files, path) == LockSight::Held
}

/// The nodes that are named, or those that have a socket in the folder.
fn nodes_of<R: Files + AllocGlobal>(rt: &R, dir: &str, ids: &[u16]) -> io::Result<Vec<u16>> {
    if ids.is_empty() {
        return nodes_in(rt, dir);
    }
    Ok(ids.iter().copied().collect(rt.alloc())?)
}

/// A node that was looked at, and asked to end if it runs.
#[derive(Clone, Copy, Drop)]
struct AskedToEnd {
    id: u16,
    /// How it went, if it is done with.
    ending: Option<Ending>,
}

/// Asks all these nodes to end, and then waits for each. Returns whether all have ended.
fn end_all<R>(rt: &R, dir: &str, ids: &[u16], seconds: u16) -> bool
where
    R: Files<File = File> + Clock + Print + Eprint + AllocGlobal,
{
    let mut all = Vec::new(rt.alloc());
    for id in ids {
        let ending = ask(rt, dir, *id);
        if all.push(AskedToEnd { id: *id, ending }).is_err() {
            return false;
        }
    }
    let mut is_done = true;
    for asked in all {
        let ending = match asked.ending {
            Some(ending) => ending,
            None => await_end(rt, dir, asked.id, u64::from(seconds) * LOOKS_A_SECOND),
        };
        say(rt, dir, asked.id, ending);
        is_done &= ending == Ending::Ended;
    }
    is_done
}

/// Makes the stop file of a node that runs. Returns how it went if the node is not seen to run, or
/// no stop file can be made; else none.
fn ask<R: Files<File = File> + AllocGlobal>(rt: &R, dir: &str, id: u16) -> Option<Ending> {
    let Ok(paths) = NodePaths::new(rt.alloc(), dir, id) else {
        return Some(Ending::Unasked);
    };
    match next(look_at(rt, paths.lock.as_str()), false, false) {
        StopStep::Done(ending) => Some(ending),
        StopStep::Ask | StopStep::Wait => {
            let mut options = OpenOptions::new();
            let made = options
                .write(true)
                .create(true)
                .open(rt, paths.stop.as_str());
            if made.is_err() {
                Some(Ending::Unasked)
            } else {
                None
            }
        }
    }
}

/// Waits until a node that was asked to end has ended. After the first look it looks again at most
/// `looks` times.
fn await_end<R>(rt: &R, dir: &str, id: u16, looks: u64) -> Ending
where
    R: Files<File = File> + Clock + AllocGlobal,
{
    let Ok(paths) = NodePaths::new(rt.alloc(), dir, id) else {
        return Ending::Late;
    };
    for look in 0..=looks {
        if let StopStep::Done(ending) = next(
            look_at(rt, paths.lock.as_str()),
            true,
            look == looks,
        ) {
            if ending == Ending::Ended {
                // A node that was killed has left its stop file, which would end its next start.
                let _ = fs::remove_file(rt, paths.stop.as_str());
            }
            return ending;
        }
        thread::sleep(rt, Duration::from_millis(BETWEEN_LOOKS));
    }
    Ending::Late
}

/// What is seen of a lock file. A lock that this takes is kept no longer than the look.
fn look_at<F: Files<File = File>>(files: &F, path: &str) -> LockSight {
    match fs::open(files, path) {
        Ok(file) => match file.try_lock() {
            Ok(()) => LockSight::Free,
            Err(_) => LockSight::Held,
        },
        Err(error) if error.kind() == ErrorKind::NotFound => LockSight::Free,
        Err(_) => LockSight::Hidden,
    }
}

/// Says how it went with a node.
fn say<R: Print + Eprint>(rt: &R, dir: &str, id: u16, ending: Ending) {
    let line = EndingLine { dir, id, ending };
    if ending == Ending::Ended {
        let _ = rt.println(line);
    } else {
        let _ = rt.eprintln(line);
    }
}
