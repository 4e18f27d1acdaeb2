//! What is done under the lock: a command runs, or standard input is read to its end.
ghost use Rattle.std.specs.Prelude.{◌≡◌, ◌⊎◌, Some, None};
ghost use Rattle.lock_client.specs.declared.outcome.CommandEnd.TheVariants.{Exited, Killed};
ghost use Rattle.lock_command.specs.Working.{is_running, is_family, EndsSo, FamilyEndsSo, GoesOn, IsAsked, IsKilled};

use crate::family::{MARKS, members, send};
use crate::notice::{Notice, NoticeLine};
use lock_client::{CommandEnd, UNKNOWN_STATUS, command_end};
use std::alloc::Global;
use std::io;
use std::io::{ErrorKind, Input, Read};
use std::process::{Child, Command, OpenProcess, Processes};
use std::rt::Files;

/// What is done under the lock.
#[derive(Drop)]
pub enum Work<P: OpenProcess> {
    /// No work yet, or no more work.
    None,
    /// A command runs.
    Running(Child<P>),
    /// The command ended like this; what it started has not ended yet.
    Family(CommandEnd),
    /// It waits for the end of standard input.
    Input,
    /// It ended like this, and that is not reported yet.
    Done(CommandEnd),
}

/// Starts a command with our standard streams and these marks. The first word is its name, or its
/// path if it has a slash.
///
/// # Errors
/// What the system answers if it is not there or cannot be run; `NotFound` if there are no words;
/// `OutOfMemory`.
pub fn start<R: Processes>(
    rt: &R,
    alloc: Global,
    words: &[&str],
    marks: &str,
) -> io::Result<Child<R::Started>> {
    let [name, arguments @ ..] = words else {
        return Err(io::Error::from(ErrorKind::NotFound));
    };
    let mut command = Command::new(alloc, *name)?;
    command.args(arguments.iter().copied())?;
    command.env(MARKS, marks)?;
    command.spawn(rt)
}

impl<P: OpenProcess + Drop> Work<P> {
    /// Whether a command runs. Only a look shows its end.
    pub fn is_running(&self) -> bool
        ensures { result ≡ is_running self.now }
    {
        matches!(self, Work::Running(_))
    }

    /// Whether it waits for what a command started.
    pub fn is_family(&self) -> bool
        ensures { result ≡ is_family self.now }
    {
        matches!(self, Work::Family(_))
    }

    /// How the work ended, the first time that this is known. Reads standard input if that has
    /// something to read, and drops what it reads.
    pub fn ended<R: Input + Eprint>(&mut self, rt: &R, has_input: bool) -> Option<CommandEnd>
        ensures end { EndsSo self.old has_input result }
        ensures after { GoesOn result self.old self.new }
    {
        let end = match self {
            Work::None | Work::Family(_) => None,
            Work::Running(child) => look(rt, child),
            Work::Input if has_input => read_input(rt),
            Work::Input => None,
            Work::Done(end) => Some(*end),
        };
        if end.is_some() {
            *self = Work::None;
        }
        end
    }

    /// How the command ended, once no process with this mark is left, or if that cannot be seen.
    pub fn family_ended<R: Files + AllocGlobal>(&mut self, rt: &R, mark: &str) -> Option<CommandEnd>
        ensures end { FamilyEndsSo self.old result }
        ensures after { GoesOn result self.old self.new }
    {
        let Work::Family(end) = *self else {
            return None;
        };
        if members(rt, mark).is_ok_and(|left| !left.is_empty()) {
            return None;
        }
        *self = Work::None;
        Some(end)
    }

    /// Asks the command, and all processes with this mark, to end, by SIGTERM. Kills the command
    /// if that fails. Standard input is no longer read.
    pub fn end<R: Files + Processes + AllocGlobal>(&mut self, rt: &R, mark: &str)
        ensures { IsAsked (Exited 0) self.old self.new }
    {
        match self {
            Work::Running(child) => {
                let family = family_of(rt, child.id(), mark);
                if send(rt, "TERM", family.as_slice()).is_err() {
                    let _ = child.kill();
                }
            }
            Work::Input => *self = Work::Done(CommandEnd::Exited(0)),
            Work::None | Work::Family(_) | Work::Done(_) => {}
        }
    }

    /// Passes SIGTERM on to the command alone. Standard input is no longer read, as if that signal
    /// had ended a command.
    pub fn pass_on<R: Processes + AllocGlobal>(&mut self, rt: &R)
        ensures { IsAsked (Killed 15) self.old self.new }
    {
        match self {
            Work::Running(child) => {
                let _ = send(rt, "TERM", &[child.id()]);
            }
            Work::Input => *self = Work::Done(CommandEnd::Killed(15)),
            Work::None | Work::Family(_) | Work::Done(_) => {}
        }
    }

    /// Kills the command, and all processes with this mark, by SIGKILL.
    pub fn kill<R: Files + Processes + AllocGlobal>(&mut self, rt: &R, mark: &str)
        ensures { IsKilled self.old self.new }
    {
        if let Work::Running(child) = self {
            let _ = child.kill();
        }
        if let Ok(family) = members(rt, mark) {
            let _ = send(rt, "KILL", family.as_slice());
        }
    }
}

/// The command's process, and those that have this mark. If `/proc` cannot be read, only the
/// command's process.
fn family_of<R: Files + AllocGlobal>(rt: &R, command: u32, mark: &str) -> Vec<u32> {
    let mut family = match members(rt, mark) {
        Ok(family) => family,
        Err(_) => Vec::new(rt.alloc()),
    };
    if !family.as_slice().contains(&command) {
        let _ = family.push(command);
    }
    family
}

/// How a command ended, if it did. Reports it if the system does not say how.
fn look<R: Eprint, P: OpenProcess>(rt: &R, child: &mut Child<P>) -> Option<CommandEnd> {
    match child.try_wait() {
        Ok(Some(status)) => Some(command_end(status)),
        Ok(None) => None,
        // The parent of this process may have said that the ends of children are not kept.
        Err(_) => {
            let _ = rt.eprintln(NoticeLine(Notice::UnknownEnd));
            Some(CommandEnd::Exited(UNKNOWN_STATUS))
        }
    }
}

/// The most bytes of standard input that are read at a time.
const PIECE: usize = 4096;

/// Reads standard input once. Returns an end if it has ended, or cannot be read.
fn read_input<R: Input>(rt: &R) -> Option<CommandEnd>
    ensures { (result ≡ None) ⊎ (result ≡ Some (Exited 0)) }
{
    let mut piece = [0u8; PIECE];
    match rt.reader().read(&mut piece) {
        Ok(0) => Some(CommandEnd::Exited(0)),
        Ok(_) => None,
        Err(error) if error.kind() == ErrorKind::Interrupted => None,
        Err(_) => Some(CommandEnd::Exited(0)),
    }
}
