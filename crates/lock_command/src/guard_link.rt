//! The guard of a command, as seen by the client that started it.
ghost use Rattle.std.specs.Prelude.{◌≡◌};
ghost use Rattle.lock_command.specs.Reading.{is_end};

use crate::desk::is_for_later;
use mio::net::UnixStream;
use std::io::{Read, Write};
use std::net::Net;
use std::os::fd::{AsFd, OwnedFd};
use std::os::unix::net;
use std::process::{Command, Processes};
use std::rt::Files;
use std::{env, io};

/// The environment variable that names the command to its guard: the command's mark, without the
/// semicolon at its end, so that a search for the mark does not find the guard.
pub(crate) const GUARDED: &str = "TOKENTREE_GUARD";

/// The program that starts the guard so that the signals of a terminal, of `timeout` and of a
/// service manager do not end it. GNU coreutils have had its option since 8.31.
const ENV: &str = "/usr/bin/env";

const HOLD_SIGNALS_BACK: &str = "--block-signal=HUP,INT,QUIT,TERM";

/// One end of a pair of sockets; the guard reads the other.
#[derive(Drop)]
pub struct GuardLink {
    stream: UnixStream,
}

impl GuardLink {
    /// Starts this program as a guard, with these words. The guard gets a descriptor of the desk's
    /// connection, so the node takes the lock back only when the guard has ended too.
    ///
    /// # Errors
    /// If the system gives no descriptor or process, or memory runs out.
    pub fn start<R: Files + Net + Processes + AllocGlobal>(
        rt: &R,
        words: &[&str],
        mark: &str,
        desk: OwnedFd,
    ) -> io::Result<GuardLink> {
        let (ours, theirs) = net::UnixStream::pair(rt)?;
        ours.set_nonblocking(true)?;
        let mut command = Command::new(rt.alloc(), ENV)?;
        command.stdin(OwnedFd::from(theirs)).stdout(desk);
        start_guard(rt, &mut command, words, mark)?;
        Ok(GuardLink {
            stream: UnixStream::from_std(ours),
        })
    }

    /// The socket, so that a caller can wait for it.
    pub fn stream(&mut self) -> &mut UnixStream {
        &mut self.stream
    }

    /// Says something to the guard. [`GuardLink::is_gone`] shows if it is gone.
    pub fn say(&mut self, words: &str) {
        let _ = self.stream.write_all(words.as_bytes());
    }

    /// Whether the guard has ended. A guard never says anything.
    pub fn is_gone(&mut self) -> bool {
        is_end(&self.stream.read(&mut [0; 8]))
    }
}

/// Whether this answer to a read shows that the other end is gone.
fn is_end(answer: &io::Result<usize>) -> bool
    ensures { result ≡ is_end answer.now }
{
    match answer {
        Ok(count) => *count == 0,
        Err(error) => !is_for_later(error.kind()),
    }
}

/// Starts this program as a guard, by this command and with these words, for the command with this
/// mark.
fn start_guard<R: Files + Processes + AllocGlobal>(
    rt: &R,
    command: &mut Command,
    words: &[&str],
    mark: &str,
) -> io::Result<()> {
    command.arg(HOLD_SIGNALS_BACK)?;
    add_this_program(rt, command)?;
    command.args(words.iter().copied())?;
    command.env(GUARDED, mark.strip_suffix(";").unwrap_or(mark))?;
    command.spawn(rt)?;
    Ok(())
}

/// Adds the path of this program as a word.
fn add_this_program<R: Files + AllocGlobal>(rt: &R, command: &mut Command) -> io::Result<()> {
    let program = env::current_exe(rt)?;
    command.arg(program.as_path())?;
    Ok(())
}
