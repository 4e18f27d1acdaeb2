//! Tests of `tokentree` as its users run it: scripts of command lines and of running nodes, with what each command
//! prints and how it ends. They are in `data`; `run.sh` there says what a script looks like.
//!
//! ```text
//! worked_scripts --scripts                  runs all scripts, and prints how each ended
//! worked_scripts --serve SOCKET SCRIPT..    listens at a Unix socket, and prints `ready`. Each SCRIPT in turn gets one
//!                                           connection: `/bin/sh` runs it with that as its standard input and output
//! worked_scripts --connect SOCKET SCRIPT    the same with a connection that it makes
//! worked_scripts WORD..                     does what `tokentree` does with the words: a script calls it `tokentree`
//! ```
//!
//! The status of the first three is 0 if all scripts could be run, however they ended, and else 1.
#![tactic(auto)]

use command_line::{begin, run_words};
use std::env;
use std::io::{self, IsTerminal};
use std::os::fd::OwnedFd;
use std::os::unix::net::{UnixListener, UnixStream};
use std::path::AsPath;
use std::process::{Command, ExitCode};

fn main(rt: HostRuntime) -> ExitCode {
    let words = match begin(&rt) {
        Ok(words) => words,
        Err(status) => return status,
    };
    match words.as_slice() {
        [_, word] if word.as_str() == "--scripts" => status_of(run_scripts(&rt)),
        [_, word, socket, scripts @ ..] if word.as_str() == "--serve" => {
            status_of(serve(&rt, socket.as_str(), scripts))
        }
        [_, word, socket, script] if word.as_str() == "--connect" => {
            status_of(connect(&rt, socket.as_str(), script.as_str()))
        }
        words => run_words(&rt, words, rt.stderr().is_terminal()),
    }
}

/// Success if all went well.
fn status_of(done: io::Result<()>) -> ExitCode {
    match done {
        Ok(()) => ExitCode::SUCCESS,
        Err(_) => ExitCode::FAILURE,
    }
}

/// Runs the scripts, which get the path of this program.
fn run_scripts(rt: &HostRuntime) -> io::Result<()> {
    let program = env::current_exe(rt)?;
    let mut shell = Command::new(rt.alloc(), "/bin/sh")?;
    shell.arg("all.sh")?.arg(program.path_text())?;
    shell.status(rt)?;
    Ok(())
}

/// Listens at a socket, and gives one connection after another to the next script.
fn serve(rt: &HostRuntime, socket: &str, scripts: &[String]) -> io::Result<()> {
    let listener = UnixListener::bind(rt, socket)?;
    println!(rt; "ready")?;
    for script in scripts {
        let (stream, _) = listener.accept()?;
        converse(rt, stream, script.as_str())?;
    }
    Ok(())
}

/// Connects to a socket, and gives the connection to a script.
fn connect(rt: &HostRuntime, socket: &str, script: &str) -> io::Result<()> {
    converse(rt, UnixStream::connect(rt, socket)?, script)
}

/// Runs a script whose standard input and output are a connection, until it ends.
fn converse(rt: &HostRuntime, stream: UnixStream, script: &str) -> io::Result<()> {
    let input = stream.try_clone()?;
    let mut shell = Command::new(rt.alloc(), "/bin/sh")?;
    shell.arg("-c")?.arg(script)?;
    shell
        .stdin(OwnedFd::from(input))
        .stdout(OwnedFd::from(stream));
    shell.status(rt)?;
    Ok(())
}
