//! The processes of a command: its own, and whatever it started.
ghost use Rattle.std.specs.Prelude.{IfOk, string_bytes};
ghost use Rattle.lock_command.specs.Marks.{IsMark, EndsIn};

use lock_client::has_entry;
use std::alloc::{AllocError, Global};
use std::path::AsPath;
use std::process::{Command, Processes, Stdio};
use std::rt::{Env, Files};
use std::time::{Clock, SystemTime, UNIX_EPOCH};
use std::{env, fs, io};

/// The environment variable that marks a command and whatever it starts.
pub const MARKS: &str = "TOKENTREE_LOCK";

/// A mark by which this lock differs from others on this machine: the id of this process, and the
/// time in nanoseconds. What the system does not say of these is 0, and then another lock may have
/// the same mark.
///
/// # Errors
/// If memory runs out.
pub fn new_mark<R: Files + Clock + AllocGlobal>(rt: &R) -> Result<String, AllocError>
    ensures { IfOk result (λ mark. IsMark (string_bytes mark)) }
{
    let nanos = match SystemTime::now(rt) {
        Ok(now) => match now.duration_since(UNIX_EPOCH) {
            Ok(time) => time.as_nanos(),
            Err(_) => 0,
        },
        Err(_) => 0,
    };
    match fs::read_link(rt, "/proc/self") {
        Ok(process) => mark_of(rt.alloc(), process.path_text(), nanos),
        Err(_) => mark_of(rt.alloc(), "0", nanos),
    }
}

/// The mark of a process at a time.
fn mark_of(alloc: Global, process: &str, nanos: u128) -> Result<String, AllocError>
    ensures { IfOk result (λ mark. IsMark (string_bytes mark)) }
{
    format!(in alloc; "{process}.{nanos};")
}

/// The marks of a command: this one, after those of the locks under which this process itself
/// runs.
///
/// # Errors
/// If memory runs out.
pub fn with_marks_before<R: Env + AllocGlobal>(rt: &R, mark: &str) -> Result<String, AllocError>
    ensures { IfOk result (λ marks. EndsIn mark.now (string_bytes marks)) }
{
    match env::var(rt, MARKS) {
        Ok(before) => format!(in rt.alloc(); "{before}{mark}"),
        Err(_) => String::from_str(rt.alloc(), mark),
    }
}

/// Whether a process is alive, according to `/proc`. One that has ended, but was not waited for, is
/// not.
pub fn lives<R: Files + AllocGlobal>(rt: &R, process: u32) -> bool {
    let Ok(path) = format!(in rt.alloc(); "/proc/{process}/stat") else {
        return true;
    };
    match fs::read(rt, path.as_str()) {
        Ok(stat) => !has_ended(stat.as_slice()),
        Err(_) => false,
    }
}

/// Whether `/proc/ID/stat` says that a process has ended: its state follows its name, which ends
/// with the last parenthesis.
fn has_ended(stat: &[u8]) -> bool {
    match stat.iter().rposition(|byte| *byte == b')') {
        Some(end) => matches!(stat.get(end.saturating_add(2)), Some(b'Z' | b'X')),
        None => true,
    }
}

/// Sends a signal to processes by the shell's own `kill`, since the library only has SIGKILL.
///
/// # Errors
/// If the shell cannot be started, or memory runs out.
pub fn send<R: Processes + AllocGlobal>(rt: &R, signal: &str, to: &[u32]) -> io::Result<()> {
    if to.is_empty() {
        return Ok(());
    }
    let mut command = shell(rt.alloc())?;
    kill_by(rt, &mut command, signal, to)
}

/// Makes this shell send a signal to processes, and waits until it has done so.
fn kill_by<R: Processes + AllocGlobal>(
    rt: &R,
    shell: &mut Command,
    signal: &str,
    to: &[u32],
) -> io::Result<()> {
    shell.args([
        "-c",
        "for process; do kill -s \"$0\" \"$process\"; done",
        signal,
    ])?;
    add_numbers(shell, rt.alloc(), to)?;
    shell.status(rt)?;
    Ok(())
}

/// Adds numbers as words.
fn add_numbers(command: &mut Command, alloc: Global, numbers: &[u32]) -> io::Result<()> {
    for number in numbers {
        let word = format!(in alloc; "{number}")?;
        command.arg(word.as_str())?;
    }
    Ok(())
}

/// The shell, with no input and no output.
fn shell(alloc: Global) -> io::Result<Command> {
    let mut command = Command::new(alloc, "/bin/sh")?;
    command
        .stdin(Stdio::null())
        .stdout(Stdio::null())
        .stderr(Stdio::null());
    Ok(command)
}

/// The ids of the processes whose environment has this mark.
///
/// # Errors
/// If `/proc` cannot be read, or memory runs out.
pub fn members<R: Files + AllocGlobal>(rt: &R, mark: &str) -> io::Result<Vec<u32>> {
    let mut found = Vec::new(rt.alloc());
    for entry in fs::read_dir(&rt, "/proc")? {
        let Ok(entry) = entry else {
            continue;
        };
        let name = entry.file_name();
        if let Some(process) = process_of(name.as_bytes())
            && is_marked(rt, process, mark)
        {
            found.push(process)?;
        }
    }
    Ok(found)
}

/// The process whose folder in `/proc` has this name.
fn process_of(name: &[u8]) -> Option<u32> {
    str::from_utf8(name).ok()?.parse().ok()
}

/// Whether a process has this mark. A process that may not be read has none.
fn is_marked<R: Files + AllocGlobal>(rt: &R, process: u32, mark: &str) -> bool {
    let Ok(path) = format!(in rt.alloc(); "/proc/{process}/environ") else {
        return false;
    };
    match fs::read(rt, path.as_str()) {
        Ok(environment) => has_entry(environment.as_slice(), mark.as_bytes()),
        Err(_) => false,
    }
}
