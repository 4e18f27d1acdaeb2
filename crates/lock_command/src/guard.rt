//! The guard of a command: a second process of this program. If the first one is killed, the guard
//! holds the lock as long as the command runs.
ghost use Rattle.std.specs.Prelude.{◌≡◌, ◌≢◌, ◌⊎◌, true, is_some, IfSome, None, string_bytes, if◌then◌else◌};
ghost use Rattle.lock_client.specs.declared.guard.GuardEvent.TheVariants.{Said, GraceIsOver};
ghost use Rattle.lock_command.specs.GuardDriving.{named};
ghost use Rattle.lock_command.specs.Marks.{IsClosed};

use crate::family::{lives, members, send};
use crate::guard_driver::{Guarded, drive_guard};
use crate::guard_link::GUARDED;
use crate::notice::{Notice, NoticeLine};
use held_signals::state_now;
use lock_client::{GuardDeed, GuardEvent, GuardSight, GuardWord, WordReader};
use std::io::{ErrorKind, Input, Read};
use std::process::Processes;
use std::rt::{Env, Files};
use std::sync::Wait;
use std::time::{Clock, Duration, Instant};
use std::{env, thread};

/// How many seconds a command that was asked to end may run on before it is killed.
const GRACE: u64 = 3;

/// The status if the environment names no command: the command line was invalid.
const NO_MARK: u8 = 2;

/// A guard at work.
#[derive(Drop)]
struct GuardAtWork<'a, R> {
    /// The system.
    rt: &'a R,
    words: WordReader,
    /// The mark of the command.
    mark: String,
    /// The command's own process, as the client named it.
    command: Option<u32>,
    /// The processes that the last look found.
    seen: Vec<u32>,
    /// When the command that was asked to end is killed.
    kill_due: Option<Instant>,
}

/// Holds the lock, whose connection is standard output, as long as the client on standard input
/// says so. If the client is killed, the guard holds the lock until four looks in a row find no
/// process of the command; it asks the command to end, unless the command may run on or has had the
/// same signal. The environment names the command's mark. Returns the exit status: 0, or 2 if the
/// environment names none or memory runs out.
///
/// A [`Guard`](lock_client::Guard), whose laws are proved, decides what it does next. No contract
/// says what `/proc` shows.
pub fn run<R: Env + Files + Processes + Clock + Input + Eprint + AllocGlobal + Wait>(
    rt: &R,
    keeps_running: bool,
) -> u8
    ensures { (result ≡ 0) ⊎ (result ≡ 2) }
{
    run_marked(rt, guarded_mark(rt), keeps_running)
}

/// Guards the command with this mark in the same way. The status is 2 if there is no mark.
pub fn run_marked<R: Files + Processes + Clock + Input + Eprint + AllocGlobal + Wait>(
    rt: &R,
    mark: Option<String>,
    keeps_running: bool,
) -> u8
    ensures { result ≡ (if is_some mark then 0 else 2) }
{
    let Some(mark) = mark else {
        return NO_MARK;
    };
    let mut watch = GuardAtWork {
        rt,
        words: WordReader::new(),
        mark,
        command: None,
        seen: Vec::new(rt.alloc()),
        kill_due: None,
    };
    drive_guard(rt, &mut watch, keeps_running);
    0
}

/// The mark of the command. The environment has it without the semicolon at its end.
pub fn guarded_mark<R: Env + AllocGlobal>(rt: &R) -> Option<String>
    ensures { IfSome result (λ mark. IsClosed (string_bytes mark)) }
{
    let marked = env::var(rt, GUARDED).ok()?;
    format!(in rt.alloc(); "{marked};").ok()
}

/// What the guard of a command needs from the system.
trait GuardSystem: Files + Processes + Clock + Input + Eprint + AllocGlobal + Wait {}

impl<R> GuardSystem for R
where
    R: Files + Processes + Clock + Input + Eprint + AllocGlobal + Wait,
{}

impl<R: GuardSystem> Guarded for GuardAtWork<'_, R> {
    ghost use Rattle.std.specs.Prelude.{None, is_some};

    ghost reported = { λ _. None };

    ghost grants = { λ watch. is_some watch.kill_due };

    fn next_event(&mut self, deed: GuardDeed, rest: u64) -> GuardEvent {
        if deed == GuardDeed::Listen {
            return self.listen();
        }
        thread::sleep(self.rt, Duration::from_millis(rest));
        if self.is_grace_over() {
            return GuardEvent::GraceIsOver;
        }
        self.seen = self.look_for_all();
        GuardEvent::Looked(GuardSight {
            somebody: !self.seen.is_empty(),
            signalled: state_now(self.rt).pending.any(),
        })
    }

    fn act(&mut self, deed: GuardDeed) {
        match deed {
            GuardDeed::Ask => self.ask_command(),
            GuardDeed::Kill => {
                let _ = send(self.rt, "KILL", self.seen.as_slice());
            }
            GuardDeed::Listen | GuardDeed::Look | GuardDeed::End => {}
        }
    }
}

impl<R: GuardSystem> GuardAtWork<'_, R> {
    /// What the client says next. A line that cannot be read is its end.
    fn listen(&mut self) -> GuardEvent
        ensures { result ≢ GraceIsOver }
    {
        let mut byte = [0u8];
        for _ in self.rt.forever() {
            match self.rt.reader().read(&mut byte) {
                Ok(0) => return GuardEvent::Closed,
                Ok(_) => {
                    if let Some(word) = self.words.push(byte[0]) {
                        return self.said(word);
                    }
                }
                Err(error) if error.kind() == ErrorKind::Interrupted => {}
                Err(_) => return GuardEvent::Closed,
            }
        }
        unreachable!()
    }

    /// Takes note of the command's process.
    fn said(&mut self, word: GuardWord) -> GuardEvent
        ensures event { result ≡ Said word }
        ensures command { self.new.command ≡ named word self.old.command }
    {
        if let GuardWord::Runs(process) = word {
            self.command = Some(process);
        }
        GuardEvent::Said(word)
    }

    /// Whether the command's grace is over. It says so once.
    fn is_grace_over(&mut self) -> bool
        ensures granted { result ≡ true → is_some self.old.kill_due ≡ true }
        ensures once { result ≡ true → self.new.kill_due ≡ None }
    {
        let is_over = match (self.kill_due, Instant::now(self.rt)) {
            (Some(due), Ok(now)) => due <= now,
            _ => false,
        };
        if is_over {
            self.kill_due = None;
        }
        is_over
    }

    /// What is left of the command: its own process, and all processes that have its mark.
    fn look_for_all(&mut self) -> Vec<u32> {
        let mut found = match members(self.rt, self.mark.as_str()) {
            Ok(found) => found,
            Err(_) => Vec::new(self.rt.alloc()),
        };
        let rt = self.rt;
        self.command = self.command.filter(|process| lives(rt, *process));
        if let Some(process) = self.command
            && !found.as_slice().contains(&process)
        {
            let _ = found.push(process);
        }
        found
    }

    /// Says that the client is gone, asks the command to end, and notes when it is killed.
    fn ask_command(&mut self) {
        let _ = self.rt.eprintln(NoticeLine(Notice::ClientGone));
        let _ = send(self.rt, "TERM", self.seen.as_slice());
        self.kill_due = match Instant::now(self.rt) {
            Ok(now) => now.checked_add(Duration::from_secs(GRACE)),
            Err(_) => None,
        };
    }
}
