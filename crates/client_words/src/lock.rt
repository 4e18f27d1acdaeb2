//! The words of `lock`.
ghost use Rattle.std.specs.Prelude.{◌≡◌, IfOk, IfErr, map, codes};
ghost use Rattle.clap.specs.Matches.{found_of};
ghost use Rattle.command_faults.specs.declared.fault.Fault.TheVariants.{Memory};
ghost use Rattle.client_words.specs.Words.{texts};
ghost use Rattle.command_words.specs.declared.refusal.Refusal.TheVariants as refused;
ghost use Rattle.command_words.specs.Refused.{IsIdRefused};
ghost use Rattle.client_words.specs.LockWords.{AreWhole, IsLockRefused, IsNodeAsked, IsRequestOf};
ghost use Rattle.client_words.specs.LockWords.{IsRequestRefused, IsWaitOf, IsWaitRefused, command_words, guard_words};

use crate::limit::limit_of;
use crate::whole::{StandIns, whole_words};
use clap::ArgMatches;
use command_faults::Fault;
use command_grammar::{FREE, Grammar, Number, Parameter, given_number, word};
use command_words::program::{DIR, ID, Runtime};
use command_words::refusal::Refusal;
use lock_command::{Request, Seconds, guard, lock};
use std::alloc::Global;
use std::convert::AsStr;
use std::env;
use std::process::ExitCode;
use std::rt::Env;

/// What `lock` takes.
static LOCK: Grammar<'static> = Grammar {
    name: "lock",
    about: "Runs a command while it holds the lock",
    help: "\
Waits until node ID, whose socket is DIR/desk-ID.sock, grants the lock. Then it
runs the command with its own standard streams, releases the lock, and ends with
the command's status. -- may stand before the command, and must if its name
begins with a hyphen.

  $ tokentree lock /run/tokentree 1 -- make deploy
  $ tokentree lock --timeout 0.2 /run/tokentree any -- ./backup.sh /srv
  $ tokentree lock -n -E 75 /run/tokentree 1 -- ./backup.sh /srv || echo later
  $ tokentree lock --verbose /run/tokentree 1 -- true
  tokentree: waiting at node 1
  tokentree: node 1 granted the lock
  tokentree: node 1 took the lock back

any asks all nodes of DIR and takes the one that answers first. So a node that
is down keeps nobody from the lock. -n gives up at once, that is after half a
second. The token comes round sooner if nobody holds the lock. -E is the status
of a lost lock, for a command that may end with 122 itself.

If DIR or ID is left out, the variables TOKENTREE_DIR and TOKENTREE_NODE stand
in for it. Then -- must stand before COMMAND:

  $ export TOKENTREE_DIR=/run/tokentree TOKENTREE_NODE=1
  $ tokentree lock -- make deploy

Without a command it prints granted, and holds the lock until its standard input
ends:

  $ tokentree lock /run/tokentree 1
  granted

The lock is lost if its lease is over, if the node goes away, or if the node is
damaged. Then lock reports it, asks the command and all that it started to end
(SIGTERM), kills them 3 seconds later, and ends with 122. With --keep they run
on, and the command's status counts. Without --keep, a command whose status lock
ends with held the lock from its start to its end.

While the command runs, lock is two processes, and each of them holds the lock.
If the first is killed, the second ends the command in the same way, and
releases the lock when nothing of it is left. If a signal came to the whole
group, as Ctrl-C on a terminal does, the command has had it too. Then the second
process only waits until the command has ended. So a command that catches the
signal and cleans up still has the lock. If the second process is killed, the
lock counts as lost.

The launcher ./tokentree holds signals back from lock, and so does

  env --block-signal=INT,QUIT,TERM tokentree lock ..

Then lock survives Ctrl-C, passes SIGTERM on to the command, and ends as the
command does.

The lock is released when the command itself has ended. What it left in the
background runs on without the lock. (Under flock it would keep the lock, by the
open file.) With --wait-children, lock waits for it.

Statuses: the command's own, or 128 plus the number of the signal that ended it;
122 (or STATUS of -E) the lock was lost, or may have been; 124 it was not
granted in time, or the node has no room for a client; 125 there is no lock
service at DIR, or it or the system failed, or the second process could not be
started; 126 the command cannot be run; 127 there is no such command; 2 invalid
arguments. A signal that ends lock while it waits gives 128 plus its number.",
    parameters: &[
        Parameter::Value(
            "timeout",
            "SECONDS",
            "Give up after 0 to 65535 seconds, as 5 or 0.2",
        ),
        Parameter::Flag("no-wait", "Give up at once, after half a second (-n)"),
        Parameter::ValueOr(
            "lost-status",
            "STATUS",
            "122",
            "Status of a lost lock, 1-255 (-E)",
        ),
        Parameter::Flag(
            "verbose",
            "Report wait, grant and release on standard error",
        ),
        Parameter::Flag("keep", "Let the command run on if the lock is lost"),
        Parameter::Flag(
            "wait-children",
            "Hold the lock until what the command started ends",
        ),
        // The program starts its own guard with one of these flags.
        Parameter::HiddenFlag("guard"),
        Parameter::HiddenFlag("guard-keeping"),
        DIR,
        Parameter::Place(
            "ID",
            "The node to ask, or any: the one of DIR that answers first",
        ),
        Parameter::Rest(
            "COMMAND",
            "Command and arguments; if none, hold the lock until input ends",
        ),
    ],
    excludes: &[("no-wait", "timeout")],
    ..FREE
};

/// What `lock` takes, for the parser.
pub fn grammar() -> &'static Grammar<'static>
    ensures { result.now.name.now ≡ codes "lock" }
{
    &LOCK
}

/// The word for the node that answers first.
const ANY: &str = "any";

/// The status of a lost lock.
const LOST: Number<'static> = Number {
    id: "lost-status",
    name: "--lost-status",
    least: 1,
    most: 255,
};

/// How many milliseconds `lock` waits if it must have the lock at once: a token that nobody
/// borrows comes round sooner.
const AT_ONCE: u32 = 500;

/// The environment variables that stand in for DIR and ID.
const FOLDER_VARIABLE: &str = "TOKENTREE_DIR";

const NODE_VARIABLE: &str = "TOKENTREE_NODE";

/// The words that make the program the guard of a command. DIR and ID are not used then.
const GUARD: [&str; 5] = ["lock", "--guard", "--", ".", "0"];

/// The same for a command that runs on if the lock is lost.
const KEEPING_GUARD: [&str; 5] = ["lock", "--guard-keeping", "--", ".", "0"];

/// What stands in for omitted words.
#[derive(Drop)]
pub struct OmittedWords {
    folder: Option<String>,
    node: Option<String>,
}

impl OmittedWords {
    /// The stand-ins of the environment. An empty variable counts as none.
    pub fn of<R: Env + AllocGlobal>(rt: &R) -> OmittedWords {
        OmittedWords {
            folder: variable(rt, FOLDER_VARIABLE),
            node: variable(rt, NODE_VARIABLE),
        }
    }

    /// The words of a command line of `lock`, with the stand-ins for what they leave out.
    ///
    /// # Errors
    /// If memory runs out.
    pub fn whole_words<'a, S: AsStr>(
        &'a self,
        alloc: Global,
        words: &'a [S],
    ) -> Result<Vec<&'a str>, Refusal>
        ensures ok { IfOk result (λ whole. AreWhole S.text words.now self.now (texts whole.items)) }
        ensures err { IfErr result (λ refusal. refusal ≡ refused.Fault Memory) }
    {
        let instead = StandIns {
            folder: self.folder.as_deref(),
            node: self.node.as_deref(),
        };
        whole_words(alloc, words, instead).map_err(|_| Refusal::Fault(Fault::Memory))
    }
}

/// A variable of the environment that is not empty.
fn variable<R: Env + AllocGlobal>(rt: &R, name: &str) -> Option<String> {
    match env::var(rt, name) {
        Ok(value) if !value.is_empty() => Some(value),
        _ => None,
    }
}

/// Does what the words of `lock` say, or what the guard of a command does. `is_dashed` says
/// whether the last word is `--`.
pub fn run<R: Runtime>(rt: &R, given: &ArgMatches, is_dashed: bool) -> Result<ExitCode, Refusal>
    ensures { IfErr result (IsLockRefused (found_of given.now) is_dashed) }
{
    let is_keeping_guard = given.get_flag("guard-keeping");
    if is_keeping_guard || given.get_flag("guard") {
        return Ok(ExitCode::from(guard::run(rt, is_keeping_guard)));
    }
    if is_dashed && command(given).is_empty() {
        return Err(Refusal::NoWords);
    }
    Ok(ExitCode::from(lock::run(rt, &request(given)?)))
}

/// The command and its words; empty if the lock is held until the input ends.
fn command<'a>(given: &'a ArgMatches) -> &'a [&'a str]
    ensures { map (λ w. w.now) result.now ≡ command_words (found_of given.now) }
{
    given.get_strs("COMMAND").unwrap_or(&[])
}

/// The request that the words make.
///
/// # Errors
/// If a word spells no number in its range, or no time to wait.
fn request<'a>(given: &'a ArgMatches) -> Result<Request<'a>, Refusal>
    ensures ok { IfOk result (IsRequestOf (found_of given.now)) }
    ensures command { IfOk result (λ request. map (λ w. w.now) request.command.now
        ≡ command_words (found_of given.now)) }
    ensures guard { IfOk result (λ request. map (λ w. w.now) request.guard.now
        ≡ guard_words request.keeps_running) }
    ensures err { IfErr result (IsRequestRefused (found_of given.now)) }
{
    let keeps_running = given.get_flag("keep");
    Ok(Request {
        folder: word(given, "DIR")?,
        node: node(given)?,
        limit: limit(given)?,
        lost: given_number(given, LOST)? as u8,
        is_verbose: given.get_flag("verbose"),
        keeps_running,
        waits_for_children: given.get_flag("wait-children"),
        guard: if keeps_running {
            &KEEPING_GUARD
        } else {
            &GUARD
        },
        command: command(given),
    })
}

/// The node to ask; none for any.
///
/// # Errors
/// If the word is neither `any` nor a number from 0 to 65535.
fn node(given: &ArgMatches) -> Result<Option<u16>, Refusal>
    ensures ok { IfOk result (IsNodeAsked (found_of given.now)) }
    ensures err { IfErr result (IsIdRefused (found_of given.now)) }
{
    if word(given, "ID")? == ANY {
        Ok(None)
    } else {
        Ok(Some(given_number(given, ID)? as u16))
    }
}

/// How long to wait for the lock; none for no limit.
///
/// # Errors
/// [`Refusal::Limit`] if the word of `--timeout` spells no time from 0 to 65535 seconds.
fn limit(given: &ArgMatches) -> Result<Option<Seconds>, Refusal>
    ensures ok { IfOk result (IsWaitOf (found_of given.now)) }
    ensures err { IfErr result (IsWaitRefused (found_of given.now)) }
{
    match given.get_str("timeout") {
        Some(word) => match limit_of(word) {
            Some(millis) => Ok(Some(Seconds { millis })),
            None => Err(Refusal::Limit),
        },
        None if given.get_flag("no-wait") => Ok(Some(Seconds { millis: AT_ONCE })),
        None => Ok(None),
    }
}
