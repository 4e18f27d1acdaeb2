//! The words of `up`.
ghost use Rattle.std.specs.Prelude.{◌≡◌, IfOk, IfErr, codes};
ghost use Rattle.clap.specs.Matches.{found_of};
ghost use Rattle.process_words.specs.NodeWords.{AreUpWordsRefused, IsUpOf};
ghost use Rattle.command_words.specs.command_faults.Ends.{DoneMeansZeroOr};

use crate::options::{DIR, OPTIONS, ended, late_after, log_level, manner, record_size, rights};
use clap::ArgMatches;
use command_grammar::{FREE, Grammar, word};
use command_words::program::{FILE, Runtime};
use command_words::refusal::Refusal;
use process_parts::UpWords;
use std::process::ExitCode;
use up_process::OwnProgram;

/// What `up` takes.
static UP: Grammar<'static> = Grammar {
    name: "up",
    about: "Runs all nodes of a network, and restarts what ends, until Ctrl-C",
    help: "\
Each node of the network of FILE runs as its own process, with its files in DIR
(see `help node`):

  $ tokentree up examples/ring-of-three.toml run
  node 0 start default Absent
  node 0 ready
  node 1 start default Absent
  ...

A node that ends, for whatever reason, is started again within a second, and a
line says so. Each node gets --hold, --repeat, --turn, --group-locks, --log,
--record and --record-size (see `help node`).

SIGINT (Ctrl-C), SIGTERM or SIGHUP ends it. So does the end of its standard
input, if that is a terminal (Ctrl-D) or a pipe; with a file or /dev/null it
runs on. Then the nodes save their states and end, with a line each. What has
not ended after five seconds is killed. Ctrl-C or another signal before that
kills it at once. If `up` itself is killed, each node still ends well.

The launcher ./tokentree holds signals back from up, and so does

  env --block-signal=HUP,INT,TERM,TTIN tokentree up ..

Then up waits for its nodes, and says that they have ended. Otherwise up ends at
once, and the nodes within half a second.

Statuses: 0 it was asked to end, and all nodes have ended; 1 it cannot run, or
no node stays up, and a line on standard error says why; 2 invalid arguments.",
    shared: OPTIONS,
    parameters: &[FILE, DIR],
    needs: &[("record-size", "record")],
    ..FREE
};

/// What `up` takes, for the parser.
pub fn grammar() -> &'static Grammar<'static>
    ensures { result.now.name.now ≡ codes "up" }
{
    &UP
}

/// What the words of `up` ask for.
///
/// # Errors
/// If a word spells no number, or no time, in its range.
pub fn asked<'a>(given: &ArgMatches<'a>) -> Result<UpWords<'a>, Refusal>
    ensures ok { IfOk result (IsUpOf (found_of given.now)) }
    ensures err { IfErr result (AreUpWordsRefused (found_of given.now)) }
{
    Ok(UpWords {
        file: word(given, "FILE")?,
        dir: word(given, "DIR")?,
        manner: manner(given)?,
        turn: late_after(given)?,
        rights: rights(given),
        log: log_level(given)?,
        record_size: record_size(given)?,
    })
}

/// Does what the words of `up` say.
///
/// # Errors
/// If a word spells no number, or no time, in its range.
pub fn run<R: Runtime>(rt: &R, given: &ArgMatches) -> Result<ExitCode, Refusal>
    ensures ok { DoneMeansZeroOr 1 result }
    ensures err { IfErr result (AreUpWordsRefused (found_of given.now)) }
{
    let words = asked(given)?;
    let done = match OwnProgram::new(rt, words) {
        Ok(program) => up_process::run(rt, &program, words.file, words.dir),
        Err(fault) => Err(fault),
    };
    Ok(ended(rt, words.file, words.dir, 0, done))
}
