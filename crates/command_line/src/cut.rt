//! The words of `cut`.
ghost use Rattle.std.specs.Prelude.{◌≡◌, codes};

use clap::ArgMatches;
use client_words::stop::warn_of_runner;
use command_grammar::{FREE, Grammar, Number, Parameter, given_number, word};
use command_words::program::Runtime;
use command_words::refusal::{Refusal, ended};
use std::process::ExitCode;
use subcommands::cut;

/// What `cut` takes.
static CUT: Grammar<'static> = Grammar {
    name: "cut",
    about: "Shortens a file to its first bytes, as a broken write leaves it",
    help: "\
A file that is not longer stays as it is. A running node writes its state file
again within half a second, and a line on standard error says that it runs. So
stop the node first, or kill it right after the cut.

  $ tokentree cut node-1.state 33

Statuses: 0 done; 1 the file is missing, cannot be written or is no plain file;
2 invalid arguments.",
    parameters: &[
        Parameter::Place("PATH", "The file"),
        Parameter::Place("LENGTH", "How many bytes it keeps: 0 to 1000000"),
    ],
    ..FREE
};

/// What `cut` takes, for the parser.
pub fn grammar() -> &'static Grammar<'static>
    ensures { result.now.name.now ≡ codes "cut" }
{
    &CUT
}

/// The number of bytes that a file is cut to.
const LENGTH: Number<'static> = Number {
    id: "LENGTH",
    name: "LENGTH",
    least: 0,
    most: 1_000_000,
};

/// Does what the words of `cut` say.
pub fn run<R: Runtime>(rt: &R, given: &ArgMatches) -> Result<ExitCode, Refusal> {
    let path = word(given, "PATH")?;
    let length = given_number(given, LENGTH)? as u32;
    let done = cut::run(rt, path, length);
    if done.is_ok() {
        warn_of_runner(rt, path);
    }
    Ok(ended(rt, path, done))
}
