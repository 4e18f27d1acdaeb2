//! The words of `scramble`.
ghost use Rattle.std.specs.Prelude.{◌≡◌, codes};

use crate::seeds::{PLACED_SEED, SEED_PLACE};
use clap::ArgMatches;
use client_words::stop::warn_of_runner;
use command_grammar::{FREE, Grammar, Parameter, given_number, word};
use command_words::explain_id;
use command_words::program::{FILE, ID, Runtime};
use command_words::refusal::{Refusal, ended};
use std::process::ExitCode;
use subcommands::{Fault, PathFault, scramble};

/// What `scramble` takes.
static SCRAMBLE: Grammar<'static> = Grammar {
    name: "scramble",
    about: "Writes a state file as a fault may leave it: any values in range",
    help: "\
The same seed gives the same file, on any machine. Numbers are decimal, with no
sign and no leading zero. A state file does not have the desk: a lock that was
lent is forgotten.

  $ tokentree scramble examples/two-nodes.toml 1 node-1.state 7

A running node writes its file again within half a second, and the damage is
gone; a line on standard error says that it runs. So stop the node first, or
kill it right after the scramble.

Statuses: 0 done; 1 the network, the id or the file is invalid, and a line on
standard error says why; 2 invalid arguments. If the file cannot be opened for
writing, or is no plain file, it stays as it is.",
    parameters: &[
        FILE,
        Parameter::Place("ID", "The node, by its id"),
        Parameter::Place("PATH", "The state file, which is written in place"),
        SEED_PLACE,
    ],
    ..FREE
};

/// What `scramble` takes, for the parser.
pub fn grammar() -> &'static Grammar<'static>
    ensures { result.now.name.now ≡ codes "scramble" }
{
    &SCRAMBLE
}

/// Does what the words of `scramble` say.
pub fn run<R: Runtime>(rt: &R, given: &ArgMatches) -> Result<ExitCode, Refusal> {
    let network = word(given, "FILE")?;
    let path = word(given, "PATH")?;
    let id = given_number(given, ID)? as u16;
    let seed = given_number(given, PLACED_SEED)? as u32;
    let done = scramble::run(rt, network, id, path, seed);
    match &done {
        Ok(_) => warn_of_runner(rt, path),
        Err(PathFault::Fault(Fault::NoNode)) => explain_id(rt, network, id),
        Err(_) => {}
    }
    Ok(ended(rt, network, done))
}
