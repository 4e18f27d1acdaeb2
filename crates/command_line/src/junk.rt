//! The words of `junk`.
ghost use Rattle.std.specs.Prelude.{◌≡◌, codes};
ghost use Rattle.command_words.specs.command_faults.Ends.{DoneMeansZero};

use crate::seeds::{PLACED_SEED, SEED_PLACE};
use clap::ArgMatches;
use command_grammar::{FREE, Grammar, Number, Parameter, given_number};
use command_words::refusal::Refusal;
use std::process::ExitCode;
use subcommands::junk;

/// What `junk` takes.
static JUNK: Grammar<'static> = Grammar {
    name: "junk",
    about: "Prints lines that mean nothing, for whatever reads lines",
    help: "\
A line has 0 to 40 bytes from ! to ~. The same seed gives the same lines, on any
machine.

  $ tokentree junk 7 2
  +(==lkMfO]!#B{X}whq}R*SbyZPz$`#?5I3
  .Vnn)AQDz\"jU}#08]yttOpOL9&sj

Statuses: 0 done; 1 standard output failed; 2 invalid arguments.",
    parameters: &[
        SEED_PLACE,
        Parameter::Place("LINES", "How many lines: 0 to 1000000"),
    ],
    ..FREE
};

/// What `junk` takes, for the parser.
pub fn grammar() -> &'static Grammar<'static>
    ensures { result.now.name.now ≡ codes "junk" }
{
    &JUNK
}

/// How many lines of junk are printed.
const LINES: Number<'static> = Number {
    id: "LINES",
    name: "LINES",
    least: 0,
    most: 1_000_000,
};

/// Does what the words of `junk` say.
pub fn run<R: Print + Eprint + AllocGlobal>(rt: &R, given: &ArgMatches) -> Result<ExitCode, Refusal>
    ensures { DoneMeansZero result }
{
    let seed = given_number(given, PLACED_SEED)? as u32;
    let lines = given_number(given, LINES)? as u32;
    Ok(junk::run(rt, seed, lines)?)
}
