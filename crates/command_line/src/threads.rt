//! The words of `threads`.
ghost use Rattle.std.specs.Prelude.{◌≡◌, codes};
ghost use Rattle.command_words.specs.command_faults.Ends.{DoneMeansZero};

use clap::ArgMatches;
use command_grammar::{FREE, Grammar, Number, Parameter, given_number, word};
use command_words::program::{FILE, Runtime};
use command_words::refusal::Refusal;
use live_commands::threads;
use std::process::ExitCode;

/// What `threads` takes.
static THREADS: Grammar<'static> = Grammar {
    name: "threads",
    about: "Runs each node on a thread of its own, and shows the state reached",
    help: "\
Each node does TURNS turns on its own thread, from fresh nodes and empty links.
In a turn it ticks, then sends to each neighbour if a place is free, and takes
up to two items from each. All begin together, and wait for one another after
each 16 of the first 1024 turns. Apart from that the system decides which node
runs. So what happens differs from run to run, but it is always a list of events
that could have happened one after the other. It shows the state that they lead
to as simulate does, with the sweeps in that list:

  $ tokentree threads examples/square.toml 1000 --events run.txt
  node 0 distance 0 parent none token no lent none waiting 0
  node 1 distance 1 parent 0 token no lent none waiting 0
  node 2 distance 1 parent 0 token no lent none waiting 0
  node 3 distance 2 parent 1 token no lent none waiting 0
  ..
  privileged 0 lending 0
  sweeps 22 of 461

22 sweeps have passed, and 461 are proved to be enough from any state; from its
start this network needs far fewer. --events writes the list to a file, for
which simulate shows the same:

  $ tokentree simulate examples/square.toml run.txt

All memory is taken before the first turn, so a run that does not fit fails at
once. Nothing is printed before the end. On a terminal, a line on standard error
shows how many turns node 0 has done so far.

Statuses: 0 done; 1 a file, memory, a thread or standard output failed, and a
line on standard error says which; 2 invalid arguments.",
    parameters: &[
        FILE,
        Parameter::Place("TURNS", "How many turns each node does, 1 to 1000000"),
        Parameter::Value(
            "events",
            "PATH",
            "Write what the nodes did to this file, as an events text",
        ),
    ],
    ..FREE
};

/// What `threads` takes, for the parser.
pub fn grammar() -> &'static Grammar<'static>
    ensures { result.now.name.now ≡ codes "threads" }
{
    &THREADS
}

/// How many turns a node does on a thread.
const TURNS: Number<'static> = Number {
    id: "TURNS",
    name: "TURNS",
    least: 1,
    most: 1_000_000,
};

/// Does what the words of `threads` say. `progress` says whether to show progress.
pub fn run<R: Runtime>(rt: &R, given: &ArgMatches, progress: bool) -> Result<ExitCode, Refusal>
    ensures { DoneMeansZero result }
{
    let network = word(given, "FILE")?;
    let turns = given_number(given, TURNS)? as u32;
    Ok(threads::run(rt, network, turns, given.get_str("events"), progress)?)
}
