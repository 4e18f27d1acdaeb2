//! What the command lines of `node` and `up` do.
use crate::{node, up};
use clap::ArgMatches;
use command_words::program::Runtime;
use command_words::refusal::Refusal;
use command_words::{asks_for_version, ends, matches_of, say_version};
use process_parts::NodeWork;
use std::convert::AsStr;
use std::process::ExitCode;

/// What follows the commands in its help.
const HELP: &str = "\
Examples:
  tokentree up ring.toml run
  tokentree node ring.toml 1 run

This is the part of tokentree that runs nodes. Other parts ask them, and know
networks; the whole program also simulates, measures and draws.";

/// Does what the words say, and returns the exit status. The first word is the program's name. `nodes` runs a
/// node.
pub fn run_words<R: Runtime, S: AsStr, N: NodeWork<R>>(rt: &R, words: &[S], nodes: &N) -> ExitCode {
    if asks_for_version(words) {
        return say_version(rt);
    }
    match matches_of(rt, words, HELP, &[node::grammar(), up::grammar()]) {
        Ok(matches) => ends(rt, act(rt, &matches, nodes), &matches, false),
        Err(status) => status,
    }
}

/// Does what the words of a command say, and returns the exit status.
fn act<R: Runtime, N: NodeWork<R>>(
    rt: &R,
    matches: &ArgMatches,
    nodes: &N,
) -> Result<ExitCode, Refusal> {
    let (name, given) = matches.subcommand().ok_or(Refusal::NoCommand)?;
    match name {
        "node" => node::run(rt, given, nodes),
        "up" => up::run(rt, given),
        _ => Err(Refusal::NoCommand),
    }
}
