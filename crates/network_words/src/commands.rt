//! What the command lines of `bound` and `network` do.
use crate::{bound, network};
use clap::ArgMatches;
use command_words::program::Runtime;
use command_words::refusal::Refusal;
use command_words::{asks_for_version, ends, matches_of, say_version};
use std::convert::AsStr;
use std::process::ExitCode;

/// What follows the commands in its help.
const HELP: &str = "\
Examples:
  tokentree network ring 3 --capacity 64 > ring.toml
  tokentree bound ring.toml

This is the part of tokentree that knows networks. Other parts run nodes, and ask
them; the whole program also simulates, measures and draws.";

/// Does what the words say, and returns the exit status. The first word is the program's name.
pub fn run_words<R: Runtime, S: AsStr>(rt: &R, words: &[S]) -> ExitCode {
    if asks_for_version(words) {
        return say_version(rt);
    }
    match matches_of(rt, words, HELP, &[bound::grammar(), network::grammar()]) {
        Ok(matches) => ends(rt, act(rt, &matches), &matches, false),
        Err(status) => status,
    }
}

/// Does what the words of a command say, and returns the exit status.
fn act<R: Runtime>(rt: &R, matches: &ArgMatches) -> Result<ExitCode, Refusal> {
    let (name, given) = matches.subcommand().ok_or(Refusal::NoCommand)?;
    match name {
        "bound" => bound::run(rt, given),
        "network" => network::run(rt, given),
        _ => Err(Refusal::NoCommand),
    }
}
