//! What the lines of `lock`, `status` and `stop` do.
use crate::lock::OmittedWords;
use crate::{lock, status, stop};
use clap::ArgMatches;
use command_words::program::Runtime;
use command_words::refusal::{self, Refusal};
use command_words::{asks_for_lock, asks_for_version, ends, matches_of, say_version};
use std::convert::AsStr;
use std::process::ExitCode;

/// What follows the commands in the program's help.
const HELP: &str = "\
Examples:
  tokentree lock run any -- sleep 5
  tokentree status run
  tokentree stop run 1

This is the part of tokentree that asks running nodes. Other parts run them, and
know networks; the whole program also simulates, measures and draws.";

/// Does what the words after the first, the program's name, say, and returns the exit status. A line
/// of `lock` may leave out words that variables of the environment stand in for.
pub fn run_words<R: Runtime, S: AsStr>(rt: &R, words: &[S]) -> ExitCode {
    if asks_for_version(words) {
        return say_version(rt);
    }
    if !asks_for_lock(words) {
        return run_whole(rt, words);
    }
    let surroundings = OmittedWords::of(rt);
    match surroundings.whole_words(rt.alloc(), words) {
        Ok(whole) => run_whole(rt, whole.as_slice()),
        Err(refusal) => refusal::status(rt, Err(refusal), true, None),
    }
}

/// Does the same for a command line in which no word is left out.
fn run_whole<R: Runtime, S: AsStr>(rt: &R, words: &[S]) -> ExitCode {
    let matches = match matches_of(
        rt,
        words,
        HELP,
        &[lock::grammar(), status::grammar(), stop::grammar()],
    ) {
        Ok(matches) => matches,
        Err(status) => return status,
    };
    let is_dashed = words.last().is_some_and(|word| word.as_str() == "--");
    let done = act(rt, &matches, is_dashed);
    ends(rt, done, &matches, asks_for_lock(words))
}

/// Does what the words of a command say, and returns the exit status. `is_dashed` says whether the
/// last word is `--`.
fn act<R: Runtime>(rt: &R, matches: &ArgMatches, is_dashed: bool) -> Result<ExitCode, Refusal> {
    let (name, given) = matches.subcommand().ok_or(Refusal::NoCommand)?;
    match name {
        "lock" => lock::run(rt, given, is_dashed),
        "status" => status::run(rt, given),
        "stop" => stop::run(rt, given),
        _ => Err(Refusal::NoCommand),
    }
}
