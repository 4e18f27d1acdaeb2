//! What each command line does.
ghost use Rattle.std.specs.Prelude.{◌≡◌, ◌||◌, ◌∷◌, [], codes, map};
ghost use Rattle.std.specs.Str.{bytes_eq};

use crate::{cut, draw, gather, junk, measure, schedule, scramble, simulate, threads, worst};
use clap::ArgMatches;
use client_words::{lock, status, stop};
use command_grammar::Grammar;
use command_words::program::Runtime;
use command_words::refusal::Refusal;
use command_words::{ends, is_of_service, matches_of};
use network_words::{bound, network};
use node_process::NodeProcess;
use process_words::{node, up};
use std::convert::AsStr;
use std::process::ExitCode;

/// What follows the commands in the help of `tokentree`.
const HELP: &str = "\
Examples:
  tokentree bound examples/square.toml
  tokentree simulate examples/two-nodes.toml events.txt
  tokentree schedule examples/square.toml --scramble 7 --rounds 100 > run.txt
  tokentree simulate examples/square.toml run.txt
  tokentree measure examples/square.toml --runs 100
  tokentree network ring 5
  tokentree threads examples/square.toml 1000
  tokentree help simulate

Statuses: 0 done; 1 a file, memory or standard output failed, and a line on
standard error says which; 2 invalid arguments; 3 simulate is done, and refused
some lines of its events.";

/// Does what the words after the first one, the program's name, say, and returns the exit status.
/// Shows progress if standard error is a terminal.
pub fn run_words<R: Runtime, S: AsStr>(rt: &R, words: &[S], on_terminal: bool) -> ExitCode {
    if is_of_service(words) {
        return run_part(rt, words);
    }
    let matches = match matches_of(rt, words, HELP, &commands()) {
        Ok(matches) => matches,
        Err(status) => return status,
    };
    let done = act(rt, &matches, on_terminal);
    ends(rt, done, &matches, false)
}

/// What the commands of `tokentree` take, in the order of its help.
fn commands() -> [&'static Grammar<'static>; 17]
    ensures { map (λ one. one.now.name.now) result
        ≡ codes "bound" ∷ codes "simulate" ∷ codes "lock" ∷ codes "status" ∷ codes "scramble" ∷
        codes "cut" ∷ codes "junk" ∷ codes "node" ∷ codes "up" ∷ codes "stop" ∷
        codes "network" ∷ codes "schedule" ∷ codes "measure" ∷ codes "worst" ∷ codes "draw" ∷
        codes "gather" ∷ codes "threads" ∷ [] }
{
    [
        bound::grammar(),
        simulate::grammar(),
        lock::grammar(),
        status::grammar(),
        scramble::grammar(),
        cut::grammar(),
        junk::grammar(),
        node::grammar(),
        up::grammar(),
        stop::grammar(),
        network::grammar(),
        schedule::grammar(),
        measure::grammar(),
        worst::grammar(),
        draw::grammar(),
        gather::grammar(),
        threads::grammar(),
    ]
}

/// Does what a command line says if its command belongs to a part of the program.
fn run_part<R: Runtime, S: AsStr>(rt: &R, words: &[S]) -> ExitCode {
    match words {
        [_, name, ..] if is_of_networks(name.as_str()) => network_words::run_words(rt, words),
        [_, name, ..] if is_of_nodes(name.as_str()) => process_words::run_words(
            rt,
            words,
            &NodeProcess,
        ),
        _ => client_words::run_words(rt, words),
    }
}

/// Whether a command is about networks.
fn is_of_networks(name: &str) -> bool
    ensures { result ≡ (bytes_eq name.now (codes "bound") || bytes_eq name.now (codes "network")) }
{
    name == "bound" || name == "network"
}

/// Whether a command runs nodes.
fn is_of_nodes(name: &str) -> bool
    ensures { result ≡ (bytes_eq name.now (codes "node") || bytes_eq name.now (codes "up")) }
{
    name == "node" || name == "up"
}

/// Does what the words of a command say, and returns the exit status.
fn act<R: Runtime>(rt: &R, matches: &ArgMatches, on_terminal: bool) -> Result<ExitCode, Refusal> {
    let (name, given) = matches.subcommand().ok_or(Refusal::NoCommand)?;
    match name {
        "simulate" => simulate::run(rt, given),
        "schedule" => schedule::run(rt, given),
        "measure" => measure::run(rt, given, on_terminal),
        "worst" => worst::run(rt, given, on_terminal),
        "threads" => threads::run(rt, given, on_terminal),
        "draw" => draw::run(rt, given, on_terminal),
        "gather" => gather::run(rt, given),
        "scramble" => scramble::run(rt, given),
        "cut" => cut::run(rt, given),
        "junk" => junk::run(rt, given),
        _ => Err(Refusal::NoCommand),
    }
}
