//! What the command lines of all commands share: whether they name a command of the service, how
//! they are read, and how they end.
ghost use Rattle.std.specs.Prelude.{◌≡◌, ◌⊎◌, map, option_map};
ghost use Rattle.std.specs.Process.{exit_status};
ghost use Rattle.clap.specs.Facts.{subcommands_of};
ghost use Rattle.command_words.specs.Ends.{asks_for_lock, asks_for_version, is_version, known_command};
ghost use Rattle.command_words.specs.Ends.{is_of_service, names_service, serves, status_of};

use crate::program::{ABOUT, NAME, Runtime, VERSION};
use crate::refusal::{Refusal, status};
use clap::{ArgMatches, Command};
use command_grammar::{Grammar, Program, parser};
use program_ends::{
    Fault, explain_network, explain_reading, explain_writing, fails, fault_status, print_status,
    shows,
};
use std::alloc::{AllocError, Global};
use std::convert::AsStr;
use std::process::ExitCode;

/// What the parser of these commands made of the words, or the status of a line that showed help or was
/// invalid. The help ends with this text. All texts name the program `tokentree`, whatever its file is
/// called.
pub fn matches_of<'a, R: Print + Eprint + AllocGlobal, S: AsStr>(
    rt: &R,
    words: &'a [S],
    help: &'a str,
    commands: &[&Grammar<'a>],
) -> Result<ArgMatches<'a>, ExitCode> {
    let is_lock = asks_for_lock(words);
    match named_parser(rt.alloc(), help, commands) {
        Ok(parser) => parsed(rt, parser, words, is_lock),
        Err(_) => Err(fails(rt, Fault::Memory, fault_status(is_lock))),
    }
}

/// What a parser made of the words, or the status of a line that showed help or was invalid.
fn parsed<'a, R: Print + Eprint + AllocGlobal, S: AsStr>(
    rt: &R,
    parser: Command<'a>,
    words: &'a [S],
    is_lock: bool,
) -> Result<ArgMatches<'a>, ExitCode> {
    let command = known_command(&parser, words);
    match parser.try_get_matches_from(words) {
        Ok(matches) => Ok(matches),
        Err(error) => Err(shows(rt, &error, is_lock, command)),
    }
}

/// The word after the program's name, if it is a command of this parser.
fn known_command<'a, S: AsStr>(parser: &Command<'_>, words: &'a [S]) -> Option<&'a str>
    ensures { option_map (λ name. name.now) result
        ≡ known_command (subcommands_of parser.now) (map S.text words.now) }
{
    let [_, name, ..] = words else {
        return None;
    };
    let name = name.as_str();
    if parser.find_subcommand(name).is_some() {
        Some(name)
    } else {
        None
    }
}

/// The parser of these commands, whose texts call the program by its own name. Its help ends with this text.
///
/// # Errors
/// If memory runs out.
fn named_parser<'a>(
    alloc: Global,
    help: &'a str,
    commands: &[&Grammar<'a>],
) -> Result<Command<'a>, AllocError> {
    parser(alloc, &named_program(help), commands)?.bin_name(NAME)
}

/// The program by its own name, with a help that ends with this text.
fn named_program<'a>(help: &'a str) -> Program<'a>
    ensures texts { (result.name.now ≡ NAME.now) × (result.about.now ≡ ABOUT.now)
        × (result.version.now ≡ VERSION.now) }
    ensures help { result.help ≡ help.entry }
{
    Program {
        name: NAME,
        about: ABOUT,
        help,
        version: VERSION,
    }
}

/// The status of a command line. If it fails, says why.
pub fn ends<R: Runtime>(
    rt: &R,
    done: Result<ExitCode, Refusal>,
    matches: &ArgMatches,
    is_lock: bool,
) -> ExitCode
    ensures { exit_status result ≡ status_of is_lock done }
{
    if let (Err(Refusal::Fault(fault)), Some((_, given))) = (&done, matches.subcommand()) {
        explain(rt, given, *fault);
    }
    status(rt, done, is_lock, matches.subcommand_name())
}

/// Before a fault's own line, says which file is at fault and what is wrong with it.
fn explain<R: Runtime>(rt: &R, given: &ArgMatches, fault: Fault) {
    match fault {
        Fault::Network(fault) => {
            if let Some(file) = given.get_str("FILE").or(given.get_str("network")) {
                explain_network(rt, file, fault);
            }
        }
        Fault::EventsUnreadable => {
            if let Some(file) = given.get_str("EVENTS") {
                explain_reading(rt, file);
            }
        }
        Fault::EventsUnwritable => {
            if let Some(file) = given.get_str("events") {
                explain_writing(rt, file);
            }
        }
        _ => {}
    }
}

/// Says which version of the program this is.
pub fn say_version<R: Print + Eprint>(rt: &R) -> ExitCode
    ensures { (exit_status result ≡ 0) ⊎ ((exit_status result ≡ 1) ⊎ (exit_status result ≡ 141)) }
{
    print_status(rt, println!(rt; "tokentree {VERSION}"))
}

/// Whether the whole program leaves these words to the part that serves a lock: they name a command that serves a
/// lock, or ask for the version.
pub fn is_of_service<S: AsStr>(words: &[S]) -> bool
    ensures { result ≡ is_of_service (map S.text words.now) }
{
    asks_for_version(words) || names_service(words)
}

/// Whether the word after the program's name is a command that serves a lock.
fn names_service<S: AsStr>(words: &[S]) -> bool
    ensures { result ≡ names_service (map S.text words.now) }
{
    match words {
        [_, name, ..] => serves(name.as_str()),
        _ => false,
    }
}

/// Whether a command serves a lock.
fn serves(name: &str) -> bool
    ensures { result ≡ serves name.now }
{
    matches!(
        name,
        "bound" | "network" | "lock" | "status" | "node" | "up" | "stop"
    )
}

/// Whether the word after the program's name is `lock`.
pub fn asks_for_lock<S: AsStr>(words: &[S]) -> bool
    ensures { result ≡ asks_for_lock (map S.text words.now) }
{
    match words {
        [_, name, ..] => name.as_str() == "lock",
        _ => false,
    }
}

/// Whether the words ask for the version in a way that the parser does not know: `version`, `-v`,
/// or `--version` after a command.
pub fn asks_for_version<S: AsStr>(words: &[S]) -> bool
    ensures { result ≡ asks_for_version (map S.text words.now) }
{
    match words {
        [_, word] => is_version(word.as_str()),
        [_, _, word] => word.as_str() == "--version",
        _ => false,
    }
}

/// Whether a word alone asks for the version, in a way that the parser does not know.
fn is_version(word: &str) -> bool
    ensures { result ≡ is_version word.now }
{
    matches!(word, "version" | "-v")
}
