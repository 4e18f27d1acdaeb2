//! The words of `worst`.
ghost use Rattle.std.specs.Prelude.{◌≡◌, IfOk, IfErr, codes};
ghost use Rattle.command_words.specs.command_faults.Ends.{DoneMeansZero};
ghost use Rattle.clap.specs.Matches.{found_of};
ghost use Rattle.command_line.specs.Worst.{IsExtentOf, IsExtentRefused, IsSearchOf, IsSearchRefused};

use clap::ArgMatches;
use command_grammar::{
    FREE, Grammar, Number, Parameter, WordFault, given_number, number_if_given, word,
};
use command_words::program::{FILE, Runtime, SEED};
use command_words::refusal::Refusal;
use std::process::ExitCode;
use subcommands::worst::{self, Extent, SearchPlan};

/// What `worst` takes.
static WORST: Grammar<'static> = Grammar {
    name: "worst",
    about: "Searches for runs that recover late, and shows after how many sweeps",
    help: "\
How bad can it get? A search begins with a world that its seed scrambles. In
each pass all nodes tick and all links carry items, in an order that is drawn.
Then the search changes a harm, or a few, or the order of a pass, again and
again, and keeps each change after which the network does not serve earlier. The
latest run of all searches is judged once more from its start:

  $ tokentree worst two-nodes.toml --events late.txt
  searches 16
  seed ..
  sweeps ..
  sharp 35
  sweeps-bound 69

After one sweep less than the line 'sweeps' says, that run did not serve yet, so
no bound below this number is true. 'sharp' and 'sweeps-bound' are proved ones.
'simulate' and 'draw' take the file of --events. After each pass, the client
that has the lock releases it.

The same words find the same run, on any machine. More searches, or more steps,
may find a later one; if they find none, that says nothing.

With --minutes it begins 16 searches at a time until that time has passed, and
ends those that it began. 'searches' says how many there were. With that number
as --searches, and the same seed and steps, the same run is found again.

Statuses: 0 done; 1 a file, memory or standard output failed, and a line on
standard error says which; 2 invalid arguments.",
    parameters: &[
        FILE,
        Parameter::ValueOr("searches", "N", "16", "How many searches, 1 to 1000000"),
        Parameter::Value(
            "minutes",
            "M",
            "In place of a number: how long it searches, 1 to 10080",
        ),
        Parameter::ValueOr(
            "steps",
            "N",
            "10000",
            "Changes in each search, 0 to 1000000000",
        ),
        Parameter::ValueOr(
            "seed",
            "SEED",
            "0",
            "The first seed; each search has the next one",
        ),
        Parameter::Value(
            "events",
            "PATH",
            "Write the latest run to this file, as an events text",
        ),
    ],
    excludes: &[("minutes", "searches")],
    ..FREE
};

/// What `worst` takes, for the parser.
pub fn grammar() -> &'static Grammar<'static>
    ensures { result.now.name.now ≡ codes "worst" }
{
    &WORST
}

/// How many searches there are.
const SEARCHES: Number<'static> = Number {
    id: "searches",
    name: "--searches",
    least: 1,
    most: 1_000_000,
};

/// How many minutes a search may take: up to a week.
const MINUTES: Number<'static> = Number {
    id: "minutes",
    name: "--minutes",
    least: 1,
    most: 10_080,
};

/// How many changes a search tries.
const STEPS: Number<'static> = Number {
    id: "steps",
    name: "--steps",
    least: 0,
    most: 1_000_000_000,
};

/// Does what the words of `worst` say. `progress` says whether to show progress.
pub fn run<R: Runtime>(rt: &R, given: &ArgMatches, progress: bool) -> Result<ExitCode, Refusal>
    ensures { DoneMeansZero result }
{
    let (file, plan) = (word(given, "FILE")?, plan(given, progress)?);
    Ok(worst::run(rt, file, plan, given.get_str("events"))?)
}

/// The plan that the words of `worst` ask for.
///
/// # Errors
/// If a word spells no number in its range.
fn plan(given: &ArgMatches, progress: bool) -> Result<SearchPlan, WordFault<'static>>
    ensures ok { IfOk result (IsSearchOf (found_of given.now) progress) }
    ensures err { IfErr result (IsSearchRefused (found_of given.now)) }
{
    Ok(SearchPlan {
        extent: extent(given)?,
        seed: given_number(given, SEED)? as u32,
        steps: given_number(given, STEPS)? as u32,
        progress,
    })
}

/// How long the search goes on, by the words of `worst`.
///
/// # Errors
/// If a word spells no number in its range.
fn extent(given: &ArgMatches) -> Result<Extent, WordFault<'static>>
    ensures ok { IfOk result (IsExtentOf (found_of given.now)) }
    ensures err { IfErr result (IsExtentRefused (found_of given.now)) }
{
    match number_if_given(given, MINUTES)? {
        Some(minutes) => Ok(Extent::Minutes(minutes as u32)),
        None => Ok(Extent::Searches(given_number(given, SEARCHES)? as u32)),
    }
}
