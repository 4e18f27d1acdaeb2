//! The words of `measure`.
ghost use Rattle.std.specs.Prelude.{◌≡◌, Some, None, IfOk, IfErr, if◌then◌else◌, codes};
ghost use Rattle.command_words.specs.command_faults.Ends.{DoneMeansZeroOr};
ghost use Rattle.clap.specs.Matches.{found_of, one_text};
ghost use Rattle.command_line.specs.Plan.{IsPlanOf, IsPlanRefused};
ghost use Rattle.command_line.specs.Scheduling.{IsNamedRefused, IsNamedScheduler, IsSchedulerOf};
ghost use Rattle.command_line.specs.Scheduling.{IsSchedulerRefused, is_slow, scheduler_named};
ghost use Rattle.subcommands.specs.declared.measure.Form.TheVariants.{Json, Lines, Rows};
ghost use Rattle.subcommands.specs.experiments.declared.measured_run.Scheduler.TheVariants.{Random, Rounds};

use clap::ArgMatches;
use command_grammar::{FREE, Grammar, Number, Parameter, given_number, number_if_given, word};
use command_words::program::{FILE, SEED};
use command_words::refusal::{Refusal, ScheduleFault, ended};
use std::process::ExitCode;
use std::rt::Files;
use std::thread::Threads;
use std::time::Clock;
use subcommands::measure::{Form, MeasurePlan};
use subcommands::{PathFault, Scheduler, measure, measure_plot};

/// What `measure` takes.
static MEASURE: Grammar<'static> = Grammar {
    name: "measure",
    about: "Scrambles a network, and shows after how many sweeps it worked again",
    help: "\
Each run begins in a world that its seed scrambles. It goes on by rounds, or by
random steps of the same seed, until there were as many sweeps as the sharper
bound says. After each round, or after as many random steps as there are nodes
and four times the edges, the client that has the lock releases it. A run's
sweeps are the least number from which on the network served at each moment: all
distances and parents true, at most one node privileged, at most one lending.

  $ tokentree measure two-nodes.toml --runs 100
  runs 100
  sweeps least .. median .. most ..
  sharp 35
  sweeps-bound 69

With --schedule slow-link or slow-node it runs by rounds, too. But one link, one
way, carries its items only in --share of each hundred rounds; or one node ticks
only in these. They are spread evenly: with a share of 25 each fourth round is
one. The share is 1 to 100, and 10 if left out. The run's seed says which link
or node is slow.

For an even number of runs the median is the lower of the two in the middle.
With --table each run first has a line 'seed S sweeps K'. It says 'sweeps none'
of a run that did not serve by the sharper bound. So it does of a run with too
few sweeps: fewer than the bound after 1000 rounds, or stretches of random
steps, for each sweep of the bound. Such a run is always shown, and the status
is 1. 'schedule FILE --scramble S --rounds N --give-back 1' prints the events of
such a run by rounds.

With --csv it prints a row for each run, under the names of the columns:

  $ tokentree measure two-nodes.toml --runs 2 --csv
  seed,events,links,tree,ring,served
  0,361,1,2,3,1
  1,361,1,3,5,2

A row has the run's seed, and how many events it had. The other numbers are the
least from which on, at each moment, every link was stable, the tree was
reached, the token ring was good, and the network served. Each layer is that of
the proof (see simulate). A run has its links by 6 sweeps, its tree by 4e + 14,
e being the greatest distance of a node from the root, and its ring by one less
than the sharper bound. If it has 'sweeps none', these four are empty. Such a
measurement takes longer.

With --plot it first writes a picture of these rows to the file PATH, as SVG
1.1: for each layer, how large a share of the runs had it for good by each
number of sweeps, and upright lines at the proved bounds above. From 1 on, each
step of the axis doubles the number of sweeps. A run with 'sweeps none' is in no
curve, but counts as a run. The file is not touched before all runs are made.

With --json it prints one JSON object: runs, least, median, most, sharp and
sweeps-bound, and seeds. That is a list with the seed and the sweeps of each run
that would have a line. null means none.

Statuses: 0 done; 1 a file, memory or standard output failed, and a line on
standard error says which, or a run did not serve; 2 invalid arguments.",
    parameters: &[
        FILE,
        Parameter::ValueOr("runs", "N", "1000", "How many runs, 1 to 1000000"),
        Parameter::ValueOr("seed", "SEED", "0", "The first seed; each run adds one"),
        Parameter::Flag("rounds", "Run by rounds, the default"),
        Parameter::Flag("random", "Run by random steps"),
        Parameter::Value("schedule", "KIND", "rounds, random, slow-link or slow-node"),
        Parameter::Value("share", "PERCENT", "Of 100 rounds, those of the slow one"),
        Parameter::Flag("table", "Also show a line for each run"),
        Parameter::Flag("csv", "Print a row for each run: when each layer stood"),
        Parameter::Value("plot", "PATH", "Also draw those rows in this file, as SVG"),
        Parameter::Flag("json", "Print one JSON object, on one line"),
    ],
    needs: &[("share", "schedule"), ("plot", "csv")],
    excludes: &[
        ("random", "rounds"),
        ("schedule", "rounds"),
        ("schedule", "random"),
        ("csv", "table"),
        ("csv", "json"),
    ],
    ..FREE
};

/// What `measure` takes, for the parser.
pub fn grammar() -> &'static Grammar<'static>
    ensures { result.now.name.now ≡ codes "measure" }
{
    &MEASURE
}

/// How many runs are measured.
const RUNS: Number<'static> = Number {
    id: "runs",
    name: "--runs",
    least: 1,
    most: 1_000_000,
};

/// In how many of a hundred rounds a slow link or node acts.
const SHARE: Number<'static> = Number {
    id: "share",
    name: "--share",
    least: 1,
    most: 100,
};

/// The share if `--share` is left out.
const USUAL_SHARE: u64 = 10;

/// Does what the words of `measure` say. `progress` says whether to show progress.
pub fn run<R: Files + Print + Eprint + Clock + AllocGlobal + Threads + Sync>(
    rt: &R,
    given: &ArgMatches,
    progress: bool,
) -> Result<ExitCode, Refusal>
    ensures { DoneMeansZeroOr 1 result }
{
    let (file, plan) = (word(given, "FILE")?, plan(given, progress)?);
    match given.get_str("plot") {
        Some(path) => plot(rt, file, plan, path),
        None => Ok(measure::run(rt, file, plan, form(given))?),
    }
}

/// How the runs are shown, by the words of `measure`.
fn form(given: &ArgMatches) -> Form
    ensures json { one_text (found_of given.now) (codes "json") ≡ Some (codes "true")
        → result ≡ Json }
    ensures rows { one_text (found_of given.now) (codes "json") ≡ None
        → one_text (found_of given.now) (codes "csv") ≡ Some (codes "true") → result ≡ Rows }
    ensures lines { one_text (found_of given.now) (codes "json") ≡ None
        → one_text (found_of given.now) (codes "csv") ≡ None → result ≡ Lines }
{
    if given.get_flag("json") {
        Form::Json
    } else if given.get_flag("csv") {
        Form::Rows
    } else {
        Form::Lines
    }
}

/// Plots the runs of a plan, and prints their rows. The status says whether that, or a run, failed.
fn plot<R: Files + Print + Eprint + Clock + AllocGlobal + Threads + Sync>(
    rt: &R,
    file: &str,
    plan: MeasurePlan,
    path: &str,
) -> Result<ExitCode, Refusal>
    ensures { DoneMeansZeroOr 1 result }
{
    match measure_plot::run(rt, file, plan, path) {
        Err(PathFault::Fault(fault)) => Err(Refusal::Fault(fault)),
        done => Ok(ended(rt, file, done)),
    }
}

/// The plan, by the words of `measure`.
///
/// # Errors
/// If a word spells no number in its range, or the order of the events is unknown, or takes no
/// share and one is given.
fn plan(given: &ArgMatches, progress: bool) -> Result<MeasurePlan, Refusal>
    ensures ok { IfOk result (IsPlanOf (found_of given.now) progress) }
    ensures err { IfErr result (IsPlanRefused (found_of given.now)) }
{
    Ok(MeasurePlan {
        runs: given_number(given, RUNS)? as u32,
        seed: given_number(given, SEED)? as u32,
        scheduler: given_scheduler(given)?,
        table: given.get_flag("table"),
        progress,
    })
}

/// The order of the events, by the words of `measure`.
///
/// # Errors
/// If it is unknown, or takes no share and one is given, or the share is no number in its range.
fn given_scheduler(given: &ArgMatches) -> Result<Scheduler, Refusal>
    ensures ok { IfOk result (IsSchedulerOf (found_of given.now)) }
    ensures err { IfErr result (IsSchedulerRefused (found_of given.now)) }
{
    match given.get_str("schedule") {
        None => Ok(plain_scheduler(given.get_flag("random"))),
        Some(name) => named_scheduler(given, name),
    }
}

/// Random steps, or rounds.
fn plain_scheduler(is_random: bool) -> Scheduler
    ensures { result ≡ (if is_random then Random else Rounds) }
{
    if is_random {
        Scheduler::Random
    } else {
        Scheduler::Rounds
    }
}

/// The order of the events that has this name, with the share that the words give.
///
/// # Errors
/// If no order has this name, or it takes no share and one is given, or the share is no number in
/// its range.
fn named_scheduler(given: &ArgMatches, name: &str) -> Result<Scheduler, Refusal>
    ensures ok { IfOk result (IsNamedScheduler (found_of given.now) name.now) }
    ensures err { IfErr result (IsNamedRefused (found_of given.now) name.now) }
{
    let share = number_if_given(given, SHARE)?;
    let scheduler = scheduler_named(name, share.unwrap_or(USUAL_SHARE) as u16).ok_or(
        Refusal::Schedule(ScheduleFault::Unknown),
    )?;
    if share.is_some() && !is_slow(scheduler) {
        return Err(Refusal::Schedule(ScheduleFault::SlowAlone));
    }
    Ok(scheduler)
}

/// The order of the events that has this name, with this share if something is slow in it; none for
/// any other word.
fn scheduler_named(name: &str, share: u16) -> Option<Scheduler>
    ensures { result ≡ scheduler_named name.now share }
{
    match name {
        "rounds" => Some(Scheduler::Rounds),
        "random" => Some(Scheduler::Random),
        "slow-link" => Some(Scheduler::SlowLink { share }),
        "slow-node" => Some(Scheduler::SlowNode { share }),
        _ => None,
    }
}

/// Whether a link or a node is slow.
fn is_slow(scheduler: Scheduler) -> bool
    ensures { result ≡ is_slow scheduler }
{
    matches!(
        scheduler,
        Scheduler::SlowLink { .. } | Scheduler::SlowNode { .. }
    )
}
