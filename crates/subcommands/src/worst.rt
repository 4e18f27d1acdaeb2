//! `worst FILE`: how late a network can serve, as far as a search finds.
ghost use Rattle.std.specs.Prelude.{◌≡◌, ◌⊎◌, ◌++◌, ◌+◌, ◌-◌, ◌^◌, min, [], Err, IfOk, IfErr, OnOk, string_bytes};
ghost use Rattle.std.specs.Io.Buffered.{writer_buffer, writer_contents};
ghost use Rattle.command_parts.specs.command_faults.Ends.{DoneMeansZero};
ghost use Rattle.byte_streams.specs.Streams.{CountsFailures};
ghost use Rattle.command_parts.specs.EventText.{GrowsByText};
ghost use Rattle.network_commands.specs.Faults.{IsUnprinted};
ghost use Rattle.subcommands.specs.Faults.{IsUnwritten};
ghost use Rattle.network_commands.specs.Bound.{number_line};
ghost use Rattle.subcommands.specs.declared.worst.Extent.TheVariants.{Minutes};
ghost use Rattle.subcommands.specs.Worst.{worst_text, AreAsMany, IsJudged};

use byte_streams::Failed;
use command_parts::{EventText, Fault, Progress, give_events, printed, read_network};
use experiments::{Search, SlowRun, climb};
use network_commands::bound::{done, push_number};
use rayon::prelude::*;
use std::alloc::{AllocError, Global};
use std::fmt::Write as _;
use std::fs;
use std::io::{BufWriter, Write};
use std::process::ExitCode;
use std::rt::Files;
use std::thread::Threads;
use std::time::{Clock, Instant};
use topology::Net;

/// How many searches are made together, as long as there is time.
const BATCH: u32 = 16;

/// The most batches of searches: a million searches in all.
const MOST_BATCHES: u32 = 62_500;

/// How many searches there are.
#[derive(Clone, Copy)]
pub enum Extent {
    /// This many. With 0, the run is the one that a search with the first seed finds.
    Searches(u32),
    /// 16, and 16 more each time until this many minutes have passed; at most a million. Without a
    /// clock there are 16.
    Minutes(u32),
}

/// What to search.
#[derive(Clone, Copy)]
pub struct SearchPlan {
    /// How many searches there are.
    pub extent: Extent,
    /// The seed of the first search; each further search has the next seed.
    pub seed: u32,
    /// How many changes each tries.
    pub steps: u32,
    /// Whether standard error shows how many searches, or minutes, are over.
    pub progress: bool,
}

/// The run that serves latest of all that were found.
#[derive(Drop)]
pub struct LatestRun {
    /// How many searches there were.
    pub searches: u32,
    /// The seed of the search that found it.
    pub seed: u64,
    /// The run.
    pub run: SlowRun,
}

/// Searches for runs that serve late, and prints after how many sweeps the latest one served. If
/// `events` gives a path, the events of that run are written there first.
///
/// # Errors
/// If the file gives no network, memory runs out, the file of events cannot be written, or standard
/// output fails: the first of these that happens.
pub fn run<R: Files + Print + Eprint + Clock + AllocGlobal + Threads + Sync>(
    rt: &R,
    network: &str,
    plan: SearchPlan,
    events: Option<&str>,
) -> Result<ExitCode, Fault>
    ensures ok { DoneMeansZero result }
    ensures err { IfErr result (λ fault. IsUnprinted fault ⊎ IsUnwritten fault) }
{
    let net = read_network(rt, network)?;
    let found = latest(rt, rt.alloc(), &net, plan).map_err(|_| Fault::Memory)?;
    let text = worst_text(rt.alloc(), &net, &found).map_err(|_| Fault::Memory)?;
    if let Some(path) = events {
        save_run(rt, path, &found.run)?;
    }
    done(printed(rt, rt.print(text.as_str())))
}

/// Which of some searches found the latest run; the first of them, if several found equally late
/// runs.
#[derive(Clone, Copy)]
struct Best {
    /// How many searches there were.
    searches: u32,
    /// Which search found the latest run, counted from 0.
    place: u32,
    /// After how many sweeps it serves.
    sweeps: u64,
}

impl Best {
    /// Before any search.
    const NONE: Best = Best {
        searches: 0,
        place: 0,
        sweeps: 0,
    };

    /// Adds `count` more searches, with the delays that they found.
    fn and(self, count: u32, delays: &[u64]) -> Best
        ensures { result.searches ≡ min (self.searches + count) (2 ^ 32 - 1) }
    {
        let (place, sweeps) = first_greatest(delays);
        let is_later = sweeps > self.sweeps;
        Best {
            searches: self.searches.saturating_add(count),
            place: if is_later {
                self.searches.saturating_add(place)
            } else {
                self.place
            },
            sweeps: if is_later { sweeps } else { self.sweeps },
        }
    }
}

/// The latest run of all searches; the first of these, if several are equally late.
pub(crate) fn latest<R: Eprint + Clock + Threads + Sync>(
    rt: &R,
    alloc: Global,
    net: &Net,
    plan: SearchPlan,
) -> Result<LatestRun, AllocError>
    // The run is judged again from its start, whatever the searches did.
    ensures judged { IfOk result (IsJudged net.now) }
    ensures searches { IfOk result (λ found. AreAsMany plan.extent found.searches) }
{
    let latest = all_searched(rt, alloc, net, plan)?;
    let seed = u64::from(plan.seed) + u64::from(latest.place);
    let search = Search {
        seed,
        steps: plan.steps,
    };
    Ok(LatestRun {
        searches: latest.searches,
        seed,
        run: climb(alloc, net, search)?,
    })
}

/// Makes all searches, and shows their progress if that is asked for.
fn all_searched<R: Eprint + Clock + Threads + Sync>(
    rt: &R,
    alloc: Global,
    net: &Net,
    plan: SearchPlan,
) -> Result<Best, AllocError>
    ensures { IfOk result (λ best. AreAsMany plan.extent best.searches) }
{
    let progress = begin_progress(rt, plan);
    let latest = match plan.extent {
        Extent::Searches(count) => batch(rt, alloc, net, plan, Best::NONE, count, &progress),
        Extent::Minutes(minutes) => until(rt, alloc, net, plan, minutes, &progress),
    };
    if let Some(progress) = &progress {
        progress.end(rt);
    }
    latest
}

/// Begins the line that shows the progress, if it is asked for.
fn begin_progress<R: Clock>(rt: &R, plan: SearchPlan) -> Option<Progress> {
    if !plan.progress {
        return None;
    }
    match plan.extent {
        Extent::Searches(count) => Progress::begin(rt, "searches", count),
        Extent::Minutes(minutes) => Progress::begin(rt, "minutes", minutes),
    }
}

/// Makes searches, a batch at a time, until this many minutes have passed.
fn until<R: Eprint + Clock + Threads + Sync>(
    rt: &R,
    alloc: Global,
    net: &Net,
    plan: SearchPlan,
    minutes: u32,
    progress: &Option<Progress>,
) -> Result<Best, AllocError>
    ensures { IfOk result (λ best. AreAsMany (Minutes minutes) best.searches) }
{
    let started = Instant::now(rt).ok();
    let mut latest = batch(rt, alloc, net, plan, Best::NONE, BATCH, &None)?;
    for _ in 1..MOST_BATCHES {
        let passed = minutes_since(rt, started);
        if passed >= minutes {
            return Ok(latest);
        }
        if let Some(progress) = progress {
            progress.say(rt, u64::from(passed));
        }
        latest = batch(rt, alloc, net, plan, latest, BATCH, &None)?;
    }
    Ok(latest)
}

/// How many whole minutes have passed since `started`; the greatest number if the clock fails.
fn minutes_since<R: Clock>(rt: &R, started: Option<Instant>) -> u32 {
    let Some(started) = started else {
        return u32::MAX;
    };
    match started.elapsed(rt) {
        Ok(elapsed) => u32::try_from(elapsed.as_secs() / 60).unwrap_or(u32::MAX),
        Err(_) => u32::MAX,
    }
}

/// Makes `count` more searches.
fn batch<R: Eprint + Clock + Threads + Sync>(
    rt: &R,
    alloc: Global,
    net: &Net,
    plan: SearchPlan,
    latest: Best,
    count: u32,
    progress: &Option<Progress>,
) -> Result<Best, AllocError>
    ensures { IfOk result (λ more. more.searches ≡ min (latest.searches + count) (2 ^ 32 - 1)) }
{
    let delays = searched(rt, alloc, net, plan, latest.searches, count, progress)?;
    Ok(latest.and(count, delays.as_slice()))
}

/// Makes `count` searches, after `first` others, on as many threads as there are processors.
/// Returns after how many sweeps the run that each found serves.
fn searched<R: Eprint + Clock + Threads + Sync>(
    rt: &R,
    alloc: Global,
    net: &Net,
    plan: SearchPlan,
    first: u32,
    count: u32,
    progress: &Option<Progress>,
) -> Result<Vec<u64>, AllocError> {
    (0..count)
        .into_par_iter()
        .map(|i: u32| -> Result<u64, AllocError> {
            let search = Search {
                seed: u64::from(plan.seed) + u64::from(first) + u64::from(i),
                steps: plan.steps,
            };
            let run = climb(alloc, net, search)?;
            if let Some(progress) = progress {
                progress.advance(rt);
            }
            Ok(run.delay.sweeps)
        })
        .collect(rt, alloc)?
}

/// The place of the first of the greatest numbers, and that number; both 0 if there are no numbers.
fn first_greatest(numbers: &[u64]) -> (u32, u64) {
    let mut best = (0u32, 0u64);
    let mut place = 0u32;
    for number in numbers {
        if *number > best.1 {
            best = (place, *number);
        }
        place = place.saturating_add(1);
    }
    best
}

/// The lines of a run that was found.
pub fn worst_text(alloc: Global, net: &Net, found: &LatestRun) -> Result<String, AllocError>
    ensures { IfOk result (λ text. string_bytes text
        ≡ worst_text net.now found.now.searches found.now.seed found.now.run.delay) }
{
    let mut text = String::new(alloc);
    push_number(&mut text, "searches", found.searches)?;
    push_count(&mut text, "seed", found.seed)?;
    push_count(&mut text, "sweeps", found.run.delay.sweeps)?;
    push_number(&mut text, "sharp", net.sharp_bound())?;
    push_number(&mut text, "sweeps-bound", net.bound())?;
    Ok(text)
}

/// Adds a line of a word and a number.
fn push_count(text: &mut String, word: &str, number: u64) -> Result<(), AllocError>
    ensures { OnOk result (string_bytes text.new
        ≡ string_bytes text.old ++ number_line word.now number) }
{
    writeln!(text, "{word} {number}")
}

/// Writes the events of a run to the file of a path.
///
/// # Errors
/// If memory runs out, or the file cannot be written.
fn save_run<R: Files + AllocGlobal>(rt: &R, path: &str, run: &SlowRun) -> Result<(), Fault>
    ensures { IfErr result IsUnwritten }
{
    let file = fs::create(rt, path).map_err(|_| Fault::EventsUnwritable)?;
    let output = BufWriter::new(rt.alloc(), file).map_err(|_| Fault::Memory)?;
    let mut text = EventText::new(output);
    write_run(run, &mut text).map_err(|_| Fault::EventsUnwritable)
}

/// Writes the lines of a run's harms and events, and flushes them.
///
/// # Errors
/// If the writer fails.
pub fn write_run<W: Write + Drop>(run: &SlowRun, text: &mut EventText<W>) -> Result<(), Failed>
    // If the writer shows its bytes, they are the text.
    ensures text { OnOk result (GrowsByText (writer_contents W.contents text.old.writer)
        (run.now.harms.items ++ run.now.events.items)
        (writer_contents W.contents text.new.writer)) }
    ensures written { OnOk result (writer_buffer text.new.writer ≡ []) }
    // It fails only if the writer did.
    ensures cause { CountsFailures result text.old.failures text.new.failures }
{
    give_events(run.harms.as_slice(), text)?;
    give_events(run.events.as_slice(), text)?;
    text.flush()
}
