//! The loans of the last minute, and how often the token came round in it, by what nodes said.
ghost use Rattle.std.specs.Prelude.{◌≡◌, [], OnOk, filter, nat_le};
ghost use Rattle.status_readings.specs.Minute.{loans_at, present_at, nothing_at, sample_with, sample_of};
ghost use Rattle.status_readings.specs.Minute.{with_sample, in_ten_seconds, rates_between, rates_of};
ghost use Rattle.status_readings.specs.Minute.{longest_present};

use crate::looks::LoansSaid;
use std::alloc::{AllocError, Global};

/// What a node said of its loans; none if it gave no answer.
#[derive(Clone, Copy, Drop)]
pub struct NodeLoans {
    /// The node.
    pub node: u16,
    /// What it said.
    pub said: Option<LoansSaid>,
}

/// How long the present loan of a node has lasted, in microseconds, if the node said so.
pub fn present_at(loans: &[NodeLoans], node: u16) -> Option<u64>
    ensures { result ≡ present_at loans.now node }
{
    loans_at(loans, node)?.said?.present
}

/// What a node said of its loans.
fn loans_at(loans: &[NodeLoans], node: u16) -> Option<NodeLoans>
    ensures { result ≡ loans_at loans.now node }
{
    loans.iter().copied().find(|loan| loan.node == node)
}

/// The loans of all nodes at one time.
#[derive(Clone, Copy, Drop)]
pub struct Sample {
    /// The time, in milliseconds.
    pub at: u64,
    /// The loans so far.
    pub count: u64,
    /// The longest of those that ended in the last minute, in microseconds.
    pub lately: u64,
    /// How long the longest of the present ones has lasted, in microseconds.
    pub present: u64,
    /// How often the token came round at the root.
    pub rounds: u64,
}

impl Sample {
    /// The loans at this time; none if a node did not say them.
    pub fn of(at: u64, loans: &[NodeLoans]) -> Option<Sample>
        ensures { result ≡ sample_of at loans.now }
    {
        match loans {
            [first, others @ ..] => Some(Sample::of(at, others)?.with(&first.said?)),
            [] => Some(Sample::nothing(at)),
        }
    }

    /// A sample without any loan or round.
    fn nothing(at: u64) -> Sample
        ensures { result ≡ nothing_at at }
    {
        Sample {
            at,
            count: 0,
            lately: 0,
            present: 0,
            rounds: 0,
        }
    }

    /// The same sample with the loans of one node more.
    fn with(&self, said: &LoansSaid) -> Sample
        ensures { result ≡ sample_with said.now self.now }
    {
        Sample {
            at: self.at,
            count: self.count.saturating_add(said.count),
            lately: self.lately.max(said.lately),
            present: self.present.max(said.present.unwrap_or(0)),
            rounds: self.rounds.saturating_add(said.rounds),
        }
    }
}

/// The loans between two times, and how often the token came round.
#[derive(Clone, Copy, Drop)]
pub struct Rates {
    /// How many loans there were in ten seconds on average, rounded down.
    pub tenths: u64,
    /// The longest loan, in microseconds: of those that ended in the minute before the later time,
    /// and of those that a sample saw while they stood.
    pub longest: u64,
    /// How often the token came round in ten seconds on average, rounded down.
    pub rounds: u64,
}

/// How many milliseconds a minute has.
const MINUTE: u64 = 60_000;

/// The samples of the last minute.
#[derive(Drop)]
pub struct Minute {
    samples: Vec<Sample>,
}

impl Minute {
    /// No samples yet.
    pub fn new(alloc: Global) -> Minute
        ensures { result.samples.items ≡ [] }
    {
        Minute {
            samples: Vec::new(alloc),
        }
    }

    /// Adds a sample, and drops those that are more than a minute older.
    ///
    /// # Errors
    /// If memory runs out.
    pub fn push(&mut self, sample: Sample) -> Result<(), AllocError>
        ensures { OnOk result (self.new.samples.items ≡ with_sample sample self.old.samples.items) }
    {
        self.drop_older(sample.at.saturating_sub(MINUTE));
        self.samples.push(sample)?;
        Ok(())
    }

    /// Drops the samples from before that time.
    fn drop_older(&mut self, oldest: u64)
        ensures { self.new.samples.items
            ≡ filter (λ old. nat_le oldest old.at) self.old.samples.items }
    {
        self.samples.retain(|old| old.at >= oldest);
    }

    /// The rates of the minute; none with fewer than two samples.
    pub fn rates(&self) -> Option<Rates>
        ensures { result ≡ rates_of self.now.samples.items }
    {
        rates_of(self.samples.as_slice())
    }
}

/// The rates between the first and the last of these samples; none with fewer than two.
fn rates_of(samples: &[Sample]) -> Option<Rates>
    ensures { result ≡ rates_of samples.now }
{
    if samples.len() < 2 {
        return None;
    }
    let (first, last) = (samples.first()?, samples.last()?);
    Some(rates_between(first, last, longest_present(samples)))
}

/// The longest time for which a loan was seen to last while it still stood.
fn longest_present(samples: &[Sample]) -> u64
    ensures { result ≡ longest_present samples.now }
{
    match samples {
        [first, others @ ..] => first.present.max(longest_present(others)),
        [] => 0,
    }
}

/// The rates between two samples. `present` is the length of the longest loan that was seen while
/// it stood.
fn rates_between(first: &Sample, last: &Sample, present: u64) -> Rates
    ensures { result ≡ rates_between first.now last.now present }
{
    let millis = last.at.saturating_sub(first.at);
    Rates {
        tenths: in_ten_seconds(last.count.saturating_sub(first.count), millis),
        longest: last.lately.max(present),
        rounds: in_ten_seconds(last.rounds.saturating_sub(first.rounds), millis),
    }
}

/// How many of something there were in ten seconds on average, if there were `count` in `millis`
/// milliseconds.
fn in_ten_seconds(count: u64, millis: u64) -> u64
    ensures { result ≡ in_ten_seconds count millis }
{
    count.saturating_mul(10_000) / millis.max(1)
}
