//! Premises, as the options of a command line give them.
ghost use Rattle.std.specs.Prelude.{◌≡◌, ◌≤◌, IfOk, Some};
ghost use Rattle.recovery_times.specs.Words.{time_or, time_if, free_loan, premises_of, time_fault_text};

use crate::premises::Premises;
use crate::reading::{HOUR, micros_of};
use std::fmt;

/// The words of the options, each a time in milliseconds with at most three decimals. One that is
/// left out has its usual time; `--loan`, the longest that leaves the window as it is and is at
/// most an hour.
#[derive(Clone, Copy)]
pub struct PremiseWords<'a> {
    /// The word of `--turn`.
    pub turn: Option<&'a str>,
    /// The word of `--delay`.
    pub delay: Option<&'a str>,
    /// The word of `--loan`.
    pub loan: Option<&'a str>,
    /// The word of `--repeat`.
    pub repeat: Option<&'a str>,
}

/// The option whose word is invalid: it is no time, or not in the option's range. Printed, it is
/// what the message says after the program's name.
#[derive(Clone, Copy, Debug, Drop)]
pub enum TimeFault {
    /// `--turn`, which is above 0.
    Turn,
    /// `--delay`, which may be 0.
    Delay,
    /// `--loan`, which may be 0: no node lends.
    Loan,
    /// `--repeat`, which is above 0.
    Repeat,
}

impl fmt::Display for TimeFault {
    ghost output = { λ fault. Some (time_fault_text fault) };

    fn fmt<W: fmt::Write>(&self, f: &mut fmt::Formatter<W>) -> fmt::Result {
        let (name, least) = match *self {
            TimeFault::Turn => ("--turn", "0.001"),
            TimeFault::Delay => ("--delay", "0"),
            TimeFault::Loan => ("--loan", "0"),
            TimeFault::Repeat => ("--repeat", "0.001"),
        };
        write!(
            f,
            "{name} is no time from {least} to 3600000 milliseconds, with at most 3 decimals"
        )
    }
}

impl std::error::Error for TimeFault {}

impl PremiseWords<'_> {
    /// The premises that the words say.
    ///
    /// # Errors
    /// The first option, in the order of the fields, whose word is invalid.
    pub fn read(&self) -> Result<Premises, TimeFault>
        ensures { result ≡ premises_of self.now }
    {
        let usual = Premises::usual();
        let turn = time_or(self.turn, 1, usual.turn).ok_or(TimeFault::Turn)?;
        let delay = time_or(self.delay, 0, usual.delay).ok_or(TimeFault::Delay)?;
        let loan = time_if(self.loan).ok_or(TimeFault::Loan)?;
        let repeat = time_or(self.repeat, 1, usual.repeat).ok_or(TimeFault::Repeat)?;
        Ok(Premises {
            turn,
            delay,
            loan: loan.unwrap_or(free_loan(repeat, delay)),
            repeat,
        })
    }
}

/// The longest loan that leaves the window as it is, and is at most an hour.
fn free_loan(repeat: u32, delay: u32) -> u32
    ensures { result ≡ free_loan repeat delay }
{
    repeat.saturating_add(delay).min(HOUR)
}

/// The time that a word spells, which may be 0; `None` inside if there is no word.
fn time_if(word: Option<&str>) -> Option<Option<u32>>
    ensures { result ≡ time_if word.entry }
{
    match word {
        None => Some(None),
        Some(word) => micros_of(word.as_bytes()).map(Some),
    }
}

/// The time that a word spells, at least `least`; without a word, `usual`.
fn time_or(word: Option<&str>, least: u32, usual: u32) -> Option<u32>
    ensures { result ≡ time_or word.entry least usual }
{
    match word {
        None => Some(usual),
        Some(word) => match micros_of(word.as_bytes()) {
            Some(micros) if micros >= least => Some(micros),
            _ => None,
        },
    }
}
