//! How long the loans of a node are.
ghost use Rattle.std.specs.Prelude.{◌≡◌};
ghost use Rattle.std.specs.Option.{option_map};
ghost use Rattle.turn_watch.specs.Loans.{no_loans, loan_ended, loan_begun, desk_seen, loan_length};
ghost use Rattle.turn_watch.specs.Turns.{longest_lately};

use crate::turns::Lately;

/// What is seen of a node's desk after a turn.
#[derive(Clone, Copy)]
pub struct DeskSight {
    /// Whether a loan began in the turn.
    pub has_granted: bool,
    /// Whether the lock is lent now.
    pub lends: bool,
}

/// How often a node lent the lock, and for how long, in microseconds: each loan begins and ends with
/// the turn in which it did.
#[derive(Clone, Copy)]
pub struct LoanTimes {
    /// The loans so far; the count stays at 2^64 - 1.
    pub count: u64,
    /// The longest of those that ended.
    pub longest: u64,
    /// When the present loan began, if there is one.
    pub since: Option<u64>,
    /// The longest of those that ended in the last minute.
    pub lately: Lately,
}

impl LoanTimes {
    /// Nothing was lent yet.
    pub fn begin() -> LoanTimes
        ensures { result ≡ no_loans }
    {
        LoanTimes {
            count: 0,
            longest: 0,
            since: None,
            lately: Lately::begin(0),
        }
    }

    /// Takes note of the desk after a turn that ended at that time.
    pub fn note(&mut self, now: u64, desk: DeskSight)
        ensures { self.new ≡ desk_seen now desk self.old }
    {
        if desk.has_granted || !desk.lends {
            self.end(now);
        }
        if desk.has_granted {
            self.count = self.count.saturating_add(1);
        }
        if desk.lends {
            self.begin_loan(now);
        }
    }

    /// The present loan has ended, if there is one.
    fn end(&mut self, now: u64)
        ensures { self.new ≡ loan_ended now self.old }
    {
        if let Some(since) = self.since {
            let length = now.saturating_sub(since);
            self.longest = self.longest.max(length);
            self.lately.note(now, length);
            self.since = None;
        }
    }

    /// A loan has begun, unless one runs.
    fn begin_loan(&mut self, now: u64)
        ensures { self.new ≡ loan_begun now self.old }
    {
        if self.since.is_none() {
            self.since = Some(now);
        }
    }

    /// The longest loan that ended in the last minute, as seen at that time. It may be one that ended
    /// up to half a minute earlier.
    pub fn longest_lately(&self, now: u64) -> u64
        ensures { result ≡ longest_lately now self.now.lately }
    {
        self.lately.longest(now)
    }

    /// How long the present loan has lasted, if there is one.
    pub fn present(&self, now: u64) -> Option<u64>
        ensures { result ≡ option_map (loan_length now) self.now.since }
    {
        self.since.map(|since| now.saturating_sub(since))
    }
}
