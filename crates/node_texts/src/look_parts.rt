//! The parts of what a node says to whoever looks.
ghost use Rattle.std.specs.Prelude.{◌≡◌, Some};
ghost use Rattle.std.specs.Option.{option_map};
ghost use Rattle.turn_watch.specs.Links.{break_count};
ghost use Rattle.turn_watch.specs.Loans.{loan_length};
ghost use Rattle.turn_watch.specs.Turns.{longest_lately};
ghost use Rattle.node_texts.specs.LookText.{link_part, loan_part, turn_part, link_text, loan_text, turn_text};

use crate::status_line::OrWord;
use std::fmt;
use turn_watch::{LinkTimes, LoanTimes, TurnTimes};

/// The link to a neighbour. Printed, it is a JSON object.
#[derive(Clone, Copy, Drop)]
pub struct LinkPart {
    /// The neighbour.
    pub node: u16,
    /// Whether there is a connection.
    pub is_up: bool,
    /// For how long it has been seen like this, and no other connection was made, in microseconds.
    pub since: u64,
    /// How often a connection broke, or was replaced by a newer one.
    pub breaks: u64,
}

impl LinkPart {
    /// The link to this neighbour at that time.
    pub fn of(node: u16, link: &LinkTimes, now: u64) -> LinkPart
        ensures { result ≡ link_part node link.now now }
    {
        LinkPart {
            node,
            is_up: link.sight.is_up,
            since: now.saturating_sub(link.since),
            breaks: link.sight.breaks(),
        }
    }
}

impl fmt::Display for LinkPart {
    ghost output = { λ link. Some (link_text link) };

    fn fmt<W: fmt::Write>(&self, f: &mut fmt::Formatter<W>) -> fmt::Result {
        let (node, up, since, breaks) = (self.node, self.is_up, self.since, self.breaks);
        write!(
            f,
            "{{\"node\":{node},\"up\":{up},\"for_us\":{since},\"breaks\":{breaks}}}"
        )
    }
}

/// The loans of a node, in microseconds. Printed, it is a JSON object.
#[derive(Clone, Copy, Drop)]
pub struct LoanPart {
    /// The loans so far.
    pub count: u64,
    /// The longest of those that ended.
    pub longest: u64,
    /// How long the present loan has lasted, if there is one.
    pub present: Option<u64>,
    /// The longest of those that ended in the last minute.
    pub lately: u64,
}

impl LoanPart {
    /// The loans at that time.
    pub fn of(loans: &LoanTimes, now: u64) -> LoanPart
        ensures { result ≡ loan_part loans.now now }
    {
        LoanPart {
            count: loans.count,
            longest: loans.longest,
            present: loans.present(now),
            lately: loans.longest_lately(now),
        }
    }
}

impl fmt::Display for LoanPart {
    ghost output = { λ loans. Some (loan_text loans) };

    fn fmt<W: fmt::Write>(&self, f: &mut fmt::Formatter<W>) -> fmt::Result {
        write!(
            f,
            "{{\"count\":{},\"longest_us\":{},\"present_us\":{},\"lately_us\":{}}}",
            self.count,
            self.longest,
            OrWord(self.present, "null"),
            self.lately
        )
    }
}

/// The turns of a node, and the longest times between the ends of two turns, in microseconds.
/// Printed, it is a JSON object.
#[derive(Clone, Copy, Drop)]
pub struct TurnPart {
    /// The turns so far.
    pub count: u64,
    /// The longest time between the ends of two turns, since the start.
    pub longest: u64,
    /// The longest such time in the last minute.
    pub lately: u64,
    /// The longest time in which a turn is not late.
    pub limit: u64,
    /// How many turns were late.
    pub late: u64,
}

impl TurnPart {
    /// The turns at that time; a turn is late after more than `limit`.
    pub fn of(turns: &TurnTimes, limit: u64, now: u64) -> TurnPart
        ensures { result ≡ turn_part turns.now limit now }
    {
        TurnPart {
            count: turns.count,
            longest: turns.longest,
            lately: turns.longest_lately(now),
            limit,
            late: turns.late,
        }
    }
}

impl fmt::Display for TurnPart {
    ghost output = { λ turns. Some (turn_text turns) };

    fn fmt<W: fmt::Write>(&self, f: &mut fmt::Formatter<W>) -> fmt::Result {
        write!(
            f,
            "{{\"count\":{},\"longest_us\":{},\"lately_us\":{},\"limit_us\":{},\"late\":{}}}",
            self.count, self.longest, self.lately, self.limit, self.late
        )
    }
}

/// The process of a node.
#[derive(Clone, Copy, Drop)]
pub struct ProcessPart {
    /// Its id in the system, if the system reports it.
    pub id: Option<u64>,
    /// When it started, in milliseconds since the start of 1970, UTC, if the system reports it.
    pub start: Option<u64>,
}
