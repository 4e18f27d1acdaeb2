//! How many lines are said in a second.
ghost use Rattle.std.specs.Prelude.{◌≡◌};
ghost use Rattle.node_log.specs.Rate.{new_rate, answer_at, rate_after};

/// The most lines that a node says in a second of its clock.
pub const MOST_LINES: u32 = 20;

/// The microseconds of a second.
const SECOND: u64 = 1_000_000;

/// How many lines were said in a second.
#[derive(Clone, Copy, Drop)]
pub struct LineRate {
    /// Which second of the clock it is.
    second: u64,
    /// How many lines were said in it.
    said: u32,
    /// How many lines were left out since the last one that was said.
    left_out: u64,
}

impl LineRate {
    /// No line was said.
    pub fn new() -> LineRate
        ensures { result ≡ new_rate }
    {
        LineRate {
            second: 0,
            said: 0,
            left_out: 0,
        }
    }

    /// Whether a line may be said at this time, in microseconds: none if 20 lines were already said in its
    /// second; else how many were left out since the last one that was said.
    pub fn admit(&mut self, now: u64) -> Option<u64>
        ensures answer { result ≡ answer_at now self.old }
        ensures after { self.new ≡ rate_after now self.old }
    {
        let second = now / SECOND;
        let said = if second == self.second { self.said } else { 0 };
        self.second = second;
        if said >= MOST_LINES {
            self.said = said;
            self.left_out = self.left_out.saturating_add(1);
            return None;
        }
        let left_out = self.left_out;
        self.said = said + 1;
        self.left_out = 0;
        Some(left_out)
    }
}
