//! How long the times between the ends of a node's turns are.
ghost use Rattle.std.specs.Prelude.{◌≡◌};
ghost use Rattle.turn_watch.specs.Turns.{begun, none_kept, moved_to, gap_noted, longest_lately, turn_ended};

/// How long a turn may take and still be in time, in microseconds, unless a different limit is given:
/// the longest rest of 2 milliseconds, and a tenth of that for the turn itself.
pub const USUAL_LIMIT: u64 = 2_200;

/// Half a minute, in microseconds.
const HALF_MINUTE: u64 = 30_000_000;

/// The longest gaps, or loans, of the half minute that runs and of the two before it, so of the last
/// minute and of at most half a minute more. In microseconds.
#[derive(Clone, Copy)]
pub struct Lately {
    /// Which half minute runs: 0 is the first of the clock.
    pub half: u64,
    /// The longest gap that ended in it.
    pub present: u64,
    /// The longest that ended in the half minute before it.
    pub before: u64,
    /// The longest that ended in the half minute before that.
    pub earlier: u64,
}

impl Lately {
    /// Nothing has ended yet.
    pub(crate) fn begin(now: u64) -> Lately
        ensures { result ≡ none_kept now }
    {
        Lately {
            half: now / HALF_MINUTE,
            present: 0,
            before: 0,
            earlier: 0,
        }
    }

    /// Drops what is older than the half minutes that are kept at that time.
    fn move_to(&mut self, now: u64)
        ensures { self.new ≡ moved_to now self.old }
    {
        let half = now / HALF_MINUTE;
        let (before, earlier) = match half.saturating_sub(self.half) {
            0 => return,
            1 => (self.present, self.before),
            2 => (0, self.present),
            _ => (0, 0),
        };
        *self = Lately {
            half,
            present: 0,
            before,
            earlier,
        };
    }

    /// A gap has ended.
    pub(crate) fn note(&mut self, now: u64, gap: u64)
        ensures { self.new ≡ gap_noted now gap self.old }
    {
        self.move_to(now);
        self.present = self.present.max(gap);
    }

    /// The longest gap of the last minute, as seen at that time.
    pub(crate) fn longest(&self, now: u64) -> u64
        ensures { result ≡ longest_lately now self.now }
    {
        let mut kept = *self;
        kept.move_to(now);
        kept.present.max(kept.before).max(kept.earlier)
    }
}

/// How many turns a node took, and how long the gaps between their ends were, in microseconds. The
/// first gap begins at the node's start.
#[derive(Clone, Copy)]
pub struct TurnTimes {
    /// The turns so far; the count stays at 2^64 - 1.
    pub count: u64,
    /// When the last turn ended, or the node started.
    pub ended: u64,
    /// The longest gap so far.
    pub longest: u64,
    /// How many gaps were longer than the limit; the count stays at 2^64 - 1.
    pub late: u64,
    /// The longest gaps of the last minute.
    pub lately: Lately,
}

impl TurnTimes {
    /// No turn has ended yet.
    pub fn begin(now: u64) -> TurnTimes
        ensures { result ≡ begun now }
    {
        TurnTimes {
            count: 0,
            ended: now,
            longest: 0,
            late: 0,
            lately: Lately::begin(now),
        }
    }

    /// A turn has ended. It is late if the gap before its end is longer than `limit`.
    pub fn note(&mut self, now: u64, limit: u64)
        ensures { self.new ≡ turn_ended limit now self.old }
    {
        let gap = now.saturating_sub(self.ended);
        self.count = self.count.saturating_add(1);
        self.ended = now;
        self.longest = self.longest.max(gap);
        if gap > limit {
            self.late = self.late.saturating_add(1);
        }
        self.lately.note(now, gap);
    }

    /// The longest gap that ended in the last minute, as seen at that time. It may be one that ended
    /// up to half a minute earlier.
    pub fn longest_lately(&self, now: u64) -> u64
        ensures { result ≡ longest_lately now self.now.lately }
    {
        self.lately.longest(now)
    }
}
