//! Since when a node's links have been up or down.
ghost use Rattle.std.specs.Prelude.{◌≡◌};
ghost use Rattle.turn_watch.specs.Links.{down_since, link_seen, break_count};

/// What is seen of the link to a neighbour.
#[derive(Clone, Copy)]
pub struct LinkSight {
    /// Whether a connection stands.
    pub is_up: bool,
    /// How many connections there have been so far, including the one that stands.
    pub made: u64,
}

impl LinkSight {
    /// How many connections stand no longer: each broke, was closed, or was replaced by a newer
    /// one.
    pub fn breaks(self) -> u64
        ensures { result ≡ break_count self }
    {
        self.made.saturating_sub(u64::from(self.is_up))
    }
}

/// The link to a neighbour, and since when it has been like this, in microseconds.
#[derive(Clone, Copy)]
pub struct LinkTimes {
    /// What was seen last.
    pub sight: LinkSight,
    /// Since when.
    pub since: u64,
}

impl LinkTimes {
    /// No connection was made yet.
    pub fn begin(now: u64) -> LinkTimes
        ensures { result ≡ down_since now }
    {
        LinkTimes {
            sight: LinkSight {
                is_up: false,
                made: 0,
            },
            since: now,
        }
    }

    /// Takes note of the link at that time. A connection that broke and came again since the last
    /// note counts as new.
    pub fn note(&mut self, sight: LinkSight, now: u64)
        ensures { self.new ≡ link_seen sight now self.old }
    {
        if self.sight.is_up != sight.is_up || self.sight.made != sight.made {
            *self = LinkTimes { sight, since: now };
        }
    }
}
