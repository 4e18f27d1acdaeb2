//! What is seen of a node at a moment.
ghost use Rattle.std.specs.Prelude.{◌≡◌};
ghost use Rattle.run_recording.specs.Marks.{rank, worse};

/// What is seen of a node, the best first. Of several moments the worst is shown.
#[derive(Clone, Copy, PartialEq, Eq)]
pub enum Mark {
    /// Its distance and its parent are the true ones; it is not privileged, and does not lend.
    Settled,
    /// Its distance or its parent is not the true one; it is not privileged, and does not lend.
    Wrong,
    /// It is privileged, and does not lend.
    Privileged,
    /// Its desk lends the lock to a ticket.
    Lending {
        /// The ticket.
        ticket: u16,
    },
}

impl Mark {
    /// How bad it is, from 0 up.
    pub fn rank(self) -> u8
        ensures { result ≡ rank self }
    {
        match self {
            Mark::Settled => 0,
            Mark::Wrong => 1,
            Mark::Privileged => 2,
            Mark::Lending { .. } => 3,
        }
    }

    /// The worse of two marks: this one, if both are equally bad.
    pub fn worse(self, later: Mark) -> Mark
        ensures { result ≡ worse self later }
    {
        if self.rank() < later.rank() {
            later
        } else {
            self
        }
    }
}
