//! What a desk answers.
ghost use Rattle.std.specs.Prelude.{◌≡◌};
ghost use Rattle.lock_client.specs.Lines.{answer_text};

/// A line from a node's desk to a client.
#[derive(Clone, Copy)]
pub enum Answer {
    /// `granted`: the lock is lent to the client.
    Granted,
    /// `lost`: the node ended its loan.
    Lost,
    /// `released`: the client released the lock, or waits no longer.
    Released,
    /// `full`: 64 clients wait at the node, and no more may.
    Full,
    /// `twice`: the client already waits or borrows.
    Twice,
    /// `stranger`: the client neither waits nor borrows, so it has nothing to release.
    Stranger,
    /// `unknown`: the desk does not know the client's line.
    Unknown,
    /// Any other line, such as a status line.
    Other,
}

impl Answer {
    /// The line without its newline; empty for `Other`, which stands for many lines.
    pub fn text(self) -> &'static [u8]
        ensures { result.now ≡ answer_text self }
    {
        match self {
            Answer::Granted => b"granted",
            Answer::Lost => b"lost",
            Answer::Released => b"released",
            Answer::Full => b"full",
            Answer::Twice => b"twice",
            Answer::Stranger => b"stranger",
            Answer::Unknown => b"unknown",
            Answer::Other => b"",
        }
    }
}
