//! What lines are read as.
ghost use Rattle.std.specs.Prelude.{◌≡◌, ℕ, ◌<◌, ◌≤◌, List, length, take};

/// What a line is read as, if a line of more than `N` bytes is read from its first `N`.
pub trait LineReading<const N: usize> {
    /// What it is read as.
    type Read;

    /// What a line without its newline is read as.
    ghost reading: { Self → List ℕ → Self.Read };

    /// Reads a line of at most `N` bytes.
    fn read(&self, line: &[u8]) -> Self::Read
        requires { length line.now ≤ N }
        ensures { result ≡ reading self.now line.now };

    /// Reads a longer line, of which these are the first `N` bytes.
    fn read_long(&self, first: &[u8]) -> Self::Read
        ensures { (line : List ℕ) → N < length line → first.now ≡ take N line
            → result ≡ reading self.now line };
}
