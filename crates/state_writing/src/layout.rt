//! The two layouts of a state file.
ghost use Rattle.std.specs.Prelude.{◌≡◌};
ghost use Rattle.state_writing.specs.Spelling.{magic};

/// The most bytes of a state: 16, and 20 for each of at most 63 neighbours, since a network has at
/// most 64 nodes.
pub const MOST_BYTES: usize = 1276;

/// The most bytes that a load reads: one more, so that a file that is too long is noticed.
pub const LOADED_BYTES: usize = 1277;

/// How the bytes of a state file are laid out.
#[derive(Clone, Copy, Debug, PartialEq, Eq)]
pub enum FileLayout {
    /// The older one, which has no capacity.
    Tkt1,
    /// The one that is written.
    Tkt2,
}

impl FileLayout {
    /// Its magic word.
    pub fn magic(self) -> [u8; 4]
        ensures { result ≡ magic self }
    {
        match self {
            FileLayout::Tkt1 => *b"TKT1",
            FileLayout::Tkt2 => *b"TKT2",
        }
    }
}
