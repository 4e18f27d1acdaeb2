//! What a client says to the guard of its command, over a pair of sockets.
ghost use Rattle.std.specs.Prelude.{◌≡◌, ◌++◌, ◌∷◌, [], List, ℕ, ◌≤◌, length};
ghost use Rattle.std.specs.Option.{option_to_list};
ghost use Rattle.byte_lines.specs.Kept.{StandsAfter, Kept};
ghost use Rattle.lock_client.specs.Words.{guard_word, guard_words, runs_word};

use byte_lines::{HalfLine, LineReading};
use line_words::digits_up_to;
use std::marker::Model;

/// No process on Linux has a greater id.
const MOST_PROCESS: u32 = 4_194_304;

/// A line from a client to its guard.
#[derive(Clone, Copy)]
pub enum GuardWord {
    /// `start`: the command is about to be started.
    Start,
    /// `runs N`: the command runs as process N, at most 4194304.
    Runs(u32),
    /// `done`: the command has ended, and the guard need not hold the lock any more.
    Done,
    /// Any other line.
    Other,
}

/// Reads what a client says, in whatever pieces its bytes come.
#[derive(Drop)]
pub struct WordReader {
    half: HalfLine<16>,
}

impl Model for WordReader {
    ghost Value = { Kept };

    ghost view = { λ r. r.half };
}

impl WordReader {
    /// A reader to which no byte has come.
    pub fn new() -> WordReader
        ensures { StandsAfter 16 [] result }
    {
        WordReader {
            half: HalfLine::new(),
        }
    }

    /// Takes the next byte. If it is a newline, returns the line that it ends.
    pub fn push(&mut self, byte: u8) -> Option<GuardWord>
        ensures stands { (bytes : List ℕ) → StandsAfter 16 bytes self.old
            → StandsAfter 16 (bytes ++ byte ∷ []) self.new }
        ensures line { (bytes : List ℕ) → StandsAfter 16 bytes self.old
            → guard_words (bytes ++ byte ∷ []) ≡ guard_words bytes ++ option_to_list result }
    {
        self.half.push(byte, &LineBytes)
    }
}

/// What a client's line says. None has more than 16 bytes.
struct LineBytes;

impl LineReading<16> for LineBytes {
    type Read = GuardWord;

    ghost reading = { λ _. guard_word };

    fn read(&self, line: &[u8]) -> GuardWord {
        known(line)
    }

    fn read_long(&self, _: &[u8]) -> GuardWord {
        GuardWord::Other
    }
}

/// What a line of at most 16 bytes says.
fn known(line: &[u8]) -> GuardWord
    requires { length line.now ≤ 16 }
    ensures { result ≡ guard_word line.now }
{
    if line == b"start".as_slice() {
        GuardWord::Start
    } else if line == b"done".as_slice() {
        GuardWord::Done
    } else {
        runs(line)
    }
}

/// What a line says that is neither `start` nor `done`.
fn runs(line: &[u8]) -> GuardWord
    ensures { result ≡ runs_word line.now }
{
    match line.strip_prefix(b"runs ") {
        Some(digits) => match digits_up_to(digits, MOST_PROCESS) {
            Some(process) => GuardWord::Runs(process),
            None => GuardWord::Other,
        },
        None => GuardWord::Other,
    }
}
