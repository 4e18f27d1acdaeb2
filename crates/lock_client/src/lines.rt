//! The lines between a client and a desk, as the client writes and reads them.
ghost use Rattle.std.specs.Prelude.{◌≡◌, ◌++◌, ◌∷◌, [], List, ℕ};
ghost use Rattle.std.specs.Option.{option_to_list};
ghost use Rattle.byte_lines.specs.Kept.{StandsAfter, Kept};
ghost use Rattle.byte_lines.specs.Lines.{half_line};
ghost use Rattle.lock_desk.specs.ClientText.{client_lines};
ghost use Rattle.lock_client.specs.Lines.{answer_line, answer_lines};

use crate::Answer;
use byte_lines::{HalfLine, LineReading};
use lock_desk::ClientLine;
use std::marker::Model;

/// The bytes that a client writes for this line, with its newline. A desk reads them as exactly
/// this line, and nothing comes after the newline. For `Unknown` they are an empty line.
pub fn spelled(line: ClientLine) -> &'static [u8]
    ensures line { client_lines result.now ≡ line ∷ [] }
    ensures whole { half_line result.now ≡ [] }
{
    match line {
        ClientLine::Lock => b"lock\n",
        ClientLine::Unlock => b"unlock\n",
        ClientLine::Status => b"status\n",
        ClientLine::Unknown => b"\n",
    }
}

/// Reads a desk's answers, in whatever pieces their bytes come. It keeps at most 8 bytes of the
/// line under way, and takes no memory.
#[derive(Drop)]
pub struct AnswerReader {
    half: HalfLine<8>,
}

impl Model for AnswerReader {
    ghost Value = { Kept };

    ghost view = { λ r. r.half };
}

impl AnswerReader {
    /// A reader to which no byte has come.
    pub fn new() -> AnswerReader
        ensures { StandsAfter 8 [] result }
    {
        AnswerReader {
            half: HalfLine::new(),
        }
    }

    /// Takes the next byte. If it is a newline, returns the line that it ends.
    pub fn push(&mut self, byte: u8) -> Option<Answer>
        ensures stands { (bytes : List ℕ) → StandsAfter 8 bytes self.old
            → StandsAfter 8 (bytes ++ byte ∷ []) self.new }
        ensures line { (bytes : List ℕ) → StandsAfter 8 bytes self.old
            → answer_lines (bytes ++ byte ∷ []) ≡ answer_lines bytes ++ option_to_list result }
    {
        self.half.push(byte, &Answers)
    }
}

/// What a desk's line says. No answer has more than 8 bytes.
struct Answers;

impl LineReading<8> for Answers {
    type Read = Answer;

    ghost reading = { λ _. answer_line };

    fn read(&self, line: &[u8]) -> Answer {
        known(line)
    }

    fn read_long(&self, _: &[u8]) -> Answer {
        Answer::Other
    }
}

/// The answers whose lines are known.
const KNOWN: [Answer; 7] = [
    Answer::Granted,
    Answer::Lost,
    Answer::Released,
    Answer::Full,
    Answer::Twice,
    Answer::Stranger,
    Answer::Unknown,
];

/// What the line says.
fn known(line: &[u8]) -> Answer
    ensures { result ≡ answer_line line.now }
{
    for answer in KNOWN {
        if line == answer.text() {
            return answer;
        }
    }
    Answer::Other
}
