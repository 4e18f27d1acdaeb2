//! The lines of a client, byte by byte.
ghost use Rattle.std.specs.Prelude.{◌≡◌, ◌++◌, ◌∷◌, [], List, ℕ};
ghost use Rattle.std.specs.Option.{option_to_list};
ghost use Rattle.byte_lines.specs.Kept.{StandsAfter, Kept};
ghost use Rattle.lock_desk.specs.ClientText.{client_line, client_lines};

use crate::ClientLine;
use byte_lines::{HalfLine, LineReading};
use std::marker::Model;

/// Reads the lines of one client, in whatever pieces its bytes arrive. It keeps up to 16 bytes of
/// the line under way: a longer line is one `Unknown`, at its newline.
#[derive(Drop)]
pub struct ClientReader {
    half: HalfLine<16>,
}

impl Model for ClientReader {
    ghost Value = { Kept };

    ghost view = { λ r. r.half };
}

impl ClientReader {
    /// A reader that has taken no byte.
    pub fn new() -> ClientReader
        ensures { StandsAfter 16 [] result }
    {
        ClientReader {
            half: HalfLine::new(),
        }
    }

    /// Takes the next byte, and returns the line that it ends, if it is a newline.
    pub fn push(&mut self, byte: u8) -> Option<ClientLine>
        ensures stands { (bytes : List ℕ) → StandsAfter 16 bytes self.old
            → StandsAfter 16 (bytes ++ byte ∷ []) self.new }
        ensures line { (bytes : List ℕ) → StandsAfter 16 bytes self.old
            → client_lines (bytes ++ byte ∷ []) ≡ client_lines bytes ++ option_to_list result }
    {
        self.half.push(byte, &Wishes)
    }
}

/// What a client's line asks for. No line of more than 16 bytes is known.
struct Wishes;

impl LineReading<16> for Wishes {
    type Read = ClientLine;

    ghost reading = { λ _. client_line };

    fn read(&self, line: &[u8]) -> ClientLine {
        known(line)
    }

    fn read_long(&self, _: &[u8]) -> ClientLine {
        ClientLine::Unknown
    }
}

/// What the line asks for.
fn known(line: &[u8]) -> ClientLine
    ensures { result ≡ client_line line.now }
{
    match line {
        b"lock" => ClientLine::Lock,
        b"unlock" => ClientLine::Unlock,
        b"status" => ClientLine::Status,
        _ => ClientLine::Unknown,
    }
}
