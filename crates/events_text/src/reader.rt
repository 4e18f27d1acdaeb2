//! The lines of an events text that comes in pieces.
ghost use Rattle.std.specs.Prelude.{◌≡◌, ◌<◌, ◌≤◌, ◌∷◌, ◌++◌, ℕ, List, [], length, take, IfNone, IfSome};
ghost use Rattle.std.specs.Prelude.{OnSome};
ghost use Rattle.std.specs.Option.{option_to_list};
ghost use Rattle.byte_lines.specs.Kept.{StandsAfter};
ghost use Rattle.events_text.specs.EventsText.{text_line, ended_lines, text_lines};
ghost use Rattle.events_text.specs.declared.text_line.TextLine.TheVariants.{Said};

use super::text_line::{LONGEST, TextLine, text_line};
use super::usual::usual_line;
use byte_lines::{HalfLine, LineReading, laws as byte_lines_laws};
use run_model::Event;
use std::marker::Model;

/// Reads the lines of an events text, in whatever pieces it comes. It keeps the line under way, up
/// to 64 bytes of it, and takes no memory.
#[derive(Drop)]
pub struct EventReader {
    half: HalfLine<LONGEST>,
}

impl Model for EventReader {
    ghost use Rattle.byte_lines.specs.Kept.{Kept};

    ghost Value = { Kept };

    ghost view = { λ r. r.half };
}

/// What a reader took from a piece.
#[derive(Clone, Copy)]
pub struct PieceTaken {
    /// How many bytes it took.
    pub used: usize,
    /// The line that ended with them; none if it took the whole piece and no line ended.
    pub line: Option<TextLine>,
}

impl EventReader {
    /// A reader to which no byte has come.
    pub fn new() -> EventReader
        // No byte has come.
        ensures { StandsAfter 64 [] result }
    {
        EventReader {
            half: HalfLine::new(),
        }
    }

    /// Takes a piece of the text up to the end of the next line in it, or all of it if no line
    /// ends there.
    pub fn take(&mut self, piece: &[u8]) -> PieceTaken
        ensures used { result.used ≤ length piece.now }
        ensures all { IfNone result.line (result.used ≡ length piece.now) }
        ensures some { OnSome result.line (0 < result.used) }
        // It stands after the bytes that it had and those that it has now used.
        ensures stands { (bytes : List ℕ) → StandsAfter 64 bytes self.old
            → StandsAfter 64 (bytes ++ take result.used piece.now) self.new }
        // What it answers is the one line that these bytes end, or none.
        ensures line { (bytes : List ℕ) → StandsAfter 64 bytes self.old
            → ended_lines (bytes ++ take result.used piece.now)
            ≡ ended_lines bytes ++ option_to_list result.line }
    {
        if let Some((event, used)) = self.take_usual(piece) {
            return PieceTaken {
                used,
                line: Some(TextLine::Said(event)),
            };
        }
        let byte_lines::Taken { used, line } = self.half.take(piece, &TextLines);
        PieceTaken { used, line }
    }

    /// Takes the line at the front of a piece, if none is under way and it is a usual one: `send U
    /// V`, `take U V` or `tick V` with ids below 100. The answer is its event and how many bytes it
    /// took. If there is none, nothing is taken, and [`EventReader::take`] must read on.
    #[inline(always)]
    pub fn take_usual(&self, piece: &[u8]) -> Option<(Event, usize)>
        ensures used { IfSome result (λ taken. (0 < taken.1) × (taken.1 ≤ length piece.now)) }
        // It stands after the bytes that it had and those that it has now used.
        ensures stands { IfSome result (λ taken. (bytes : List ℕ) → StandsAfter 64 bytes self.now
            → StandsAfter 64 (bytes ++ take taken.1 piece.now) self.now) }
        // What it answers is the event of the one line that these bytes end.
        ensures line { IfSome result (λ taken. (bytes : List ℕ) → StandsAfter 64 bytes self.now
            → ended_lines (bytes ++ take taken.1 piece.now)
            ≡ ended_lines bytes ++ Said taken.0 ∷ []) }
    {
        byte_lines_laws::any_cutting();
        byte_lines_laws::lines_grow();
        if !self.half.is_empty() {
            return None;
        }
        let (event, rest) = usual_line(piece)?;
        Some((event, piece.len() - rest.len()))
    }

    /// The last line of a text that ends here, if no newline ended it.
    pub fn last(&self) -> Option<TextLine>
        // The lines of a text are those that were ended, and the last half line if there is one.
        ensures { (bytes : List ℕ) → StandsAfter 64 bytes self.now
            → text_lines bytes ≡ ended_lines bytes ++ option_to_list result }
    {
        if self.half.is_empty() {
            None
        } else {
            Some(self.half.read(&TextLines))
        }
    }
}

/// What a line of an events text is. The first byte of a long one shows whether it is a comment.
struct TextLines;

impl LineReading<LONGEST> for TextLines {
    type Read = TextLine;

    ghost reading = { λ _. text_line };

    fn read(&self, line: &[u8]) -> TextLine {
        text_line(line)
    }

    fn read_long(&self, first: &[u8]) -> TextLine {
        match first {
            [b'#', ..] => TextLine::Passed,
            _ => TextLine::Unread,
        }
    }
}
