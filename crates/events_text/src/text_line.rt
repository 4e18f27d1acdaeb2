//! What a line of an events text is.
ghost use Rattle.std.specs.Prelude.{◌≡◌};
ghost use Rattle.events_text.specs.EventsText.{text_line};

use super::line::parse_line;
use run_model::Event;

/// The most bytes of a line that is no comment.
pub const LONGEST: usize = 64;

/// A line of an events text.
#[derive(Clone, Copy, PartialEq, Eq)]
pub enum TextLine {
    /// An empty line, or a comment, which begins with `#` and may be of any length.
    Passed,
    /// A line that spells no event.
    Unread,
    /// A line that spells an event.
    Said(Event),
}

/// What a line is. The line is without its newline.
pub fn text_line(line: &[u8]) -> TextLine
    ensures { result ≡ text_line line.now }
{
    match line {
        [] => TextLine::Passed,
        [b'#', ..] => TextLine::Passed,
        _ if line.len() > LONGEST => TextLine::Unread,
        _ => parse_line(line).map_or(TextLine::Unread, TextLine::Said),
    }
}
