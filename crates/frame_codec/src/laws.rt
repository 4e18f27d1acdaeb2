//! The laws of frame lines.
ghost use Rattle.frame_codec.specs.Laws.{OneReading, AnyCutting, JunkEndsAtNewline};

use byte_lines::laws as byte_lines_laws;

/// A line is read as a frame exactly if it is the frame's spelling and the frame is in range. So a
/// frame in range that is encoded is read again, no two frames in range share a line, and no other
/// line is read. Code that sends frames as text relies on it.
pub fn one_reading()
    ensures { OneReading }
{}

/// In whatever pieces a stream comes, the frames that are read, each piece after the half line of
/// those before, are the good lines of the whole. Code that reads from a pipe relies on it.
pub fn any_cutting()
    ensures { AnyCutting }
{
    byte_lines_laws::any_cutting();
}

/// Junk spoils at most the line that it joins: after the next newline all is read as if there had
/// been no junk.
pub fn junk_ends_at_newline()
    ensures { JunkEndsAtNewline }
{
    byte_lines_laws::any_cutting();
}
