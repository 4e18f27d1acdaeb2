//! The laws of lines, each the contract of a function that does nothing.
ghost use Rattle.byte_lines.specs.Laws.{TextIsItsLines, LinesAreCut, LinesGrow};

/// A text is its lines, each with its newline, and then its half line, and there is no other
/// newline in it. So the lines, though defined byte by byte, are what one expects.
pub fn text_is_its_lines()
    ensures { TextIsItsLines }
{}

/// A text may be cut anywhere: its lines are those of the front, and then those of the back after
/// the front's half line. Code that reads in pieces relies on it.
pub fn any_cutting()
    ensures { LinesAreCut }
{}

/// A newline makes the half line a whole one, and other bytes continue it.
pub fn lines_grow()
    ensures { LinesGrow }
{}
