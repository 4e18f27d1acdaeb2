//! Laws of status lines, each the contract of a function that does nothing.
ghost use Rattle.node_texts.specs.StatusLaws.{LinesAreRead, LinesHaveOneSpelling};

/// Each status line whose numbers are below 65536 is read from its text, and from no other line. So
/// a program that reads the lines of `status` may rely on their form.
pub fn one_spelling()
    ensures read { LinesAreRead }
    ensures spelled { LinesHaveOneSpelling }
{
    line_words::laws::one_spelling();
}
