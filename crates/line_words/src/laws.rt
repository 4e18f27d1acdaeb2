//! Laws of words and numbers, each the contract of a function that does nothing.
ghost use Rattle.line_words.specs.Laws.{NumbersAreRead, NumbersHaveOneSpelling, WordsMakeTheLine};

/// Each number below 65536 is read from its decimal spelling and from no other word, and a line is
/// its words, with a space between each two. By these, each form of line that is made of words and
/// numbers has only one spelling.
pub fn one_spelling()
    ensures numbers_read { NumbersAreRead }
    ensures numbers_spelled { NumbersHaveOneSpelling }
    ensures line { WordsMakeTheLine }
{}
