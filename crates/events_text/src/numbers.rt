//! Two or three numbers.
ghost use Rattle.std.specs.Prelude.{◌≡◌, OnSome};
ghost use Rattle.line_words.specs.Words.{other_words};
ghost use Rattle.events_text.specs.EventLine.{two_of, three_of};

use line_words::Words;

/// The next two words, as numbers.
pub fn two_numbers(words: &mut Words) -> Option<(u16, u16)>
    ensures value { result ≡ two_of words.old }
    ensures rest { OnSome result (words.new ≡ other_words (other_words words.old)) }
{
    let first = words.number()?;
    let second = words.number()?;
    Some((first, second))
}

/// The next three words, as numbers.
pub fn three_numbers(words: &mut Words) -> Option<(u16, u16, u16)>
    ensures value { result ≡ three_of words.old }
    ensures rest { OnSome result
        (words.new ≡ other_words (other_words (other_words words.old))) }
{
    let (first, second) = two_numbers(words)?;
    let third = words.number()?;
    Some((first, second, third))
}
