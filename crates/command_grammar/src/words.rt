//! The words that a command line gives, and the numbers that they spell.
ghost use Rattle.std.specs.Prelude.{◌≡◌};
ghost use Rattle.clap.specs.Matches.{found_of};
ghost use Rattle.command_grammar.specs.Given.{IsNumber, IsNumberIfGiven, IsWord};

use crate::number::Number;
use clap::ArgMatches;
use std::fmt;

/// Why a word that the parser took is invalid. Printed, it is what the message says after the
/// program's name.
#[derive(Clone, Copy, Debug, Drop)]
pub enum WordFault<'a> {
    /// The parameter of this id has no word, which the parser rules out for one that must be given.
    Absent(&'a str),
    /// The word spells no such number.
    NoNumber(Number<'a>),
}

impl fmt::Display for WordFault<'_> {
    ghost use Rattle.std.specs.Prelude.{Some};
    ghost use Rattle.command_grammar.specs.FaultText.{word_fault_text};

    ghost output = { λ fault. Some (word_fault_text fault) };

    fn fmt<W: fmt::Write>(&self, f: &mut fmt::Formatter<W>) -> fmt::Result {
        match *self {
            WordFault::Absent(id) => write!(f, "{id} is missing"),
            WordFault::NoNumber(number) => write!(
                f,
                "{} must be an integer from {} to {}, without a sign or leading zeros",
                number.name, number.least, number.most
            ),
        }
    }
}

impl std::error::Error for WordFault<'_> {}

/// The word of a parameter that must be given.
///
/// # Errors
/// [`WordFault::Absent`] if it has none.
pub fn word<'a, 'b>(given: &ArgMatches<'a>, id: &'b str) -> Result<&'a str, WordFault<'b>>
    ensures { IsWord (found_of given.now) id.entry result }
{
    given.get_str(id).ok_or(WordFault::Absent(id))
}

/// The number of a parameter that must be given, or has a default value.
///
/// # Errors
/// [`WordFault::NoNumber`] if its word spells none in its range; [`WordFault::Absent`] if it has no
/// word.
pub fn given_number<'b>(given: &ArgMatches<'_>, number: Number<'b>) -> Result<u64, WordFault<'b>>
    ensures { IsNumber (found_of given.now) number.entry result }
{
    let word = word(given, number.id)?;
    number.read(word).ok_or(WordFault::NoNumber(number))
}

/// The number of a parameter that may be left out.
///
/// # Errors
/// [`WordFault::NoNumber`] if its word spells none in its range.
pub fn number_if_given<'b>(
    given: &ArgMatches<'_>,
    number: Number<'b>,
) -> Result<Option<u64>, WordFault<'b>>
    ensures { IsNumberIfGiven (found_of given.now) number.entry result }
{
    match given.get_str(number.id) {
        None => Ok(None),
        Some(word) => match number.read(word) {
            None => Err(WordFault::NoNumber(number)),
            read => Ok(read),
        },
    }
}
