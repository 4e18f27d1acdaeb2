//! The words of a payload.
ghost use Rattle.std.specs.Prelude.{◌≡◌, OnSome};
ghost use Rattle.line_words.specs.Words.{other_words};
ghost use Rattle.events_text.specs.EventLine.{payload_of};

use line_words::Words;
use run_model::Payload;

/// The next three words, as a payload: a distance, a parent or `none`, and a ring value.
pub fn payload(words: &mut Words) -> Option<Payload>
    ensures value { result ≡ payload_of words.old }
    // A payload takes three words.
    ensures rest { OnSome result
        (words.new ≡ other_words (other_words (other_words words.old))) }
{
    let distance = words.number()?;
    let parent = words.number_or_none()?;
    let ring = words.number()?;
    Some(Payload {
        distance,
        parent,
        ring,
    })
}
