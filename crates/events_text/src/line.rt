//! One line of an events text.
ghost use Rattle.std.specs.Prelude.{◌≡◌};
ghost use Rattle.events_text.specs.EventLine.{line_event, event_of, damage_of, lose_of, tick_of};

use super::harm::harm;
use super::numbers::{three_numbers, two_numbers};
use line_words::Words;
use run_model::Event;

/// The event that a line spells, if any. The line is without its newline. A number is decimal, at
/// most 65535, with no leading zero; 65535 is a number like any other, and `none` a word of its
/// own.
pub fn parse_line(line: &[u8]) -> Option<Event>
    ensures { result ≡ line_event line.now }
{
    let mut words = Words::of(line);
    let verb = words.next()?;
    event(verb, &mut words)
}

/// The event that a verb and the words after it name. No word may follow `send U V`, `take U V`, in
/// which V takes from the link from U, `ask V T` or `leave V T`.
fn event(verb: &[u8], words: &mut Words) -> Option<Event>
    ensures { result ≡ event_of verb.now words.old }
{
    if verb == b"tick".as_slice() {
        tick(words)
    } else if verb == b"lose".as_slice() {
        lose(words)
    } else if verb == b"harm".as_slice() {
        damage(words)
    } else {
        let (first, second) = two_numbers(words)?;
        if verb == b"send".as_slice() {
            words.end(Event::Send {
                from: first,
                to: second,
            })
        } else if verb == b"take".as_slice() {
            words.end(Event::Take {
                from: first,
                to: second,
            })
        } else if verb == b"ask".as_slice() {
            words.end(Event::Ask {
                node: first,
                ticket: second,
            })
        } else if verb == b"leave".as_slice() {
            words.end(Event::Leave {
                node: first,
                ticket: second,
            })
        } else {
            None
        }
    }
}

/// The harm that the words after `harm` name.
fn damage(words: &mut Words) -> Option<Event>
    ensures { result ≡ damage_of words.old }
{
    let part = words.next()?;
    harm(part, words).map(Event::Damage)
}

/// `lose U V I`: item I of the link from U to V, of which 0 is the oldest.
fn lose(words: &mut Words) -> Option<Event>
    ensures { result ≡ lose_of words.old }
{
    let (from, to, item) = three_numbers(words)?;
    words.end(Event::Lose { from, to, item })
}

/// `tick V`.
fn tick(words: &mut Words) -> Option<Event>
    ensures { result ≡ tick_of words.old }
{
    let node = words.number()?;
    words.end(Event::Tick { node })
}
