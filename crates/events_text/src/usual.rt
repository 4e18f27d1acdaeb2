//! The usual lines at the front of a text, each read in one pass.
ghost use Rattle.std.specs.Prelude.{◌≡◌, ◌<◌, ◌∷◌, ◌++◌, ℕ, List, IfSome, decimal};
ghost use Rattle.byte_lines.specs.Lines.{newline, HasNoNewline};
ghost use Rattle.events_text.specs.EventsText.{text_line};
ghost use Rattle.events_text.specs.declared.text_line.TextLine.TheVariants.{Said};

use run_model::Event;

/// The event of the line at the front of a text, and the text after its newline, if the line is
/// `send U V`, `take U V` or `tick V` with ids below 100. Most lines of a long run are of this
/// form, and this reads them without looking for their ends first. For any other line the result is
/// none.
#[inline(always)]
pub fn usual_line(text: &[u8]) -> Option<(Event, &[u8])>
    ensures { IfSome result (λ front. (line : List ℕ) × (text.now ≡ line ++ newline ∷ front.1.now)
        × HasNoNewline line × (text_line line ≡ Said front.0)) }
{
    line_words::laws::one_spelling();
    match text {
        [b's', b'e', b'n', b'd', b' ', ids @ ..] => {
            let (from, ids) = short_number(ids, b' ')?;
            let (to, rest) = short_number(ids, b'\n')?;
            Some((Event::Send { from, to }, rest))
        }
        [b't', b'a', b'k', b'e', b' ', ids @ ..] => {
            let (from, ids) = short_number(ids, b' ')?;
            let (to, rest) = short_number(ids, b'\n')?;
            Some((Event::Take { from, to }, rest))
        }
        [b't', b'i', b'c', b'k', b' ', ids @ ..] => {
            let (node, rest) = short_number(ids, b'\n')?;
            Some((Event::Tick { node }, rest))
        }
        _ => None,
    }
}

/// The number at the front of a text, and the text after the byte that ends it, if it has one or
/// two digits and no leading zero.
#[inline(always)]
fn short_number(text: &[u8], end: u8) -> Option<(u16, &[u8])>
    ensures { IfSome result (λ front. (front.0 < 100)
        × (text.now ≡ decimal front.0 ++ end ∷ front.1.now)) }
{
    match text {
        [ones, last, rest @ ..] if ones.is_ascii_digit() && *last == end => {
            Some((u16::from(*ones - b'0'), rest))
        }
        [tens @ b'1'..=b'9', ones, last, rest @ ..] if ones.is_ascii_digit() && *last == end => {
            let value = 10 * u16::from(*tens - b'0') + u16::from(*ones - b'0');
            Some((value, rest))
        }
        _ => None,
    }
}
