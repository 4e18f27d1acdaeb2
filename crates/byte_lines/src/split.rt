//! The first line of a text.
ghost use Rattle.std.specs.Prelude.{◌≡◌, ◌∷◌, ◌++◌, IfSome, IfNone};
ghost use Rattle.byte_lines.specs.Lines.{newline, HasNoNewline};

use memchr::memchr;

/// The bytes before the first newline and those after it; none if there is no newline.
// A separate call would cost more than a short line does.
#[inline(always)]
pub fn split_line(text: &[u8]) -> Option<(&[u8], &[u8])>
    ensures some { IfSome result (λ parts. (text.now ≡ parts.0.now ++ newline ∷ parts.1.now)
        × HasNoNewline parts.0.now) }
    ensures none { IfNone result (HasNoNewline text.now) }
{
    if let [b'\n', after @ ..] = text {
        return Some((&[], after));
    }
    match memchr(b'\n', text) {
        Some(end) => Some((&text[..end], &text[end + 1..])),
        None => None,
    }
}
