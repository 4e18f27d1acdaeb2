//! An events text in pieces of several sizes, and lines that no contract covers.
use run_model::{Event, Harm};
use std::alloc::{AllocFailed, Global};
use std::test::Fail;
use test_parts::is_expected;
use world::events::{EventReader, TextLine, parse_line};

/// Hands a piece to a reader, and returns the line that it ended, and what is left of the piece.
fn take<'p>(reader: &mut EventReader, piece: &'p [u8]) -> (Option<TextLine>, &'p [u8]) {
    let taken = reader.take(piece);
    (taken.line, &piece[taken.used..])
}

/// The lines of a text that comes in pieces of this many bytes.
fn lines(alloc: Global, text: &[u8], size: usize) -> Result<Vec<TextLine>, AllocFailed<TextLine>> {
    let mut reader = EventReader::new();
    let mut lines = Vec::new(alloc);
    for piece in text.chunks(size.max(1)) {
        let mut rest = piece;
        for _ in 0..text.len() {
            let (line, later) = take(&mut reader, rest);
            rest = later;
            match line {
                Some(line) => lines.push(line)?,
                None => break,
            }
        }
    }
    if let Some(line) = reader.last() {
        lines.push(line)?;
    }
    Ok(lines)
}

/// Whether these are the lines of a text that comes in pieces of this many bytes.
fn are_lines(
    alloc: Global,
    text: &[u8],
    size: usize,
    want: &[TextLine],
) -> Result<bool, AllocFailed<TextLine>> {
    Ok(lines(alloc, text, size)?.as_slice() == want)
}

/// The most bytes of a piece.
const SIZES: [usize; 5] = [1, 7, 64, 65, 4096];

/// The first size of pieces in which a text has other lines, if any.
fn first_unlike_size(
    alloc: Global,
    text: &[u8],
    want: &[TextLine],
) -> Result<Option<usize>, AllocFailed<TextLine>> {
    for size in SIZES {
        if !are_lines(alloc, text, size, want)? {
            return Ok(Some(size));
        }
    }
    Ok(None)
}

/// The place of the first text with other lines, and the size of pieces, if any.
fn first_unlike(
    alloc: Global,
    rows: &[(&[u8], &[TextLine])],
) -> Result<Option<(usize, usize)>, AllocFailed<TextLine>> {
    for (at, (text, want)) in rows.iter().enumerate() {
        if let Some(size) = first_unlike_size(alloc, text, want)? {
            return Ok(Some((at, size)));
        }
    }
    Ok(None)
}

/// A text with lines of each kind.
const EACH_KIND: [(&[u8], &[TextLine]); 1] = [(
    b"tick 0\n\nsend 0 1\n# take 0 1, in a comment that is longer than any line that is read: it has 100 bytes or more.\n\
    take  0 1\nxxxxxxxxxxxxxxxxxxxxxxxxxxxxxxxxxxxxxxxxxxxxxxxxxxxxxxxxxxxxxxxxxxxxxx\nharm own 0 3 none\nharm own 0 3 65535\nask 1 7",
    &[
        TextLine::Said(Event::Tick { node: 0 }),
        TextLine::Passed,
        TextLine::Said(Event::Send { from: 0, to: 1 }),
        TextLine::Passed,
        TextLine::Unread,
        TextLine::Unread,
        TextLine::Said(Event::Damage(Harm::Own {
            node: 0,
            distance: 3,
            parent: None,
        })),
        TextLine::Said(Event::Damage(Harm::Own {
            node: 0,
            distance: 3,
            parent: Some(65535),
        })),
        TextLine::Said(Event::Ask { node: 1, ticket: 7 }),
    ],
)];

#[test]
fn a_text_is_the_same_in_any_pieces(rt: HostRuntime) -> Result<(), Fail> {
    is_expected(&first_unlike(rt.alloc(), &EACH_KIND)?, &None)
}

/// Texts that end with a newline, or are empty.
const ENDED: [(&[u8], &[TextLine]); 2] = [
    (
        b"tick 0\n\n",
        &[TextLine::Said(Event::Tick { node: 0 }), TextLine::Passed],
    ),
    (b"", &[]),
];

#[test]
fn a_text_that_ends_with_a_newline_has_no_line_after_it(rt: HostRuntime) -> Result<(), Fail> {
    is_expected(&first_unlike(rt.alloc(), &ENDED)?, &None)
}

/// Lines with numbers, and what they spell.
const NUMBERS: [(&[u8], Option<Event>); 9] = [
    (b"tick 0", Some(Event::Tick { node: 0 })),
    (b"tick 65535", Some(Event::Tick { node: 65535 })),
    (b"tick 65536", None),
    (b"tick 99999999999999999999", None),
    (b"tick 00", None),
    (b"tick +1", None),
    (b"tick 1\r", None),
    (b"tick ", None),
    (b"tick", None),
];

/// The place of the first line that spells something else, if any.
fn first_misread(rows: &[(&[u8], Option<Event>)]) -> Option<usize> {
    for (at, (line, want)) in rows.iter().enumerate() {
        if parse_line(line) != *want {
            return Some(at);
        }
    }
    None
}

#[test]
fn numbers_are_decimal() -> Result<(), Fail> {
    is_expected(&first_misread(&NUMBERS), &None)
}
