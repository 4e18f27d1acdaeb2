//! A line of an events text that writes a part of the world, or changes its network by one edge.
ghost use Rattle.std.specs.Prelude.{◌≡◌};
ghost use Rattle.events_text.specs.EventLine.{harm_of, own_of, counters_of, value_of, desk_of};
ghost use Rattle.events_text.specs.EventLine.{frame_of};

use super::numbers::{three_numbers, two_numbers};
use super::payload::payload;
use line_words::Words;
use run_model::{Frame, Harm, Item};

/// The harm that its kind and the words after it name: `staged V W D P X` and `copy V W D P X`, or
/// `junk U V`, `empty U V`, `join U V` and `part U V`, or one of those below.
pub fn harm(kind: &[u8], words: &mut Words) -> Option<Harm>
    ensures { result ≡ harm_of kind.now words.old }
{
    if kind == b"own".as_slice() {
        own(words)
    } else if kind == b"counters".as_slice() {
        counters(words)
    } else if kind == b"staged".as_slice() || kind == b"copy".as_slice() {
        let (node, neighbour) = two_numbers(words)?;
        let payload = payload(words)?;
        words.end(if kind == b"staged".as_slice() {
            Harm::Staged {
                node,
                neighbour,
                payload,
            }
        } else {
            Harm::Copy {
                node,
                neighbour,
                payload,
            }
        })
    } else if kind == b"value".as_slice() {
        value(words)
    } else if kind == b"desk".as_slice() {
        desk(words)
    } else if kind == b"frame".as_slice() {
        frame(words)
    } else {
        let (from, to) = two_numbers(words)?;
        let (node, neighbour) = (from, to);
        let item = Item::Noise;
        if kind == b"junk".as_slice() {
            words.end(Harm::Item { from, to, item })
        } else if kind == b"empty".as_slice() {
            words.end(Harm::Empty { from, to })
        } else if kind == b"join".as_slice() {
            words.end(Harm::Join { node, neighbour })
        } else if kind == b"part".as_slice() {
            words.end(Harm::Part { node, neighbour })
        } else {
            None
        }
    }
}

/// `harm own V D P`.
fn own(words: &mut Words) -> Option<Harm>
    ensures { result ≡ own_of words.old }
{
    let (node, distance) = two_numbers(words)?;
    let parent = words.number_or_none()?;
    words.end(Harm::Own {
        node,
        distance,
        parent,
    })
}

/// `harm counters V W SEQ LAST`.
fn counters(words: &mut Words) -> Option<Harm>
    ensures { result ≡ counters_of words.old }
{
    let (node, neighbour) = two_numbers(words)?;
    let (seq, last) = two_numbers(words)?;
    words.end(Harm::Counters {
        node,
        neighbour,
        seq,
        last,
    })
}

/// `harm value V W X`.
fn value(words: &mut Words) -> Option<Harm>
    ensures { result ≡ value_of words.old }
{
    let (node, neighbour, value) = three_numbers(words)?;
    words.end(Harm::Value {
        node,
        neighbour,
        value,
    })
}

/// `harm desk V T LEFT S`.
fn desk(words: &mut Words) -> Option<Harm>
    ensures { result ≡ desk_of words.old }
{
    let node = words.number()?;
    let lent = words.number_or_none()?;
    let left = words.number()?;
    let served = words.yes_or_no()?;
    words.end(Harm::Desk {
        node,
        lent,
        left,
        served,
    })
}

/// `harm frame U V SEQ ACK D P X`.
fn frame(words: &mut Words) -> Option<Harm>
    ensures { result ≡ frame_of words.old }
{
    let (from, to) = two_numbers(words)?;
    let (seq, ack) = two_numbers(words)?;
    let payload = payload(words)?;
    words.end(Harm::Item {
        from,
        to,
        item: Item::Frame(Frame { seq, ack, payload }),
    })
}
