//! Events as the lines that spell them.
ghost use Rattle.std.specs.Prelude.{Some, ◌∷◌, []};
ghost use Rattle.std.specs.Fmt.{decimal};
ghost use Rattle.std.specs.List.{join_with_byte};
ghost use Rattle.events_text.specs.EventLaws.{event_words, harm_words, payload_words, word_or_none};
ghost use Rattle.events_text.specs.EventLaws.{yes_or_no_word};

use run_model::{Event, Harm, Item};
use std::fmt;
use topology::{Frame, Payload};

/// An event, which prints as its line without the newline. The line reads back as the event, and no
/// other line does.
#[derive(Clone, Copy)]
pub struct EventLine(pub Event);

impl fmt::Display for EventLine {
    ghost output = { λ line. Some (join_with_byte 32 (event_words line.0)) };

    fn fmt<W: fmt::Write>(&self, f: &mut fmt::Formatter<W>) -> fmt::Result {
        match self.0 {
            Event::Send { from, to } => TwoNumbers("send", from, to).fmt(f),
            Event::Take { from, to } => TwoNumbers("take", from, to).fmt(f),
            Event::Lose { from, to, item } => ThreeNumbers("lose", from, to, item).fmt(f),
            Event::Tick { node } => write!(f, "tick {node}"),
            Event::Ask { node, ticket } => TwoNumbers("ask", node, ticket).fmt(f),
            Event::Leave { node, ticket } => TwoNumbers("leave", node, ticket).fmt(f),
            Event::Damage(harm) => write!(f, "harm {}", HarmWords(harm)),
        }
    }
}

/// A word and two numbers.
#[derive(Clone, Copy)]
struct TwoNumbers(&'static str, u16, u16);

impl fmt::Display for TwoNumbers {
    ghost output = { λ w. Some (join_with_byte 32 (w.0.now ∷ decimal w.1 ∷ decimal w.2 ∷ [])) };

    fn fmt<W: fmt::Write>(&self, f: &mut fmt::Formatter<W>) -> fmt::Result {
        write!(f, "{} {} {}", self.0, self.1, self.2)
    }
}

/// A word and three numbers.
#[derive(Clone, Copy)]
struct ThreeNumbers(&'static str, u16, u16, u16);

impl fmt::Display for ThreeNumbers {
    ghost output = { λ w. Some (join_with_byte 32 (w.0.now ∷ decimal w.1 ∷ decimal w.2 ∷ decimal w.3 ∷ [])) };

    fn fmt<W: fmt::Write>(&self, f: &mut fmt::Formatter<W>) -> fmt::Result {
        write!(f, "{} {} {} {}", self.0, self.1, self.2, self.3)
    }
}

/// A harm, which prints as the words after `harm`.
#[derive(Clone, Copy)]
struct HarmWords(Harm);

impl fmt::Display for HarmWords {
    ghost output = { λ harm. Some (join_with_byte 32 (harm_words harm.0)) };

    fn fmt<W: fmt::Write>(&self, f: &mut fmt::Formatter<W>) -> fmt::Result {
        match self.0 {
            Harm::Own {
                node,
                distance,
                parent,
            } => write!(f, "own {node} {distance} {}", NumberOrNone(parent)),
            Harm::Counters {
                node,
                neighbour,
                seq,
                last,
            } => write!(f, "counters {node} {neighbour} {seq} {last}"),
            Harm::Staged {
                node,
                neighbour,
                payload,
            } => PortWords("staged", node, neighbour, payload).fmt(f),
            Harm::Copy {
                node,
                neighbour,
                payload,
            } => PortWords("copy", node, neighbour, payload).fmt(f),
            Harm::Value {
                node,
                neighbour,
                value,
            } => ThreeNumbers("value", node, neighbour, value).fmt(f),
            Harm::Desk {
                node,
                lent,
                left,
                served,
            } => write!(
                f,
                "desk {node} {} {left} {}",
                NumberOrNone(lent),
                YesOrNo(served)
            ),
            Harm::Item {
                from,
                to,
                item: Item::Frame(Frame { seq, ack, payload }),
            } => write!(f, "frame {from} {to} {seq} {ack} {}", PayloadWords(payload)),
            Harm::Item {
                from,
                to,
                item: Item::Noise,
            } => TwoNumbers("junk", from, to).fmt(f),
            Harm::Empty { from, to } => TwoNumbers("empty", from, to).fmt(f),
            Harm::Join { node, neighbour } => TwoNumbers("join", node, neighbour).fmt(f),
            Harm::Part { node, neighbour } => TwoNumbers("part", node, neighbour).fmt(f),
        }
    }
}

/// A word, a node, its neighbour and a payload.
#[derive(Clone, Copy)]
struct PortWords(&'static str, u16, u16, Payload);

impl fmt::Display for PortWords {
    ghost output = { λ w. Some (join_with_byte 32 (w.0.now ∷ decimal w.1 ∷ decimal w.2 ∷ payload_words w.3)) };

    fn fmt<W: fmt::Write>(&self, f: &mut fmt::Formatter<W>) -> fmt::Result {
        write!(
            f,
            "{} {} {} {}",
            self.0,
            self.1,
            self.2,
            PayloadWords(self.3)
        )
    }
}

/// A payload, which prints as its three words.
#[derive(Clone, Copy)]
struct PayloadWords(Payload);

impl fmt::Display for PayloadWords {
    ghost output = { λ payload. Some (join_with_byte 32 (payload_words payload.0)) };

    fn fmt<W: fmt::Write>(&self, f: &mut fmt::Formatter<W>) -> fmt::Result {
        let Payload {
            distance,
            parent,
            ring,
        } = self.0;
        write!(f, "{distance} {} {ring}", NumberOrNone(parent))
    }
}

/// A number, or `none`.
#[derive(Clone, Copy)]
struct NumberOrNone(Option<u16>);

impl fmt::Display for NumberOrNone {
    ghost output = { λ number. Some (word_or_none number.0) };

    fn fmt<W: fmt::Write>(&self, f: &mut fmt::Formatter<W>) -> fmt::Result {
        match self.0 {
            Some(number) => write!(f, "{number}"),
            None => f.write_str("none"),
        }
    }
}

/// `yes` or `no`.
#[derive(Clone, Copy)]
struct YesOrNo(bool);

impl fmt::Display for YesOrNo {
    ghost output = { λ answer. Some (yes_or_no_word answer.0) };

    fn fmt<W: fmt::Write>(&self, f: &mut fmt::Formatter<W>) -> fmt::Result {
        f.write_str(if self.0 { "yes" } else { "no" })
    }
}
