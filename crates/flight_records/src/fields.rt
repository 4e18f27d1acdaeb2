//! What an entry notes, as numbers.
ghost use Rattle.std.specs.Prelude.{◌≡◌, ◌+◌, ◌≤◌, ◌∷◌, [], ◌++◌, length, slice_index};
ghost use Rattle.std.specs.Str.{bytes_eq};
ghost use Rattle.flight_records.specs.Numbers.{optional, truth, frame_numbers, part_kind};
ghost use Rattle.flight_records.specs.Numbers.{part_fields, deed_kind, deed_fields, kind, fields};
ghost use Rattle.flight_records.specs.Numbers.{payload_then};
ghost use Rattle.flight_records.specs.Reading.{narrow, field, optional_of, payload_in, frame_in};
ghost use Rattle.flight_records.specs.Reading.{part_in, deed_in, candidate, with_fields};

use crate::entry::{Deed, Noted, StatePart};
use arrayvec::ArrayVec;
use topology::{Frame, Payload};

/// The fields of an entry, at most ten.
pub(crate) type Fields = ArrayVec<u64, 10>;

/// A list of these fields.
fn fields_of(fields: &[u64]) -> Fields
    requires { length fields.now ≤ 10 }
    ensures { result.items ≡ fields.now }
{
    let mut list = Fields::new();
    let _fits = list.try_extend_from_slice(fields);
    list
}

/// An optional number as a number: 0 for none, and otherwise one more than it.
fn optional(number: Option<u16>) -> u64
    ensures { result ≡ optional number }
{
    match number {
        Some(number) => u64::from(number) + 1,
        None => 0,
    }
}

/// A payload's three numbers.
fn payload_numbers(payload: &Payload) -> [u64; 3]
    ensures { result ≡ payload_then payload.now [] }
{
    [
        u64::from(payload.distance),
        optional(payload.parent),
        u64::from(payload.ring),
    ]
}

/// A neighbour and a frame.
pub(crate) fn frame_fields(neighbour: u16, frame: &Frame) -> [u64; 6]
    ensures { result ≡ neighbour ∷ frame_numbers frame.now }
{
    let [distance, parent, ring] = payload_numbers(&frame.payload);
    [
        u64::from(neighbour),
        u64::from(frame.seq),
        u64::from(frame.ack),
        distance,
        parent,
        ring,
    ]
}

impl StatePart {
    /// The number of its kind.
    fn kind(&self) -> u64
        ensures { result ≡ part_kind self.now }
    {
        match self {
            StatePart::Start { .. } => 1,
            StatePart::Own { .. } => 2,
            StatePart::Port { .. } => 3,
            StatePart::Waits { .. } => 4,
            StatePart::Loan { .. } => 5,
            StatePart::Whole => 6,
        }
    }

    /// Its fields.
    fn fields(&self) -> Fields
        ensures { result.items ≡ part_fields self.now }
    {
        match *self {
            StatePart::Start { network, node } => fields_of(&[u64::from(network), u64::from(node)]),
            StatePart::Own { distance, parent } => {
                fields_of(&[u64::from(distance), optional(parent)])
            }
            StatePart::Port {
                neighbour,
                seq,
                last,
                staged,
                copy,
                value,
            } => port_fields([neighbour, seq, last], &staged, &copy, value),
            StatePart::Waits { ticket } => fields_of(&[u64::from(ticket)]),
            StatePart::Loan { lent, left, served } => {
                fields_of(&[optional(lent), u64::from(left), u64::from(served)])
            }
            StatePart::Whole => fields_of(&[]),
        }
    }
}

/// The fields of a port.
fn port_fields(first: [u16; 3], staged: &Payload, copy: &Payload, value: u16) -> Fields
    ensures { result.items ≡ slice_index first 0 ∷ slice_index first 1 ∷ slice_index first 2
        ∷ payload_then staged.now (payload_then copy.now (value ∷ [])) }
{
    let [neighbour, seq, last] = first;
    let [distance, parent, ring] = payload_numbers(staged);
    let [copied_distance, copied_parent, copied_ring] = payload_numbers(copy);
    fields_of(&[
        u64::from(neighbour),
        u64::from(seq),
        u64::from(last),
        distance,
        parent,
        ring,
        copied_distance,
        copied_parent,
        copied_ring,
        u64::from(value),
    ])
}

impl Deed {
    /// The number of its kind.
    fn kind(&self) -> u64
        ensures { result ≡ deed_kind self.now }
    {
        match self {
            Deed::Ticks => 7,
            Deed::Takes { .. } => 8,
            Deed::TakesAgain { .. } => 9,
            Deed::Sends { .. } => 10,
            Deed::SendsAgain { .. } => 11,
            Deed::Asks { .. } => 12,
            Deed::Leaves { .. } => 13,
            Deed::Joins { .. } => 14,
            Deed::Parts { .. } => 15,
            Deed::Connects { .. } => 16,
            Deed::Disconnects { .. } => 17,
        }
    }

    /// Its fields.
    fn fields(&self) -> Fields
        ensures { result.items ≡ deed_fields self.now }
    {
        match *self {
            Deed::Ticks => fields_of(&[]),
            Deed::Takes { from, frame } => fields_of(&frame_fields(from, &frame)),
            Deed::Sends { to, frame } => fields_of(&frame_fields(to, &frame)),
            Deed::TakesAgain { from: number }
            | Deed::SendsAgain { to: number }
            | Deed::Asks { ticket: number }
            | Deed::Leaves { ticket: number }
            | Deed::Joins { neighbour: number }
            | Deed::Parts { neighbour: number }
            | Deed::Connects { neighbour: number }
            | Deed::Disconnects { neighbour: number } => fields_of(&[u64::from(number)]),
        }
    }
}

impl Noted {
    /// The number of its kind.
    pub(crate) fn kind(&self) -> u64
        ensures { result ≡ kind self.now }
    {
        match self {
            Noted::State(part) => part.kind(),
            Noted::Deed(deed) => deed.kind(),
        }
    }

    /// Its fields.
    pub(crate) fn fields(&self) -> Fields
        ensures { result.items ≡ fields self.now }
    {
        match self {
            Noted::State(part) => part.fields(),
            Noted::Deed(deed) => deed.fields(),
        }
    }

    /// What a kind and fields note, if they note anything.
    pub(crate) fn of(kind: u64, fields: &[u64]) -> Option<Noted>
        ensures { result ≡ with_fields fields.now (candidate kind fields.now) }
    {
        let noted = candidate(kind, fields)?;
        if noted.fields().as_slice() == fields {
            Some(noted)
        } else {
            None
        }
    }
}

/// The only thing that fields of a kind may note.
#[tactic(auto, unfolding(crate::specs::Reading::candidate))]
fn candidate(kind: u64, fields: &[u64]) -> Option<Noted>
    ensures { result ≡ candidate kind fields.now }
{
    match part_in(kind, fields) {
        Some(part) => Some(Noted::State(part)),
        None => deed_in(kind, fields).map(Noted::Deed),
    }
}

/// The only part of a state that fields of a kind may be.
fn part_in(kind: u64, fields: &[u64]) -> Option<StatePart>
    ensures { result ≡ part_in kind fields.now }
{
    Some(match kind {
        1 => StatePart::Start {
            network: (number(fields, 0) % (1 << 32)) as u32,
            node: field(fields, 1),
        },
        2 => StatePart::Own {
            distance: field(fields, 0),
            parent: optional_of(number(fields, 1)),
        },
        3 => StatePart::Port {
            neighbour: field(fields, 0),
            seq: field(fields, 1),
            last: field(fields, 2),
            staged: payload_in(fields, 3),
            copy: payload_in(fields, 6),
            value: field(fields, 9),
        },
        4 => StatePart::Waits {
            ticket: field(fields, 0),
        },
        5 => StatePart::Loan {
            lent: optional_of(number(fields, 0)),
            left: field(fields, 1),
            served: number(fields, 2) == 1,
        },
        6 => StatePart::Whole,
        _ => return None,
    })
}

/// The only deed that fields of a kind may be.
fn deed_in(kind: u64, fields: &[u64]) -> Option<Deed>
    ensures { result ≡ deed_in kind fields.now }
{
    let first = field(fields, 0);
    Some(match kind {
        7 => Deed::Ticks,
        8 => Deed::Takes {
            from: first,
            frame: frame_in(fields),
        },
        9 => Deed::TakesAgain { from: first },
        10 => Deed::Sends {
            to: first,
            frame: frame_in(fields),
        },
        11 => Deed::SendsAgain { to: first },
        12 => Deed::Asks { ticket: first },
        13 => Deed::Leaves { ticket: first },
        14 => Deed::Joins { neighbour: first },
        15 => Deed::Parts { neighbour: first },
        16 => Deed::Connects { neighbour: first },
        17 => Deed::Disconnects { neighbour: first },
        _ => return None,
    })
}

/// The number at a place; 0 past the end.
fn number(fields: &[u64], at: usize) -> u64
    ensures { result ≡ slice_index fields.now at }
{
    fields.get(at).copied().unwrap_or(0)
}

/// The low sixteen bits of the number at a place.
fn field(fields: &[u64], at: usize) -> u16
    ensures { result ≡ field fields.now at }
{
    narrow(number(fields, at))
}

/// The low sixteen bits of a number.
fn narrow(number: u64) -> u16
    ensures { result ≡ narrow number }
{
    (number % (1 << 16)) as u16
}

/// The optional number that a number stands for.
fn optional_of(number: u64) -> Option<u16>
    ensures { result ≡ optional_of number }
{
    if number == 0 {
        None
    } else {
        Some(narrow(number - 1))
    }
}

/// The payload that starts at a place.
fn payload_in(fields: &[u64], at: usize) -> Payload
    requires { at ≤ 10 }
    ensures { result ≡ payload_in fields.now at }
{
    Payload {
        distance: field(fields, at),
        parent: optional_of(number(fields, at + 1)),
        ring: field(fields, at + 2),
    }
}

/// The frame after the number of a neighbour.
fn frame_in(fields: &[u64]) -> Frame
    ensures { result ≡ frame_in fields.now }
{
    Frame {
        seq: field(fields, 1),
        ack: field(fields, 2),
        payload: payload_in(fields, 3),
    }
}
