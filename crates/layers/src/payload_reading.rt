//! The payloads of a link, read one by one.
ghost use Rattle.std.specs.Prelude.{◌≡◌, ◌↔◌, IsTrue};
ghost use Rattle.configuration.specs.data_link.Edge.{payload_under};
ghost use Rattle.configuration.specs.data_link.Port.{PortState};
ghost use Rattle.topology.specs.declared.frame.Payload.{Payload};
ghost use Rattle.layers.specs.PayloadReading.{Admits};

use topology::Payload;

/// What is remembered of the payloads of a link, some of which have been read.
#[derive(Clone, Copy)]
pub struct PayloadReading {
    /// The sender's number.
    pub seq: u16,
    /// What it has staged: the payload of that number.
    pub staged: Payload,
    /// The payload of all other numbers, if one of them was read.
    pub other: Option<Payload>,
    /// Whether each number that was read came with its own payload.
    pub fits: bool,
}

impl PayloadReading {
    /// The reading of a link of which nothing has been read.
    pub fn new(seq: u16, staged: Payload) -> PayloadReading
        ensures seq { result.seq ≡ seq }
        ensures staged { result.staged ≡ staged }
        ensures admits { (other : Payload) → Admits result other }
    {
        PayloadReading {
            seq,
            staged,
            other: None,
            fits: true,
        }
    }

    /// The reading after one more payload, which came with this number.
    pub fn after(self, number: u16, payload: Payload) -> PayloadReading
        ensures seq { result.seq ≡ self.seq }
        ensures staged { result.staged ≡ self.staged }
        ensures admits { (port : PortState) (other : Payload) → port.seq ≡ self.seq
            → port.staged ≡ self.staged
            → Admits result other ↔ (Admits self other × (payload ≡ payload_under port other number)) }
    {
        if number == self.seq {
            return PayloadReading {
                fits: self.fits && payload == self.staged,
                ..self
            };
        }
        PayloadReading {
            other: self.other.or(Some(payload)),
            fits: self.fits && self.other.is_none_or(|other| other == payload),
            ..self
        }
    }

    /// Whether there is a payload for all other numbers such that each number came with its own
    /// payload.
    pub fn is_good(self) -> bool
        ensures { IsTrue result ↔ ((other : Payload) × Admits self other) }
    {
        self.fits
    }
}
