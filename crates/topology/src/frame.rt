//! What neighbours say to each other, and the ranges of its fields.
ghost use Rattle.std.specs.Prelude.{◌≡◌};
ghost use Rattle.topology.specs.Ranges.{payload_fits, frame_fits};

/// What a node says about itself to one neighbour.
#[derive(Clone, Copy, Debug, PartialEq, Eq)]
pub struct Payload {
    /// Its distance from the root, 0 to the number of nodes.
    pub distance: u16,
    /// The node that it takes to be its parent, if any: below the number of nodes. Damage may have
    /// written one that is no neighbour.
    pub parent: Option<u16>,
    /// The value of its machine that leaves towards the one neighbour, below the ring's modulus.
    pub ring: u16,
}

/// A numbered payload, with the acknowledgement of the other direction.
#[derive(Clone, Copy, Debug, PartialEq, Eq)]
pub struct Frame {
    /// The sender's number, below the counters' modulus.
    pub seq: u16,
    /// The last number that the sender accepted from the receiver, below the counters' modulus.
    pub ack: u16,
    /// What the sender says about itself.
    pub payload: Payload,
}

/// The ranges of the fields of payloads and frames on a network.
#[derive(Clone, Copy, Debug, PartialEq, Eq)]
pub struct Ranges {
    /// The number of nodes: a distance is at most this, and a parent is below it.
    pub nodes: u16,
    /// The modulus of a link's counters.
    pub counter: u16,
    /// The modulus of the ring values.
    pub ring: u16,
}

impl Ranges {
    /// Whether each field of a payload is in its range.
    pub fn fits_payload(&self, payload: &Payload) -> bool
        ensures { result ≡ payload_fits self.now payload.now }
    {
        payload.distance <= self.nodes
            && payload.parent.is_none_or(|parent| parent < self.nodes)
            && payload.ring < self.ring
    }

    /// Whether each field of a frame is in its range.
    pub fn fits(&self, frame: &Frame) -> bool
        ensures { result ≡ frame_fits self.now frame.now }
    {
        frame.seq < self.counter && frame.ack < self.counter && self.fits_payload(&frame.payload)
    }
}
