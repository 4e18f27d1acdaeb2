//! A ring that is read value by value.
ghost use Rattle.std.specs.Prelude.{◌≡◌, ◌↔◌, ◌<◌, ℕ, List, [], ◌∷◌, IsTrue};
ghost use Rattle.k_state.specs.Machine.{root_moved};
ghost use Rattle.k_state.specs.Ring.{IsGood, head_of};
ghost use Rattle.layers.specs.RingReading.{MayFollow};

/// Which part of a good ring the values that come next are in.
#[derive(Clone, Copy)]
pub enum Part {
    /// So far all equal the head.
    Front,
    /// After those that equal the head, all are one less.
    Rest,
    /// There was a different value, so the ring is not good.
    Broken,
}

/// What is remembered of a ring that is read value by value, from its head on.
#[derive(Clone, Copy)]
pub struct RingReading {
    /// The head's value.
    pub head: u16,
    /// The values are below this.
    pub modulus: u16,
    /// The part of the ring that was reached.
    pub part: Part,
}

impl RingReading {
    /// The reading of a ring with this head, of which nothing has been read.
    pub fn new(head: u16, modulus: u16) -> RingReading
        ensures modulus { result.modulus ≡ modulus }
        ensures follows { (ring : List ℕ) → head_of ring ≡ head
            → MayFollow result ring ↔ IsGood modulus ring }
    {
        RingReading {
            head,
            modulus,
            part: Part::Front,
        }
    }

    /// The reading after one more value.
    pub fn after(self, value: u16) -> RingReading
        requires { 0 < self.modulus }
        ensures modulus { result.modulus ≡ self.modulus }
        ensures follows { (rest : List ℕ) → MayFollow result rest ↔ MayFollow self (value ∷ rest) }
    {
        RingReading {
            part: part_after(self, value),
            ..self
        }
    }

    /// Whether the ring is good if no more values come.
    pub fn is_good(self) -> bool
        ensures { IsTrue result ↔ MayFollow self [] }
    {
        self.part != Part::Broken
    }
}

/// The part that is reached with one more value.
fn part_after(reading: RingReading, value: u16) -> Part
    requires { 0 < reading.modulus }
    ensures { (rest : List ℕ) → MayFollow (record reading { part = result }) rest
        ↔ MayFollow reading (value ∷ rest) }
{
    let is_less = is_one_less(value, reading.head, reading.modulus);
    match reading.part {
        Part::Front if value == reading.head => Part::Front,
        Part::Front | Part::Rest if is_less => Part::Rest,
        _ => Part::Broken,
    }
}

/// Whether a value is one less than the head, modulo the number of values.
fn is_one_less(value: u16, head: u16, modulus: u16) -> bool
    requires { 0 < modulus }
    ensures { IsTrue result ↔ (root_moved value modulus ≡ head) }
{
    (u32::from(value) + 1) % u32::from(modulus) == u32::from(head)
}
