//! What is seen of one node.
ghost use Rattle.std.specs.Prelude.{◌≡◌, IsTrue};

/// A place in the tree.
#[derive(Clone, Copy)]
pub struct Place {
    /// The distance from the root.
    pub distance: u16,
    /// The parent; `None` for the root.
    pub parent: Option<u16>,
}

impl Place {
    /// Stands for the place of a node that does not exist.
    pub const NOWHERE: Place = Place {
        distance: 0,
        parent: None,
    };

    /// Whether both are the same.
    pub fn is(self, other: Place) -> bool
        ensures { IsTrue result → self ≡ other }
    {
        self.distance == other.distance && is_same(self.parent, other.parent)
    }
}

/// Whether both are none, or both are the same number.
fn is_same(number: Option<u16>, other: Option<u16>) -> bool
    ensures { IsTrue result → number ≡ other }
{
    match (number, other) {
        (None, None) => true,
        (Some(x), Some(y)) => x == y,
        _ => false,
    }
}

/// What is seen of a node at a moment.
#[derive(Clone, Copy)]
pub struct Look {
    /// The place that it takes to be its own.
    pub own: Place,
    /// Whether that is its true place.
    pub settled: bool,
    /// Whether it is privileged.
    pub privileged: bool,
    /// The ticket to which its desk lends the lock.
    pub lent: Option<u16>,
}

impl Look {
    /// Stands for the look of a node that does not exist.
    pub const NOTHING: Look = Look {
        own: Place::NOWHERE,
        settled: true,
        privileged: false,
        lent: None,
    };

    /// Whether both are the same.
    pub fn is(self, other: Look) -> bool
        ensures { IsTrue result → self ≡ other }
    {
        self.own.is(other.own)
            && self.settled == other.settled
            && self.privileged == other.privileged
            && is_same(self.lent, other.lent)
    }
}
