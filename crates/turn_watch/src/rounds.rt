//! How often the token came round at a node.
ghost use Rattle.std.specs.Prelude.{◌≡◌};
ghost use Rattle.turn_watch.specs.Rounds.{no_rounds, has_moved, machine_seen};

/// What is seen of one of a node's machines after a turn.
#[derive(Clone, Copy)]
pub struct MachineSight {
    /// The neighbour from which the machine comes in.
    pub port: u16,
    /// Its value.
    pub value: u16,
}

/// How often the token came round at a node: as often as one of its machines moved. A turn moves each
/// machine once at most, and no move leaves a value as it was.
#[derive(Clone, Copy)]
pub struct RoundCount {
    /// The moves so far; the count stays at 2^64 - 1.
    pub count: u64,
    /// The machine as it was seen last; none if the node has no neighbour.
    pub last: Option<MachineSight>,
}

impl RoundCount {
    /// No machine was seen yet.
    pub fn begin() -> RoundCount
        ensures { result ≡ no_rounds }
    {
        RoundCount {
            count: 0,
            last: None,
        }
    }

    /// Takes note of the machine after a turn. If a different machine was seen before, nothing is
    /// counted.
    pub fn note(&mut self, sight: Option<MachineSight>)
        ensures { self.new ≡ machine_seen sight self.old }
    {
        if has_moved(self.last, sight) {
            self.count = self.count.saturating_add(1);
        }
        self.last = sight;
    }
}

/// Whether both are of the same machine, with different values.
fn has_moved(before: Option<MachineSight>, after: Option<MachineSight>) -> bool
    ensures { result ≡ has_moved before after }
{
    match (before, after) {
        (Some(before), Some(after)) => before.port == after.port && before.value != after.value,
        _ => false,
    }
}
