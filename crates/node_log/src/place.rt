//! Whether a node is in its place.
ghost use Rattle.std.specs.Prelude.{◌≡◌};
ghost use Rattle.node_log.specs.Places.{by_place, place_after};

use crate::event::NodeEvent;

/// A node says so after this many microseconds out of its place. Recovery mostly takes less.
const PATIENCE: u64 = 2_000_000;

/// Whether a node's distance and parent are those of the network, by what was seen so far.
#[derive(Clone, Copy, Drop)]
pub enum PlaceSeen {
    /// They are.
    Right,
    /// They have not been since this time, in microseconds.
    WrongSince(u64),
    /// They have not been for so long that it was said.
    Said,
}

impl PlaceSeen {
    /// Takes note of whether they are right at this time, and returns what to say of it.
    pub fn see(&mut self, is_right: bool, now: u64) -> Option<NodeEvent>
        ensures event { result ≡ by_place is_right now self.old }
        ensures after { self.new ≡ place_after is_right now self.old }
    {
        if is_right {
            let was_said = matches!(*self, PlaceSeen::Said);
            *self = PlaceSeen::Right;
            return if was_said {
                Some(NodeEvent::InPlace)
            } else {
                None
            };
        }
        match *self {
            PlaceSeen::Right => {
                *self = PlaceSeen::WrongSince(now);
                None
            }
            PlaceSeen::WrongSince(since) if now.saturating_sub(since) >= PATIENCE => {
                *self = PlaceSeen::Said;
                Some(NodeEvent::Astray)
            }
            PlaceSeen::WrongSince(_) | PlaceSeen::Said => None,
        }
    }
}
