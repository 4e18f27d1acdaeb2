//! The tickets that wait at a node, as they are noted one by one.
ghost use Rattle.std.specs.Prelude.{◌≡◌, []};
ghost use Rattle.record_gathering.specs.Queues.{with_ticket, queue_after_part, queue_after};

use arrayvec::ArrayVec;
use flight_records::{Noted, StatePart};
use std::marker::Model;

/// The most tickets that wait at a node.
const MOST_WAITING: usize = 64;

/// The tickets that wait at a node, as noted since the start of its state.
#[derive(Drop)]
pub struct Queue {
    tickets: ArrayVec<u16, MOST_WAITING>,
}

impl Model for Queue {
    ghost use Rattle.std.specs.Prelude.{ℕ, List};

    ghost Value = { List ℕ };

    ghost view = { λ q. q.tickets.items };
}

impl Queue {
    /// An empty queue.
    pub fn new() -> Queue
        ensures { result ≡ [] }
    {
        Queue {
            tickets: ArrayVec::new(),
        }
    }

    /// The tickets, in their order.
    pub fn tickets(&self) -> &[u16]
        ensures { result.now ≡ self.now }
    {
        self.tickets.as_slice()
    }

    /// Brings the queue up to date after an entry.
    pub fn notes(&mut self, noted: &Noted)
        ensures { self.new ≡ queue_after self.old noted.now }
    {
        match *noted {
            Noted::State(StatePart::Start { .. }) => self.tickets.clear(),
            Noted::State(StatePart::Waits { ticket }) => {
                // A desk has at most 64 tickets; any further one is ignored.
                let _answer = self.tickets.try_push(ticket);
            }
            _ => {}
        }
    }
}
