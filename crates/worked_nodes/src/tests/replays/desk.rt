//! The tickets of a node's clients.
use std::cell::Cell;

/// The most clients that are connected to a node.
pub const CLIENTS: usize = 3;

/// The tickets that no client of a node has; the last one is given next. A node gives freed tickets
/// first, the latest before the others, and then the lowest that it never gave.
#[derive(Drop)]
pub struct Desk {
    tickets: Cell<[u16; CLIENTS]>,
    count: Cell<usize>,
    /// Whether a client is at the door.
    pub has_comer: Cell<bool>,
}

impl Desk {
    pub fn new() -> Desk {
        Desk {
            tickets: Cell::new([2, 1, 0]),
            count: Cell::new(CLIENTS),
            has_comer: Cell::new(false),
        }
    }

    /// Lets in the client at the door, if there is one and a ticket is free. Returns its ticket.
    pub fn admit(&self) -> Option<u16> {
        let count = self.count.get().checked_sub(1)?;
        let ticket = *self.tickets.get().get(count)?;
        if !self.has_comer.get() {
            return None;
        }
        self.has_comer.set(false);
        self.count.set(count);
        Some(ticket)
    }

    /// Frees the ticket of a client whose connection was dropped.
    pub fn free(&self, ticket: u16) {
        let count = self.count.get();
        let mut tickets = self.tickets.get();
        if count < CLIENTS {
            tickets[count] = ticket;
            self.tickets.set(tickets);
            self.count.set(count + 1);
        }
    }
}
