//! What one node did in a turn, as the ends of its connections saw it.
use std::cell::Cell;

/// The bytes of a frame's line, with its newline.
pub const LINE: usize = 22;

/// The room for the deeds of a turn. Five nodes have far fewer deeds.
const ROOM: usize = 64;

/// A frame's line on a connection.
#[derive(Clone, Copy)]
pub struct Line {
    pub from: u16,
    pub to: u16,
    /// The place of the connection; a later connection has a greater place.
    pub place: usize,
    pub frame: [u8; LINE],
}

impl Line {
    /// Whether both are on the link from one node to another.
    pub fn shares_link(&self, other: &Line) -> bool {
        self.from == other.from && self.to == other.to
    }

    /// Whether it is on the same link, on an earlier connection.
    pub fn is_older(&self, other: &Line) -> bool {
        self.shares_link(other) && self.place < other.place
    }
}

/// A deed of a node, except its ticks, which no connection sees.
#[derive(Clone, Copy)]
pub enum Deed {
    /// The line came whole: its frame is taken.
    Takes(Line),
    /// The link accepted the line.
    Sends(Line),
    /// The client with this ticket asks for the lock.
    Asks(u16),
    /// The client with this ticket releases the lock, waits no longer, or is gone.
    Leaves(u16),
}

/// The deeds of one turn, in order.
#[derive(Drop)]
pub struct Account {
    deeds: Cell<[Option<Deed>; ROOM]>,
    pub count: Cell<usize>,
    /// How many of them come before the tick.
    pub heard: Cell<usize>,
}

impl Account {
    pub fn new() -> Account {
        Account {
            deeds: Cell::new([None; ROOM]),
            count: Cell::new(0),
            heard: Cell::new(0),
        }
    }

    /// Begins a turn: forgets the deeds of the one before.
    pub fn clear(&self) {
        self.count.set(0);
        self.heard.set(0);
    }

    /// Adds a deed. It was done while the node listened, before its tick, if `is_heard`, and else
    /// while it spoke.
    pub fn add(&self, deed: Deed, is_heard: bool) {
        let count = self.count.get();
        let mut deeds = self.deeds.get();
        if count < ROOM {
            deeds[count] = Some(deed);
            self.deeds.set(deeds);
            self.count.set(count + 1);
        }
        if is_heard {
            self.heard.set(self.count.get());
        }
    }

    /// The deed at a place, if there is one.
    pub fn get(&self, place: usize) -> Option<Deed> {
        if place >= self.count.get() {
            return None;
        }
        *self.deeds.get().get(place)?
    }
}
