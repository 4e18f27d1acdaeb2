//! Connections in memory that two ends share.
ghost use Rattle.std.specs.Prelude.{◌≡◌, ◌≤◌, length};

use std::alloc::{AllocError, Global};
use std::cell::Cell;

/// The most bytes that a wire can hold.
pub const ROOM: usize = 512;

/// One direction of a connection, and its bytes, the oldest first.
#[derive(Drop)]
pub struct Wire {
    bytes: Cell<[u8; ROOM]>,
    count: Cell<usize>,
    pub is_closed: Cell<bool>,
    /// Whether every write to it fails.
    pub is_cut: Cell<bool>,
}

impl Wire {
    pub fn new() -> Wire {
        Wire {
            bytes: Cell::new([0; ROOM]),
            count: Cell::new(0),
            is_closed: Cell::new(false),
            is_cut: Cell::new(false),
        }
    }

    /// Takes all bytes off, opens it, and mends it.
    pub fn clear(&self) {
        self.count.set(0);
        self.is_closed.set(false);
        self.is_cut.set(false);
    }

    /// Whether it is open, and has no bytes.
    pub fn is_idle(&self) -> bool {
        self.count.get() == 0 && !self.is_closed.get()
    }

    /// Puts as many of these bytes on it as fit, if it holds `room` bytes in all. Returns how many.
    pub fn write(&self, bytes: &[u8], room: usize) -> usize
        ensures { result ≤ length bytes.now }
    {
        let room = room.min(ROOM);
        let there = self.count.get().min(room);
        let count = bytes.len().min(room - there);
        let mut held = self.bytes.get();
        held[there..there + count].copy_from_slice(&bytes[..count]);
        self.bytes.set(held);
        self.count.set(there + count);
        count
    }

    /// Takes the oldest bytes off it, at most one line if `is_line`.
    pub fn read(&self, buffer: &mut [u8], is_line: bool) -> usize
        ensures count { result ≤ length buffer.new }
        ensures length { length buffer.new ≡ length buffer.old }
    {
        let bytes = self.bytes.get();
        let there = self.count.get().min(ROOM);
        let held = &bytes[..there];
        let line = held.iter().position(|byte| is_line && *byte == b'\n');
        let end = line.map_or(there, |place| place.saturating_add(1));
        let count = buffer.len().min(end).min(there);
        buffer[..count].copy_from_slice(&held[..count]);
        self.count.set(0);
        self.write(&held[count..], ROOM);
        count
    }

    /// Puts these bytes before all others.
    pub fn put_back(&self, bytes: &[u8]) {
        let mut rest = [0; ROOM];
        let count = self.read(&mut rest, false);
        self.write(bytes, ROOM);
        self.write(&rest[..count], ROOM);
    }

    /// Takes all bytes off it, and returns whether they are these.
    pub fn gives(&self, text: &[u8]) -> bool {
        let mut bytes = [0; ROOM];
        let count = self.read(&mut bytes, false);
        &bytes[..count] == text
    }
}

/// A connection: `up` to the node that it comes to, `down` to the newcomer.
#[derive(Drop)]
pub struct Pair {
    pub up: Wire,
    pub down: Wire,
    /// The newcomer, if it is a node.
    pub newcomer: Cell<u16>,
    /// How many calls it lasts; then it is broken, at both ends.
    pub lasts: Cell<u64>,
}

impl Pair {
    fn new() -> Pair {
        Pair {
            up: Wire::new(),
            down: Wire::new(),
            newcomer: Cell::new(0),
            lasts: Cell::new(u64::MAX),
        }
    }

    /// Counts a call, and says whether it fails.
    pub fn fails(&self) -> bool {
        let lasts = self.lasts.get();
        self.lasts.set(lasts.saturating_sub(1));
        lasts == 0
    }
}

/// The connections that come to a node, in their order.
#[derive(Drop)]
pub struct Queue {
    pub pairs: Vec<Pair>,
    /// How many have come.
    pub come: Cell<usize>,
    /// How many were let in.
    pub given: Cell<usize>,
}

impl Queue {
    pub fn new(alloc: Global, count: usize) -> Result<Queue, AllocError> {
        let mut pairs = Vec::with_capacity(alloc, count)?;
        for _ in 0..count {
            pairs.push(Pair::new())?;
        }
        Ok(Queue {
            pairs,
            come: Cell::new(0),
            given: Cell::new(0),
        })
    }

    /// The next connection comes.
    pub fn knock(&self) -> Option<&Pair> {
        let place = self.come.get();
        let pair = self.pairs.get(place)?;
        self.come.set(place.saturating_add(1));
        Some(pair)
    }

    /// The next connection comes, and its newcomer writes this. None comes if all have come.
    pub fn greet(&self, bytes: &[u8]) -> Option<&Pair> {
        let pair = self.knock()?;
        pair.up.write(bytes, ROOM);
        Some(pair)
    }

    /// Lets in the next connection that has come.
    pub fn next(&self) -> Option<&Pair> {
        let place = self.given.get();
        if place >= self.come.get() {
            return None;
        }
        self.given.set(place.saturating_add(1));
        self.pairs.get(place)
    }
}
