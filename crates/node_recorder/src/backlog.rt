//! Deeds that are not noted yet.
ghost use Rattle.std.specs.Prelude.{◌≡◌, ◌==◌, IfOk, IsTrue, length};
ghost use Rattle.node_recorder.specs.Backlog.{after_all, first_instant, has_room, is_long, nothing, with_turn};

use flight_recorder::{Deed, Noted, Recorder};
use std::alloc::{AllocError, Allocator, Global};
use std::marker::Model;

/// From this many deeds on, none waits any longer.
const MANY: usize = 512;

/// The most deeds: fewer than [`MANY`], and then those of one more turn.
const ROOM: usize = 1536;

/// Deeds that are not noted yet, each with the instant of its turn.
#[derive(Drop)]
pub struct Backlog<A: Allocator = Global> {
    deeds: Vec<Deed, A>,
    instants: Vec<u64, A>,
}

impl<A: Allocator> Model for Backlog<A> {
    ghost use Rattle.std.specs.Prelude.{◌≡◌, ◌≤◌, vec_capacity, vec_len};
    ghost use Rattle.node_recorder.specs.BacklogView.{BacklogView};

    ghost Value = { BacklogView };

    ghost view = { λ b. record { deeds = b.deeds.items; instants = b.instants.items } };

    ghost invariant = { λ b. (vec_len b.instants ≡ vec_len b.deeds) × (vec_len b.deeds ≤ 1536)
        × (1536 ≤ vec_capacity b.deeds) × (1536 ≤ vec_capacity b.instants) };
}

impl<A: Allocator + Copy> Backlog<A> {
    /// A backlog without deeds. All memory is reserved here; `AllocError` comes only if that is
    /// refused.
    pub fn new(alloc: A) -> Result<Backlog<A>, AllocError>
        ensures { IfOk result (λ b. b ≡ nothing) }
    {
        Ok(Backlog {
            deeds: Vec::with_capacity(alloc, ROOM)?,
            instants: Vec::with_capacity(alloc, ROOM)?,
        })
    }
}

impl<A: Allocator> Backlog<A> {
    /// Whether there is room for this many more deeds.
    pub fn has_room(&self, count: usize) -> bool
        ensures { result ≡ has_room count self.now }
    {
        count <= ROOM - self.deeds.len()
    }

    /// Whether no deed waits.
    pub fn is_empty(&self) -> bool
        ensures { result ≡ (length self.now.deeds == 0) }
    {
        self.deeds.is_empty()
    }

    /// Whether there are so many deeds that none waits any longer.
    pub fn is_long(&self) -> bool
        ensures { result ≡ is_long self.now }
    {
        self.deeds.len() >= MANY
    }

    /// The deeds, in their order.
    pub fn deeds(&self) -> &[Deed]
        ensures { result.now ≡ self.now.deeds }
    {
        self.deeds.as_slice()
    }

    /// The instant of the first deed; `now` if there is none.
    pub fn first_instant(&self, now: u64) -> u64
        ensures { result ≡ first_instant now self.now }
    {
        match self.instants.first() {
            Some(instant) => *instant,
            None => now,
        }
    }

    /// Adds the deeds of one more turn, which then wait too.
    pub fn add(&mut self, deeds: &[Deed], now: u64)
        requires { IsTrue (has_room (length deeds.now) self.old) }
        ensures { self.new ≡ with_turn now deeds.now self.old }
    {
        for deed in deeds {
            self.deeds.push_reserved(*deed);
            self.instants.push_reserved(now);
        }
    }

    /// Notes the deeds, one after the other.
    pub fn note_in<B: Allocator>(&self, pages: &mut Recorder<B>)
        ensures { pages.new ≡ after_all self.now pages.old }
    {
        for i in 0..self.deeds.len() {
            pages.note(self.instants[i], Noted::Deed(self.deeds[i]));
        }
    }

    /// Removes all deeds: none waits any more.
    pub fn clear(&mut self)
        ensures { self.new ≡ nothing }
    {
        self.deeds.clear();
        self.instants.clear();
    }
}
