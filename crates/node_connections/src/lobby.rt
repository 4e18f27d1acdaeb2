//! Connections of neighbours that have not said who they are.
ghost use Rattle.std.specs.Prelude.{◌≡◌, ◌≢◌, ◌<◌, ◌≤◌, ◌==◌, ℕ, None, IfOk, IfSome, IsSomeAnd, length, take};
ghost use Rattle.slab.specs.Slab.{get, slab_len};

use slab::Slab;
use socket_links::{Pipe, ReadAnswer, decode_hello};
use std::alloc::{AllocError, Allocator, Global};
use topology::Net;

/// The most connections that may wait for their hello.
pub const PLACES: usize = 64;

/// A hello must have come within this many turns.
const PATIENCE: u16 = 256;

/// The bytes of a hello, without its newline.
const HELLO: usize = 5;

/// A connection whose hello has not come whole.
#[derive(Drop)]
struct Visitor<P> {
    pipe: P,
    /// The first line so far.
    line: [u8; HELLO],
    count: usize,
    /// The number of turns in which it was listened to.
    turns: u16,
    ghost within: { (count ≤ 5) × (length line ≡ 5) },
}

/// What a visitor did in a turn.
#[derive(Clone, Copy)]
enum Arrival {
    /// Its first line is not yet whole.
    Waits,
    /// Its first line is no hello, or it closed, failed, or was too slow.
    Goes,
    /// It is the node with this id.
    Is(u16),
}

impl<P: Pipe> Visitor<P> {
    ghost use Rattle.node_connections.specs.Arrivals.{IsArrival, Listened};

    fn new(pipe: P) -> Visitor<P>
        ensures { (result.pipe ≡ pipe) × (result.count ≡ 0) × (result.turns ≡ 0) }
    {
        Visitor {
            pipe,
            line: [0; HELLO],
            count: 0,
            turns: 0,
        }
    }

    /// Reads on in the visitor's first line, one byte at a time and not beyond its newline: after
    /// that come frames.
    fn listen(&mut self, net: &Net) -> Arrival
        ensures { Listened P.gave P.took net.now.nodes self.old self.new result }
    {
        for _ in 0..=HELLO {
            let mut byte = [0; 1];
            match self.pipe.try_read(&mut byte) {
                ReadAnswer::Got(_) if byte[0] == b'\n' => return self.arrival(net),
                ReadAnswer::Got(_) if self.count == HELLO => return Arrival::Goes,
                ReadAnswer::Got(_) => {
                    self.line[self.count] = byte[0];
                    self.count += 1;
                }
                ReadAnswer::Later => break,
                ReadAnswer::Closed | ReadAnswer::Failed => return Arrival::Goes,
            }
        }
        self.turns = self.turns.saturating_add(1);
        if self.turns < PATIENCE {
            Arrival::Waits
        } else {
            Arrival::Goes
        }
    }

    /// What its first line says, once that is whole.
    fn arrival(&self, net: &Net) -> Arrival
        ensures { IsArrival net.now.nodes (take self.now.count self.now.line) result }
    {
        match decode_hello(&self.line[..self.count], net) {
            Some(id) => Arrival::Is(id),
            None => Arrival::Goes,
        }
    }
}

/// The connections of neighbours that wait for their hello, at most 64.
#[derive(Drop)]
pub struct Lobby<P, A: Allocator + Copy = Global> {
    visitors: Slab<Visitor<P>, A>,
    ghost room: { 64 ≤ visitors.capacity },
}

impl<P: Pipe, A: Allocator + Copy> Lobby<P, A> {
    ghost use Rattle.node_connections.specs.Arrivals.{HasSaid};

    /// An empty lobby. All its memory is reserved here. `AllocError` comes only if that is refused.
    pub fn new(alloc: A) -> Result<Lobby<P, A>, AllocError>
        ensures { IfOk result (λ lobby. (place : ℕ) → get lobby.visitors place ≡ None) }
    {
        Ok(Lobby {
            visitors: Slab::with_capacity(alloc, PLACES)?,
        })
    }

    /// Whether nobody waits.
    pub fn is_empty(&self) -> bool
        ensures { result ≡ (slab_len self.now.visitors == 0) }
    {
        self.visitors.is_empty()
    }

    /// Takes in a connection that has come. It is closed if 64 wait already, or if the next vacant
    /// place is above 63.
    pub fn admit(&mut self, pipe: P)
        ensures closed { 64 ≤ slab_len self.old.visitors → self.new ≡ self.old }
        ensures others { (place : ℕ) → place ≢ self.old.visitors.vacant_key
            → get self.new.visitors place ≡ get self.old.visitors place }
        ensures admitted { slab_len self.old.visitors < 64 → self.old.visitors.vacant_key < 64
            → IsSomeAnd (get self.new.visitors self.old.visitors.vacant_key)
            (λ visitor. (visitor.pipe ≡ pipe) × (visitor.count ≡ 0) × (visitor.turns ≡ 0)) }
    {
        if self.visitors.len() < PLACES && self.visitors.vacant_key() < PLACES {
            self.visitors.insert_reserved(Visitor::new(pipe));
        }
    }

    /// Listens to the visitor at a place, 0 to 63, if there is one. Returns a node's id and the
    /// connection only if that visitor has said that it is this node. A visitor that is waited for
    /// no longer is closed.
    pub fn listen(&mut self, place: usize, net: &Net) -> Option<(u16, P)>
        // A visitor that has said who it is leaves its place.
        ensures said { IfSome result (λ said.
            HasSaid P.gave P.took net.now.nodes (get self.old.visitors place) said.0 said.1
            × (get self.new.visitors place ≡ None)) }
        ensures others { (other : ℕ) → other ≢ place
            → get self.new.visitors other ≡ get self.old.visitors other }
    {
        match self.visitors.get_mut(place)?.listen(net) {
            Arrival::Waits => None,
            Arrival::Goes => {
                let _gone = self.visitors.try_remove(place);
                None
            }
            Arrival::Is(id) => {
                let visitor = self.visitors.try_remove(place)?;
                Some((id, visitor.pipe))
            }
        }
    }
}
