//! The clients that are connected to a node.
ghost use Rattle.std.specs.Prelude.{◌≡◌, ◌≢◌, ◌<◌, ◌≤◌, ◌&&◌, ◌==◌, ◌++◌, ◌∷◌, ℕ, not, true, false};
ghost use Rattle.std.specs.Option.{option_to_list};
ghost use Rattle.std.specs.Prelude.{IsTrue, None, []};
ghost use Rattle.std.specs.Prelude.{IfOk, IfSome, OnSome, IsSome, length, slice_index_or};
ghost use Rattle.circular_buffer.specs.Buffer.{buffer};
ghost use Rattle.slab.specs.Slab.{get, slab_len};

use circular_buffer::HeapCircularBuffer;
use lock_desk::{ClientLine, ClientReader};
use slab::Slab;
use socket_links::{Pipe, ReadAnswer, WriteAnswer};
use std::alloc::{AllocError, Allocator, Global};

/// The most clients that may be connected.
pub const PLACES: usize = 128;

/// The most bytes of answers that may wait for one client.
const ROOM: usize = 256;

/// The most bytes of one client that are read in a turn.
pub const PIECE: usize = 64;

/// One client.
#[derive(Drop)]
pub struct Client<P> {
    pipe: P,
    reader: ClientReader,
}

/// The clients, at most 128, each under its ticket, and the answers that wait for them.
#[derive(Drop)]
pub struct Clients<P, A: Allocator + Copy = Global> {
    /// The clients that are connected, by ticket, 0 to 127.
    pub table: Slab<Client<P>, A>,
    /// The bytes of answers that wait, by ticket, at most 256 for each client.
    pub answers: Vec<HeapCircularBuffer<u8, A>, A>,
    ghost room: { 128 ≤ table.capacity },
    ghost answers_are: { length answers.items ≡ 128 },
    ghost rooms: { (t : ℕ) → t < 128
        → (slice_index_or answers.items t (buffer [] 0)).capacity ≡ 256 },
    ghost tickets: { (t : ℕ) → 128 ≤ t → get table t ≡ None },
}

impl<P: Pipe, A: Allocator + Copy> Clients<P, A> {
    ghost use Rattle.node_connections.specs.Clients.{answers_of, is_connected, room_of};
    ghost use Rattle.node_connections.specs.Clients.{SameClients, GivesWithin};
    ghost use Rattle.node_connections.specs.Heard.{HasNewReader, HeardAt, NothingHeard, SameReader};
    ghost use Rattle.node_connections.specs.Lives.{FailsAt, GoesOutAt, LivesAt, LiveOn, OthersStay, ReadsAt};
    ghost use Rattle.node_connections.specs.Said.{NothingSaid};

    /// A table without clients. All memory for them is reserved here. `AllocError` comes only if
    /// that is refused.
    pub fn new(alloc: A) -> Result<Clients<P, A>, AllocError>
        ensures { IfOk result (λ clients. (t : ℕ) → is_connected clients t ≡ false) }
    {
        let table = Slab::with_capacity(alloc, PLACES)?;
        let mut answers = Vec::with_capacity(alloc, PLACES)?;
        for _ in 0..PLACES {
            answers.push_reserved(HeapCircularBuffer::with_capacity(alloc, ROOM)?);
        }
        Ok(Clients { table, answers })
    }

    /// Whether no client is connected.
    pub fn is_empty(&self) -> bool
        ensures { result ≡ (slab_len self.now.table == 0) }
    {
        self.table.is_empty()
    }

    /// Whether a client with this ticket is connected.
    pub fn contains(&self, ticket: u16) -> bool
        ensures { result ≡ is_connected self.now ticket }
    {
        self.table.contains(ticket as usize)
    }

    /// Takes in a client that has come. Its ticket is the next vacant key of the table, which no
    /// connected client has. If 128 are connected, or that key is above 127, it is closed instead.
    pub fn admit(&mut self, pipe: P)
        ensures closed { 128 ≤ slab_len self.old.table → self.new ≡ self.old }
        ensures past { 128 ≤ self.old.table.vacant_key → self.new ≡ self.old }
        ensures was_free { is_connected self.old self.old.table.vacant_key ≡ false }
        ensures others { (t : ℕ) → t ≢ self.old.table.vacant_key
            → (get self.new.table t ≡ get self.old.table t)
            × (answers_of self.new t ≡ answers_of self.old t) }
        ensures admitted { slab_len self.old.table < 128 → self.old.table.vacant_key < 128
            → IfSome (get self.new.table self.old.table.vacant_key) (λ client. client.pipe ≡ pipe)
            × (is_connected self.new self.old.table.vacant_key ≡ true) }
        // Its reader has taken nothing.
        ensures reader { is_connected self.new self.old.table.vacant_key ≡ true
            → HasNewReader (get self.new.table self.old.table.vacant_key) }
        // No answer to an earlier client with that ticket waits for it.
        ensures silent { is_connected self.new self.old.table.vacant_key ≡ true
            → answers_of self.new self.old.table.vacant_key ≡ [] }
    {
        let key = self.table.vacant_key();
        if self.table.len() >= PLACES || key >= PLACES {
            return;
        }
        self.answers[key].clear();
        self.table.insert_reserved(Client {
            pipe,
            reader: ClientReader::new(),
        });
    }

    /// Closes the connection of a client, if it is there. What waits for it stays, and is dropped
    /// once a new client gets that ticket.
    pub fn close(&mut self, ticket: u16)
        ensures closed { (t : ℕ) → is_connected self.new t
            ≡ (is_connected self.old t && not (t == ticket)) }
        ensures others { OthersStay ticket self.old self.new }
        ensures answers { self.new.answers ≡ self.old.answers }
    {
        let _client = self.table.try_remove(ticket as usize);
    }

    /// Reads a client once, and returns what came; `Closed` if there is no such client.
    pub fn read(&mut self, ticket: u16, bytes: &mut [u8; PIECE]) -> ReadAnswer
        ensures same { SameClients self.old self.new }
        ensures within { GivesWithin result 64 }
        // What came is what its pipe gave, and no other client was read.
        ensures reads { ReadsAt P.gave P.took P.counts result bytes.new
            (get self.old.table ticket) (get self.new.table ticket) }
        ensures reader { SameReader (get self.old.table ticket) (get self.new.table ticket) }
        ensures others { OthersStay ticket self.old self.new }
        ensures answers { self.new.answers ≡ self.old.answers }
    {
        match self.table.get_mut(ticket as usize) {
            Some(client) => client.pipe.try_read(bytes),
            None => ReadAnswer::Closed,
        }
    }

    /// Takes the next byte of a client, and returns the line that it ends, if it ends one.
    pub fn push(&mut self, ticket: u16, byte: u8) -> Option<ClientLine>
        ensures same { SameClients self.old self.new }
        ensures lives { LiveOn P.gave P.took P.counts self.old self.new }
        ensures nothing { NothingSaid P.took self.old self.new }
        // Its reader took the byte, and read the line that it ends, if it ends one. No other client
        // changed.
        ensures heard { HeardAt P.gave [] (byte ∷ []) (option_to_list result)
            (get self.old.table ticket) (get self.new.table ticket) }
        ensures others { OthersStay ticket self.old self.new }
        ensures answers { self.new.answers ≡ self.old.answers }
        // Only a connected client has lines.
        ensures there { OnSome result (is_connected self.old ticket ≡ true) }
    {
        self.table.get_mut(ticket as usize)?.reader.push(byte)
    }

    /// Adds an answer after those that wait for a client. Returns false only if there is no room
    /// for the whole of it, or the ticket is above 127; then nothing changes.
    pub fn say(&mut self, ticket: u16, text: &[u8]) -> bool
        ensures same { SameClients self.old self.new }
        ensures table { self.new.table ≡ self.old.table }
        ensures said { IsTrue result → answers_of self.new ticket
            ≡ answers_of self.old ticket ++ text.now }
        ensures others { (t : ℕ) → t ≢ ticket → answers_of self.new t ≡ answers_of self.old t }
        ensures unsaid { result ≡ false → self.new ≡ self.old }
        ensures no_room { result ≡ false → ticket < 128
            → room_of self.old ticket < length text.now }
    {
        let key = ticket as usize;
        if key >= PLACES {
            return false;
        }
        let answers = &self.answers[key];
        if answers.capacity() - answers.len() < text.len() {
            return false;
        }
        let _all = self.answers[key].fill_from_slice(text);
        true
    }

    /// Writes once to a client, if answers wait for it. Returns false if that fails.
    pub fn write(&mut self, ticket: u16) -> bool
        ensures same { SameClients self.old self.new }
        // Unless that fails, its pipe lives on; and no other client was written to.
        ensures lives { IsTrue result → LivesAt P.gave P.took P.counts
            (get self.old.table ticket) (get self.new.table ticket) }
        ensures failed { result ≡ false
            → FailsAt P.gave P.took P.counts (get self.old.table ticket) (get self.new.table ticket) }
        ensures others_stay { OthersStay ticket self.old self.new }
        ensures others { (t : ℕ) → t ≢ ticket → answers_of self.new t ≡ answers_of self.old t }
        ensures heard { NothingHeard P.gave self.old self.new }
        // What the pipe took is the front of what waited, and the rest of that waits.
        ensures nothing { IsTrue result → NothingSaid P.took self.old self.new }
        // If something waited, the pipe took some of it or said that it takes none now.
        ensures out { IsTrue result → GoesOutAt P.counts
            (get self.old.table ticket) (answers_of self.old ticket)
            (get self.new.table ticket) (answers_of self.new ticket) }
    {
        let key = ticket as usize;
        if key >= PLACES || !self.table.contains(key) {
            return true;
        }
        let count = self.answers[key].len();
        if count == 0 {
            return true;
        }
        let mut bytes = [0; ROOM];
        let _all = self.answers[key].read_into(&mut bytes);
        let Some(client) = self.table.get_mut(key) else {
            return true;
        };
        let written = match client.pipe.try_write(&bytes[..count]) {
            WriteAnswer::Wrote(written) => written,
            WriteAnswer::Later => 0,
            WriteAnswer::Failed => return false,
        };
        let _rest = self.answers[key].fill_from_slice(&bytes[written..count]);
        true
    }
}
