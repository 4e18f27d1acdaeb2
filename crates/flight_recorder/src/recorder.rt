//! The recorder.
ghost use Rattle.std.specs.Prelude.{◌≡◌, ◌≤◌, ◌+◌, IfOk, length};
ghost use Rattle.flight_recorder.specs.Recorder.{at_start, after_note, after_write, fills};
ghost use Rattle.flight_recorder.specs.Recorder.{after_failure, is_due, is_start, is_at_start, other};
ghost use Rattle.flight_recorder.specs.Resume.{IsResumed};

use crate::front::{Front, begins_with, front_of};
use flight_records::{Entry, LastFrames, Noted, StatePart, write_entry};
use std::alloc::{AllocError, Allocator, Global};
use std::marker::Model;

/// The most bytes of entries that a recorder keeps.
pub const ROOM: usize = 32768;

/// The number of bytes from which on the page is due after a quiet turn.
const PAGE: usize = 4096;

/// The number of bytes from which on the page is due after any turn.
const LARGE_PAGE: usize = 8192;

/// The most bytes of an entry.
const LONGEST: usize = 121;

/// The least size of a file.
pub const LEAST_SIZE: u64 = 65536;

/// One of the two files.
#[derive(Clone, Copy)]
pub enum Side {
    /// The one that is written first.
    First,
    /// The other one.
    Second,
}

impl Side {
    /// The other of the two.
    pub fn other(self) -> Side
        ensures { result ≡ other self }
    {
        match self {
            Side::First => Side::Second,
            Side::Second => Side::First,
        }
    }
}

/// Keeps the entries that are not yet written, and where they belong.
#[derive(Drop)]
pub struct Recorder<A: Allocator = Global> {
    page: Vec<u8, A>,
    /// The most bytes of a file.
    size: u64,
    /// How many bytes of the present file are written.
    written: u64,
    /// The instant of the entry that was noted last; 0 at the start of a file.
    last: u64,
    /// The frames that were noted last in the present file.
    frames: LastFrames,
    side: Side,
    /// Whether something has been noted since the recorder began, or since the present file did.
    is_begun: bool,
    is_stopped: bool,
}

impl<A: Allocator> Model for Recorder<A> {
    ghost use Rattle.std.specs.Prelude.{◌+◌, ◌≤◌, vec_len, vec_capacity};
    ghost use Rattle.flight_recorder.specs.View.{RecorderView};

    ghost Value = { RecorderView };

    ghost view = { λ r. record {
      page = r.page.items;
      size = r.size;
      written = r.written;
      last = r.last;
      frames = r.frames;
      side = r.side;
      is_begun = r.is_begun;
      is_stopped = r.is_stopped;
    } };

    ghost invariant = { λ r. (32768 ≤ vec_capacity r.page) × (vec_len r.page ≤ 32768)
        × (r.written + 32768 ≤ r.size) };
}

impl<A: Allocator> Recorder<A> {
    /// A recorder at the start of one of two files, of at most `size` bytes each. All memory is
    /// reserved here; `AllocError` comes only if that is refused.
    pub fn new(alloc: A, size: u64, side: Side) -> Result<Recorder<A>, AllocError>
        requires { 65536 ≤ size }
        ensures { IfOk result (λ r. r ≡ at_start size side) }
    {
        Ok(Recorder {
            page: Vec::with_capacity(alloc, ROOM)?,
            size,
            written: 0,
            last: 0,
            frames: LastFrames::new(),
            side,
            is_begun: false,
            is_stopped: false,
        })
    }

    /// A recorder that goes on after the whole entries at the front of `file`, in place of its other
    /// bytes, if the file begins with the start of a state of this node, of the network with this number,
    /// and has room for one more page; else none. All memory is reserved here; `AllocError` comes only if
    /// that is refused.
    pub fn resumed(
        alloc: A,
        size: u64,
        side: Side,
        file: &[u8],
        network: u32,
        node: u16,
    ) -> Result<Option<Recorder<A>>, AllocError>
        requires { 65536 ≤ size }
        ensures { IfOk result (IsResumed size side network node file.now) }
    {
        if !begins_with(file, network, node) {
            return Ok(None);
        }
        let front = front_of(file);
        if front.count as u64 > size - ROOM as u64 {
            return Ok(None);
        }
        let mut recorder = Recorder::new(alloc, size, side)?;
        recorder.goes_on_after(front);
        Ok(Some(recorder))
    }

    /// Goes on after the front of a file.
    fn goes_on_after(&mut self, front: Front)
        requires { front.count + 32768 ≤ self.old.size }
        ensures { self.new ≡ record self.old { written = front.count; last = front.last } }
    {
        self.written = front.count as u64;
        self.last = front.last;
    }

    /// Notes something at this instant, or at the one noted last if that is later. A frame that is the
    /// last one of its link once more is noted in its short form. At the start only the start of a state
    /// is noted. If the page has no room for one more entry, the record stops; then nothing is noted.
    pub fn note(&mut self, instant: u64, noted: Noted)
        ensures { self.new ≡ after_note instant noted self.old }
    {
        if self.is_stopped || self.is_at_start() && !is_start(&noted) {
            return;
        }
        if self.page.len() + LONGEST > ROOM {
            self.is_stopped = true;
            return;
        }
        let entry = Entry {
            instant: instant.max(self.last),
            noted: self.frames.shorten(&noted),
        };
        write_entry(self.last, &entry, &mut self.page);
        self.last = entry.instant;
        self.is_begun = true;
    }

    /// Whether nothing has been noted since the recorder began, or since the present file did: then the
    /// whole state must be noted.
    pub fn is_at_start(&self) -> bool
        ensures { result ≡ is_at_start self.now }
    {
        !self.is_begun
    }

    /// How many bytes of the present file are written. If there are none, it must be emptied.
    pub fn written(&self) -> u64
        ensures { result ≡ self.now.written }
    {
        self.written
    }

    /// Whether the page must be written now. `is_quiet` says whether nobody needed the node in the turn
    /// that has ended: then it may write, while a busy node had better wait.
    pub fn is_due(&self, is_quiet: bool) -> bool
        ensures { result ≡ is_due is_quiet self.now }
    {
        let least = if is_quiet { PAGE } else { LARGE_PAGE };
        !self.is_stopped && self.page.len() >= least
    }

    /// The page.
    pub fn page(&self) -> &[u8]
        ensures page { result.now ≡ self.now.page }
        // With it, the file is no longer than it may be.
        ensures fits { self.now.written + length result.now ≤ self.now.size }
    {
        self.page.as_slice()
    }

    /// The file to whose end the page belongs.
    pub fn side(&self) -> Side
        ensures { result ≡ self.now.side }
    {
        self.side
    }

    /// Takes note that the whole page was written. Returns whether the file is full with it, so
    /// that the other one begins.
    pub fn wrote(&mut self) -> bool
        ensures full { result ≡ fills self.old }
        ensures after { self.new ≡ after_write self.old }
    {
        let written = self.written + self.page.len() as u64;
        self.page.clear();
        if self.size - written >= ROOM as u64 {
            self.written = written;
            return false;
        }
        self.written = 0;
        self.last = 0;
        self.frames = LastFrames::new();
        self.side = self.side.other();
        self.is_begun = false;
        true
    }

    /// Takes note that the page was not written: the record stops.
    pub fn failed(&mut self)
        ensures { self.new ≡ after_failure self.old }
    {
        self.is_stopped = true;
    }

    /// Whether the record has stopped.
    pub fn is_stopped(&self) -> bool
        ensures { result ≡ self.now.is_stopped }
    {
        self.is_stopped
    }
}

/// Whether this is the start of a state.
fn is_start(noted: &Noted) -> bool
    ensures { result ≡ is_start noted.now }
{
    matches!(noted, Noted::State(StatePart::Start { .. }))
}
