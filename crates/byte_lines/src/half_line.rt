//! The line under way.
ghost use Rattle.std.specs.Prelude.{◌≡◌, ◌↔◌, ◌<◌, ◌≤◌, ◌++◌, ℕ, List, [], ◌∷◌, length, take};
ghost use Rattle.std.specs.Prelude.{IfNone, OnSome, IsTrue};
ghost use Rattle.std.specs.Option.{option_to_list};
ghost use Rattle.byte_lines.specs.Kept.{kept, kept_more, Reads, ReadsOn};

use crate::{LineReading, split_line};
use std::marker::Model;

/// Reads the lines of a text, in whatever pieces it comes. It keeps the line under way, up to `N`
/// bytes of it, and takes no memory.
#[derive(Drop)]
pub struct HalfLine<const N: usize> {
    bytes: [u8; N],
    /// How many bytes are kept.
    length: usize,
    /// Whether the line under way has more.
    is_long: bool,
}

impl<const N: usize> Model for HalfLine<N> {
    ghost use Rattle.std.specs.Prelude.{◌≡◌, ◌≤◌, true, take};
    ghost use Rattle.byte_lines.specs.Kept.{Kept};

    ghost Value = { Kept };

    ghost view = { λ h. record { first = take h.length h.bytes; is_long = h.is_long } };

    ghost invariant = { λ h. (h.length ≤ N) × (h.is_long ≡ true → h.length ≡ N) };
}

/// What was taken of a piece.
pub struct Taken<T> {
    /// How many bytes were taken.
    pub used: usize,
    /// What the line that ended with them is read as; none if the whole piece was taken and no line
    /// ended.
    pub line: Option<T>,
}

impl<const N: usize> HalfLine<N> {
    /// A reader to which no byte has come.
    pub fn new() -> HalfLine<N>
        ensures { result ≡ kept N [] }
    {
        HalfLine {
            bytes: [0; N],
            length: 0,
            is_long: false,
        }
    }

    /// Takes a piece of the text up to the end of the first line that ends in it, or all of it
    /// if none does.
    pub fn take<R: LineReading<N>>(&mut self, piece: &[u8], reading: &R) -> Taken<R::Read>
        ensures used { result.used ≤ length piece.now }
        ensures all { IfNone result.line (result.used ≡ length piece.now) }
        // If a line ends, at least its newline is taken.
        ensures some { OnSome result.line (0 < result.used) }
        // It keeps the half line that is then at the end, and has read the line that ended.
        ensures reads { Reads N (R.reading reading.now) self.old self.new
            (take result.used piece.now)
            (option_to_list result.line) }
        // The same, for the whole text from its first byte on.
        ensures so_far { ReadsOn N (R.reading reading.now) self.old self.new
            (take result.used piece.now)
            (option_to_list result.line) }
    {
        let Some((line, _)) = split_line(piece) else {
            self.keep(piece);
            return Taken {
                used: piece.len(),
                line: None,
            };
        };
        Taken {
            used: line.len() + 1,
            line: Some(self.end_line(line, reading)),
        }
    }

    /// Takes one byte. If it is a newline, returns what the line that it ends is read as.
    pub fn push<R: LineReading<N>>(&mut self, byte: u8, reading: &R) -> Option<R::Read>
        ensures reads { Reads N (R.reading reading.now) self.old self.new (byte ∷ [])
            (option_to_list result) }
        ensures so_far { ReadsOn N (R.reading reading.now) self.old self.new (byte ∷ [])
            (option_to_list result) }
    {
        if byte == b'\n' {
            return Some(self.end_line(&[], reading));
        }
        self.keep(&[byte]);
        None
    }

    /// What the line under way is read as, if the text ends here.
    pub fn read<R: LineReading<N>>(&self, reading: &R) -> R::Read
        ensures { (half : List ℕ) → self.now ≡ kept N half → result ≡ R.reading reading.now half }
    {
        if self.is_long {
            reading.read_long(&self.bytes[..self.length])
        } else {
            reading.read(&self.bytes[..self.length])
        }
    }

    /// How many bytes of the line under way are kept, at most `N`.
    pub fn len(&self) -> usize
        ensures len { result ≡ length self.now.first }
        ensures within { result ≤ N }
        // What it keeps is what is kept of some line.
        ensures some { (half : List ℕ) × (self.now ≡ kept N half) }
    {
        self.length
    }

    /// Whether no byte of the line under way has come.
    pub fn is_empty(&self) -> bool
        ensures kept { IsTrue result ↔ (self.now ≡ kept N []) }
        ensures half { (half : List ℕ) → self.now ≡ kept N half → IsTrue result ↔ (half ≡ []) }
    {
        self.length == 0 && !self.is_long
    }

    /// Forgets the line under way: what comes next is read as from the start.
    pub fn clear(&mut self)
        ensures { self.new ≡ kept N [] }
    {
        self.length = 0;
        self.is_long = false;
    }

    /// What the line under way is read as, if these bytes end it. The next one begins.
    fn end_line<R: LineReading<N>>(&mut self, rest: &[u8], reading: &R) -> R::Read
        ensures line { (half : List ℕ) → self.old ≡ kept N half
            → result ≡ R.reading reading.now (half ++ rest.now) }
        ensures half { self.new ≡ kept N [] }
    {
        if rest.len() <= N && self.is_empty() {
            return reading.read(rest);
        }
        self.keep(rest);
        let line = self.read(reading);
        self.clear();
        line
    }

    /// Keeps bytes of the line under way, as far as there is room.
    fn keep(&mut self, bytes: &[u8])
        ensures { self.new ≡ kept_more N self.old bytes.now }
    {
        let count = (N - self.length).min(bytes.len());
        let end = self.length + count;
        let kept = &mut self.bytes[..];
        kept[self.length..end].copy_from_slice(&bytes[..count]);
        self.length = end;
        if count < bytes.len() {
            self.is_long = true;
        }
    }
}
