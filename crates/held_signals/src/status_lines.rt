//! What the system says about the signals of a process, in the lines of `/proc/self/status`.
ghost use Rattle.std.specs.Prelude.{◌≡◌, ◌≤◌, ◌++◌, ◌∷◌, [], List, ℕ, length};
ghost use Rattle.std.specs.Option.{option_to_list};
ghost use Rattle.byte_lines.specs.Kept.{StandsAfter, Kept};
ghost use Rattle.held_signals.specs.StatusLines.{status_entry, status_entries, entry_of, pending_of};
ghost use Rattle.held_signals.specs.StatusLines.{shared_of, ignored_of, noted, signal_state, heeded};

use crate::Signals;
use byte_lines::{HalfLine, LineReading};
use std::marker::Model;

/// What a line says.
#[derive(Clone, Copy)]
pub enum StatusEntry {
    /// `SigPnd` or `ShdPnd`: these signals came, and are held back.
    Pending(Signals),
    /// `SigBlk`: these signals are held back when they come.
    Blocked(Signals),
    /// `SigIgn`: these signals mean nothing to the process.
    Ignored(Signals),
    /// Any other line.
    Other,
}

/// The state of a process's signals.
#[derive(Clone, Copy)]
pub struct SignalState {
    /// Those that came, and are held back.
    pub pending: Signals,
    /// Those that are held back when they come.
    pub blocked: Signals,
    /// Those that mean nothing to it, such as SIGHUP under `nohup`.
    pub ignored: Signals,
}

impl SignalState {
    /// What is known before any line was read: nothing came, and nothing is held back.
    pub fn unknown() -> SignalState
        ensures { result ≡ signal_state [] }
    {
        SignalState {
            pending: Signals::none(),
            blocked: Signals::none(),
            ignored: Signals::none(),
        }
    }

    /// What is known after one more line.
    pub fn noted(self, entry: StatusEntry) -> SignalState
        ensures { result ≡ noted self entry }
    {
        match entry {
            StatusEntry::Pending(signals) => SignalState {
                pending: self.pending.with(signals),
                ..self
            },
            StatusEntry::Blocked(signals) => SignalState {
                blocked: self.blocked.with(signals),
                ..self
            },
            StatusEntry::Ignored(signals) => SignalState {
                ignored: self.ignored.with(signals),
                ..self
            },
            StatusEntry::Other => self,
        }
    }

    /// The signals that came, are held back, and mean something to the process. The system keeps a
    /// signal that is held back even if it is ignored.
    pub fn heeded(self) -> Signals
        ensures { result ≡ heeded self }
    {
        self.pending.without(self.ignored)
    }
}

/// Reads the lines of `/proc/self/status`, in whatever pieces their bytes come.
#[derive(Drop)]
pub struct StatusReader {
    half: HalfLine<32>,
}

impl Model for StatusReader {
    ghost Value = { Kept };

    ghost view = { λ r. r.half };
}

impl StatusReader {
    /// A reader to which no byte has come.
    pub fn new() -> StatusReader
        ensures { StandsAfter 32 [] result }
    {
        StatusReader {
            half: HalfLine::new(),
        }
    }

    /// Takes the next byte. If it is a newline, returns what the line that it ends says.
    pub fn push(&mut self, byte: u8) -> Option<StatusEntry>
        ensures stands { (bytes : List ℕ) → StandsAfter 32 bytes self.old
            → StandsAfter 32 (bytes ++ byte ∷ []) self.new }
        ensures line { (bytes : List ℕ) → StandsAfter 32 bytes self.old
            → status_entries (bytes ++ byte ∷ []) ≡ status_entries bytes ++ option_to_list result }
    {
        self.half.push(byte, &Entries)
    }
}

/// The state of a process's signals, by all these lines of the system.
pub fn state_said(lines: &[u8]) -> SignalState
    ensures { result ≡ signal_state (status_entries lines.now) }
{
    let mut state = SignalState::unknown();
    let mut reader = StatusReader::new();
    for byte in lines {
        if let Some(entry) = reader.push(*byte) {
            state = state.noted(entry);
        }
    }
    state
}

/// What a line says. No line of interest has more than 32 bytes.
struct Entries;

impl LineReading<32> for Entries {
    type Read = StatusEntry;

    ghost reading = { λ _. status_entry };

    fn read(&self, line: &[u8]) -> StatusEntry {
        entry_of(line)
    }

    fn read_long(&self, _: &[u8]) -> StatusEntry {
        StatusEntry::Other
    }
}

/// What a line of at most 32 bytes says.
fn entry_of(line: &[u8]) -> StatusEntry
    ensures { result ≡ entry_of line.now }
{
    match line.strip_prefix(b"SigBlk:\t") {
        Some(digits) => StatusEntry::Blocked(Signals::of_mask(digits)),
        None => pending_of(line),
    }
}

/// What a line other than `SigBlk` says.
fn pending_of(line: &[u8]) -> StatusEntry
    ensures { result ≡ pending_of line.now }
{
    match line.strip_prefix(b"SigPnd:\t") {
        Some(digits) => StatusEntry::Pending(Signals::of_mask(digits)),
        None => shared_of(line),
    }
}

/// What a line other than `SigBlk` and `SigPnd` says.
fn shared_of(line: &[u8]) -> StatusEntry
    ensures { result ≡ shared_of line.now }
{
    match line.strip_prefix(b"ShdPnd:\t") {
        Some(digits) => StatusEntry::Pending(Signals::of_mask(digits)),
        None => ignored_of(line),
    }
}

/// What a line other than `SigBlk`, `SigPnd` and `ShdPnd` says.
fn ignored_of(line: &[u8]) -> StatusEntry
    ensures { result ≡ ignored_of line.now }
{
    match line.strip_prefix(b"SigIgn:\t") {
        Some(digits) => StatusEntry::Ignored(Signals::of_mask(digits)),
        None => StatusEntry::Other,
    }
}
