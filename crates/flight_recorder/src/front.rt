//! The whole entries at the front of a file.
ghost use Rattle.std.specs.Prelude.{◌≡◌, IsTrue, ◌↔◌};
ghost use Rattle.flight_records.specs.Reading.{entry_at};
ghost use Rattle.flight_recorder.specs.Resume.{Begins, IsFrontOf, is_start_of};

use flight_records::{EntryReader, Noted, StatePart};

/// Where the whole entries at the front of a file end.
#[derive(Clone, Copy)]
pub struct Front {
    /// How many bytes they take.
    pub count: usize,
    /// The instant of the last of them; 0 if there is none.
    pub last: u64,
}

/// The front of a file, up to its first bytes that are no whole entry.
pub fn front_of(file: &[u8]) -> Front
    ensures { IsFrontOf file.now result }
{
    flight_records::laws::pieces_are_read();
    let mut reader = EntryReader::new();
    let mut front = Front { count: 0, last: 0 };
    let mut rest = file;
    for _ in 0..file.len() {
        let Ok((entry, after)) = reader.next(rest) else {
            return front;
        };
        rest = after;
        front = Front {
            count: file.len() - rest.len(),
            last: entry.instant,
        };
    }
    front
}

/// Whether a file begins with the start of a state of this node, of the network with this number.
pub fn begins_with(file: &[u8], network: u32, node: u16) -> bool
    ensures { IsTrue result ↔ Begins network node (entry_at 0 file.now) }
{
    let mut reader = EntryReader::new();
    match reader.next(file) {
        Ok((entry, _)) => is_start_of(&entry.noted, network, node),
        Err(_) => false,
    }
}

/// Whether this is the start of a state of this node, of the network with this number.
fn is_start_of(noted: &Noted, network: u32, node: u16) -> bool
    ensures { result ≡ is_start_of noted.now network node }
{
    match *noted {
        Noted::State(
            StatePart::Start {
                network: mark,
                node: id,
            },
        ) => mark == network && id == node,
        _ => false,
    }
}
