//! The texts that are read.
ghost use Rattle.std.specs.Prelude.{◌≡◌, ◌*◌, length, IfOk};

use frame_codec::encode;
use rand_core::utils::NextWord;
use rand_pcg::Pcg32;
use std::alloc::{AllocError, Global};
use topology::{Frame, Payload};

/// What a text is made of.
#[derive(Clone, Copy, Debug, PartialEq, Eq)]
pub enum FeedKind {
    /// Good lines.
    Good,
    /// Any bytes.
    Noise,
    /// Bytes with no newline among them.
    Flat,
    /// Only newlines.
    Empty,
    /// Lines of one byte.
    Short,
}

impl FeedKind {
    /// The kind with this name.
    pub fn named(name: &str) -> Option<FeedKind> {
        match name {
            "good" => Some(FeedKind::Good),
            "noise" => Some(FeedKind::Noise),
            "flat" => Some(FeedKind::Flat),
            "empty" => Some(FeedKind::Empty),
            "short" => Some(FeedKind::Short),
            _ => None,
        }
    }
}

/// A text of `lines` times 22 bytes.
pub fn make_text(alloc: Global, kind: FeedKind, lines: u32) -> Result<Vec<u8>, AllocError>
    ensures { IfOk result (λ text. length text.items ≡ 22 * lines) }
{
    let mut text = Vec::new(alloc);
    let mut draws = Pcg32::new(1, 1);
    for _ in 0..lines {
        text.extend_from_slice(&any_bytes(kind, &mut draws))?;
    }
    Ok(text)
}

/// The bytes of one line.
fn any_bytes(kind: FeedKind, draws: &mut Pcg32) -> [u8; 22] {
    match kind {
        FeedKind::Good => encode(&any_frame(draws.next_word())),
        FeedKind::Noise => {
            let mut bytes = [0; 22];
            for byte in &mut bytes {
                *byte = (draws.next_word() >> 24) as u8;
            }
            bytes
        }
        FeedKind::Flat => [b'F'; 22],
        FeedKind::Empty => [b'\n'; 22],
        FeedKind::Short => *b"F\nF\nF\nF\nF\nF\nF\nF\nF\nF\nF\n",
    }
}

/// A frame in range on a line of three nodes with capacity 1.
fn any_frame(draw: u32) -> Frame {
    Frame {
        seq: (draw % 5) as u16,
        ack: (draw / 5 % 5) as u16,
        payload: Payload {
            distance: (draw / 25 % 4) as u16,
            parent: if draw % 2 == 0 { None } else { Some(1) },
            ring: (draw / 100 % 13) as u16,
        },
    }
}
