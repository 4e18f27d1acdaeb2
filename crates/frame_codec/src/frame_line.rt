//! The line of one frame.
ghost use Rattle.std.specs.Prelude.{◌≡◌, ◌≢◌, [], ◌∷◌, ◌++◌, IsTrue, IfSome, IfNone, Some};
ghost use Rattle.topology.specs.Ranges.{ranges_of, frame_fits};
ghost use Rattle.topology.specs.declared.frame.Frame.{Frame};
ghost use Rattle.byte_lines.specs.Lines.{newline};
ghost use Rattle.frame_codec.specs.Spelling.{spelling};
ghost use Rattle.frame_codec.specs.Reading.{candidate, frame_of, parent_of};

use crate::digits::{digits, number_at};
use topology::{Frame, Net, Payload, Ranges};

/// What stands for no parent.
const NO_PARENT: u16 = 0xffff;

/// The line of a frame, with its newline.
#[tactic(auto, unfolding(crate::specs::Spelling::spelling))]
pub fn encode(frame: &Frame) -> [u8; 22]
    ensures { result ≡ spelling frame.now ++ newline ∷ [] }
{
    let parent = frame.payload.parent.unwrap_or(NO_PARENT);
    let mut line = [b'\n'; 22];
    line[0] = b'F';
    line[1..5].copy_from_slice(&digits(frame.seq));
    line[5..9].copy_from_slice(&digits(frame.ack));
    line[9..13].copy_from_slice(&digits(frame.payload.distance));
    line[13..17].copy_from_slice(&digits(parent));
    line[17..21].copy_from_slice(&digits(frame.payload.ring));
    line
}

/// The frame of a line without its newline: a frame exactly if the line is the frame's spelling
/// and the frame is in range on the network.
pub fn decode(line: &[u8], net: &Net) -> Option<Frame>
    // A frame only if the line spells it and it is in range.
    ensures found { IfSome result (λ f. (line.now ≡ spelling f)
        × IsTrue (frame_fits (ranges_of net.now) f)) }
    // And that frame always, if there is one.
    ensures only { (f : Frame) → line.now ≡ spelling f → IsTrue (frame_fits (ranges_of net.now) f)
        → result ≡ Some f }
    // The same as a function that computes, for proofs.
    ensures exact { result ≡ frame_of (ranges_of net.now) line.now }
{
    read_line(line, &net.ranges())
}

/// The frame of a line, by the ranges of its fields.
#[inline(always)]
pub(crate) fn read_line(line: &[u8], ranges: &Ranges) -> Option<Frame>
    ensures { result ≡ frame_of ranges.now line.now }
{
    let frame = spelled_frame(line)?;
    if ranges.fits(&frame) {
        Some(frame)
    } else {
        None
    }
}

/// The frame that a line spells, in range or not.
#[tactic(auto, unfolding(crate::specs::Spelling::spelling), using(crate::proofs::Readings::fields))]
#[inline(always)]
fn spelled_frame(line: &[u8]) -> Option<Frame>
    ensures some { IfSome result (λ f. (line.now ≡ spelling f) × (f ≡ candidate line.now)) }
    ensures none { IfNone result ((f : Frame) → line.now ≢ spelling f) }
{
    if line.len() != 21 || line[0] != b'F' {
        return None;
    }
    Some(Frame {
        seq: number_at(line, 1)?,
        ack: number_at(line, 5)?,
        payload: Payload {
            distance: number_at(line, 9)?,
            parent: parent_of(number_at(line, 13)?),
            ring: number_at(line, 17)?,
        },
    })
}

/// The parent that a number stands for.
fn parent_of(number: u16) -> Option<u16>
    ensures { result ≡ parent_of number }
{
    if number == NO_PARENT {
        None
    } else {
        Some(number)
    }
}
