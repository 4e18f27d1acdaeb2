//! A reader of frames from a stream of bytes.
ghost use Rattle.std.specs.Prelude.{◌≡◌, ◌+◌, ◌/◌, ◌<◌, ◌≤◌, [], ◌∷◌, ◌++◌, List, ℕ, length, take};
ghost use Rattle.std.specs.Prelude.{IfNone, OnOk, OnErr, vec_len, vec_capacity};
ghost use Rattle.std.specs.Option.{option_to_list, option_len};
ghost use Rattle.topology.specs.Ranges.{ranges_of};
ghost use Rattle.topology.specs.declared.frame.Frame.{Frame};
ghost use Rattle.byte_lines.specs.Kept.{kept};
ghost use Rattle.frame_codec.specs.Reading.{frame_of};
ghost use Rattle.frame_codec.specs.Lines.{ReadsFrames, ReadsOn};

use crate::frame_line::read_line;
use byte_lines::{HalfLine, LineReading, Taken, laws as byte_lines_laws};
use std::alloc::{AllocError, Allocator};
use std::marker::Model;
use topology::{Frame, Net, Ranges};

/// What is kept of a line that has not ended: at most the 21 bytes of a frame's line.
#[derive(Drop)]
pub struct LineReader {
    half: HalfLine<21>,
}

impl Model for LineReader {
    ghost use Rattle.byte_lines.specs.Kept.{Kept};

    ghost Value = { Kept };

    ghost view = { λ r. r.half };
}

impl LineReader {
    /// A reader that keeps no byte.
    pub fn new() -> LineReader
        ensures { result ≡ kept 21 [] }
    {
        LineReader {
            half: HalfLine::new(),
        }
    }

    /// Reads one byte. Returns a frame exactly if the byte ends a good line.
    pub fn push(&mut self, byte: u8, net: &Net) -> Option<Frame>
        ensures frames { ReadsFrames (ranges_of net.now) self.old self.new (byte ∷ [])
            (option_to_list result) }
        // The same, for the whole stream from its first byte on.
        ensures any_cutting { ReadsOn (ranges_of net.now) self.old self.new (byte ∷ [])
            (option_to_list result) }
    {
        byte_lines_laws::any_cutting();
        let lines = FrameLines(net.ranges());
        self.half.push(byte, &lines).flatten()
    }

    /// Reads a piece of the stream up to the end of the first good line that ends in it, or all of
    /// it if none does. Returns how many bytes it read, and the frame of that line.
    pub fn next_frame(&mut self, piece: &[u8], net: &Net) -> (usize, Option<Frame>)
        ensures used { result.0 ≤ length piece.now }
        // If no good line ends, the piece is read to its end.
        ensures all { IfNone result.1 (result.0 ≡ length piece.now) }
        // The frames are those of the good lines that end in the bytes read: one, or none.
        ensures frames { ReadsFrames (ranges_of net.now) self.old self.new (take result.0 piece.now)
            (option_to_list result.1) }
        // The same, for the whole stream from its first byte on.
        ensures any_cutting { ReadsOn (ranges_of net.now) self.old self.new
            (take result.0 piece.now)
            (option_to_list result.1) }
    {
        byte_lines_laws::any_cutting();
        find_frame(&mut self.half, piece, &FrameLines(net.ranges()))
    }

    /// Forgets the line that has not ended: what comes next is read as from the start.
    pub fn drop_half(&mut self)
        ensures { self.new ≡ kept 21 [] }
    {
        self.half.clear();
    }

    /// Reads a piece of the stream, and puts the frames of the good lines that end in it at the end
    /// of `out`. If the memory for as many frames as can end in it is refused, nothing is read.
    pub fn feed<A: Allocator>(
        &mut self,
        piece: &[u8],
        net: &Net,
        out: &mut Vec<Frame, A>,
    ) -> Result<(), AllocError>
        ensures frames { OnOk result ((frames : List Frame)
            × (out.new.items ≡ out.old.items ++ frames)
            × ReadsFrames (ranges_of net.now) self.old self.new piece.now frames) }
        ensures any_cutting { OnOk result ((frames : List Frame)
            × (out.new.items ≡ out.old.items ++ frames)
            × ReadsOn (ranges_of net.now) self.old self.new piece.now frames) }
        ensures refused { OnErr result ((self.new ≡ self.old) × (out.new.items ≡ out.old.items)) }
        // Each frame takes 22 bytes; of the first one, the reader may keep some already.
        ensures refused_only { OnErr result
            (vec_capacity out.old
            < vec_len out.old + (length self.old.first + length piece.now) / 22) }
    {
        byte_lines_laws::any_cutting();
        out.reserve((self.half.len() + piece.len()) / 22)?;
        read_frames(&mut self.half, piece, &FrameLines(net.ranges()), out);
        Ok(())
    }
}

/// Reads a piece up to the end of its first good line, or all of it.
fn find_frame(half: &mut HalfLine<21>, piece: &[u8], lines: &FrameLines) -> (usize, Option<Frame>)
    ensures used { result.0 ≤ length piece.now }
    ensures all { IfNone result.1 (result.0 ≡ length piece.now) }
    ensures frames { ReadsFrames lines.now.0 half.old half.new (take result.0 piece.now)
        (option_to_list result.1) }
{
    byte_lines_laws::any_cutting();
    let mut at = 0;
    while at < piece.len() {
        let Taken { used, line } = half.take(&piece[at..], lines);
        at += used;
        if let Some(frame) = line.flatten() {
            return (at, Some(frame));
        }
    }
    (at, None)
}

/// Reads a piece of the stream, and puts its frames into room that is reserved.
fn read_frames<A: Allocator>(
    half: &mut HalfLine<21>,
    piece: &[u8],
    lines: &FrameLines,
    out: &mut Vec<Frame, A>,
)
    requires some { (line : List ℕ) × (half.old ≡ kept 21 line) }
    requires room { vec_len out.old + (length half.old.first + length piece.now) / 22
        ≤ vec_capacity out.old }
    ensures { (frames : List Frame) × (out.new.items ≡ out.old.items ++ frames)
        × ReadsFrames lines.now.0 half.old half.new piece.now frames }
{
    byte_lines_laws::any_cutting();
    let mut rest = piece;
    while !rest.is_empty() {
        let Taken { used, line } = half.take(rest, lines);
        put(line.flatten(), out);
        rest = &rest[used..];
    }
}

/// What a line of a stream is, by the ranges of a frame's fields: a frame or none. No line of more
/// than 21 bytes is a frame.
#[derive(Drop)]
struct FrameLines(Ranges);

impl LineReading<21> for FrameLines {
    type Read = Option<Frame>;

    ghost reading = { λ lines. frame_of lines.0 };

    fn read(&self, line: &[u8]) -> Option<Frame> {
        read_line(line, &self.0)
    }

    fn read_long(&self, _: &[u8]) -> Option<Frame> {
        None
    }
}

/// Puts a frame, if there is one, into room that is reserved.
fn put<A: Allocator>(frame: Option<Frame>, out: &mut Vec<Frame, A>)
    requires { vec_len out.old + option_len frame ≤ vec_capacity out.old }
    ensures items { out.new.items ≡ out.old.items ++ option_to_list frame }
    ensures room { (vec_len out.new ≡ vec_len out.old + option_len frame)
        × (vec_capacity out.new ≡ vec_capacity out.old) }
{
    if let Some(frame) = frame {
        out.push_reserved(frame);
    }
}
