//! One neighbour's frames, out and in.
ghost use Rattle.std.specs.Prelude.{◌≡◌, ◌≢◌, ◌≤◌, ◌++◌, [], ◌∷◌, List, ℕ, IfNone, None, Some};
ghost use Rattle.std.specs.Prelude.{is_some, length};
ghost use Rattle.std.specs.Option.{option_to_list};
ghost use Rattle.topology.specs.Ranges.{ranges_of};
ghost use Rattle.byte_lines.specs.Lines.{newline};
ghost use Rattle.byte_lines.specs.Kept.{kept};
ghost use Rattle.frame_codec.specs.Spelling.{spelling};
ghost use Rattle.frame_codec.specs.Lines.{frames_after, ReadsFrames, ReadsOn};

use crate::pipe::{Pipe, ReadAnswer};
use crate::writing::{Flow, write_line};
use frame_codec::{LineReader, encode};
use topology::{Frame, Net};

/// The most bytes that one read gives.
const PIECE: usize = 512;

/// The bytes of a frame's line, with its newline.
const LINE: usize = 22;

/// What becomes of a frame that is offered.
#[derive(Clone, Copy, PartialEq, Eq)]
pub enum Offer {
    /// Its line is accepted, and is written next.
    Taken,
    /// An older line is not yet out; nothing changed.
    Busy,
    /// There is no pipe; nothing changed.
    Loose,
}

/// What a pull gives.
#[derive(Clone, Copy, PartialEq, Eq)]
pub enum Pull {
    /// The next frame.
    Frame(Frame),
    /// What was read has no further frame. The pipe may have more bytes.
    Later,
    /// The pipe closed or failed, and was let go.
    Broken,
}

/// The frames to one neighbour and from it. Without a pipe it is loose, and keeps nothing.
#[derive(Drop)]
pub struct SocketLink<P> {
    pipe: Option<P>,
    /// Keeps the half line of what was looked at.
    reader: LineReader,
    /// What was read last; from `from` up to `to` it is still to be looked at.
    bytes: [u8; PIECE],
    from: usize,
    to: usize,
    /// The line that was accepted last, of which `sent` bytes are written.
    line: [u8; LINE],
    sent: usize,
    ghost within: { (from ≤ to) × (to ≤ 512) × (sent ≤ 22) × (length bytes ≡ 512)
        × (length line ≡ 22) },
    ghost loose: { pipe ≡ None → (reader ≡ kept 21 []) × (from ≡ to) × (sent ≡ 22) },
}

impl<P: Pipe> SocketLink<P> {
    ghost use Rattle.socket_links.specs.Links.{IsBare, Offered, Pulled, Pushed, waiting, unsent};
    ghost use Rattle.socket_links.specs.Links.{Looks, IsFrame};
    ghost use Rattle.socket_links.specs.declared.writing.Flow.TheVariants.{Done};
    ghost use Rattle.socket_links.specs.declared.link.Pull.TheVariants.{Later};

    /// A loose link.
    pub fn new() -> SocketLink<P>
        ensures { (result.pipe ≡ None) × IsBare result }
    {
        SocketLink {
            pipe: None,
            reader: LineReader::new(),
            bytes: [0; PIECE],
            from: 0,
            to: 0,
            line: [0; LINE],
            sent: LINE,
        }
    }

    /// Whether it has a pipe.
    pub fn is_attached(&self) -> bool
        ensures { result ≡ is_some self.now.pipe }
    {
        self.pipe.is_some()
    }

    /// Writes and reads this pipe from now on. Returns the pipe that was there before, if any, and
    /// drops all that was read and not yet pulled, and what is left of the line that was accepted
    /// last.
    pub fn attach(&mut self, pipe: P) -> Option<P>
        ensures stands { self.new.pipe ≡ Some pipe }
        ensures back { result ≡ self.old.pipe }
        ensures bare { IsBare self.new }
    {
        self.drop_halves();
        self.pipe.replace(pipe)
    }

    /// Takes the pipe away, and drops the same as [`SocketLink::attach`].
    pub fn detach(&mut self) -> Option<P>
        ensures loose { self.new.pipe ≡ None }
        ensures back { result ≡ self.old.pipe }
        ensures bare { IsBare self.new }
    {
        self.drop_halves();
        self.pipe.take()
    }

    /// Accepts a frame, if the last one is out.
    pub fn offer(&mut self, frame: &Frame) -> Offer
        ensures { Offered (spelling frame.now ++ newline ∷ []) self.old self.new result }
    {
        if self.pipe.is_none() {
            return Offer::Loose;
        }
        if self.sent < LINE {
            return Offer::Busy;
        }
        self.line = encode(frame);
        self.sent = 0;
        Offer::Taken
    }

    /// Writes what is left of the line that was accepted last, as far as the pipe takes it.
    pub fn push_out(&mut self) -> Flow
        // Unless the pipe breaks, what it took continues the accepted line, and what was pulled
        // does not change.
        ensures pushed { Pushed P.gave P.took P.counts self.old self.new result }
        // A loose link has nothing to write.
        ensures loose { self.old.pipe ≡ None → result ≡ Done }
    {
        let Some(pipe) = &mut self.pipe else {
            return Flow::Done;
        };
        let line = &self.line[..];
        let (count, flow) = write_line(pipe, &line[self.sent..]);
        self.sent += count;
        match flow {
            Flow::Done => Flow::Done,
            Flow::Later => Flow::Later,
            Flow::Broken => {
                self.let_go();
                Flow::Broken
            }
        }
    }

    /// The next frame. If what was read holds a good line, the frame is that line's; else the pipe
    /// is read once.
    pub fn pull(&mut self, net: &Net) -> Pull
        // The frame comes after those that were pulled before; and what was pushed does not change,
        // unless the pipe breaks.
        ensures pulled { Pulled (ranges_of net.now) P.gave P.took P.counts
            self.old self.new result }
        // If a good line ends in what was read, its frame is returned, and nothing is asked of the
        // pipe.
        ensures kept_first { (half : List ℕ) → self.old.reader ≡ kept 21 half
            → frames_after (ranges_of net.now) half (waiting self.old) ≢ []
            → IsFrame result × (self.new.pipe ≡ self.old.pipe) }
        // Nothing comes to a loose link.
        ensures loose { self.old.pipe ≡ None → result ≡ Later }
    {
        if let Some(frame) = self.look(net) {
            return Pull::Frame(frame);
        }
        let Some(pipe) = &mut self.pipe else {
            return Pull::Later;
        };
        self.from = 0;
        self.to = 0;
        match pipe.try_read(&mut self.bytes) {
            ReadAnswer::Got(count) => {
                self.to = count;
                match self.look(net) {
                    Some(frame) => Pull::Frame(frame),
                    None => Pull::Later,
                }
            }
            ReadAnswer::Later => Pull::Later,
            ReadAnswer::Closed => {
                self.let_go();
                Pull::Broken
            }
            ReadAnswer::Failed => {
                self.let_go();
                Pull::Broken
            }
        }
    }

    /// Looks at what was read, up to the end of the first good line in it.
    fn look(&mut self, net: &Net) -> Option<Frame>
        ensures pipe { self.new.pipe ≡ self.old.pipe }
        ensures unsent { unsent self.new ≡ unsent self.old }
        // Without a frame all that was read has been looked at.
        ensures all { IfNone result (waiting self.new ≡ []) }
        ensures looked { Looks (ranges_of net.now) self.old.reader self.new.reader
            (waiting self.old) (waiting self.new) (option_to_list result) }
    {
        let bytes = &self.bytes[..];
        let (used, frame) = self.reader.next_frame(&bytes[self.from..self.to], net);
        self.from += used;
        frame
    }

    /// Lets the pipe go, and drops the half lines of both sides.
    fn let_go(&mut self)
        ensures { (self.new.pipe ≡ None) × IsBare self.new }
    {
        self.drop_halves();
        self.pipe = None;
    }

    /// Drops the half lines of both sides.
    fn drop_halves(&mut self)
        ensures pipe { self.new.pipe ≡ self.old.pipe }
        ensures reader { self.new.reader ≡ kept 21 [] }
        ensures ends { (self.new.from ≡ 0) × (self.new.to ≡ 0) × (self.new.sent ≡ 22) }
    {
        self.reader.drop_half();
        self.from = 0;
        self.to = 0;
        self.sent = LINE;
    }
}
