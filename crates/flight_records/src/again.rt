//! Frames that are noted again, in a short form, which says that a frame is the last one of its
//! link.
ghost use Rattle.std.specs.Prelude.{◌≡◌, None, Some, replicate, slice_index_or};
ghost use Rattle.flight_records.specs.Again.{same_node, same_payload, same_frame, is_last};
ghost use Rattle.flight_records.specs.Again.{put_last, no_frames, frames_after, shortened};
ghost use Rattle.flight_records.specs.Again.{taken_again, sent_again, lengthened, after_long};

use crate::entry::{Deed, Noted, StatePart};
use std::marker::Model;
use topology::{Frame, Payload};

/// The most nodes of a network.
const NODES: usize = 64;

/// The frames that were noted last on the links of a node, since the start of its state. A writer
/// of a record has one, and so has a reader.
#[derive(Drop)]
pub struct LastFrames {
    /// The frame that was last taken, by the neighbour's id.
    taken: [Option<Frame>; NODES],
    /// The frame that was last sent, by the neighbour's id.
    sent: [Option<Frame>; NODES],
}

impl Model for LastFrames {
    ghost use Rattle.flight_records.specs.Frames.{FramesView};

    ghost Value = { FramesView };

    ghost view = { λ f. record { taken = f.taken; sent = f.sent } };
}

impl LastFrames {
    /// No frames, as at the start of a record.
    pub fn new() -> LastFrames
        ensures { result ≡ no_frames }
    {
        LastFrames {
            taken: [None; NODES],
            sent: [None; NODES],
        }
    }

    /// What is noted, in its short form if it is the last frame of its link again.
    pub fn shorten(&mut self, noted: &Noted) -> Noted
        ensures short { result ≡ shortened self.old noted.now }
        ensures after { self.new ≡ frames_after self.old noted.now }
    {
        let short = self.short(noted);
        self.remember(noted);
        short
    }

    /// What stands for this in a record.
    fn short(&self, noted: &Noted) -> Noted
        ensures { result ≡ shortened self.now noted.now }
    {
        match *noted {
            Noted::Deed(Deed::Takes { from, frame }) if is_last(&self.taken, from, &frame) => {
                Noted::Deed(Deed::TakesAgain { from })
            }
            Noted::Deed(Deed::Sends { to, frame }) if is_last(&self.sent, to, &frame) => {
                Noted::Deed(Deed::SendsAgain { to })
            }
            noted => noted,
        }
    }

    /// What was noted, if this stands for it in a record; none if this is the short form of a frame
    /// on a link that had none before. Then nothing changes.
    pub fn lengthen(&mut self, noted: &Noted) -> Option<Noted>
        ensures long { result ≡ lengthened self.old noted.now }
        ensures after { self.new ≡ after_long self.old (lengthened self.old noted.now) }
    {
        let long = self.long(noted)?;
        self.remember(&long);
        Some(long)
    }

    /// What this stands for in a record.
    fn long(&self, noted: &Noted) -> Option<Noted>
        ensures { result ≡ lengthened self.now noted.now }
    {
        match *noted {
            Noted::Deed(Deed::TakesAgain { from }) => {
                let frame = last(&self.taken, from)?;
                Some(Noted::Deed(Deed::Takes { from, frame }))
            }
            Noted::Deed(Deed::SendsAgain { to }) => {
                let frame = last(&self.sent, to)?;
                Some(Noted::Deed(Deed::Sends { to, frame }))
            }
            noted => Some(noted),
        }
    }

    /// Remembers that this was noted too.
    fn remember(&mut self, noted: &Noted)
        ensures { self.new ≡ frames_after self.old noted.now }
    {
        match *noted {
            Noted::State(StatePart::Start { .. }) => *self = LastFrames::new(),
            Noted::Deed(Deed::Takes { from, frame }) => put_last(&mut self.taken, from, frame),
            Noted::Deed(Deed::Sends { to, frame }) => put_last(&mut self.sent, to, frame),
            _ => {}
        }
    }
}

/// The last frame of a link, if there was one.
fn last(frames: &[Option<Frame>; NODES], node: u16) -> Option<Frame>
    ensures { result ≡ slice_index_or frames.now node None }
{
    frames.get(usize::from(node)).copied().unwrap_or(None)
}

/// Makes this the last frame of a link. Nothing changes for a node that no network has.
fn put_last(frames: &mut [Option<Frame>; NODES], node: u16, frame: Frame)
    ensures { frames.new ≡ put_last node frame frames.old }
{
    let place = usize::from(node);
    if place < NODES {
        frames[place] = Some(frame);
    }
}

/// Whether this frame was the last one of a link.
fn is_last(frames: &[Option<Frame>; NODES], node: u16, frame: &Frame) -> bool
    ensures { result ≡ is_last (slice_index_or frames.now node None) frame.now }
{
    match last(frames, node) {
        Some(last) => same_frame(&last, frame),
        None => false,
    }
}

/// Whether two payloads are equal.
fn same_payload(one: &Payload, other: &Payload) -> bool
    ensures { result ≡ same_payload one.now other.now }
{
    one.distance == other.distance && one.parent == other.parent && one.ring == other.ring
}

/// Whether two frames are equal.
fn same_frame(one: &Frame, other: &Frame) -> bool
    ensures { result ≡ same_frame one.now other.now }
{
    one.seq == other.seq && one.ack == other.ack && same_payload(&one.payload, &other.payload)
}
