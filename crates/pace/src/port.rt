//! What is kept of one port.
ghost use Rattle.std.specs.Prelude.{◌≡◌, None, Some, false};
ghost use Rattle.pace.specs.Plans.{called_port, rest_at};
ghost use Rattle.pace.specs.Ports.{fresh_port, same_payload, same_place, same_frame, times_given};
ghost use Rattle.pace.specs.Ports.{times_heard, is_soon, heard_port, hearing_of, given_port};
ghost use Rattle.pace.specs.Ports.{calls_after, has_question, is_news, is_due};

use crate::clock::{LONGEST_REST, is_over, time_left};
use topology::{Frame, Payload};

/// How many equal frames in a row are a question.
const QUESTION: u32 = 2;

/// Each time that this many equal frames have come in a row, the last of them may be a call for
/// haste.
const CALL: u32 = 4;

/// Such a frame is a call if it came this soon after the frame before it, in microseconds, and
/// within half of the repetition time. From a neighbour with the same repetition time, a frame that
/// is given again because that time is over comes later.
const SOON: u64 = 4_000;

/// What a node sees at one of its ports.
#[derive(Clone, Copy)]
pub struct PortSight {
    /// Whether a frame would be accepted there: there is a connection, and the last line is out.
    pub takes_frames: bool,
    /// The frame that the port would be given now.
    pub frame: Frame,
    /// What the node has to say there now; it is staged once the last number is acknowledged.
    pub present: Payload,
}

/// What a frame that came means besides what it says.
#[derive(Clone, Copy, PartialEq, Eq)]
pub enum Hearing {
    /// It means nothing more.
    Frame,
    /// It asks for an answer.
    Question,
    /// It asks for haste.
    Call,
}

/// How far a call for haste has been passed on at one port.
#[derive(Clone, Copy, PartialEq, Eq)]
pub enum Calling {
    /// There is none, or it is out.
    Done,
    /// No frame has been given for it yet.
    Begins,
    /// At least one frame has been given for it, so that the next one follows soon.
    GoesOn,
}

impl Calling {
    /// How far a call has been passed on after a frame that was given this many times in a row.
    fn after(self, given_times: u32) -> Calling
        ensures { result ≡ calls_after given_times self }
    {
        match self {
            Calling::Done => Calling::Done,
            Calling::Begins => Calling::GoesOn,
            Calling::GoesOn if given_times % CALL == 0 => Calling::Done,
            Calling::GoesOn => Calling::GoesOn,
        }
    }
}

/// What was given and heard at one port. Whatever these fields hold, a pace goes by them, and loses
/// no more than time.
#[derive(Clone, Copy)]
pub struct PortPace {
    /// The frame given last.
    pub given: Option<Frame>,
    /// How many times in a row it was given.
    pub given_times: u32,
    /// When it was given last, in microseconds.
    pub given_at: u64,
    /// The frame heard last.
    pub heard: Option<Frame>,
    /// How many times in a row it was heard.
    pub heard_times: u32,
    /// When it was heard last, in microseconds.
    pub heard_at: u64,
    /// Whether an answer is owed.
    pub owes: bool,
    /// How far a call has been passed on.
    pub calls: Calling,
}

impl PortPace {
    /// A port at which nothing was given or heard since it was attached.
    pub fn new() -> PortPace
        ensures { result ≡ fresh_port }
    {
        PortPace {
            given: None,
            given_times: 0,
            given_at: 0,
            heard: None,
            heard_times: 0,
            heard_at: 0,
            owes: false,
            calls: Calling::Done,
        }
    }

    /// Takes note of a frame that came at `now` microseconds. Frames are given again after `repeat`
    /// microseconds.
    pub fn hear(&mut self, frame: &Frame, repeat: u64, now: u64) -> Hearing
        ensures port { self.new ≡ heard_port frame.now now self.old }
        ensures hearing { result
            ≡ hearing_of (times_heard frame.now self.old) (is_soon repeat now self.old) }
    {
        let is_soon = self.is_soon(repeat, now);
        self.heard_times = self.times_heard(frame);
        self.heard = Some(*frame);
        self.heard_at = now;
        if self.heard_times == QUESTION {
            self.owes = true;
            Hearing::Question
        } else if self.heard_times % CALL == 0 && is_soon {
            Hearing::Call
        } else {
            Hearing::Frame
        }
    }

    /// Whether a frame that comes now comes so soon after the one before it that it is not given
    /// again for the sake of time.
    fn is_soon(&self, repeat: u64, now: u64) -> bool
        ensures { result ≡ is_soon repeat now self.now }
    {
        !is_over(self.heard_at, SOON.min(repeat / 2), now)
    }

    /// How many times in a row this frame was heard, this time included.
    fn times_heard(&self, frame: &Frame) -> u32
        ensures { result ≡ times_heard frame.now self.now }
    {
        match &self.heard {
            Some(last) if same_frame(last, frame) => self.heard_times.saturating_add(1),
            _ => 1,
        }
    }

    /// How many times in a row this frame was given last.
    fn times_given(&self, frame: &Frame) -> u32
        ensures { result ≡ times_given frame.now self.now }
    {
        match &self.given {
            Some(last) if same_frame(last, frame) => self.given_times,
            _ => 0,
        }
    }

    /// Takes note of a frame that was given at `now` microseconds: no answer is owed any more, and
    /// a call is out once a frame that can be one has been given for it, after at least one other
    /// frame.
    pub fn give(&mut self, frame: &Frame, now: u64)
        ensures { self.new ≡ given_port frame.now now self.old }
    {
        self.given_times = self.times_given(frame).saturating_add(1);
        self.given = Some(*frame);
        self.given_at = now;
        self.owes = false;
        self.calls = self.calls.after(self.given_times);
    }

    /// Takes note that a call must be passed on from now on, if there is one.
    pub fn call(&mut self, is_called: bool)
        ensures { self.new ≡ called_port is_called self.old }
    {
        if is_called && self.calls == Calling::Done {
            self.calls = Calling::Begins;
        }
    }

    /// How long it is until a frame is due there for the sake of time alone, 2 milliseconds at
    /// most; 0 if one is due now.
    pub fn rest(&self, sight: &PortSight, holds: bool, repeat: u64, now: u64) -> u64
        ensures { result ≡ rest_at sight.now holds repeat now self.now }
    {
        if self.is_due(sight, holds, repeat, now) {
            return 0;
        }
        if !sight.takes_frames {
            return LONGEST_REST;
        }
        time_left(self.given_at, repeat, now).min(LONGEST_REST)
    }

    /// Whether a frame is due at a port that would accept one: none was given yet; its payload is
    /// news; an answer is owed; a call must be passed on; the repetition time is over; or there is
    /// a question to ask.
    pub fn is_due(&self, sight: &PortSight, holds: bool, repeat: u64, now: u64) -> bool
        ensures { result ≡ is_due sight.now holds repeat now self.now }
    {
        sight.takes_frames
            && (self.is_news(&sight.frame)
                || self.owes
                || self.calls != Calling::Done
                || is_over(self.given_at, repeat, now)
                || (has_question(sight, holds) && self.times_given(&sight.frame) < QUESTION))
    }

    /// Whether the frame's payload differs from that of the frame given last; true if none was
    /// given.
    fn is_news(&self, frame: &Frame) -> bool
        ensures { result ≡ is_news frame.now self.now }
    {
        match &self.given {
            Some(last) => !same_payload(&last.payload, &frame.payload),
            None => true,
        }
    }
}

/// Whether the node has something to say that is not staged: while it holds, its distance and its
/// parent alone.
fn has_question(sight: &PortSight, holds: bool) -> bool
    ensures { result ≡ has_question sight.now holds }
{
    if holds {
        !same_place(&sight.frame.payload, &sight.present)
    } else {
        !same_payload(&sight.frame.payload, &sight.present)
    }
}

/// Whether two payloads have the same distance and the same parent.
fn same_place(one: &Payload, other: &Payload) -> bool
    ensures { result ≡ same_place one.now other.now }
{
    one.distance == other.distance && one.parent == other.parent
}

/// Whether two payloads are equal.
fn same_payload(one: &Payload, other: &Payload) -> bool
    ensures { result ≡ same_payload one.now other.now }
{
    same_place(one, other) && one.ring == other.ring
}

/// Whether two frames are equal.
fn same_frame(one: &Frame, other: &Frame) -> bool
    ensures { result ≡ same_frame one.now other.now }
{
    one.seq == other.seq && one.ack == other.ack && same_payload(&one.payload, &other.payload)
}
