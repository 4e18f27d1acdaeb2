//! Frames between two links whose pipes fail.
use super::ends::{End, Part};
use super::nodes::row;
use super::stage::Stage;
use super::wires::Queue;
use socket_links::{Flow, Offer, Pull, SocketLink};
use std::alloc::{AllocError, Global};
use std::test::Fail;
use test_parts::as_expected;
use topology::{Frame, Net, Payload};

/// The frame with this number.
fn frame(seq: u16) -> Frame {
    Frame {
        seq,
        ack: 0,
        payload: Payload {
            distance: 1,
            parent: Some(0),
            ring: 12,
        },
    }
}

/// Two links over one connection, and later over a second one.
#[derive(Drop)]
struct Ends<'a> {
    near: SocketLink<End<'a>>,
    far: SocketLink<End<'a>>,
    /// The connections; both links get the next one once one of them has broken.
    pairs: &'a Queue,
    /// They say which call of the first link's pipes fails, and which of the second's.
    stages: (&'a Stage, &'a Stage),
    /// How often the first and the second link broke.
    breaks: (u32, u32),
    /// How many frames were taken, and how many came.
    taken: u32,
    came: u32,
    /// The least number that the next frame may have.
    next: u16,
    /// Whether those that came are some of those offered, in order.
    are_some: bool,
}

impl<'a> Ends<'a> {
    /// Gives both links the ends of the next connection.
    fn attach(&mut self) {
        if let Some(pair) = self.pairs.knock() {
            let near = End::new(pair, true, self.stages.0, Part::Unseen);
            let far = End::new(pair, false, self.stages.1, Part::Unseen);
            let _older = self.near.attach(near);
            let _older = self.far.attach(far);
        }
    }

    /// Offers a frame to the first link and writes it.
    fn offer(&mut self, frame: Frame) {
        if self.near.offer(&frame) == Offer::Taken {
            self.taken = self.taken.saturating_add(1);
        }
        if self.near.push_out() == Flow::Broken {
            self.breaks.0 = self.breaks.0.saturating_add(1);
            self.attach();
        }
    }

    /// Pulls once at each link.
    fn pull(&mut self, net: &Net) {
        if self.near.pull(net) == Pull::Broken {
            self.breaks.0 = self.breaks.0.saturating_add(1);
            self.attach();
        }
        match self.far.pull(net) {
            Pull::Frame(came) => self.keep(came),
            Pull::Broken => {
                self.breaks.1 = self.breaks.1.saturating_add(1);
                self.attach();
            }
            Pull::Later => {}
        }
    }

    /// Notes a frame that came.
    fn keep(&mut self, came: Frame) {
        self.are_some &= came == frame(came.seq) && (self.next..3).contains(&came.seq);
        self.next = came.seq.saturating_add(1);
        self.came = self.came.saturating_add(1);
    }

    /// Whether all is right if one call on this side failed, or none did: all frames were taken; the
    /// link on this side broke once, or no link did; and the frames that came are some of those
    /// taken, in order. A failing connection loses at most one frame.
    fn are_right(&self, side: usize, has_failed: bool) -> bool {
        let lost = if has_failed { 1 } else { 0 };
        let breaks = if side == 0 { (lost, 0) } else { (0, lost) };
        let is_enough = self.came.saturating_add(lost) >= 3;
        self.breaks == breaks && self.taken == 3 && is_enough && self.are_some
    }
}

/// Offers three frames, one after the other, and pulls twice after each. Makes the call after
/// `calls` others fail, on the first link's pipes or on the second's. Returns whether that call was
/// made, and whether all is right.
fn with_a_failure(
    net: &Net,
    stages: (&Stage, &Stage),
    side: usize,
    calls: u64,
) -> Option<(bool, bool)> {
    let tripped = if side == 0 { stages.0 } else { stages.1 };
    tripped.spared.set(Some(calls));
    let mut ends = Ends {
        near: SocketLink::new(),
        far: SocketLink::new(),
        pairs: stages.0.links.first()?,
        stages,
        breaks: (0, 0),
        taken: 0,
        came: 0,
        next: 0,
        are_some: true,
    };
    ends.attach();
    for seq in 0..3 {
        ends.offer(frame(seq));
        ends.pull(net);
        ends.pull(net);
    }
    let has_failed = tripped.spared.get().is_none();
    Some((has_failed, ends.are_right(side, has_failed)))
}

/// The same on new stages.
fn with_new_stages(
    alloc: Global,
    net: &Net,
    side: usize,
    calls: u64,
) -> Result<(bool, bool), Fail> {
    let (near, far) = (Stage::new(alloc, 1, 2, 0)?, Stage::new(alloc, 1, 0, 0)?);
    let found = with_a_failure(net, (&near, &far), side, calls);
    Ok(found.unwrap_or((false, false)))
}

/// Makes each call of one side fail in turn. Returns how many calls there are, and whether all was
/// right, also if none failed.
fn calls_of(alloc: Global, side: usize) -> Result<(u64, bool), Fail> {
    let net = row(alloc, 3, 1, 0)?;
    for calls in 0..100 {
        let (has_failed, is_right) = with_new_stages(alloc, &net, side, calls)?;
        if !has_failed || !is_right {
            return Ok((calls, is_right));
        }
    }
    Err(Fail::from(AllocError))
}

/// Whether all was right on both sides, and more than five calls were made on each.
fn are_right(alloc: Global) -> Result<[bool; 2], Fail> {
    let ((first, is_first), (second, is_second)) = (calls_of(alloc, 0)?, calls_of(alloc, 1)?);
    Ok([is_first && first > 5, is_second && second > 5])
}

#[test]
fn frames_are_some_of_those_taken_whichever_call_fails(rt: HostRuntime) -> Result<(), Fail> {
    as_expected(are_right(rt.alloc()), &[true; 2])
}
