//! Frames that are noted again.
use flight_records::{Deed, LastFrames, Noted, StatePart};
use std::test::Fail;
use test_parts::as_expected;
use topology::{Frame, Payload};

/// A frame.
const FRAME: Frame = Frame {
    seq: 5,
    ack: 4,
    payload: Payload {
        distance: 1,
        parent: Some(0),
        ring: 12,
    },
};

/// A frame that differs from it only in the parent.
const OTHER: Frame = Frame {
    seq: 5,
    ack: 4,
    payload: Payload {
        distance: 1,
        parent: None,
        ring: 12,
    },
};

/// A frame is taken from a node, or sent to one.
const TAKEN: Noted = Noted::Deed(Deed::Takes {
    from: 2,
    frame: FRAME,
});

const OTHER_TAKEN: Noted = Noted::Deed(Deed::Takes {
    from: 2,
    frame: OTHER,
});

const FROM_LAST: Noted = Noted::Deed(Deed::Takes {
    from: 63,
    frame: FRAME,
});

const FROM_NOBODY: Noted = Noted::Deed(Deed::Takes {
    from: 64,
    frame: FRAME,
});

const SENT: Noted = Noted::Deed(Deed::Sends {
    to: 2,
    frame: FRAME,
});

const TICK: Noted = Noted::Deed(Deed::Ticks);

const START: Noted = Noted::State(StatePart::Start {
    network: 7,
    node: 1,
});

/// The short forms.
const TAKEN_AGAIN: Noted = Noted::Deed(Deed::TakesAgain { from: 2 });

const FROM_LAST_AGAIN: Noted = Noted::Deed(Deed::TakesAgain { from: 63 });

const SENT_AGAIN: Noted = Noted::Deed(Deed::SendsAgain { to: 2 });

/// What is noted, one after the other, and what stands for it.
const RECORD: [(Noted, Noted); 15] = [
    (TAKEN, TAKEN),
    (TAKEN, TAKEN_AGAIN),
    // what was taken was not sent
    (SENT, SENT),
    (SENT, SENT_AGAIN),
    (TICK, TICK),
    (TAKEN, TAKEN_AGAIN),
    (OTHER_TAKEN, OTHER_TAKEN),
    (TAKEN, TAKEN),
    (FROM_LAST, FROM_LAST),
    (FROM_LAST, FROM_LAST_AGAIN),
    // no network has a node 64
    (FROM_NOBODY, FROM_NOBODY),
    (FROM_NOBODY, FROM_NOBODY),
    // once a state begins, nothing is remembered
    (START, START),
    (SENT, SENT),
    (TAKEN, TAKEN),
];

/// The place of the first that is shortened differently, or that its short form does not give back.
fn first_unlike() -> Option<usize> {
    let mut writer = LastFrames::new();
    let mut reader = LastFrames::new();
    for (at, (noted, short)) in RECORD.iter().enumerate() {
        if writer.shorten(noted) != *short || reader.lengthen(short) != Some(*noted) {
            return Some(at);
        }
    }
    None
}

#[test]
fn frames_again(_rt: HostRuntime) -> Result<(), Fail> {
    as_expected(Ok(first_unlike()), &None)
}

/// Whether a short form of a link on which there was no frame stands for nothing.
fn stands_for_nothing(short: &Noted) -> bool {
    LastFrames::new().lengthen(short).is_none()
}

#[test]
fn frames_that_never_came(_rt: HostRuntime) -> Result<(), Fail> {
    let all = stands_for_nothing(&TAKEN_AGAIN) && stands_for_nothing(&SENT_AGAIN);
    as_expected(Ok(Some(all)), &Some(true))
}
