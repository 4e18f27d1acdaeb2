//! Two ports over two links, and writes that do not fit.
use data_link::{OutOfRange, Port};
use link_model::{Item, Link};
use std::alloc::{AllocError, Global};
use std::test::Fail;
use test_parts::{as_expected, is_expected};
use topology::{Frame, Net, NetFault, Payload};

/// Puts the frame of a port on a link.
fn send(from: &Port, link: &mut Link) {
    let _ = link.put(Item::Frame(from.frame()));
}

/// Takes the oldest item of a link, if any; `present` is what the taker says then.
fn take(link: &mut Link, to: &mut Port, present: Payload) {
    if let Some(Item::Frame(frame)) = link.take() {
        let ranges = to.ranges();
        if ranges.fits(&frame) && ranges.fits_payload(&present) {
            to.on_frame(&frame, present);
        }
    }
}

/// What a root with its true distance says.
const ROOT: Payload = Payload {
    distance: 0,
    parent: None,
    ring: 0,
};

/// What its child says.
const CHILD: Payload = Payload {
    distance: 1,
    parent: Some(0),
    ring: 0,
};

/// A new port of one of two nodes whose links hold one item.
fn new_port(alloc: Global) -> Result<Port, NetFault> {
    let net = Net::make(alloc, 2, 0, 1, 0, &[(0, 1)])?;
    Ok(Port::new(&net))
}

/// In each round the root sends twice over `out`, then the child twice over `back`; each frame is
/// taken at once.
fn go_round(near: &mut Port, far: &mut Port, out: &mut Link, back: &mut Link, rounds: u32) {
    for _ in 0..rounds {
        for _ in 0..2 {
            send(near, out);
            take(out, far, CHILD);
        }
        for _ in 0..2 {
            send(far, back);
            take(back, near, ROOT);
        }
    }
}

/// A port's own number, the last number that it took, and its copy.
type Numbers = (u16, u16, Payload);

fn numbers(port: &Port) -> Numbers {
    (port.seq(), port.last(), port.copy())
}

/// What two ports have after four rounds, and after three more, with a new link back.
fn have_after_rounds(
    alloc: Global,
    near: &mut Port,
    far: &mut Port,
    out: &mut Link,
) -> Result<[(Numbers, Numbers); 2], AllocError> {
    let mut back = Link::new(alloc, 1)?;
    go_round(near, far, out, &mut back, 4);
    let first = (numbers(near), numbers(far));
    go_round(near, far, out, &mut back, 3);
    Ok([first, (numbers(near), numbers(far))])
}

/// The same for two new ports.
fn after_rounds(alloc: Global) -> Result<[(Numbers, Numbers); 2], Fail> {
    let mut near = new_port(alloc)?;
    let mut far = new_port(alloc)?;
    let mut out = Link::new(alloc, 1)?;
    Ok(have_after_rounds(alloc, &mut near, &mut far, &mut out)?)
}

/// What they should have.
const AFTER_ROUNDS: [(Numbers, Numbers); 2] = [
    ((4, 4, CHILD), (4, 3, ROOT)),
    ((2, 2, CHILD), (2, 1, ROOT)),
];

#[test]
fn numbers_go_round(rt: HostRuntime) -> Result<(), Fail> {
    as_expected(after_rounds(rt.alloc()), &AFTER_ROUNDS)
}

/// Each field at its greatest.
const GREATEST: Payload = Payload {
    distance: 2,
    parent: Some(1),
    ring: 6,
};

/// Writes what fits: the numbers 4 and 3, and the payload as staged and as copied.
fn write(port: &mut Port, payload: Payload) -> Result<(), OutOfRange> {
    port.set_counters(4, 3)?;
    port.set_staged(payload)?;
    port.set_copy(port.staged())
}

/// Whether each write with one field just out of range is refused.
fn refuses_what_does_not_fit(port: &mut Port, payload: Payload) -> bool {
    let ring = Payload { ring: 7, ..payload };
    let distance = Payload {
        distance: 3,
        ..payload
    };
    let parent = Payload {
        parent: Some(2),
        ..payload
    };
    port.set_counters(5, 0) == Err(OutOfRange)
        && port.set_counters(0, 5) == Err(OutOfRange)
        && port.set_staged(ring) == Err(OutOfRange)
        && port.set_copy(distance) == Err(OutOfRange)
        && port.set_copy(parent) == Err(OutOfRange)
}

/// Whether a port is like new after a reset.
fn is_reset(port: &mut Port, new: &Frame) -> bool {
    port.reset();
    port.frame() == *new
}

/// What a new port answers to a write that fits, whether it refuses those that do not, its frame
/// and copy then, and whether it is like new after a reset.
type Written = (Result<(), OutOfRange>, bool, (Frame, Payload), bool);

fn written(alloc: Global) -> Result<Written, NetFault> {
    let mut port = new_port(alloc)?;
    let new = port.frame();
    let answer = write(&mut port, GREATEST);
    let is_refused = refuses_what_does_not_fit(&mut port, GREATEST);
    let kept = (port.frame(), port.copy());
    Ok((answer, is_refused, kept, is_reset(&mut port, &new)))
}

/// What is sent after the write that fits.
const SENT: Frame = Frame {
    seq: 4,
    ack: 3,
    payload: GREATEST,
};

#[test]
fn writes_outside_their_range_change_nothing(rt: HostRuntime) -> Result<(), Fail> {
    is_expected(
        &written(rt.alloc())?,
        &(Ok(()), true, (SENT, GREATEST), true),
    )
}
