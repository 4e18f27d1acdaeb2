//! Frames that are under way.
ghost use Rattle.std.specs.Prelude.{◌≡◌, ◌<◌, length, drop};
ghost use Rattle.configuration.specs.ConfigurationView.{world_of};
ghost use Rattle.flight_records.specs.Again.{same_frame, same_node, same_payload};
ghost use Rattle.record_gathering.specs.Frames.{is_frame, is_under_way, in_front};

use configuration::{Configuration, Item};
use std::alloc::Allocator;
use topology::{Frame, Payload};

/// A frame on the link from one node to another.
#[derive(Clone, Copy)]
pub struct Passage {
    pub from: u16,
    pub to: u16,
    pub frame: Frame,
}

impl Passage {
    /// A frame on this link.
    pub fn new(from: u16, to: u16, frame: Frame) -> Passage
        ensures { result ≡ record { from = from; to = to; frame = frame } }
    {
        Passage { from, to, frame }
    }
}

/// How many items stand in front of the first one that is this frame, and whether there is one.
#[derive(Clone, Copy)]
pub struct FramePlace {
    /// How many; all items of the link, if none is this frame.
    pub in_front: usize,
    /// Whether there is one.
    pub is_there: bool,
}

/// Whether two payloads are equal.
pub fn same_payload(one: &Payload, other: &Payload) -> bool
    ensures { result ≡ same_payload one.now other.now }
{
    one.distance == other.distance && one.parent == other.parent && one.ring == other.ring
}

/// Whether two frames are equal.
fn same_frame(one: &Frame, other: &Frame) -> bool
    ensures { result ≡ same_frame one.now other.now }
{
    one.seq == other.seq && one.ack == other.ack && same_payload(&one.payload, &other.payload)
}

/// Whether an item is this frame.
fn is_frame(frame: &Frame, item: &Item) -> bool
    ensures { result ≡ is_frame frame.now item.now }
{
    match item {
        Item::Frame(found) => same_frame(found, frame),
        Item::Noise => false,
    }
}

/// The place on its link of the earliest item that is this frame.
pub fn place_of<A: Allocator + Copy>(world: &Configuration<A>, passage: &Passage) -> FramePlace
    requires from_in { passage.now.from < (world_of world.now).net.nodes }
    requires to_in { passage.now.to < (world_of world.now).net.nodes }
    ensures in_front { result.in_front ≡ in_front passage.now.frame
        ((world_of world.now).link passage.now.from passage.now.to) }
    ensures is_there { result.is_there ≡ is_under_way passage.now.frame
        ((world_of world.now).link passage.now.from passage.now.to) }
{
    let (from, to) = (passage.from, passage.to);
    let count = world.under_way(from, to);
    for index in 0..count {
        if is_frame(&passage.frame, &world.item(from, to, index)) {
            return FramePlace {
                in_front: index,
                is_there: true,
            };
        }
    }
    FramePlace {
        in_front: count,
        is_there: false,
    }
}
