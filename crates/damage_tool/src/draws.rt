//! Numbers, payloads and ports, drawn from a generator.
ghost use Rattle.std.specs.Prelude.{◌≡◌, ◌<◌, ◌≤◌, ◌+◌, IsTrue};
ghost use Rattle.topology.specs.Ranges.{payload_fits, parent_fits};
ghost use Rattle.run_model.specs.data_link.Port.{counters_fit};
ghost use Rattle.damage_tool.specs.Draws.{draw, draw_parent, draw_payload, draw_port};

use rand_core::utils::NextWord;
use rand_pcg::Lcg64Xsh32;
use topology::{Payload, Ranges};

/// A number below `values`: the generator's next word modulo `values`.
pub(crate) fn draw_below(generator: &mut Lcg64Xsh32, values: u16) -> u16
    requires { 0 < values }
    ensures drawn { result ≡ (draw values generator.old).0 }
    ensures generator { generator.new ≡ (draw values generator.old).1 }
    ensures below { result < values }
{
    (generator.next_word() % u32::from(values)) as u16
}

/// A number from 0 to `greatest`: the generator's next word modulo `greatest` + 1.
pub(crate) fn draw_to(generator: &mut Lcg64Xsh32, greatest: u16) -> u16
    ensures drawn { result ≡ (draw (greatest + 1) generator.old).0 }
    ensures generator { generator.new ≡ (draw (greatest + 1) generator.old).1 }
    ensures fits { result ≤ greatest }
{
    (generator.next_word() % (u32::from(greatest) + 1)) as u16
}

/// A parent: a node, or none.
pub(crate) fn draw_parent(ranges: Ranges, generator: &mut Lcg64Xsh32) -> Option<u16>
    ensures drawn { result ≡ (draw_parent ranges generator.old).0 }
    ensures generator { generator.new ≡ (draw_parent ranges generator.old).1 }
    ensures fits { IsTrue (parent_fits ranges.nodes result) }
{
    let parent = draw_to(generator, ranges.nodes);
    if parent == ranges.nodes {
        None
    } else {
        Some(parent)
    }
}

/// A payload: a distance, a parent and a ring value, in this order.
pub(crate) fn draw_payload(ranges: Ranges, generator: &mut Lcg64Xsh32) -> Payload
    requires { 0 < ranges.ring }
    ensures drawn { result ≡ (draw_payload ranges generator.old).0 }
    ensures generator { generator.new ≡ (draw_payload ranges generator.old).1 }
    ensures fits { IsTrue (payload_fits ranges result) }
{
    let distance = draw_to(generator, ranges.nodes);
    let parent = draw_parent(ranges, generator);
    let ring = draw_below(generator, ranges.ring);
    Payload {
        distance,
        parent,
        ring,
    }
}

/// What is drawn for a port.
#[derive(Clone, Copy, Debug, PartialEq, Eq)]
pub(crate) struct PortDraw {
    /// The number under which it sends.
    pub seq: u16,
    /// The last number that it accepted.
    pub last: u16,
    /// The payload that it has staged.
    pub staged: Payload,
    /// The payload that it has copied.
    pub copy: Payload,
    /// The value of the machine that comes in there.
    pub value: u16,
}

/// A port: its numbers, staged payload, copy and machine's value, in this order.
pub(crate) fn draw_port(ranges: Ranges, generator: &mut Lcg64Xsh32) -> PortDraw
    requires counter { 0 < ranges.counter }
    requires ring { 0 < ranges.ring }
    ensures drawn { result ≡ (draw_port ranges generator.old).0 }
    ensures generator { generator.new ≡ (draw_port ranges generator.old).1 }
    ensures counters { IsTrue (counters_fit ranges result.seq result.last) }
    ensures staged { IsTrue (payload_fits ranges result.staged) }
    ensures copy { IsTrue (payload_fits ranges result.copy) }
    ensures value { result.value < ranges.ring }
{
    let seq = draw_below(generator, ranges.counter);
    let last = draw_below(generator, ranges.counter);
    let staged = draw_payload(ranges, generator);
    let copy = draw_payload(ranges, generator);
    let value = draw_below(generator, ranges.ring);
    PortDraw {
        seq,
        last,
        staged,
        copy,
        value,
    }
}
