//! What is under way on a link, read item by item.
ghost use Rattle.std.specs.Prelude.{◌≡◌, ◌↔◌, ◌<◌, ℕ, List, ◌++◌};
ghost use Rattle.std.specs.List.{AllByRecursion};
ghost use Rattle.configuration.specs.ConfigurationView.{world_of};
ghost use Rattle.configuration.specs.data_link.Edge.{newest_first, CarriesItsPayload};
ghost use Rattle.configuration.specs.data_link.Port.{PortState};
ghost use Rattle.topology.specs.declared.frame.Payload.{Payload};
ghost use Rattle.layers.specs.Numbers.{number_of, numbers_of};
ghost use Rattle.layers.specs.PayloadReading.{Admits};
ghost use Rattle.layers.specs.RingReading.{MayFollow};

use crate::payload_reading::PayloadReading;
use crate::ring_reading::RingReading;
use configuration::{Configuration, Item};
use std::alloc::Allocator;
use topology::Frame;

/// Which number of a frame is meant.
#[derive(Clone, Copy)]
pub enum FrameNumber {
    /// Its own.
    Own,
    /// The one that it acknowledges.
    Acknowledged,
}

/// The number of a frame.
fn number_of(number: FrameNumber, frame: Frame) -> u16
    ensures { result ≡ number_of number frame }
{
    match number {
        FrameNumber::Own => frame.seq,
        FrameNumber::Acknowledged => frame.ack,
    }
}

/// The reading of a ring after one number of each frame on a link, that of the newest first.
pub fn after_numbers<A: Allocator + Copy>(
    configuration: &Configuration<A>,
    from: u16,
    to: u16,
    number: FrameNumber,
    start: RingReading,
) -> RingReading
    requires from_in { from < (world_of configuration.now).net.nodes }
    requires to_in { to < (world_of configuration.now).net.nodes }
    requires modulus { 0 < start.modulus }
    ensures modulus { result.modulus ≡ start.modulus }
    ensures follows { (rest : List ℕ) → MayFollow result rest
        ↔ MayFollow start
        (newest_first (number_of number) ((world_of configuration.now).link from to) ++ rest) }
{
    let mut reading = start;
    let mut left = configuration.under_way(from, to);
    while left > 0 {
        left -= 1;
        let item = configuration.item(from, to, left);
        reading = after_number(reading, number, item);
    }
    reading
}

/// The reading of a ring after the number of an item; noise has none.
fn after_number(reading: RingReading, number: FrameNumber, item: Item) -> RingReading
    requires { 0 < reading.modulus }
    ensures modulus { result.modulus ≡ reading.modulus }
    ensures follows { (rest : List ℕ) → MayFollow result rest
        ↔ MayFollow reading (numbers_of (number_of number) item ++ rest) }
{
    match item {
        Item::Frame(frame) => reading.after(number_of(number, frame)),
        Item::Noise => reading,
    }
}

/// The reading of payloads after those of all frames on a link.
pub fn after_payloads<A: Allocator + Copy>(
    configuration: &Configuration<A>,
    from: u16,
    to: u16,
    start: PayloadReading,
) -> PayloadReading
    requires from_in { from < (world_of configuration.now).net.nodes }
    requires to_in { to < (world_of configuration.now).net.nodes }
    ensures admits { (port : PortState) (other : Payload) → port.seq ≡ start.seq
        → port.staged ≡ start.staged
        → Admits result other
        ↔ (Admits start other
        × AllByRecursion (CarriesItsPayload port other) ((world_of configuration.now).link from to)) }
{
    let mut reading = start;
    for index in 0..configuration.under_way(from, to) {
        let item = configuration.item(from, to, index);
        reading = after_payload(reading, item);
    }
    reading
}

/// The reading of payloads after that of an item; noise has none.
fn after_payload(reading: PayloadReading, item: Item) -> PayloadReading
    ensures seq { result.seq ≡ reading.seq }
    ensures staged { result.staged ≡ reading.staged }
    ensures admits { (port : PortState) (other : Payload) → port.seq ≡ reading.seq
        → port.staged ≡ reading.staged
        → Admits result other ↔ (Admits reading other × CarriesItsPayload port other item) }
{
    match item {
        Item::Frame(frame) => reading.after(frame.seq, frame.payload),
        Item::Noise => reading,
    }
}
