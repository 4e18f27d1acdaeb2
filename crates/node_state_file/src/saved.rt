//! What a state file says, before any of it is believed.
ghost use Rattle.std.specs.Prelude.{IsTrue, ◌≡◌, ◌≤◌, ◌+◌, ◌*◌, length};
ghost use Rattle.topology.specs.Ranges.{ranges_of};
ghost use Rattle.state_writing.specs.node_core.Writes.{own_fits};
ghost use Rattle.node_state_file.specs.Reading.{header_of, header_length, is_header_of, payload_at};
ghost use Rattle.node_state_file.specs.Reading.{port_in, ports_in, ids_of, are_others};
ghost use Rattle.node_state_file.specs.Reading.{saved_port_fits, fields_fit};

use crate::number::{number_at, parent_at};
use state_writing::FileLayout;
use std::alloc::Allocator;
use topology::{Net, Payload, Ranges};

/// What comes before the ports.
#[derive(Clone, Copy, Debug, PartialEq, Eq)]
pub(crate) struct Header {
    /// How many nodes the network has.
    pub nodes: u16,
    /// The node's id.
    pub id: u16,
    /// How many items a link holds, if the layout has this number.
    pub capacity: Option<u16>,
    /// How many ports follow.
    pub degree: u16,
    /// The node's distance.
    pub distance: u16,
    /// The node's parent.
    pub parent: Option<u16>,
}

impl Header {
    /// The header of a file.
    pub fn read(layout: FileLayout, bytes: &[u8]) -> Header
        requires { header_length layout ≤ length bytes.now }
        ensures { result ≡ header_of layout bytes.now }
    {
        let (capacity, at) = match layout {
            FileLayout::Tkt1 => (None, 8),
            FileLayout::Tkt2 => (Some(number_at(bytes, 8)), 10),
        };
        Header {
            nodes: number_at(bytes, 4),
            id: number_at(bytes, 6),
            capacity,
            degree: number_at(bytes, at),
            distance: number_at(bytes, at + 2),
            parent: parent_at(bytes, at + 4),
        }
    }

    /// Whether it is the header of this node of the network, with a degree that a node may have.
    pub fn is_of<N: Allocator + Copy>(&self, net: &Net<N>, id: u16) -> bool
        ensures header { result ≡ is_header_of net.now id self.now }
        ensures few { IsTrue result → self.now.degree ≤ 63 }
    {
        self.nodes == net.nodes()
            && self.id == id
            && self
                .capacity
                .is_none_or(|capacity| capacity == net.capacity())
            && self.degree >= 1
            && self.degree < net.nodes()
    }

    /// Whether distance and parent are in their ranges.
    pub fn fits(&self, ranges: Ranges) -> bool
        ensures { result ≡ own_fits ranges self.now.distance self.now.parent }
    {
        self.distance <= ranges.nodes && self.parent.is_none_or(|parent| parent < ranges.nodes)
    }
}

/// What a file says about one port.
#[derive(Clone, Copy, Debug, PartialEq, Eq)]
pub(crate) struct SavedPort {
    /// The neighbour's id.
    pub neighbour: u16,
    /// The number under which the staged payload goes out.
    pub seq: u16,
    /// The last number that was accepted.
    pub last: u16,
    /// The payload that is staged.
    pub staged: Payload,
    /// The payload that was copied.
    pub copy: Payload,
    /// The value of the machine that comes in from the neighbour.
    pub value: u16,
}

impl SavedPort {
    /// The port whose bytes these begin with.
    pub fn read(bytes: &[u8]) -> SavedPort
        requires { 20 ≤ length bytes.now }
        ensures { result ≡ port_in bytes.now }
    {
        SavedPort {
            neighbour: number_at(bytes, 0),
            seq: number_at(bytes, 2),
            last: number_at(bytes, 4),
            staged: payload_at(bytes, 6),
            copy: payload_at(bytes, 12),
            value: number_at(bytes, 18),
        }
    }

    /// Whether each field is in its range.
    pub fn fits(&self, ranges: Ranges) -> bool
        ensures { result ≡ saved_port_fits ranges self.now }
    {
        self.seq < ranges.counter
            && self.last < ranges.counter
            && ranges.fits_payload(&self.staged)
            && ranges.fits_payload(&self.copy)
            && self.value < ranges.ring
    }
}

/// The payload at a place.
fn payload_at(bytes: &[u8], at: usize) -> Payload
    requires { at + 6 ≤ length bytes.now }
    ensures { result ≡ payload_at bytes.now at }
{
    Payload {
        distance: number_at(bytes, at),
        parent: parent_at(bytes, at + 2),
        ring: number_at(bytes, at + 4),
    }
}

/// A port about which nothing is said: it fills the free places of a list of ports.
impl Default for SavedPort {
    fn default() -> SavedPort {
        let blank = Payload {
            distance: 0,
            parent: None,
            ring: 0,
        };
        SavedPort {
            neighbour: 0,
            seq: 0,
            last: 0,
            staged: blank,
            copy: blank,
            value: 0,
        }
    }
}
