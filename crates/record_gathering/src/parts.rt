//! What a part of a node's state says of the state of the node.
ghost use Rattle.std.specs.Prelude.{◌≡◌, ◌<◌, if◌then◌else◌};
ghost use Rattle.topology.specs.Network.{are_joined};
ghost use Rattle.configuration.specs.ConfigurationView.{world_of};
ghost use Rattle.record_gathering.specs.Parts.{part_noted, IsPortOfNode};

use crate::entries::is_link;
use configuration::Configuration;
use flight_records::StatePart;
use std::alloc::Allocator;
use topology::Payload;

/// What is noted of a port, and of the machine that comes in from its neighbour.
#[derive(Clone, Copy)]
pub struct PortNoted {
    pub neighbour: u16,
    pub seq: u16,
    pub last: u16,
    pub staged: Payload,
    pub copy: Payload,
    pub value: u16,
}

/// What is noted of a desk's loan.
#[derive(Clone, Copy)]
pub struct LoanNoted {
    pub lent: Option<u16>,
    pub left: u16,
    pub served: bool,
}

/// What is noted of a node's state.
#[derive(Clone, Copy)]
pub enum PartNoted {
    /// Its distance and parent.
    Own { distance: u16, parent: Option<u16> },
    /// Its port to a neighbour.
    Port(PortNoted),
    /// Its desk's loan.
    Loan(LoanNoted),
    /// No part of its state.
    Nothing,
}

/// What a part of a node's state says. A port to a node that is no neighbour says nothing.
pub fn part_noted<A: Allocator + Copy>(
    world: &Configuration<A>,
    node: u16,
    part: &StatePart,
) -> PartNoted
    ensures said { result ≡ part_noted (world_of world.now) node part.now }
    ensures neighbour_in { IsPortOfNode (world_of world.now).net.nodes result }
{
    match *part {
        StatePart::Own { distance, parent } => PartNoted::Own { distance, parent },
        StatePart::Port {
            neighbour,
            seq,
            last,
            staged,
            copy,
            value,
        } if is_link(world, node, neighbour) => PartNoted::Port(PortNoted {
            neighbour,
            seq,
            last,
            staged,
            copy,
            value,
        }),
        StatePart::Loan { lent, left, served } => {
            PartNoted::Loan(LoanNoted { lent, left, served })
        }
        StatePart::Start { .. }
        | StatePart::Port { .. }
        | StatePart::Waits { .. }
        | StatePart::Whole => PartNoted::Nothing,
    }
}
