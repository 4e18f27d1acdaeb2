//! Writes a node's state.
ghost use Rattle.std.specs.Prelude.{◌≡◌, ◌≤◌, ◌<◌, ◌+◌, ◌*◌, ◌∷◌, [], ◌++◌, length, take, drop};
ghost use Rattle.std.specs.List.{flat_map};
ghost use Rattle.topology.specs.Network.{neighbours_of};
ghost use Rattle.arrayvec.specs.ArrayVec.{array_vec_len};
ghost use Rattle.node_core.specs.Site.{site_of};
ghost use Rattle.node_core.specs.View.{site_in, state_of};
ghost use Rattle.state_writing.specs.Spelling.{spelling, header_numbers, port_numbers};
ghost use Rattle.state_writing.specs.declared.layout.FileLayout.TheVariants.{Tkt2};

use crate::layout::{FileLayout, MOST_BYTES};
use crate::number::parent_number;
use arrayvec::ArrayVec;
use byteorder::{BigEndian, ByteOrder};
use node_core::NodeState;
use std::alloc::Allocator;
use topology::{Net, laws as topology_laws};

/// The numbers of a file: six, and ten for each of at most 63 ports.
type Numbers = ArrayVec<u16, 636>;

/// Writes the state of a node to the front of `bytes`, and returns how many bytes it has: 16, and
/// 20 for each neighbour. The rest of `bytes` stays as it was. The node must be one of the
/// network's. The desk is not written.
pub fn encode<A: Allocator, N: Allocator + Copy>(
    node: &NodeState<A>,
    net: &Net<N>,
    bytes: &mut [u8; MOST_BYTES],
) -> usize
    requires id { (site_in node.now).id < net.now.nodes }
    requires site { site_in node.now ≡ site_of net.now (site_in node.now).id }
    ensures spelling { let id = (site_in node.now).id in
        take result bytes.new
        ≡ spelling Tkt2 net.now id (neighbours_of net.now id) (state_of node.now) }
    ensures length { result ≡ 16 + 20 * length (neighbours_of net.now (site_in node.now).id) }
    ensures rest { drop result bytes.new ≡ drop result bytes.old }
    ensures room { result ≤ 1276 }
{
    let numbers = numbers_of(node, net);
    let count = 4 + 2 * numbers.len();
    bytes[..4].copy_from_slice(&FileLayout::Tkt2.magic());
    BigEndian::write_u16_into(&numbers, &mut bytes[4..count]);
    count
}

/// The numbers of a node's file.
fn numbers_of<A: Allocator, N: Allocator + Copy>(node: &NodeState<A>, net: &Net<N>) -> Numbers
    requires id { (site_in node.now).id < net.now.nodes }
    requires site { site_in node.now ≡ site_of net.now (site_in node.now).id }
    ensures numbers { let id = (site_in node.now).id in
        let neighbours = neighbours_of net.now id in
        result.items
        ≡ header_numbers Tkt2 net.now id (length neighbours) (state_of node.now)
        ++ flat_map (port_numbers (state_of node.now)) neighbours }
    ensures count { array_vec_len result
        ≡ 6 + 10 * length (neighbours_of net.now (site_in node.now).id) }
    ensures few { length (neighbours_of net.now (site_in node.now).id) ≤ 63 }
{
    topology_laws::joined();
    topology_laws::neighbours();
    let neighbours = net.neighbours(node.id());
    let mut numbers = Numbers::new();
    let _header = numbers.try_extend_from_slice(&header_numbers(node, net));
    for w in neighbours {
        let _port = numbers.try_extend_from_slice(&port_numbers(node, *w));
    }
    numbers
}

/// The numbers of the network and the node, and its own distance and parent.
fn header_numbers<A: Allocator, N: Allocator + Copy>(node: &NodeState<A>, net: &Net<N>) -> [u16; 6]
    requires { (site_in node.now).id < net.now.nodes }
    ensures numbers { let id = (site_in node.now).id in
        result ≡ header_numbers Tkt2 net.now id (length (neighbours_of net.now id))
        (state_of node.now) }
    ensures few { length (neighbours_of net.now (site_in node.now).id) ≤ 63 }
{
    topology_laws::joined();
    [
        net.nodes(),
        node.id(),
        net.capacity(),
        net.neighbours(node.id()).len() as u16,
        node.distance(),
        parent_number(node.parent()),
    ]
}

/// The numbers of the port to a neighbour.
fn port_numbers<A: Allocator>(node: &NodeState<A>, port: u16) -> [u16; 10]
    requires { port < (site_in node.now).ranges.nodes }
    ensures { result ≡ port_numbers (state_of node.now) port }
{
    let staged = node.staged_for(port);
    let copy = node.copy_of(port);
    [
        port,
        node.seq(port),
        node.last(port),
        staged.distance,
        parent_number(staged.parent),
        staged.ring,
        copy.distance,
        parent_number(copy.parent),
        copy.ring,
        node.value(port),
    ]
}
