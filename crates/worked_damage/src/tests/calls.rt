//! A network, files and calls as rows give them. Rows need nothing of the contracts of these calls;
//! called from here, they do not burden the prover.
ghost use Rattle.std.specs.Prelude.{◌≡◌, ◌<◌};
ghost use Rattle.node_core.specs.Site.{site_of};
ghost use Rattle.node_core.specs.View.{site_in};

use arrayvec::ArrayVec;
use node_core::NodeState;
use node_state_file::{FileFault, MOST_BYTES, StartFault, Store, decode, encode, start};
use std::alloc::{AllocError, Allocator};
use topology::{Net, NetFault};

/// The default state of node 1 of two nodes.
pub const NEWER: &[u8; 36] = b"TKT2\0\x02\0\x01\0\x01\0\x01\0\x02\xff\xff\
    \0\0\0\0\0\0\0\x02\xff\xff\0\0\0\x02\xff\xff\0\0\0\0";

/// The bytes of a state file, in an array that takes no memory.
pub type File = ArrayVec<u8, MOST_BYTES>;

/// Two nodes whose link holds one item; the network, and whatever is done with it, has its memory
/// from this allocator.
pub fn two<A: Allocator + Copy>(alloc: A) -> Result<Net<A>, NetFault> {
    Net::make(alloc, 2, 0, 1, 0, &[(0, 1)])
}

/// The file of a node's state.
pub fn written<A: Allocator>(node: &NodeState<A>, net: &Net, id: u16) -> File
    requires id { id < net.now.nodes }
    requires site { site_in node.now ≡ site_of net.now id }
{
    let mut bytes = [0; MOST_BYTES];
    let count = encode(node, net, &mut bytes);
    let mut file = File::new();
    let _all = file.try_extend_from_slice(&bytes[..count]);
    file
}

/// What bytes are read as for a node of the network: the file of the state, or the fault.
pub fn reread<A: Allocator + Copy>(
    alloc: A,
    bytes: &[u8],
    net: &Net,
    id: u16,
) -> Result<File, FileFault> {
    if id >= net.nodes() {
        return Ok(File::new());
    }
    let node = decode(alloc, bytes, net, id)?;
    Ok(written(&node, net, id))
}

/// The file of the state that a node of the network starts with, and the fault of the start.
pub fn started<A: Allocator + Copy, S: Store>(
    alloc: A,
    store: &mut S,
    net: &Net,
    id: u16,
) -> Result<(File, Option<StartFault>), AllocError> {
    if id >= net.nodes() {
        return Ok((File::new(), None));
    }
    let started = start(alloc, store, net, id)?;
    Ok((written(&started.state, net, id), started.fault))
}
