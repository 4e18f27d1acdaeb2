//! The memory for a node's connections.
ghost use Rattle.std.specs.Prelude.{◌≡◌, ℕ, IfOk, [], false, length};
ghost use Rattle.node_connections.specs.Clients.{is_connected};
ghost use Rattle.node_connections.specs.Loose.{AreLoose};

use crate::clients::Clients;
use crate::lobby::Lobby;
use crate::port::NodePort;
use socket_links::Pipe;
use std::alloc::{AllocError, Allocator};

/// The memory of a node that runs, in a network of a known number of nodes.
pub type Reserved<P, A> = (Vec<NodePort<P>, A>, Lobby<P, A>, Clients<P, A>);

/// Reserves the memory of a node that runs in a network of this many nodes, 0 to 65535. `AllocError`
/// comes only if it is refused.
pub fn reserve<P: Pipe, A: Allocator + Copy>(
    alloc: A,
    nodes: u16,
) -> Result<Reserved<P, A>, AllocError>
    ensures nodes { IfOk result (λ reserved. length reserved.0.items ≡ nodes) }
    ensures alone { IfOk result (λ reserved. AreLoose [] reserved.0.items
        × ((t : ℕ) → is_connected reserved.2 t ≡ false)) }
{
    let mut ports = Vec::with_capacity(alloc, nodes as usize)?;
    for _ in 0..nodes {
        ports.push_reserved(NodePort::new());
    }
    Ok((ports, Lobby::new(alloc)?, Clients::new(alloc)?))
}
