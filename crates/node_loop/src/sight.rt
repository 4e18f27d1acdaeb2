//! What the pace of a node sees: the state of its desk, and what there is to say at its ports.
ghost use Rattle.std.specs.Prelude.{◌≡◌, ◌<◌, ◌≤◌, ℕ, IsTrue, Contains, length, slice_index_or};
ghost use Rattle.euler_ring.specs.Cycle.{is_on};
ghost use Rattle.node_core.specs.Machines.{tree_of};
ghost use Rattle.node_core.specs.Site.{site_of};
ghost use Rattle.node_core.specs.View.{site_in, state_of};
ghost use Rattle.pace.specs.Plans.{is_tree, sight_of};
ghost use Rattle.node_loop.specs.Speaking.{outlook_of, sight_at};

use euler_ring::{TreeNeighbours, tree_neighbours};
use node_connections::Pipe;
use node_connections::port::NodePort;
use node_core::Node;
use pace::{Outlook, PortSight};
use std::alloc::Allocator;
use topology::{Frame, Net, Payload, laws as topology_laws};

/// The most nodes of a network.
pub(crate) const NODES: usize = 64;

/// The state of the node's desk.
pub(crate) fn outlook<A: Allocator>(node: &Node<A>, let_go: bool) -> Outlook
    ensures { result ≡ outlook_of node.now let_go }
{
    Outlook {
        waits: node.waiting() > 0,
        lends: node.lent().is_some(),
        has_lease: node.lease() > 0,
        let_go,
    }
}

/// The neighbours on the tree, as far as the node knows.
fn tree<A: Allocator>(node: &Node<A>, net: &Net) -> TreeNeighbours
    requires id { (site_in node.now).id < net.now.nodes }
    requires site { site_in node.now ≡ site_of net.now (site_in node.now).id }
    ensures tree { result ≡ tree_of (site_in node.now) (state_of node.now) }
    ensures neighbours { (w : ℕ) → IsTrue (is_on result w)
        → Contains (site_in node.now).neighbours w }
{
    topology_laws::joined();
    topology_laws::neighbours();
    topology_laws::limits();
    let _known = net.nodes();
    let copied_parent = |w: u16| -> Option<u16>
        requires { w < (site_in node.now).ranges.nodes }
        ensures { result ≡ ((state_of node.entry.now).port w).copy.parent }
    { node.copy_of(w).parent };
    tree_neighbours(node.parent(), node.id(), node.neighbours(), copied_parent)
}

/// The node's neighbours: each is a node of the network, so its id is below 64.
fn neighbours<'a, A: Allocator>(node: &'a Node<A>, net: &Net) -> &'a [u16]
    requires { site_in node.now ≡ site_of net.now (site_in node.now).id }
    ensures neighbours { result.now ≡ (site_in node.now).neighbours }
    ensures within { (i : ℕ) → i < length result.now → (slice_index_or result.now i 0 < 64)
        × (slice_index_or result.now i 0 < (site_in node.now).ranges.nodes) }
{
    topology_laws::neighbours();
    topology_laws::limits();
    let _known = net.nodes();
    node.neighbours()
}

/// Whether each node is a tree neighbour, by id.
pub(crate) fn trees<A: Allocator>(node: &Node<A>, net: &Net) -> [bool; NODES]
    requires id { (site_in node.now).id < net.now.nodes }
    requires site { site_in node.now ≡ site_of net.now (site_in node.now).id }
    ensures { (w : ℕ) → w < 64
        → is_tree result w ≡ is_on (tree_of (site_in node.now) (state_of node.now)) w }
{
    let tree = tree(node, net);
    let mut trees = [false; NODES];
    for w in neighbours(node, net) {
        trees[*w as usize] = tree.contains(*w);
    }
    trees
}

/// The values of the machines that come in from the neighbours, by id; 0 for all other nodes.
pub(crate) fn values<A: Allocator>(node: &Node<A>, net: &Net) -> [u16; NODES]
    requires id { (site_in node.now).id < net.now.nodes }
    requires site { site_in node.now ≡ site_of net.now (site_in node.now).id }
    ensures neighbours { (w : ℕ) → w < 64 → Contains (site_in node.now).neighbours w
        → slice_index_or result w 0 ≡ (state_of node.now).value w }
    ensures others { (w : ℕ) → ¬ Contains (site_in node.now).neighbours w
        → slice_index_or result w 0 ≡ 0 }
{
    let mut values = [0; NODES];
    for w in neighbours(node, net) {
        values[*w as usize] = node.value(*w);
    }
    values
}

/// What there is to say to the neighbours, by id.
pub(crate) fn sights<P: Pipe, A: Allocator>(
    node: &Node<A>,
    net: &Net,
    ports: &[NodePort<P>],
) -> [PortSight; NODES]
    requires id { (site_in node.now).id < net.now.nodes }
    requires site { site_in node.now ≡ site_of net.now (site_in node.now).id }
    requires ports { (length ports.now ≡ net.now.nodes) × (length ports.now ≤ 64) }
    ensures { (w : ℕ) → w < 64 → Contains (site_in node.now).neighbours w
        → sight_of result w ≡ sight_at node.now ports.now w }
{
    let mut sights = [no_sight(); NODES];
    for w in neighbours(node, net) {
        sights[*w as usize] = PortSight {
            takes_frames: ports[*w as usize].takes_frames(),
            frame: node.frame_for(*w),
            present: node.payload_for(*w),
        };
    }
    sights
}

/// A port without a connection.
fn no_sight() -> PortSight {
    let blank = Payload {
        distance: 0,
        parent: None,
        ring: 0,
    };
    PortSight {
        takes_frames: false,
        frame: Frame {
            seq: 0,
            ack: 0,
            payload: blank,
        },
        present: blank,
    }
}
