//! How a network is made: read from TOML, made from values, or copied.
ghost use Rattle.std.specs.Prelude.{◌≡◌, ◌≤◌, IfOk, IfErr, OnOk, length, map, ℤ, pos, ◌≤ℤ◌};
ghost use Rattle.std.specs.Prelude.{false, None, Some};
ghost use Rattle.std.specs.Vec.{vec_capacity};
ghost use Rattle.topology.specs.Network.{network_by, IsAcceptedNetwork, IsWithinLimits};
ghost use Rattle.topology.specs.Refusal.{values_by, value_fault, as_ends, has_bad_end};
ghost use Rattle.topology.specs.Accept.{IsAccepted, IsRefused, IsNotJoined};
ghost use Rattle.topology.specs.ReadNet.{IsReadFrom, IsUnread};

use crate::fault::NetFault;
use crate::file::read_values;
use crate::graph::{MOST_EDGES, copy_edges};
use crate::layout::Layout;
use crate::net::Net;
use crate::values::{has_bad_end, has_double, has_loop, is_outside};
use std::alloc::{AllocError, Allocator, Global};

impl Net {
    /// Reads a network from the five keys `nodes`, `root`, `capacity`, `lease` and `edges` of a
    /// TOML text; other keys are ignored.
    ///
    /// # Errors
    /// The first [`NetFault`] that the text has, in the order of the variants; `Memory` if memory
    /// ran out on the way.
    pub fn read(alloc: Global, text: &str) -> Result<Net, NetFault>
        // The network that the text's values make, or else the first fault that holds.
        ensures ok { IfOk result (IsReadFrom text.now) }
        ensures err { IfErr result (IsUnread text.now) }
    {
        let values = read_values(alloc, text)?;
        Net::make(
            alloc,
            values.nodes,
            values.root,
            values.capacity,
            values.lease,
            values.edges.as_slice(),
        )
    }
}

impl<A: Allocator + Copy> Net<A> {
    /// Makes a network from values, as a file would give them.
    ///
    /// # Errors
    /// The first [`NetFault`] from `TooSmall` on that the values have, in the order of the
    /// variants; `Memory` if memory ran out on the way.
    pub fn make(
        alloc: A,
        nodes: i64,
        root: i64,
        capacity: i64,
        lease: i64,
        edges: &[(i64, i64)],
    ) -> Result<Net<A>, NetFault>
        ensures ok { IfOk result (IsAccepted (values_by nodes root capacity lease edges.now)) }
        ensures err { IfErr result (IsRefused (values_by nodes root capacity lease edges.now)) }
    {
        check_values(nodes, root, capacity, lease, edges)?;
        let narrowed = narrow_edges(alloc, nodes, edges)?;
        let node_count = narrow(nodes);
        let root_id = narrow(root);
        let places = narrow(capacity);
        let ticks = narrow(lease);
        Net::lay_out(alloc, node_count, root_id, places, ticks, narrowed)
    }

    /// The network of values that are each valid, unless the graph is not connected.
    fn lay_out(
        alloc: A,
        nodes: u16,
        root: u16,
        capacity: u16,
        lease: u16,
        edges: Vec<(u16, u16), A>,
    ) -> Result<Net<A>, NetFault>
        requires limits { IsWithinLimits (network_by nodes root capacity lease edges.items) }
        requires room { 256 ≤ vec_capacity edges }
        ensures ok { IfOk result (λ net. (net ≡ network_by nodes root capacity lease edges.items)
            × IsAcceptedNetwork net) }
        ensures err { IfErr result (IsNotJoined (network_by nodes root capacity lease edges.items)) }
    {
        let layout = Layout::new(alloc, nodes, edges.as_slice(), root)?;
        if layout.has_unreached() {
            return Err(NetFault::Apart);
        }
        Ok(Net {
            nodes,
            root,
            capacity,
            lease,
            edges,
            layout,
        })
    }

    /// An equal network, over any allocator.
    ///
    /// # Errors
    /// If memory runs out.
    pub fn copy<B: Allocator + Copy>(&self, alloc: B) -> Result<Net<B>, AllocError>
        ensures { IfOk result (λ net. net ≡ self.now) }
    {
        let edges = copy_edges(alloc, self.edges.as_slice())?;
        let layout = Layout::new(alloc, self.nodes, self.edges.as_slice(), self.root)?;
        Ok(Net {
            nodes: self.nodes,
            root: self.root,
            capacity: self.capacity,
            lease: self.lease,
            edges,
            layout,
        })
    }
}

/// Returns the first fault of the values, if they have any; does not check whether the graph is
/// connected.
fn check_values(
    nodes: i64,
    root: i64,
    capacity: i64,
    lease: i64,
    edges: &[(i64, i64)],
) -> Result<(), NetFault>
    ensures allowed { OnOk result (value_fault (values_by nodes root capacity lease edges.now)
        ≡ None) }
    ensures refused { IfErr result (λ fault.
        value_fault (values_by nodes root capacity lease edges.now) ≡ Some fault) }
{
    if nodes < 2 {
        return Err(NetFault::TooSmall);
    }
    if nodes > 64 || edges.len() > MOST_EDGES {
        return Err(NetFault::TooBig);
    }
    if is_outside(nodes, root) {
        return Err(NetFault::BadRoot);
    }
    if capacity < 1 || capacity > 4096 {
        return Err(NetFault::BadCapacity);
    }
    if lease < 0 || lease > 65535 {
        return Err(NetFault::BadLease);
    }
    if has_bad_end(nodes, edges) {
        return Err(NetFault::BadEdge);
    }
    if has_loop(edges) {
        return Err(NetFault::LoopEdge);
    }
    if has_double(edges) {
        return Err(NetFault::DoubleEdge);
    }
    Ok(())
}

/// The same number in 16 bits, into which it fits.
fn narrow(number: i64) -> u16
    requires low { pos 0 ≤ℤ number }
    requires high { number ≤ℤ pos 65535 }
    ensures { number ≡ pos result }
{
    number as u16
}

/// The edges, whose ends are node ids, in 16 bits; with room for as many edges as there may be.
fn narrow_edges<A: Allocator + Copy>(
    alloc: A,
    nodes: i64,
    edges: &[(i64, i64)],
) -> Result<Vec<(u16, u16), A>, AllocError>
    requires few { nodes ≤ℤ pos 64 }
    requires few_edges { length edges.now ≤ 256 }
    requires ends_in { has_bad_end nodes edges.now ≡ false }
    ensures edges { IfOk result (λ narrow. map as_ends narrow.items ≡ edges.now) }
    ensures room { IfOk result (λ narrow. 256 ≤ vec_capacity narrow) }
{
    let mut narrow = Vec::with_capacity(alloc, MOST_EDGES)?;
    for edge in edges {
        narrow.push_reserved((edge.0 as u16, edge.1 as u16));
    }
    Ok(narrow)
}
