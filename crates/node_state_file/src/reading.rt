//! Reads bytes as a node's state.
ghost use Rattle.std.specs.Prelude.{◌≡◌, ◌≢◌, ◌≤◌, ◌<◌, ◌+◌, ◌*◌, Ok, Err, Some, IfOk, IfErr, IsTrue};
ghost use Rattle.std.specs.Prelude.{Contains, nat_lt, not, ◌&&◌, ◌==◌, length};
ghost use Rattle.std.specs.List.{list_all};
ghost use Rattle.topology.specs.Network.{neighbours_of};
ghost use Rattle.topology.specs.Ranges.{ranges_of};
ghost use Rattle.topology.specs.At.{at};
ghost use Rattle.state_writing.specs.node_core.Site.{site_of};
ghost use Rattle.state_writing.specs.node_core.State.{default_node};
ghost use Rattle.state_writing.specs.node_core.View.{site_in, state_of};
ghost use Rattle.node_state_file.specs.Reading.{decoded, decoded_as, first_fault, ids_of, ports_in, are_ascending};
ghost use Rattle.node_state_file.specs.Reading.{are_others, fields_fit, found, matched};
ghost use Rattle.node_state_file.specs.Reading.{port_or_new, saved_port_fits};
ghost use Rattle.node_state_file.specs.declared.fault.FileFault.TheVariants.{Memory};

use crate::fault::FileFault;
use crate::layout::{header_length, layout_of};
use crate::saved::{Header, SavedPort};
use arrayvec::ArrayVec;
use state_writing::{FileLayout, NodeState};
use std::alloc::Allocator;
use topology::{Net, Ranges};

/// Reads the state of node `id` of a network. Both layouts are read. The ports to nodes that are no
/// longer neighbours are dropped, a new neighbour's port is as at the start, and the desk is empty.
///
/// # Errors
/// The first of these that holds, in this order: `Short` if there are fewer than 4 bytes; `Magic`;
/// `Short` if there are fewer bytes than the header has; `Shape` if the header has another number
/// of nodes, another capacity or another id, or a degree that no node may have; `Short` if there
/// are fewer bytes than the file's own degree requires; `Shape` if the neighbours are not other
/// nodes in ascending order; `Range`; `Long`. `Memory` may come at any point.
pub fn decode<A: Allocator + Copy, N: Allocator + Copy>(
    alloc: A,
    bytes: &[u8],
    net: &Net<N>,
    id: u16,
) -> Result<NodeState<A>, FileFault>
    requires { id < net.now.nodes }
    ensures ok { IfOk result (λ node. decoded net.now id bytes.now ≡ Ok (state_of node)) }
    ensures site { IfOk result (λ node. site_in node ≡ site_of net.now id) }
    ensures err { IfErr result
        (λ fault. fault ≢ Memory → decoded net.now id bytes.now ≡ Err fault) }
{
    let saved = read_file(bytes, net, id)?;
    let mut node = NodeState::new(alloc, net, id)?;
    restore(&mut node, net, &saved);
    Ok(node)
}

/// What a file says about its node.
#[derive(Drop)]
pub(crate) struct SavedState {
    pub header: Header,
    pub ports: ArrayVec<SavedPort, 63>,
}

/// What a file says about node `id` of a network; all of it is in range.
pub(crate) fn read_file<N: Allocator + Copy>(
    bytes: &[u8],
    net: &Net<N>,
    id: u16,
) -> Result<SavedState, FileFault>
    ensures ok { IfOk result
        (λ saved. decoded net.now id bytes.now
        ≡ Ok (matched net.now id saved.header saved.ports.items)) }
    ensures fits { IfOk result
        (λ saved. IsTrue (fields_fit (ranges_of net.now) saved.header saved.ports.items)) }
    ensures err { IfErr result (λ fault. decoded net.now id bytes.now ≡ Err fault) }
{
    match layout_of(bytes) {
        Some(layout) => read_as(layout, bytes, net, id),
        None if bytes.len() < 4 => Err(FileFault::Short),
        None => Err(FileFault::Magic),
    }
}

/// What a file of this layout says about node `id` of a network; all of it is in range.
fn read_as<N: Allocator + Copy>(
    layout: FileLayout,
    bytes: &[u8],
    net: &Net<N>,
    id: u16,
) -> Result<SavedState, FileFault>
    ensures ok { IfOk result
        (λ saved. decoded_as net.now id bytes.now layout
        (first_fault net.now id layout bytes.now)
        ≡ Ok (matched net.now id saved.header saved.ports.items)) }
    ensures fits { IfOk result
        (λ saved. IsTrue (fields_fit (ranges_of net.now) saved.header saved.ports.items)) }
    ensures err { IfErr result (λ fault. first_fault net.now id layout bytes.now ≡ Some fault) }
{
    if bytes.len() < header_length(layout) {
        return Err(FileFault::Short);
    }
    let header = Header::read(layout, bytes);
    if !header.is_of(net, id) {
        return Err(FileFault::Shape);
    }
    let rest = &bytes[header_length(layout)..];
    let needed = 20 * usize::from(header.degree);
    if rest.len() < needed {
        return Err(FileFault::Short);
    }
    let ports = read_ports(rest, header.degree);
    if !are_others(&ports, net.nodes(), id) {
        return Err(FileFault::Shape);
    }
    if !fields_fit(&header, &ports, net.ranges()) {
        return Err(FileFault::Range);
    }
    if rest.len() > needed {
        return Err(FileFault::Long);
    }
    Ok(SavedState { header, ports })
}

/// The first `count` ports of these bytes.
fn read_ports(bytes: &[u8], count: u16) -> ArrayVec<SavedPort, 63>
    requires most { count ≤ 63 }
    requires there { 20 * count ≤ length bytes.now }
    ensures { result.items ≡ ports_in count bytes.now }
{
    let mut ports = ArrayVec::new();
    for at in 0..usize::from(count) {
        ports.push(SavedPort::read(&bytes[20 * at..]));
    }
    ports
}

/// Whether the ids of the neighbours ascend, and each is another node's.
fn are_others(ports: &[SavedPort], nodes: u16, id: u16) -> bool
    ensures { result ≡ are_others nodes id ports.now }
{
    are_ascending(ports) && are_other_nodes(ports, nodes, id)
}

/// Whether each neighbour's id is below the next.
fn are_ascending(ports: &[SavedPort]) -> bool
    ensures { result ≡ are_ascending (ids_of ports.now) }
{
    for at in 1..ports.len() {
        if ports[at - 1].neighbour >= ports[at].neighbour {
            return false;
        }
    }
    true
}

/// Whether each neighbour is another node of the network.
fn are_other_nodes(ports: &[SavedPort], nodes: u16, id: u16) -> bool
    ensures { result ≡ list_all
        (λ p. nat_lt p.neighbour nodes && not (p.neighbour == id)) ports.now }
{
    ports
        .iter()
        .all(|port| port.neighbour < nodes && port.neighbour != id)
}

/// Whether each field is in its range.
fn fields_fit(header: &Header, ports: &[SavedPort], ranges: Ranges) -> bool
    ensures { result ≡ fields_fit ranges header.now ports.now }
{
    header.fits(ranges) && ports_fit(ports, ranges)
}

/// Whether each field of each port is in its range.
fn ports_fit(ports: &[SavedPort], ranges: Ranges) -> bool
    ensures { result ≡ list_all (saved_port_fits ranges) ports.now }
{
    ports.iter().all(|port| port.fits(ranges))
}

/// The port to a neighbour, if the file has one.
fn found(ports: &[SavedPort], neighbour: u16) -> Option<SavedPort>
    ensures { result ≡ found ports.now neighbour }
{
    for port in ports {
        if port.neighbour == neighbour {
            return Some(*port);
        }
    }
    None
}

/// Writes what a file says into a node that is as at the start.
pub(crate) fn restore<A: Allocator, N: Allocator + Copy>(
    node: &mut NodeState<A>,
    net: &Net<N>,
    saved: &SavedState,
)
    requires id { (site_in node.old).id < net.now.nodes }
    requires site { site_in node.old ≡ site_of net.now (site_in node.old).id }
    requires start { state_of node.old ≡ default_node (ranges_of net.now) }
    requires fits { IsTrue (fields_fit (ranges_of net.now) saved.now.header saved.now.ports.items) }
    ensures state { state_of node.new
        ≡ matched net.now (site_in node.old).id saved.now.header saved.now.ports.items }
    ensures site { site_in node.new ≡ site_in node.old }
{
    let _own = node.set_own(saved.header.distance, saved.header.parent);
    let neighbours = net.neighbours(node.id());
    for neighbour in neighbours {
        if let Some(port) = found(&saved.ports, *neighbour) {
            write_port(node, *neighbour, port);
        }
    }
}

/// Writes a port that is in range.
fn write_port<A: Allocator>(node: &mut NodeState<A>, neighbour: u16, port: SavedPort)
    requires there { Contains (site_in node.old).neighbours neighbour }
    requires fits { IsTrue (saved_port_fits (site_in node.old).ranges port) }
    ensures state { state_of node.new
        ≡ record (state_of node.old) {
          port = at (state_of node.old).port neighbour
              (record { seq = port.seq; last = port.last; staged = port.staged; copy = port.copy });
          value = at (state_of node.old).value neighbour port.value;
        } }
    ensures site { site_in node.new ≡ site_in node.old }
{
    let _counters = node.set_counters(neighbour, port.seq, port.last);
    let _staged = node.set_staged(neighbour, port.staged);
    let _copy = node.set_copy(neighbour, port.copy);
    let _value = node.set_value(neighbour, port.value);
}
