//! A node whose memory is damaged.
ghost use Rattle.std.specs.Prelude.{◌≡◌, ◌<◌, IsTrue, Contains};
ghost use Rattle.topology.specs.Network.{neighbours_of};
ghost use Rattle.topology.specs.Ranges.{payload_fits, ranges_of};
ghost use Rattle.run_model.specs.data_link.Port.{counters_fit};
ghost use Rattle.run_model.specs.node_core.Site.{site_of};
ghost use Rattle.run_model.specs.node_core.View.{site_in, state_of};
ghost use Rattle.damage_tool.specs.Scrambled.{node_scrambled, port_written};

use crate::draws::{PortDraw, draw_parent, draw_port, draw_to};
use rand_pcg::Lcg64Xsh32;
use run_model::NodeState;
use std::alloc::Allocator;
use topology::Net;

/// Writes what was drawn for a port, which is in range.
fn write_port<A: Allocator>(node: &mut NodeState<A>, port: u16, drawn: PortDraw)
    requires there { Contains (site_in node.old).neighbours port }
    requires counters { IsTrue (counters_fit (site_in node.old).ranges drawn.seq drawn.last) }
    requires staged { IsTrue (payload_fits (site_in node.old).ranges drawn.staged) }
    requires copy { IsTrue (payload_fits (site_in node.old).ranges drawn.copy) }
    requires value { drawn.value < (site_in node.old).ranges.ring }
    ensures state { state_of node.new ≡ port_written port drawn (state_of node.old) }
    ensures site { site_in node.new ≡ site_in node.old }
{
    let _counters = node.set_counters(port, drawn.seq, drawn.last);
    let _staged = node.set_staged(port, drawn.staged);
    let _copy = node.set_copy(port, drawn.copy);
    let _value = node.set_value(port, drawn.value);
}

/// Writes all that a node keeps but its desk: its distance and parent, and then each port with its
/// machine's value, by ascending neighbour. The node must be one of the network's.
pub fn scramble_node<A: Allocator, N: Allocator + Copy>(
    node: &mut NodeState<A>,
    net: &Net<N>,
    generator: &mut Lcg64Xsh32,
)
    requires id { (site_in node.old).id < net.now.nodes }
    requires site { site_in node.old ≡ site_of net.now (site_in node.old).id }
    // It is what the generator's next words say.
    ensures scrambled { let neighbours = neighbours_of net.now (site_in node.old).id in
        (state_of node.new, generator.new)
        ≡ node_scrambled (ranges_of net.now) neighbours (state_of node.old) generator.old }
    ensures site { site_in node.new ≡ site_in node.old }
{
    let ranges = node.ranges();
    let distance = draw_to(generator, ranges.nodes);
    let parent = draw_parent(ranges, generator);
    let _own = node.set_own(distance, parent);
    let neighbours = net.neighbours(node.id());
    for port in neighbours {
        let drawn = draw_port(ranges, generator);
        write_port(node, *port, drawn);
    }
}
