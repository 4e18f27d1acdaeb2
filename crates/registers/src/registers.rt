//! The registers of one node.
ghost use Rattle.std.specs.Prelude.{◌≡◌, ◌↔◌, ◌<◌, ◌≤◌, ℕ, List, IsTrue, IfOk, Bool, IsOk, OnOk};
ghost use Rattle.std.specs.Prelude.{OnErr, Contains, length, nat_lt, not, ◌&&◌, if◌then◌else◌};
ghost use Rattle.std.specs.Prelude.{replicate, slice_index, slice_index_or};
ghost use Rattle.std.specs.Vec.{vec_capacity};
ghost use Rattle.data_link.specs.topology.At.{at};
ghost use Rattle.data_link.specs.topology.Network.{neighbours_of};
ghost use Rattle.data_link.specs.topology.Ranges.{frame_fits, payload_fits, ranges_of};
ghost use Rattle.data_link.specs.Heard.{heard_of};
ghost use Rattle.data_link.specs.Port.{PortState, PortView, counters_fit, default_port, frame_of};
ghost use Rattle.data_link.specs.Port.{port_after};
ghost use Rattle.registers.specs.Registers.{RegistersView, IsRegisters, port_of, port_or_new};
ghost use Rattle.registers.specs.Registers.{value_of};
ghost use Rattle.registers.specs.Rewire.{is_among, rewired_ports, rewired_values};

use data_link::{Frame, Heard, Net, OutOfRange, Payload, Port, Ranges, laws as data_link_laws};
use std::alloc::{AllocError, Allocator, Global};
use std::marker::Model;

/// What a node keeps about every other node: a port to it, and the value of the machine that comes
/// in from it.
#[derive(Drop)]
pub struct Registers<A: Allocator = Global> {
    ranges: Ranges,
    neighbours: Vec<u16, A>,
    ports: Vec<Port, A>,
    values: Vec<u16, A>,
}

impl<A: Allocator> Model for Registers<A> {
    ghost use Rattle.std.specs.Prelude.{◌≤◌};
    ghost use Rattle.std.specs.Vec.{vec_capacity};
    ghost use Rattle.registers.specs.Registers.{RegistersView, IsRegisters};

    ghost Value = { RegistersView };

    ghost view = { λ r. record
        { ranges = r.ranges; neighbours = r.neighbours.items; ports = r.ports.items; values = r.values.items } };

    ghost invariant = { λ r. (r.ranges.nodes ≤ vec_capacity r.neighbours)
        × IsRegisters (record {
          ranges = r.ranges;
          neighbours = r.neighbours.items;
          ports = r.ports.items;
          values = r.values.items;
        }) };
}

impl<A: Allocator + Copy> Registers<A> {
    /// The registers of a node that knows nothing yet. All places are reserved here, also for nodes
    /// that become neighbours later; `AllocError` comes only if that memory is refused.
    pub fn new<N: Allocator + Copy>(
        alloc: A,
        net: &Net<N>,
        id: u16,
    ) -> Result<Registers<A>, AllocError>
        requires { id < net.now.nodes }
        ensures ranges { IfOk result (λ r. r.ranges ≡ ranges_of net.now) }
        ensures neighbours { IfOk result (λ r. r.neighbours ≡ neighbours_of net.now id) }
        // Each port is as at the start, also that of a node that is no neighbour.
        ensures ports { IfOk result (λ r. port_of r ≡ (λ w. default_port (ranges_of net.now))) }
        ensures values { IfOk result (λ r. value_of r ≡ (λ w. 0)) }
    {
        data_link_laws::neighbours();
        let neighbours = with_room(alloc, net.nodes(), net.neighbours(id))?;
        let ports = default_ports(alloc, net)?;
        let values = vec![in alloc; 0u16; usize::from(net.nodes())]?;
        Ok(Registers {
            ranges: net.ranges(),
            neighbours,
            ports,
            values,
        })
    }
}

impl<A: Allocator> Registers<A> {
    /// The ranges of all fields, those of the network.
    pub fn ranges(&self) -> Ranges
        ensures ranges { result ≡ self.now.ranges }
        // All that holds for registers: one port and one value for each node, all in range.
        ensures registers { IsRegisters self.now }
    {
        self.ranges
    }

    /// The ids of the neighbours, ascending.
    pub fn neighbours(&self) -> &[u16]
        ensures neighbours { result.now ≡ self.now.neighbours }
        ensures registers { IsRegisters self.now }
    {
        &self.neighbours
    }

    /// Whether a node is one of the neighbours.
    pub fn is_neighbour(&self, id: u16) -> bool
        ensures neighbour { IsTrue result ↔ Contains self.now.neighbours id }
        ensures node { IsTrue result → id < self.now.ranges.nodes }
    {
        self.neighbours.contains(&id)
    }

    /// The number under which the payload for `port` goes out.
    pub fn seq(&self, port: u16) -> u16
        requires { port < self.now.ranges.nodes }
        ensures seq { result ≡ (port_of self.now port).seq }
    {
        self.ports[port as usize].seq()
    }

    /// The last number that was accepted from `port`.
    pub fn last(&self, port: u16) -> u16
        requires { port < self.now.ranges.nodes }
        ensures last { result ≡ (port_of self.now port).last }
    {
        self.ports[port as usize].last()
    }

    /// What the node says to `port`, until that neighbour has it.
    pub fn staged_for(&self, port: u16) -> Payload
        requires { port < self.now.ranges.nodes }
        ensures staged { result ≡ (port_of self.now port).staged }
    {
        self.ports[port as usize].staged()
    }

    /// What `port` said last.
    pub fn copy_of(&self, port: u16) -> Payload
        requires { port < self.now.ranges.nodes }
        ensures copy { result ≡ (port_of self.now port).copy }
        // Every field of it is in its range.
        ensures fits { IsTrue (payload_fits self.now.ranges result) }
    {
        self.ports[port as usize].copy()
    }

    /// The value of the machine that comes in from `port`.
    pub fn value(&self, port: u16) -> u16
        requires { port < self.now.ranges.nodes }
        ensures value { result ≡ value_of self.now port }
        // It is below the modulus of the ring values.
        ensures below { result < self.now.ranges.ring }
    {
        self.values[port as usize]
    }

    /// The frame to send to `port`.
    pub fn frame_for(&self, port: u16) -> Frame
        requires { port < self.now.ranges.nodes }
        ensures frame { result ≡ frame_of (port_of self.now port) }
        // Every field of it is in its range.
        ensures fits { IsTrue (frame_fits self.now.ranges result) }
    {
        self.ports[port as usize].frame()
    }

    /// Takes a frame from the neighbour `port`; `present` is what the node had to say to it before
    /// the frame. No other port changes.
    #[inline(always)]
    pub fn hear(&mut self, port: u16, frame: &Frame, present: Payload) -> Heard
        requires neighbour { Contains self.old.neighbours port }
        requires frame_fits { IsTrue (frame_fits self.old.ranges frame.now) }
        requires present_fits { IsTrue (payload_fits self.old.ranges present) }
        ensures port { port_of self.new
            ≡ at (port_of self.old) port
            (port_after self.old.ranges.counter (port_of self.old port) frame.now present) }
        // Neighbours, ranges and values stay.
        ensures rest { self.new ≡ record self.old { ports = self.new.ports } }
        ensures heard { result ≡ heard_of (port_of self.old port) frame.now }
    {
        data_link_laws::ports();
        self.ports[port as usize].on_frame(frame, present)
    }

    /// Writes the value of the machine that comes in from the neighbour `port`, as a move of that
    /// machine does. No other value changes.
    pub fn write_value(&mut self, port: u16, value: u16)
        requires neighbour { Contains self.old.neighbours port }
        requires below { value < self.old.ranges.ring }
        ensures value { value_of self.new ≡ at (value_of self.old) port value }
        // Neighbours, ranges and ports stay.
        ensures rest { self.new ≡ record self.old { values = self.new.values } }
    {
        self.values[port as usize] = value;
    }

    /// Writes the value of the machine that comes in from the neighbour `port`. `OutOfRange` comes
    /// exactly if it is not below the ring values' modulus.
    pub fn set_value(&mut self, port: u16, value: u16) -> Result<(), OutOfRange>
        requires { Contains self.old.neighbours port }
        // It is written exactly if it is in range.
        ensures variant { IsOk result ↔ (value < self.old.ranges.ring) }
        ensures value { OnOk result (value_of self.new ≡ at (value_of self.old) port value) }
        // Neighbours, ranges and ports stay.
        ensures rest { self.new ≡ record self.old { values = self.new.values } }
        ensures out_of_range { OnErr result (self.new ≡ self.old) }
    {
        if value >= self.ranges.ring {
            return Err(OutOfRange);
        }
        self.write_value(port, value);
        Ok(())
    }

    /// Writes both numbers of the neighbour `port`. `OutOfRange` comes exactly if one is not
    /// below the counters' modulus.
    pub fn set_counters(&mut self, port: u16, seq: u16, last: u16) -> Result<(), OutOfRange>
        requires { Contains self.old.neighbours port }
        // It is written exactly if it is in range.
        ensures variant { IsOk result ↔ IsTrue (counters_fit self.old.ranges seq last) }
        ensures port { OnOk result (port_of self.new
            ≡ at (port_of self.old) port
            (record (port_of self.old port) { seq = seq; last = last })) }
        // Neighbours, ranges and values stay.
        ensures rest { self.new ≡ record self.old { ports = self.new.ports } }
        ensures out_of_range { OnErr result (self.new ≡ self.old) }
    {
        self.ports[port as usize].set_counters(seq, last)
    }

    /// Writes the staged payload for the neighbour `port`. `OutOfRange` comes exactly if a field
    /// of it is not in its range.
    pub fn set_staged(&mut self, port: u16, payload: Payload) -> Result<(), OutOfRange>
        requires { Contains self.old.neighbours port }
        // It is written exactly if it is in range.
        ensures variant { IsOk result ↔ IsTrue (payload_fits self.old.ranges payload) }
        ensures port { OnOk result (port_of self.new
            ≡ at (port_of self.old) port (record (port_of self.old port) { staged = payload })) }
        // Neighbours, ranges and values stay.
        ensures rest { self.new ≡ record self.old { ports = self.new.ports } }
        ensures out_of_range { OnErr result (self.new ≡ self.old) }
    {
        self.ports[port as usize].set_staged(payload)
    }

    /// Writes the copy of what the neighbour `port` said last. `OutOfRange` comes exactly if a
    /// field of it is not in its range.
    pub fn set_copy(&mut self, port: u16, payload: Payload) -> Result<(), OutOfRange>
        requires { Contains self.old.neighbours port }
        // It is written exactly if it is in range.
        ensures variant { IsOk result ↔ IsTrue (payload_fits self.old.ranges payload) }
        ensures port { OnOk result (port_of self.new
            ≡ at (port_of self.old) port (record (port_of self.old port) { copy = payload })) }
        // Neighbours, ranges and values stay.
        ensures rest { self.new ≡ record self.old { ports = self.new.ports } }
        ensures out_of_range { OnErr result (self.new ≡ self.old) }
    {
        self.ports[port as usize].set_copy(payload)
    }

    /// Takes up the neighbours that node `id` has in a network of the same ranges: the port and the
    /// value of a neighbour that stays are kept whole, and those of a new one and of one that is
    /// gone are as at the start.
    pub fn rewire<N: Allocator + Copy>(&mut self, net: &Net<N>, id: u16)
        requires node { id < net.now.nodes }
        requires same_ranges { ranges_of net.now ≡ self.old.ranges }
        ensures ranges { self.new.ranges ≡ self.old.ranges }
        ensures neighbours { self.new.neighbours ≡ neighbours_of net.now id }
        ensures ports { port_of self.new
            ≡ rewired_ports self.old.ranges self.old.neighbours (neighbours_of net.now id)
            (port_of self.old) }
        ensures values { value_of self.new
            ≡ rewired_values self.old.neighbours (neighbours_of net.now id) (value_of self.old) }
    {
        data_link_laws::neighbours();
        let neighbours = net.neighbours(id);
        let nodes = net.nodes();
        write_ids(&mut self.neighbours, neighbours);
        reset_others(&mut self.ports, nodes, neighbours);
        clear_others(&mut self.values, nodes, neighbours);
    }
}

/// Replaces the ids of the list by these.
fn write_ids<A: Allocator>(list: &mut Vec<u16, A>, ids: &[u16])
    requires { length ids.now ≤ vec_capacity list.old }
    ensures ids { list.new.items ≡ ids.now }
    ensures room { vec_capacity list.new ≡ vec_capacity list.old }
{
    list.clear();
    for id in ids {
        list.push_reserved(*id);
    }
}

/// Whether a node is one of the neighbours.
fn is_among(neighbours: &[u16], id: u16) -> bool
    ensures { result ≡ is_among neighbours.now id }
{
    neighbours.iter().any(|neighbour| *neighbour == id)
}

/// Resets each port that is no neighbour's to what it was at the start.
fn reset_others(ports: &mut [Port], nodes: u16, neighbours: &[u16])
    requires { length ports.old ≡ nodes }
    ensures length { length ports.new ≡ length ports.old }
    ensures each { (w : ℕ) (d : PortView)
        → slice_index_or ports.new w d
        ≡ port_or_new (nat_lt w nodes && not (is_among neighbours.now w))
        (slice_index_or ports.old w d) }
{
    for w in 0..nodes {
        if !is_among(neighbours, w) {
            ports[usize::from(w)].reset();
        }
    }
}

/// Sets each value that comes in from no neighbour to 0.
fn clear_others(values: &mut [u16], nodes: u16, neighbours: &[u16])
    requires { length values.old ≡ nodes }
    ensures length { length values.new ≡ length values.old }
    ensures each { (w : ℕ)
        → slice_index values.new w
        ≡ (if nat_lt w nodes && not (is_among neighbours.now w)
        then 0 else slice_index values.old w) }
{
    for w in 0..nodes {
        if !is_among(neighbours, w) {
            values[usize::from(w)] = 0;
        }
    }
}

/// The ids, in a list with room for `nodes` of them.
fn with_room<A: Allocator>(alloc: A, nodes: u16, ids: &[u16]) -> Result<Vec<u16, A>, AllocError>
    ensures ids { IfOk result (λ copied. copied.items ≡ ids.now) }
    ensures room { IfOk result (λ copied. nodes ≤ vec_capacity copied) }
{
    let mut copied = Vec::with_capacity(alloc, usize::from(nodes))?;
    copied.extend_from_slice(ids)?;
    Ok(copied)
}

/// For each node, a port that knows nothing yet.
fn default_ports<A: Allocator, N: Allocator + Copy>(
    alloc: A,
    net: &Net<N>,
) -> Result<Vec<Port, A>, AllocError>
    ensures { IfOk result (λ ports. ports.items
        ≡ replicate net.now.nodes
        (record { ranges = ranges_of net.now; state = default_port (ranges_of net.now) })) }
{
    let mut ports = Vec::with_capacity(alloc, usize::from(net.nodes()))?;
    for _ in 0..net.nodes() {
        ports.push_reserved(Port::new(net));
    }
    Ok(ports)
}
