//! One node.
ghost use Rattle.std.specs.Prelude.{◌≡◌, ◌↔◌, ◌<◌, ◌≤◌, ℕ, Bool, true, false, not, List, IsTrue};
ghost use Rattle.std.specs.Prelude.{IfOk, IfErr, IsOk, OnOk, OnErr, Some, None, is_none, Contains};
ghost use Rattle.std.specs.Prelude.{length, take, drop};
ghost use Rattle.registers.specs.topology.At.{at};
ghost use Rattle.registers.specs.topology.Network.{neighbours_of};
ghost use Rattle.registers.specs.topology.Ranges.{frame_fits, payload_fits, parent_fits, ranges_of};
ghost use Rattle.registers.specs.data_link.Port.{counters_fit, frame_of};
ghost use Rattle.lock_desk.specs.Desk.{ask_fault, asked, is_stranger, after_leave, loan_fits};
ghost use Rattle.lock_desk.specs.Desk.{with_loan};
ghost use Rattle.lock_desk.specs.Act.{desk_act};
ghost use Rattle.lock_desk.specs.Queue.{queue_fits, with_queue};
ghost use Rattle.node_core.specs.Site.{site_of};
ghost use Rattle.node_core.specs.State.{IsNodeInRange, default_node};
ghost use Rattle.node_core.specs.Writes.{own_fits, with_port};
ghost use Rattle.node_core.specs.Machines.{is_node_privileged, payload_for};
ghost use Rattle.node_core.specs.Step.{desk_done, machines_moved, recomputed, taken, ticked};
ghost use Rattle.node_core.specs.Rewire.{rewired};
ghost use Rattle.node_core.specs.Status.{status_line};
ghost use Rattle.node_core.specs.View.{NodeView, site_in, state_of};

use crate::machines::{move_machines, ring_towards, some_may_copy, some_may_move, tree};
use crate::own::new_own;
use crate::status::{STATUS_BYTES, StatusText, push_number, push_number_or_none, push_yes_or_no};
use crate::ticked::Ticked;
use data_link::Item;
use lock_desk::{AskFault, Desk, Stranger};
use registers::{Frame, Net, OutOfRange, Payload, Ranges, Registers};
use std::alloc::{AllocError, Allocator, Global};
use std::marker::Model;

/// One node of the network, with all that it keeps.
#[derive(Drop)]
pub struct Node<A: Allocator = Global> {
    id: u16,
    is_root: bool,
    distance: u16,
    parent: Option<u16>,
    registers: Registers<A>,
    desk: Desk<A>,
}

/// Another name for a node, seen as the state that a file or a fault may write.
pub type NodeState<A = Global> = Node<A>;

impl<A: Allocator> Model for Node<A> {
    ghost use Rattle.node_core.specs.Machines.{is_node_privileged, payload_for};
    ghost use Rattle.node_core.specs.Step.{desk_done, item_fits, machines_moved, recomputed, taken};
    ghost use Rattle.node_core.specs.Step.{ticked};
    ghost use Rattle.node_core.specs.View.{NodeView, IsOwnInRange};

    ghost Value = { NodeView };

    ghost view = { λ n. record
        { id = n.id; is_root = n.is_root; distance = n.distance; parent = n.parent; registers = n.registers; desk = n.desk } };

    ghost invariant = { λ n. IsOwnInRange
        (record {
          id = n.id;
          is_root = n.is_root;
          distance = n.distance;
          parent = n.parent;
          registers = n.registers;
          desk = n.desk;
        }) };
}

impl<A: Allocator + Copy> Node<A> {
    /// A node that knows nothing yet: the greatest distance, no parent, zeros, and an empty desk.
    /// All memory that a node ever needs is reserved here; `AllocError` comes only if that is
    /// refused.
    pub fn new<N: Allocator + Copy>(alloc: A, net: &Net<N>, id: u16) -> Result<Node<A>, AllocError>
        requires { id < net.now.nodes }
        ensures site { IfOk result (λ node. site_in node ≡ site_of net.now id) }
        ensures state { IfOk result (λ node. state_of node ≡ default_node (ranges_of net.now)) }
    {
        let is_root = id == net.root();
        let distance = net.nodes();
        let registers = Registers::new(alloc, net, id)?;
        let desk = Desk::new(alloc, net.lease())?;
        Ok(Node {
            id,
            is_root,
            distance,
            parent: None,
            registers,
            desk,
        })
    }
}

impl<A: Allocator> Node<A> {
    /// The node's id.
    pub fn id(&self) -> u16
        ensures { result ≡ (site_in self.now).id }
    {
        self.id
    }

    /// Whether the node is the root.
    pub fn is_root(&self) -> bool
        ensures { result ≡ (site_in self.now).is_root }
    {
        self.is_root
    }

    /// The ranges of its fields.
    pub fn ranges(&self) -> Ranges
        ensures ranges { result ≡ (site_in self.now).ranges }
        ensures in_range { IsNodeInRange (site_in self.now) (state_of self.now) }
    {
        let _known_lease = self.desk.lease();
        self.registers.ranges()
    }

    /// How many ticks a loan is for; 0 is no limit.
    pub fn lease(&self) -> u16
        ensures { result ≡ (site_in self.now).lease }
    {
        self.desk.lease()
    }

    /// The ids of its neighbours, ascending.
    pub fn neighbours(&self) -> &[u16]
        ensures { result.now ≡ (site_in self.now).neighbours }
    {
        self.registers.neighbours()
    }

    /// Whether a node is one of its neighbours.
    pub fn is_neighbour(&self, id: u16) -> bool
        ensures neighbour { IsTrue result ↔ Contains (site_in self.now).neighbours id }
        ensures node { IsTrue result → id < (site_in self.now).ranges.nodes }
    {
        self.registers.is_neighbour(id)
    }

    /// Its distance from the root, as far as it knows: 0 to the number of nodes.
    pub fn distance(&self) -> u16
        ensures { result ≡ (state_of self.now).distance }
    {
        self.distance
    }

    /// The node that it takes for its parent on the tree, if any.
    pub fn parent(&self) -> Option<u16>
        ensures { result ≡ (state_of self.now).parent }
    {
        self.parent
    }

    /// The number under which the payload for `port` goes out.
    pub fn seq(&self, port: u16) -> u16
        requires { port < (site_in self.now).ranges.nodes }
        ensures { result ≡ ((state_of self.now).port port).seq }
    {
        self.registers.seq(port)
    }

    /// The last number that was accepted from `port`.
    pub fn last(&self, port: u16) -> u16
        requires { port < (site_in self.now).ranges.nodes }
        ensures { result ≡ ((state_of self.now).port port).last }
    {
        self.registers.last(port)
    }

    /// What it says to `port`, until that neighbour has it.
    pub fn staged_for(&self, port: u16) -> Payload
        requires { port < (site_in self.now).ranges.nodes }
        ensures { result ≡ ((state_of self.now).port port).staged }
    {
        self.registers.staged_for(port)
    }

    /// What `port` said last.
    pub fn copy_of(&self, port: u16) -> Payload
        requires { port < (site_in self.now).ranges.nodes }
        ensures { result ≡ ((state_of self.now).port port).copy }
    {
        self.registers.copy_of(port)
    }

    /// The value of the machine that comes in from `port`.
    pub fn value(&self, port: u16) -> u16
        requires { port < (site_in self.now).ranges.nodes }
        ensures { result ≡ (state_of self.now).value port }
    {
        self.registers.value(port)
    }

    /// The ticket that the lock is lent to, if any.
    pub fn lent(&self) -> Option<u16>
        ensures { result ≡ (state_of self.now).desk.lent }
    {
        self.desk.lent()
    }

    /// How many further ticks the loan outlasts at most if there is a lease.
    pub fn left(&self) -> u16
        ensures { result ≡ (state_of self.now).desk.left }
    {
        self.desk.left()
    }

    /// Whether the desk is marked as one whose loan ended since the last full tick; damage may have
    /// written that mark. If so, no ask, leave or tick begins a loan until a full tick is over.
    pub fn served(&self) -> bool
        ensures { result ≡ (state_of self.now).desk.served }
    {
        self.desk.served()
    }

    /// How many tickets wait, at most 64.
    pub fn waiting(&self) -> usize
        ensures waiting { result ≡ length (state_of self.now).desk.waiting }
        ensures most { result ≤ 64 }
    {
        self.desk.waiting()
    }

    /// The tickets that wait, the next one first.
    pub fn tickets(&self) -> &[u16]
        ensures { result.now ≡ (state_of self.now).desk.waiting }
    {
        self.desk.tickets()
    }

    /// The frame to send to `port`.
    pub fn frame_for(&self, port: u16) -> Frame
        requires { port < (site_in self.now).ranges.nodes }
        ensures frame { result ≡ frame_of ((state_of self.now).port port) }
        // Every field of it is in its range.
        ensures fits { IsTrue (frame_fits (site_in self.now).ranges result) }
    {
        self.registers.frame_for(port)
    }

    /// A client's ticket asks for the lock. Refused as `Full` if 64 tickets wait, and otherwise as
    /// `Twice` if this one waits or the lock is lent to it; then nothing has changed.
    pub fn ask(&mut self, ticket: u16) -> Result<(), AskFault>
        // It is accepted exactly if nothing forbids it; else the first fault is reported.
        ensures accepted { OnOk result (ask_fault ticket (state_of self.old).desk ≡ None) }
        ensures asked { OnOk result (state_of self.new
            ≡ record (state_of self.old) { desk = asked ticket (state_of self.old).desk }) }
        ensures refused { IfErr result (λ fault. ask_fault ticket (state_of self.old).desk
            ≡ Some fault) }
        ensures unchanged { OnErr result (self.new ≡ self.old) }
        // A node keeps its place in the network, whatever it is asked.
        ensures site { site_in self.new ≡ site_in self.old }
    {
        self.desk.ask(ticket)
    }

    /// A client's ticket gives the lock back, or waits no longer. Refused if it does neither;
    /// then nothing has changed.
    pub fn leave(&mut self, ticket: u16) -> Result<(), Stranger>
        // Exactly a stranger, who neither waits nor borrows, is refused.
        ensures known { OnOk result (is_stranger ticket (state_of self.old).desk ≡ false) }
        ensures left { OnOk result (state_of self.new
            ≡ record (state_of self.old) { desk = after_leave ticket (state_of self.old).desk }) }
        ensures refused { OnErr result (is_stranger ticket (state_of self.old).desk ≡ true) }
        ensures unchanged { OnErr result (self.new ≡ self.old) }
        ensures site { site_in self.new ≡ site_in self.old }
    {
        self.desk.leave(ticket)
    }

    /// Writes the distance and the parent. `OutOfRange` comes exactly if the distance is above
    /// the number of nodes, or the parent is no node; then nothing has changed.
    pub fn set_own(&mut self, distance: u16, parent: Option<u16>) -> Result<(), OutOfRange>
        // It is written exactly if it is in range, and then nothing else has changed.
        ensures variant { IsOk result
            ↔ IsTrue (own_fits (site_in self.old).ranges distance parent) }
        ensures ok { OnOk result (state_of self.new
            ≡ record (state_of self.old) { distance = distance; parent = parent }) }
        ensures out_of_range { OnErr result (self.new ≡ self.old) }
        ensures site { site_in self.new ≡ site_in self.old }
    {
        let nodes = self.registers.ranges().nodes;
        if distance > nodes || matches!(parent, Some(id) if id >= nodes) {
            return Err(OutOfRange);
        }
        self.distance = distance;
        self.parent = parent;
        Ok(())
    }

    /// Writes both numbers of the neighbour `port`. `OutOfRange` comes exactly if one is not
    /// below the counters' modulus; then nothing has changed.
    pub fn set_counters(&mut self, port: u16, seq: u16, last: u16) -> Result<(), OutOfRange>
        requires { Contains (site_in self.old).neighbours port }
        // It is written exactly if it is in range, and then nothing else has changed.
        ensures variant { IsOk result ↔ IsTrue (counters_fit (site_in self.old).ranges seq last) }
        ensures ok { OnOk result (state_of self.new
            ≡ with_port (state_of self.old) port
            (record ((state_of self.old).port port) { seq = seq; last = last })) }
        ensures out_of_range { OnErr result (self.new ≡ self.old) }
        ensures site { site_in self.new ≡ site_in self.old }
    {
        self.registers.set_counters(port, seq, last)
    }

    /// Writes the staged payload for the neighbour `port`. `OutOfRange` comes exactly if a field
    /// of it is not in its range; then nothing has changed.
    pub fn set_staged(&mut self, port: u16, payload: Payload) -> Result<(), OutOfRange>
        requires { Contains (site_in self.old).neighbours port }
        // It is written exactly if it is in range, and then nothing else has changed.
        ensures variant { IsOk result ↔ IsTrue (payload_fits (site_in self.old).ranges payload) }
        ensures ok { OnOk result (state_of self.new
            ≡ with_port (state_of self.old) port
            (record ((state_of self.old).port port) { staged = payload })) }
        ensures out_of_range { OnErr result (self.new ≡ self.old) }
        ensures site { site_in self.new ≡ site_in self.old }
    {
        self.registers.set_staged(port, payload)
    }

    /// Writes the copy of what the neighbour `port` said last. `OutOfRange` comes exactly if a
    /// field of it is not in its range; then nothing has changed.
    pub fn set_copy(&mut self, port: u16, payload: Payload) -> Result<(), OutOfRange>
        requires { Contains (site_in self.old).neighbours port }
        // It is written exactly if it is in range, and then nothing else has changed.
        ensures variant { IsOk result ↔ IsTrue (payload_fits (site_in self.old).ranges payload) }
        ensures ok { OnOk result (state_of self.new
            ≡ with_port (state_of self.old) port
            (record ((state_of self.old).port port) { copy = payload })) }
        ensures out_of_range { OnErr result (self.new ≡ self.old) }
        ensures site { site_in self.new ≡ site_in self.old }
    {
        self.registers.set_copy(port, payload)
    }

    /// Writes the value of the machine that comes in from the neighbour `port`. `OutOfRange` comes
    /// exactly if it is not below the ring values' modulus; then nothing has changed.
    pub fn set_value(&mut self, port: u16, value: u16) -> Result<(), OutOfRange>
        requires { Contains (site_in self.old).neighbours port }
        // It is written exactly if it is in range, and then nothing else has changed.
        ensures variant { IsOk result ↔ (value < (site_in self.old).ranges.ring) }
        ensures ok { OnOk result (state_of self.new
            ≡ record (state_of self.old) { value = at (state_of self.old).value port value }) }
        ensures out_of_range { OnErr result (self.new ≡ self.old) }
        ensures site { site_in self.new ≡ site_in self.old }
    {
        self.registers.set_value(port, value)
    }

    /// Writes the loan. `OutOfRange` comes exactly if its ticket waits, if more ticks are left than
    /// the lease, or if any are left without a loan; then nothing has changed.
    pub fn set_desk(&mut self, lent: Option<u16>, left: u16, served: bool) -> Result<(), OutOfRange>
        // It is written exactly if it is in range, and then nothing else has changed.
        ensures variant { IsOk result
            ↔ IsTrue (loan_fits (site_in self.old).lease (state_of self.old).desk lent left) }
        ensures ok { OnOk result (state_of self.new
            ≡ record (state_of self.old) {
              desk = with_loan (state_of self.old).desk lent left served;
            }) }
        ensures out_of_range { OnErr result (self.new ≡ self.old) }
        ensures site { site_in self.new ≡ site_in self.old }
    {
        self.desk.set_loan(lent, left, served).or(Err(OutOfRange))
    }

    /// Writes the tickets that wait, the next one first. `OutOfRange` comes exactly if there are
    /// more than 64, if one occurs twice, or if one of them borrows; then nothing has changed.
    pub fn set_waiting(&mut self, tickets: &[u16]) -> Result<(), OutOfRange>
        // It is written exactly if it is in range, and then nothing else has changed.
        ensures variant { IsOk result
            ↔ IsTrue (queue_fits tickets.now (state_of self.old).desk.lent) }
        ensures ok { OnOk result (state_of self.new
            ≡ record (state_of self.old) {
              desk = with_queue (state_of self.old).desk tickets.now;
            }) }
        ensures out_of_range { OnErr result (self.new ≡ self.old) }
        ensures site { site_in self.new ≡ site_in self.old }
    {
        self.desk.set_waiting(tickets).or(Err(OutOfRange))
    }

    /// What the node has to say to the node `port` now: its distance, its parent, and its part of the
    /// token ring.
    pub fn payload_for(&self, port: u16) -> Payload
        requires { port < (site_in self.now).ranges.nodes }
        ensures payload { result ≡ payload_for (site_in self.now) (state_of self.now) port }
        ensures fits { IsTrue (payload_fits (site_in self.now).ranges result) }
    {
        Payload {
            distance: self.distance,
            parent: self.parent,
            ring: ring_towards(&self.registers, self.parent, self.id, port),
        }
    }

    /// Takes an item that the neighbour `port` sent. Noise changes nothing, nor does a frame with a
    /// field out of its range. Any other frame is heard in two steps: if it acknowledges the port's
    /// number, the port stages what the node had to say *before* it; then, if its number is new,
    /// its payload is copied. No other port changes.
    #[inline(always)]
    pub fn take(&mut self, port: u16, item: &Item)
        requires { Contains (site_in self.old).neighbours port }
        // The state is that of the rule for a taken item, which also says what noise does.
        ensures state { state_of self.new
            ≡ taken (site_in self.old) port item.now (state_of self.old) }
        ensures site { site_in self.new ≡ site_in self.old }
    {
        let Item::Frame(frame) = item else {
            return;
        };
        if !self.registers.ranges().fits(frame) {
            return;
        }
        if frame.ack == self.registers.seq(port) {
            let present = self.payload_for(port);
            let _heard = self.registers.hear(port, frame, present);
        } else {
            // Nothing is staged, so what the node has to say does not matter.
            let _heard = self.registers.hear(port, frame, frame.payload);
        }
    }

    /// Gives the node the neighbours that it has in a network with the same nodes, root, capacity
    /// and lease (`Net::same_frame`). The port and the value of a neighbour that stays are kept
    /// whole, those of a new one are as at the start, and those of one that is gone are dropped.
    /// Distance, parent and desk stay.
    pub fn rewire<N: Allocator + Copy>(&mut self, net: &Net<N>)
        requires { site_of net.now (site_in self.old).id
            ≡ record (site_in self.old) {
              neighbours = neighbours_of net.now (site_in self.old).id;
            } }
        ensures state { state_of self.new
            ≡ rewired (site_in self.old).ranges (site_in self.old).neighbours
            (neighbours_of net.now (site_in self.old).id) (state_of self.old) }
        ensures site { site_in self.new ≡ site_of net.now (site_in self.old).id }
    {
        self.registers.rewire(net, self.id);
    }

    /// Whether one of its machines may move.
    #[inline(never)]
    pub fn privileged(&self) -> bool
        ensures { result ≡ is_node_privileged (site_in self.now) (state_of self.now) }
    {
        if !self.is_root {
            return some_may_copy(&self.registers, self.parent, self.id);
        }
        let tree = tree(&self.registers, self.parent, self.id);
        some_may_move(&self.registers, &tree, self.is_root)
    }

    /// First part of a tick: distance and parent follow from the copies.
    fn recompute(&mut self)
        ensures state { state_of self.new ≡ recomputed (site_in self.old) (state_of self.old) }
        ensures site { site_in self.new ≡ site_in self.old }
    {
        bfs_tree::laws::step_in_range();
        let own = new_own(&self.registers, self.is_root);
        self.distance = own.0;
        self.parent = own.1;
    }

    /// Second and last part of a tick: the desk ends a loan or begins one, and if it then lends
    /// to nobody, each machine that may move does.
    fn serve(&mut self) -> Ticked
        ensures state { state_of self.new
            ≡ machines_moved (site_in self.old) (desk_done (site_in self.old) (state_of self.old)) }
        ensures site { site_in self.new ≡ site_in self.old }
        ensures act { result.act ≡ desk_act (state_of self.old).desk (state_of self.new).desk }
        ensures full { result.full ≡ is_none (state_of self.new).desk.lent }
    {
        let tree = tree(&self.registers, self.parent, self.id);
        let act = self
            .desk
            .tick(some_may_move(&self.registers, &tree, self.is_root));
        let full = self.desk.lent().is_none();
        if full {
            move_machines(&mut self.registers, &tree, self.is_root);
        }
        Ticked { act, full }
    }

    /// One tick, in this order: distance and parent follow from the copies; the desk ends a loan or
    /// begins one; and if it then lends to nobody, each machine that may move does.
    #[inline(never)]
    pub fn tick(&mut self) -> Ticked
        // The state is that of the rule for a tick.
        ensures state { state_of self.new ≡ ticked (site_in self.old) (state_of self.old) }
        ensures site { site_in self.new ≡ site_in self.old }
        // What became of the loan, as seen from the desk before and after the tick.
        ensures act { result.act ≡ desk_act (state_of self.old).desk (state_of self.new).desk }
        // The tick is a full one exactly if the node lends to nobody after it.
        ensures full { result.full ≡ is_none (state_of self.new).desk.lent }
    {
        self.recompute();
        self.serve()
    }

    /// Writes the node's status line, with its newline, to the front of `line` and returns how many
    /// bytes it has; the rest stays as it was. The line is `node V distance D parent P token T lent
    /// L waiting W`: T is `yes` if the node is privileged and else `no`, P and L may be `none`.
    pub fn status(&self, line: &mut [u8; STATUS_BYTES]) -> usize
        ensures text { take result line.new ≡ status_line (site_in self.now) (state_of self.now) }
        // Nothing is written after the line.
        ensures rest { drop result line.new ≡ drop result line.old }
        ensures within { result ≤ 96 }
    {
        let text = self.status_text();
        let count = text.len();
        line[..count].copy_from_slice(text.as_bytes());
        count
    }

    /// The node's status line.
    fn status_text(&self) -> StatusText
        ensures { result.bytes ≡ status_line (site_in self.now) (state_of self.now) }
    {
        let mut text = StatusText::new();
        push_number(&mut text, "node ", self.id);
        push_number(&mut text, " distance ", self.distance);
        push_number_or_none(&mut text, " parent ", self.parent);
        push_yes_or_no(&mut text, " token ", self.privileged());
        push_number_or_none(&mut text, " lent ", self.desk.lent());
        push_number(&mut text, " waiting ", self.desk.waiting() as u16);
        text.push_str("\n");
        text
    }
}
