//! A second node.
ghost use Rattle.std.specs.Prelude.{◌≡◌, ◌<◌, ◌≤◌, ◌↔◌, true, false, IfOk, IsTrue, Contains, []};
ghost use Rattle.std.specs.Prelude.{All, ◌∷◌, length};
ghost use Rattle.node_core.specs.Deeds.{Leads};
ghost use Rattle.node_core.specs.Site.{site_of};
ghost use Rattle.node_core.specs.State.{default_node, LocalState};
ghost use Rattle.node_core.specs.View.{site_in, state_of};
ghost use Rattle.topology.specs.Ranges.{ranges_of};
ghost use Rattle.flight_records.specs.declared.entry.Deed.TheVariants as flight_deed;
ghost use Rattle.node_core.specs.Deeds.{after_ask};
ghost use Rattle.lock_desk.specs.Desk.{after_leave};
ghost use Rattle.node_follower.specs.Following.{account_of, is_own_account, FitsNetwork};
ghost use Rattle.node_follower.specs.Following.{AreSame, AreSameAlone, AreSameAt};

use flight_records::Deed;
use node_core::{Frame, Item, Node, Payload};
use std::alloc::{AllocError, Allocator, Global};
use std::marker::Model;
use topology::Net;

/// A second node, which does what a record says of a node.
#[derive(Drop)]
pub struct Follower<A: Allocator + Copy = Global> {
    node: Node<A>,
}

impl<A: Allocator + Copy> Model for Follower<A> {
    ghost use Rattle.node_core.specs.View.{NodeView};

    ghost Value = { NodeView };

    ghost view = { λ f. f.node };
}

impl<A: Allocator + Copy> Follower<A> {
    /// A second node of the network, in its default state. All memory is reserved here; `AllocError`
    /// comes only if that is refused.
    pub fn new(alloc: A, net: &Net, id: u16) -> Result<Follower<A>, AllocError>
        requires { id < net.now.nodes }
        ensures site { IfOk result (λ follower. site_in follower ≡ site_of net.now id) }
        ensures state { IfOk result (λ follower. state_of follower ≡ default_node (ranges_of net.now)) }
    {
        Ok(Follower {
            node: Node::new(alloc, net, id)?,
        })
    }

    /// The node as it stands now.
    pub fn node(&self) -> &Node<A>
        ensures { result.now ≡ self.now }
    {
        &self.node
    }

    /// Does these deeds, one after the other, up to one that no node in its state does, or that
    /// does not say by itself what the node did. Returns whether it did all of them: then they lead
    /// it, by a node's own steps, to the state in which it is.
    pub fn follow(&mut self, deeds: &[Deed]) -> bool
        ensures leads { IsTrue result → Leads (site_in self.old) (account_of deeds.now)
            (state_of self.old) (state_of self.new) }
        // Otherwise they lead nowhere by a node's own steps, if each deed says by itself what the
        // node did.
        ensures refused { result ≡ false → All (λ d. IsTrue (is_own_account d)) deeds.now
            → (last : LocalState)
            → ¬ Leads (site_in self.old) (account_of deeds.now) (state_of self.old) last }
        ensures site { site_in self.new ≡ site_in self.old }
    {
        node_core::laws::accounts();
        for deed in deeds {
            if !self.does(deed) {
                return false;
            }
        }
        true
    }

    /// Does one deed, if a node in its state does it and it says by itself what the node did.
    /// Returns whether it did; if not, nothing has changed.
    pub fn does(&mut self, deed: &Deed) -> bool
        ensures leads { IsTrue result → Leads (site_in self.old) (account_of (deed.now ∷ []))
            (state_of self.old) (state_of self.new) }
        ensures undone { result ≡ false → IsTrue (is_own_account deed.now) → (last : LocalState)
            → ¬ Leads (site_in self.old) (account_of (deed.now ∷ [])) (state_of self.old) last }
        ensures site { site_in self.new ≡ site_in self.old }
        ensures refused { result ≡ false → self.new ≡ self.old }
    {
        match *deed {
            Deed::Ticks => {
                let _ticked = self.node.tick();
                true
            }
            Deed::Takes { from, frame } => self.takes(from, frame),
            Deed::Sends { to, frame } => self.sends(to, &frame),
            Deed::Asks { ticket } => {
                self.asks(ticket);
                true
            }
            Deed::Leaves { ticket } => {
                self.leaves(ticket);
                true
            }
            Deed::Connects { .. } | Deed::Disconnects { .. } => true,
            Deed::TakesAgain { .. }
            | Deed::SendsAgain { .. }
            | Deed::Joins { .. }
            | Deed::Parts { .. } => false,
        }
    }

    /// Takes a frame of a neighbour.
    fn takes(&mut self, from: u16, frame: Frame) -> bool
        ensures leads { IsTrue result → Leads (site_in self.old)
            (account_of (flight_deed.Takes from frame ∷ [])) (state_of self.old) (state_of self.new) }
        ensures undone { result ≡ false → (last : LocalState) → ¬ Leads (site_in self.old)
            (account_of (flight_deed.Takes from frame ∷ [])) (state_of self.old) last }
        ensures site { site_in self.new ≡ site_in self.old }
        ensures refused { result ≡ false → self.new ≡ self.old }
    {
        if !self.node.is_neighbour(from) {
            return false;
        }
        self.node.take(from, &Item::Frame(frame));
        true
    }

    /// Whether it sends this frame to a neighbour.
    fn sends(&self, to: u16, frame: &Frame) -> bool
        ensures undone { result ≡ false → (last : LocalState) → ¬ Leads (site_in self.now)
            (account_of (flight_deed.Sends to frame.now ∷ [])) (state_of self.now) last }
        ensures leads { IsTrue result → Leads (site_in self.now)
            (account_of (flight_deed.Sends to frame.now ∷ [])) (state_of self.now) (state_of self.now) }
    {
        self.node.is_neighbour(to) && same_frame(&self.node.frame_for(to), frame)
    }

    /// Has a ticket ask; one that is refused changes nothing.
    fn asks(&mut self, ticket: u16)
        ensures state { state_of self.new ≡ record (state_of self.old) {
          desk = after_ask ticket (state_of self.old).desk;
        } }
        ensures site { site_in self.new ≡ site_in self.old }
    {
        let _answer = self.node.ask(ticket);
    }

    /// Has a ticket leave, if it waits or borrows.
    fn leaves(&mut self, ticket: u16)
        ensures state { state_of self.new ≡ record (state_of self.old) {
          desk = after_leave ticket (state_of self.old).desk;
        } }
        ensures site { site_in self.new ≡ site_in self.old }
    {
        // The prover needs to know that the desk is in range: a borrower does not wait.
        let _known_ranges = self.node.ranges();
        let _answer = self.node.leave(ticket);
    }

    /// Whether its state is that of a node: distance, parent and desk are the same, and so are the
    /// port and the value of each of its neighbours.
    pub fn stands_as<B: Allocator>(&self, node: &Node<B>) -> bool
        ensures stands { IsTrue result → AreSame (site_in self.now).neighbours (state_of self.now)
            (state_of node.now) }
        ensures elsewhere { result ≡ false
            → (site_in self.now).neighbours ≡ (site_in node.now).neighbours
            → ¬ AreSame (site_in self.now).neighbours (state_of self.now) (state_of node.now) }
    {
        self.stands_alone_as(node) && ports_stand_as(&self.node, node)
    }

    /// Whether distance, parent and desk are the same.
    fn stands_alone_as<B: Allocator>(&self, node: &Node<B>) -> bool
        ensures { IsTrue result ↔ AreSameAlone (state_of self.now) (state_of node.now) }
    {
        self.node.distance() == node.distance()
            && self.node.parent() == node.parent()
            && desk_stands_as(&self.node, node)
    }

    /// Takes the neighbours that its node has in this network, if the network has the same
    /// capacity, lease and number of nodes, and has this node for its root exactly if it was the
    /// root before. Otherwise returns false, and nothing has changed.
    pub fn rewire(&mut self, net: &Net) -> bool
        ensures answer { IsTrue result ↔ FitsNetwork net.now (site_in self.old) }
        ensures site { IsTrue result
            → site_in self.new ≡ site_of net.now (site_in self.old).id }
        ensures refused { result ≡ false → self.new ≡ self.old }
    {
        if !self.is_of(net) {
            return false;
        }
        self.node.rewire(net);
        true
    }

    /// Whether the network has the same capacity, lease and number of nodes, and has this node for
    /// its root exactly if it is the root.
    fn is_of(&self, net: &Net) -> bool
        ensures { IsTrue result ↔ FitsNetwork net.now (site_in self.now) }
    {
        let ranges = self.node.ranges();
        ranges.nodes == net.nodes()
            && ranges.counter == net.counter()
            && ranges.ring == net.ring()
            && self.node.lease() == net.lease()
            && self.node.is_root() == (self.node.id() == net.root())
    }

    /// Takes over the state of a node that has the same neighbours. Returns whether its state is
    /// then that of the node.
    pub fn take_over<B: Allocator>(&mut self, node: &Node<B>) -> bool
        ensures same { IsTrue result → AreSame (site_in self.new).neighbours (state_of self.new)
            (state_of node.now) }
        ensures site { site_in self.new ≡ site_in self.old }
    {
        let _own = self.node.set_own(node.distance(), node.parent());
        let _free = self.node.set_desk(None, 0, false);
        let _queue = self.node.set_waiting(node.tickets());
        let _loan = self.node.set_desk(node.lent(), node.left(), node.served());
        take_over_ports(&mut self.node, node);
        self.stands_as(node)
    }
}

/// Whether the desks of two nodes are the same.
fn desk_stands_as<A: Allocator, B: Allocator>(one: &Node<A>, other: &Node<B>) -> bool
    ensures { IsTrue result ↔ (state_of one.now).desk ≡ (state_of other.now).desk }
{
    one.lent() == other.lent()
        && one.left() == other.left()
        && one.served() == other.served()
        && one.tickets() == other.tickets()
}

/// Whether the ports of a node to its neighbours, and the values of the machines that come in
/// there, are those of another node.
fn ports_stand_as<A: Allocator, B: Allocator>(one: &Node<A>, other: &Node<B>) -> bool
    ensures stand { IsTrue result → All (λ w. AreSameAt w (state_of one.now) (state_of other.now))
        (site_in one.now).neighbours }
    ensures elsewhere { result ≡ false → (site_in one.now).neighbours ≡ (site_in other.now).neighbours
        → ¬ All (λ w. AreSameAt w (state_of one.now) (state_of other.now)) (site_in one.now).neighbours }
{
    for w in one.neighbours() {
        if !port_stands_as(one, other, *w) {
            return false;
        }
    }
    true
}

/// Whether the ports of two nodes to a third, and the values of the machines that come in there, are the
/// same.
fn port_stands_as<A: Allocator, B: Allocator>(one: &Node<A>, other: &Node<B>, w: u16) -> bool
    ensures stands { IsTrue result → AreSameAt w (state_of one.now) (state_of other.now) }
    ensures elsewhere { result ≡ false → Contains (site_in one.now).neighbours w
        → Contains (site_in other.now).neighbours w
        → ¬ AreSameAt w (state_of one.now) (state_of other.now) }
{
    one.is_neighbour(w)
        && other.is_neighbour(w)
        && one.seq(w) == other.seq(w)
        && one.last(w) == other.last(w)
        && same_payload(&one.staged_for(w), &other.staged_for(w))
        && same_payload(&one.copy_of(w), &other.copy_of(w))
        && one.value(w) == other.value(w)
}

/// Takes over the ports and the values of a node's neighbours.
fn take_over_ports<A: Allocator + Copy, B: Allocator>(to: &mut Node<A>, from: &Node<B>)
    ensures { site_in to.new ≡ site_in to.old }
{
    for w in from.neighbours() {
        take_over_port(to, from, *w);
    }
}

/// Takes over the port to a node, and the value of the machine that comes in there, if both have it as a
/// neighbour.
fn take_over_port<A: Allocator + Copy, B: Allocator>(to: &mut Node<A>, from: &Node<B>, w: u16)
    ensures { site_in to.new ≡ site_in to.old }
{
    if !to.is_neighbour(w) || !from.is_neighbour(w) {
        return;
    }
    let _counters = to.set_counters(w, from.seq(w), from.last(w));
    let _staged = to.set_staged(w, from.staged_for(w));
    let _copy = to.set_copy(w, from.copy_of(w));
    let _value = to.set_value(w, from.value(w));
}

/// Whether two payloads are equal.
fn same_payload(one: &Payload, other: &Payload) -> bool
    ensures { IsTrue result ↔ one.now ≡ other.now }
{
    one.distance == other.distance && one.parent == other.parent && one.ring == other.ring
}

/// Whether two frames are equal.
fn same_frame(one: &Frame, other: &Frame) -> bool
    ensures { IsTrue result ↔ one.now ≡ other.now }
{
    one.seq == other.seq && one.ack == other.ack && same_payload(&one.payload, &other.payload)
}
