//! The recorder of a node.
ghost use Rattle.std.specs.Prelude.{◌≡◌, ◌<◌, ◌⊎◌, IfOk, IsTrue, length, true, false};
ghost use Rattle.node_recorder.specs.Backlog.{first_instant, has_room, nothing};
ghost use Rattle.node_follower.specs.node_core.Deeds.{Leads};
ghost use Rattle.node_follower.specs.node_core.Site.{site_of};
ghost use Rattle.node_follower.specs.node_core.View.{site_in, state_of};
ghost use Rattle.flight_recorder.specs.Recorder.{after_failure, after_write, fills};
ghost use Rattle.node_follower.specs.Following.{account_of, AreSame, FitsNetwork, LeadElsewhere};
ghost use Rattle.node_follower.specs.Parts.{state_parts};
ghost use Rattle.node_recorder.specs.Turns.{after_deeds, after_parts, after_ports, after_queue, after_state};
ghost use Rattle.node_recorder.specs.Turns.{mixed, network_mark, is_to_begin, with_backlog, with_beginning};
ghost use Rattle.node_recorder.specs.Turns.{KeepsDeeds, NotesNow, Records, Settles, Stands, TakesOver};

use crate::backlog::Backlog;
use flight_recorder::{Deed, Noted, Recorder, StatePart};
use node_follower::{Follower, Node, loan_part, own_part, port_part, start_part};
use std::alloc::{AllocError, Allocator, Global};
use topology::Net;

/// Records a node turn by turn.
#[derive(Drop)]
pub struct NodeRecorder<A: Allocator + Copy = Global> {
    pages: Recorder<A>,
    /// The second node. It is in the state in which the node was before the deeds that wait.
    follower: Follower<A>,
    backlog: Backlog<A>,
    /// The checksum of the network.
    network: u32,
    /// The second node was given new neighbours since its whole state was last noted.
    is_rewired: bool,
    /// The second node may not be in the state in which the node was before the deeds that wait.
    is_lost: bool,
}

impl<A: Allocator + Copy> NodeRecorder<A> {
    /// The recorder of this node of the network, as the node is now. What is noted goes to these
    /// pages. All memory is reserved here; `AllocError` comes only if that is refused.
    pub fn new<B: Allocator>(
        alloc: A,
        net: &Net,
        node: &Node<B>,
        pages: Recorder<A>,
    ) -> Result<NodeRecorder<A>, AllocError>
        requires { (site_in node.now).id < net.now.nodes }
        ensures pages { IfOk result (λ r. r.pages ≡ pages) }
        ensures site { IfOk result (λ r. site_in r.follower ≡ site_of net.now (site_in node.now).id) }
        ensures stands { IfOk result (λ r. Stands r node.now) }
        ensures backlog { IfOk result (λ r. r.backlog ≡ nothing) }
    {
        let mut follower = Follower::new(alloc, net, node.id())?;
        let is_there = follower.take_over(node);
        Ok(NodeRecorder {
            pages,
            follower,
            backlog: Backlog::new(alloc)?,
            network: network_mark(net),
            is_rewired: false,
            is_lost: !is_there,
        })
    }

    /// Takes note that a turn of the node has ended, or what it does between two turns. The node
    /// did these deeds; some may be missing if `has_all` is no. They may wait if `may_wait` is yes,
    /// until later ones may not, or 512 wait. `now` is the instant at which the turn began.
    pub fn turn_ended<B: Allocator>(
        &mut self,
        node: &Node<B>,
        deeds: &[Deed],
        has_all: bool,
        may_wait: bool,
        now: u64,
    )
        ensures { Records now deeds.now has_all may_wait node.now self.old self.new }
    {
        if self.pages.is_stopped() {
            return;
        }
        if self.is_lost {
            self.take_over(node, now);
        } else if has_all && self.backlog.has_room(deeds.len()) {
            self.take_up(node, deeds, may_wait, now);
        } else {
            self.note_all(node, deeds, now);
        }
    }

    /// Has these deeds wait, too, if they may and few do; otherwise notes them and all that wait.
    fn take_up<B: Allocator>(&mut self, node: &Node<B>, deeds: &[Deed], may_wait: bool, now: u64)
        requires known { self.old.is_lost ≡ false }
        requires room { IsTrue (has_room (length deeds.now) self.old.backlog) }
        ensures { KeepsDeeds now deeds.now true may_wait node.now self.old self.new
            ⊎ NotesNow now deeds.now true may_wait node.now self.old self.new }
    {
        self.backlog.add(deeds, now);
        if !may_wait || self.backlog.is_long() {
            self.settle(node, now);
        }
    }

    /// Notes the deeds that wait, then these, and then the node's whole state.
    fn note_all<B: Allocator>(&mut self, node: &Node<B>, deeds: &[Deed], now: u64)
        ensures { TakesOver now node.now (record self.old {
          pages = after_deeds now deeds.now (with_backlog now self.old);
          is_rewired = false;
        }) self.new }
    {
        self.note_backlog(now);
        note_deeds(&mut self.pages, deeds, now);
        self.take_over(node, now);
    }

    /// Notes the deeds that wait, and then the node's whole state if they lead elsewhere.
    fn settle<B: Allocator>(&mut self, node: &Node<B>, now: u64)
        ensures { Settles now node.now self.old self.new }
    {
        self.note_backlog(now);
        if self.comes_to(node) {
            self.backlog.clear();
        } else {
            self.take_over(node, now);
        }
    }

    /// Notes the deeds that wait, after the state before them if that must be noted.
    fn note_backlog(&mut self, now: u64)
        ensures { self.new
            ≡ record self.old { pages = with_backlog now self.old; is_rewired = false } }
    {
        let first = self.backlog.first_instant(now);
        self.begin(first);
        self.backlog.note_in(&mut self.pages);
    }

    /// Notes the whole state in which the second node is, if a file begins or the node has new
    /// neighbours.
    fn begin(&mut self, now: u64)
        ensures { self.new
            ≡ record self.old { pages = with_beginning now self.old; is_rewired = false } }
    {
        if self.is_rewired || self.pages.is_at_start() {
            note_state(&mut self.pages, self.follower.node(), self.network, now);
        }
        self.is_rewired = false;
    }

    /// Notes the whole state of a node, and has the second node take it over. No deed waits any
    /// more.
    fn take_over<B: Allocator>(&mut self, node: &Node<B>, now: u64)
        ensures { TakesOver now node.now self.old self.new }
    {
        self.is_lost = !self.follower.take_over(node);
        note_state(&mut self.pages, node, self.network, now);
        self.backlog.clear();
    }

    /// Has the second node do the deeds that wait. Returns whether they lead it to the node's
    /// state.
    fn comes_to<B: Allocator>(&mut self, node: &Node<B>) -> bool
        ensures leads { IsTrue result → Leads (site_in self.old.follower)
            (account_of self.old.backlog.deeds) (state_of self.old.follower)
            (state_of self.new.follower) }
        ensures stands { IsTrue result → AreSame (site_in self.new.follower).neighbours
            (state_of self.new.follower) (state_of node.now) }
        ensures elsewhere { result ≡ false
            → (site_in self.old.follower).neighbours ≡ (site_in node.now).neighbours
            → LeadElsewhere (site_in self.old.follower) self.old.backlog.deeds
            (state_of self.old.follower) (state_of node.now) }
        ensures rest { self.new ≡ record self.old { follower = self.new.follower } }
    {
        node_follower::laws::accounts();
        self.follower.follow(self.backlog.deeds()) && self.follower.stands_as(node)
    }

    /// From now on the node has the neighbours that it has in this network, and its present state:
    /// its whole state is noted before its next deeds. Nothing changes if deeds still wait, if the
    /// network has more or fewer nodes or a different capacity or lease, or if the node would
    /// become its root or cease to be it.
    pub fn rewire<B: Allocator>(&mut self, net: &Net, node: &Node<B>)
        ensures pages { (self.new.pages ≡ self.old.pages) × (self.new.network ≡ self.old.network) }
        ensures backlog { self.new.backlog ≡ self.old.backlog }
        ensures done { (self.new ≡ self.old)
            ⊎ ((self.new.is_rewired ≡ true) × Stands self.new node.now) }
        ensures taken { length self.old.backlog.deeds ≡ 0
            → FitsNetwork net.now (site_in self.old.follower) → self.new.is_rewired ≡ true }
        ensures site { length self.old.backlog.deeds ≡ 0
            → FitsNetwork net.now (site_in self.old.follower) → site_in self.new.follower
            ≡ site_of net.now (site_in self.old.follower).id }
        ensures waits { 0 < length self.old.backlog.deeds → self.new ≡ self.old }
        ensures refused { ¬ FitsNetwork net.now (site_in self.old.follower)
            → self.new ≡ self.old }
    {
        if self.backlog.is_empty() && self.follower.rewire(net) {
            self.is_lost = !self.follower.take_over(node);
            self.is_rewired = true;
        }
    }

    /// Whether the second node has the neighbours of a node.
    pub fn knows_neighbours_of<B: Allocator>(&self, node: &Node<B>) -> bool
        ensures { IsTrue result
            → (site_in self.now.follower).neighbours ≡ (site_in node.now).neighbours }
    {
        self.follower.node().neighbours() == node.neighbours()
    }

    /// The pages that must be written.
    pub fn pages(&self) -> &Recorder<A>
        ensures { result.now ≡ self.now.pages }
    {
        &self.pages
    }

    /// Takes note that the whole page was written. Returns whether the file is full with it, and
    /// the other one begins.
    pub fn wrote(&mut self) -> bool
        ensures full { result ≡ fills self.old.pages }
        ensures after { self.new ≡ record self.old { pages = after_write self.old.pages } }
    {
        self.pages.wrote()
    }

    /// Takes note that the page was not written: the record stops.
    pub fn failed(&mut self)
        ensures { self.new ≡ record self.old { pages = after_failure self.old.pages } }
    {
        self.pages.failed();
    }
}

/// Notes deeds, one after the other.
fn note_deeds<A: Allocator>(pages: &mut Recorder<A>, deeds: &[Deed], now: u64)
    ensures { pages.new ≡ after_deeds now deeds.now pages.old }
{
    for deed in deeds {
        pages.note(now, Noted::Deed(*deed));
    }
}

/// Notes the whole state of a node.
fn note_state<A: Allocator, B: Allocator>(
    pages: &mut Recorder<A>,
    node: &Node<B>,
    network: u32,
    now: u64,
)
    ensures { pages.new ≡ after_parts now
        (state_parts network (site_in node.now) (state_of node.now)) pages.old }
{
    note_parts(pages, node, network, now);
}

/// Notes the parts of a node's state, one after the other.
fn note_parts<A: Allocator, B: Allocator>(
    pages: &mut Recorder<A>,
    node: &Node<B>,
    network: u32,
    now: u64,
)
    ensures { pages.new
        ≡ after_state now network (site_in node.now) (state_of node.now) pages.old }
{
    pages.note(now, Noted::State(start_part(node, network)));
    pages.note(now, Noted::State(own_part(node)));
    note_ports(pages, node, now);
    note_queue(pages, node, now);
    pages.note(now, Noted::State(loan_part(node)));
    pages.note(now, Noted::State(StatePart::Whole));
}

/// Notes the ports of a node.
fn note_ports<A: Allocator, B: Allocator>(pages: &mut Recorder<A>, node: &Node<B>, now: u64)
    ensures { pages.new ≡ after_ports now (state_of node.now) (site_in node.now).neighbours pages.old }
{
    for w in node.neighbours() {
        pages.note(now, Noted::State(port_part(node, *w)));
    }
}

/// Notes the tickets that wait at a node.
fn note_queue<A: Allocator, B: Allocator>(pages: &mut Recorder<A>, node: &Node<B>, now: u64)
    ensures { pages.new ≡ after_queue now (state_of node.now).desk.waiting pages.old }
{
    for ticket in node.tickets() {
        pages.note(now, Noted::State(StatePart::Waits { ticket: *ticket }));
    }
}

/// The number of a network: networks with different nodes, root, capacity or lease have different
/// numbers, except by chance.
pub fn network_mark(net: &Net) -> u32
    ensures { result ≡ network_mark net.now }
{
    let first = mixed(mixed(0, net.nodes()), net.root());
    mixed(mixed(first, net.capacity()), net.lease())
}

/// A number that depends on both of these.
fn mixed(mark: u32, number: u16) -> u32
    ensures { result ≡ mixed mark number }
{
    ((u64::from(mark) * 65599 + u64::from(number)) % (1 << 32)) as u32
}
