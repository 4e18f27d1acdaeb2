//! The plan of a turn, and the rest after it.
ghost use Rattle.std.specs.Prelude.{◌≡◌, ◌≢◌, ◌⊎◌, ◌<◌, ◌≤◌, ◌&&◌, ℕ, true, false, None, Some};
ghost use Rattle.std.specs.Prelude.{Option, length, replicate, slice_index_or};
ghost use Rattle.pace.specs.Ports.{fresh_port, heard_port, given_port, hearing_of, times_heard};
ghost use Rattle.pace.specs.Ports.{is_due, is_soon};
ghost use Rattle.pace.specs.Nodes.{quiet_node, holds, may_tick, moved_on, calls_for_haste};
ghost use Rattle.pace.specs.Plans.{port_of, sight_of, is_tree, is_other, tree_count, called_port};
ghost use Rattle.pace.specs.Plans.{goes_on, node_said, node_ticked, rest_at, node_rest};

use crate::node::{NodePace, Outlook};
use crate::port::{Hearing, PortPace, PortSight};
use topology::Frame;

/// The most ports of a node.
pub const PORTS: usize = 64;

/// The trade between quiet and haste, in microseconds.
#[derive(Clone, Copy)]
pub struct Manner {
    /// How long a node keeps the news of its machines to itself, if nobody is in haste.
    pub hold: u64,
    /// The time after which a frame is given again.
    pub repeat: u64,
}

impl Manner {
    /// A hold of 2 milliseconds, and frames given again after 8.
    pub fn usual() -> Manner
        ensures { (result.hold ≡ 2000) × (result.repeat ≡ 8000) }
    {
        Manner {
            hold: 2_000,
            repeat: 8_000,
        }
    }
}

/// What a turn does.
#[derive(Clone, Copy)]
pub struct Plan {
    /// Whether the node ticks.
    pub ticks: bool,
    /// On which ports a frame is offered.
    pub offers: [bool; PORTS],
}

/// What a node remembers, so that it is quiet if nobody is in haste. It takes no memory.
#[derive(Drop)]
pub struct TurnPace {
    manner: Manner,
    node: NodePace,
    ports: [PortPace; PORTS],
}

impl TurnPace {
    /// The pace of a node at whose ports nothing was given or heard yet.
    pub fn new(manner: Manner) -> TurnPace
        ensures manner { result.manner ≡ manner }
        ensures node { result.node ≡ quiet_node }
        ensures ports { (p : ℕ) → port_of result.ports p ≡ fresh_port }
    {
        TurnPace {
            manner,
            node: NodePace::new(),
            ports: fresh_ports(),
        }
    }

    /// The pace of a node that remembers this, whatever it is; `ports` is what was given and heard
    /// at each port, by its number.
    pub fn remembering(manner: Manner, node: NodePace, ports: [PortPace; PORTS]) -> TurnPace
        ensures { (result.manner ≡ manner) × (result.node ≡ node) × (result.ports ≡ ports) }
    {
        TurnPace {
            manner,
            node,
            ports,
        }
    }

    /// Takes note that a port, 0 to 63, has a new connection: what was given and heard there no
    /// longer counts.
    pub fn attached(&mut self, port: usize)
        requires { port < 64 }
        ensures port { port_of self.new.ports port ≡ fresh_port }
        ensures others { (p : ℕ) → p ≢ port → port_of self.new.ports p ≡ port_of self.old.ports p }
        ensures rest { (self.new.node ≡ self.old.node) × (self.new.manner ≡ self.old.manner) }
    {
        self.ports[port] = PortPace::new();
    }

    /// Takes note that a port, 0 to 63, was given a frame, at `now` microseconds of a clock that
    /// never goes back.
    pub fn gave(&mut self, port: usize, frame: &Frame, now: u64)
        requires { port < 64 }
        ensures port { port_of self.new.ports port
            ≡ given_port frame.now now (port_of self.old.ports port) }
        ensures others { (p : ℕ) → p ≢ port → port_of self.new.ports p ≡ port_of self.old.ports p }
        ensures rest { (self.new.node ≡ self.old.node) × (self.new.manner ≡ self.old.manner) }
    {
        self.ports[port].give(frame, now);
    }

    /// The plan of the turn that begins now: a frame on each port for which one is due, and a tick
    /// unless it must be left out.
    pub fn plan(&self, sights: &[PortSight], outlook: &Outlook, now: u64) -> Plan
        requires { length sights.now ≤ 64 }
        ensures ticks { result.ticks ≡ may_tick outlook.now now self.now.node }
        ensures offers { (p : ℕ) → p < length sights.now → slice_index_or result.offers p false
            ≡ is_due (sight_of sights.now p) (holds outlook.now self.now.manner now self.now.node)
            self.now.manner.repeat now (port_of self.now.ports p) }
        ensures no_others { (p : ℕ) → length sights.now ≤ p
            → slice_index_or result.offers p false ≡ false }
    {
        let holds = self.node.holds(outlook, &self.manner, now);
        let mut offers = [false; PORTS];
        for (port, sight) in sights.iter().enumerate() {
            offers[port] = self.ports[port].is_due(sight, holds, self.manner.repeat, now);
        }
        Plan {
            ticks: self.node.may_tick(outlook, now),
            offers,
        }
    }

    /// Takes note that a port brought a frame at `now` microseconds. A call is good for some
    /// circuits of the token, and goes on to the other tree neighbours, unless one has just gone
    /// on. `trees` says of each port whether a tree neighbour is there.
    pub fn heard(&mut self, port: usize, frame: &Frame, trees: &[bool], now: u64) -> Hearing
        requires port { port < 64 }
        requires few { length trees.now ≤ 64 }
        ensures hearing { result ≡ hearing_of (times_heard frame.now (port_of self.old.ports port))
            (is_soon self.old.manner.repeat now (port_of self.old.ports port)) }
        ensures node { self.new.node ≡ node_said result (tree_count trees.now) now self.old.node }
        ensures port { port_of self.new.ports port
            ≡ heard_port frame.now now (port_of self.old.ports port) }
        ensures others { (p : ℕ) → p ≢ port → port_of self.new.ports p ≡ called_port
            (goes_on result (tree_count trees.now) now self.old.node && is_tree trees.now p)
            (port_of self.old.ports p) }
        ensures manner { self.new.manner ≡ self.old.manner }
    {
        let hearing = self.ports[port].hear(frame, self.manner.repeat, now);
        if hearing == Hearing::Call {
            let count = tree_count(trees);
            let goes_on = !self.node.was_called(count, now);
            self.node.call(count, now);
            pass_on(&mut self.ports, trees, goes_on, Some(port));
        }
        hearing
    }

    /// Takes note that the node ticked; `moved` says whether some machine moved in that tick. If
    /// somebody waits it may call for haste, on all its tree ports.
    pub fn ticked(&mut self, outlook: &Outlook, moved: bool, trees: &[bool], now: u64)
        requires { length trees.now ≤ 64 }
        ensures node { self.new.node ≡ node_ticked outlook.now moved (tree_count trees.now)
            self.old.manner now self.old.node }
        ensures ports { (p : ℕ) → port_of self.new.ports p ≡ called_port
            (calls_for_haste outlook.now (tree_count trees.now) now
            (moved_on moved (tree_count trees.now) self.old.manner now self.old.node)
            && is_tree trees.now p)
            (port_of self.old.ports p) }
        ensures manner { self.new.manner ≡ self.old.manner }
    {
        let count = tree_count(trees);
        self.node.tick(moved, count, &self.manner, now);
        let calls = self.node.calls_for_haste(outlook, count, now);
        if calls {
            self.node.call(count, now);
        }
        pass_on(&mut self.ports, trees, calls, None);
    }

    /// How long to rest, in microseconds, if no socket has anything: until the first frame is due
    /// or the hold is over, and 2 milliseconds at most.
    pub fn rest(&self, sights: &[PortSight], outlook: &Outlook, now: u64) -> u64
        requires { length sights.now ≤ 64 }
        ensures longest { result ≤ 2000 }
        ensures ports { (p : ℕ) → p < length sights.now → result
            ≤ rest_at (sight_of sights.now p) (holds outlook.now self.now.manner now self.now.node)
            self.now.manner.repeat now (port_of self.now.ports p) }
        // The rest is no shorter than it must be.
        ensures reached { (result ≡ node_rest outlook.now self.now.manner now self.now.node)
            ⊎ ((p : ℕ) × (p < length sights.now) × (result
            ≡ rest_at (sight_of sights.now p) (holds outlook.now self.now.manner now self.now.node)
            self.now.manner.repeat now (port_of self.now.ports p))) }
        ensures hold { result ≤ node_rest outlook.now self.now.manner now self.now.node }
    {
        let holds = self.node.holds(outlook, &self.manner, now);
        let mut rest = self.node.rest(outlook, &self.manner, now);
        for (port, sight) in sights.iter().enumerate() {
            rest = rest.min(self.ports[port].rest(sight, holds, self.manner.repeat, now));
        }
        rest
    }
}

/// Ports at which nothing was given or heard.
fn fresh_ports() -> [PortPace; PORTS]
    ensures { result ≡ replicate 64 fresh_port }
{
    [PortPace::new(); PORTS]
}

/// Has a call passed on, if it goes on, at the ports of all tree neighbours except `but`.
fn pass_on(ports: &mut [PortPace], trees: &[bool], goes_on: bool, but: Option<usize>)
    requires { length trees.now ≤ length ports.old }
    ensures ports { (p : ℕ) → port_of ports.new p
        ≡ called_port (goes_on && (is_tree trees.now p && is_other but p)) (port_of ports.old p) }
    ensures length { length ports.new ≡ length ports.old }
{
    if !goes_on {
        return;
    }
    for (port, tree) in trees.iter().enumerate() {
        let is_called = is_passed_to(*tree, port, but);
        ports[port].call(is_called);
    }
}

/// Whether a call that goes on goes to this port.
fn is_passed_to(is_tree: bool, port: usize, but: Option<usize>) -> bool
    ensures { result ≡ (is_tree && is_other but port) }
{
    is_tree && but != Some(port)
}

/// How many tree neighbours there are.
fn tree_count(trees: &[bool]) -> u32
    requires { length trees.now ≤ 64 }
    ensures count { result ≡ tree_count trees.now }
    ensures few { result ≤ 64 }
{
    trees.iter().filter(|tree| **tree).count() as u32
}
