//! Gates that hold nodes back at their turns.
ghost use Rattle.std.specs.Prelude.{◌≡◌};

use std::sync::atomic::{AtomicBool, AtomicU64, Ordering};
use std::thread;

/// Holds each node back before and after each of its turns, for as long as it likes. A gate
/// promises only that its calls return. Whatever it does, what the nodes do is a run; a gate only
/// decides how far one thread may be ahead of another.
pub trait Gate: Sync {
    /// Called by the node's own thread before a turn; turns count from 0.
    fn before(&self, node: u16, turn: u32);

    /// Called by the node's own thread when that turn is done.
    fn after(&self, node: u16, turn: u32);
}

/// Holds nobody back.
#[derive(Debug, Drop)]
pub struct Open;

impl Gate for Open {
    fn before(&self, _node: u16, _turn: u32) {}

    fn after(&self, _node: u16, _turn: u32) {}
}

/// How often a gate looks, in one call, before it gives up, by default.
const POLLS: u32 = 100_000_000;

/// After how many looks a waiting thread lets others run.
const POLLS_A_YIELD: u32 = 16;

/// A count that threads raise and wait for. The wait is bounded: a wait that gives up is noted, and
/// then nobody is held back any more.
#[derive(Drop)]
struct Rally {
    count: AtomicU64,
    gave_up: AtomicBool,
    /// How often a wait looks before it gives up.
    polls: u32,
}

impl Rally {
    fn new(polls: u32) -> Rally
        ensures { result.polls ≡ polls }
    {
        Rally {
            count: AtomicU64::new(0),
            gave_up: AtomicBool::new(false),
            polls,
        }
    }

    /// Raises the count by one.
    fn arrive(&self) {
        self.count.fetch_add(1, Ordering::SeqCst);
    }

    fn gave_up(&self) -> bool {
        self.gave_up.load(Ordering::SeqCst)
    }

    /// Whether the count is reached, or a wait gave up.
    fn is_over(&self, wanted: u64) -> bool {
        self.count.load(Ordering::SeqCst) >= wanted || self.gave_up()
    }

    /// Waits until the count is reached.
    fn wait_for(&self, wanted: u64) {
        for poll in 0..self.polls {
            if self.is_over(wanted) {
                return;
            }
            if poll % POLLS_A_YIELD == POLLS_A_YIELD - 1 {
                thread::yield_now();
            }
        }
        self.gave_up.store(true, Ordering::SeqCst);
    }
}

/// Holds each node before its first turn until every node is there, so that all run at the same
/// time. It gives up after 100,000,000 looks, or after as many as it is given.
#[derive(Drop)]
pub struct Meet {
    nodes: u16,
    here: Rally,
}

impl Meet {
    /// A gate for this many nodes. It takes no memory.
    pub fn new(nodes: u16) -> Meet
        ensures { (result.nodes ≡ nodes) × (result.here.polls ≡ 100000000) }
    {
        Meet::within(nodes, POLLS)
    }

    /// The same, giving up after this many looks.
    pub fn within(nodes: u16, polls: u32) -> Meet
        ensures { (result.nodes ≡ nodes) × (result.here.polls ≡ polls) }
    {
        Meet {
            nodes,
            here: Rally::new(polls),
        }
    }

    /// Whether a node gave up waiting; since then nobody is held back.
    pub fn gave_up(&self) -> bool {
        self.here.gave_up()
    }
}

impl Gate for Meet {
    fn before(&self, _node: u16, turn: u32) {
        if turn == 0 {
            self.here.arrive();
            self.here.wait_for(u64::from(self.nodes));
        }
    }

    fn after(&self, _node: u16, _turn: u32) {}
}

/// Holds each node before a turn until every node has done the turn before, so that no node is more
/// than one turn ahead of another. It gives up after 100,000,000 looks, or after as many as it is
/// given.
#[derive(Drop)]
pub struct Pace {
    nodes: u16,
    done: Rally,
}

impl Pace {
    /// A gate for this many nodes. It takes no memory.
    pub fn new(nodes: u16) -> Pace
        ensures { (result.nodes ≡ nodes) × (result.done.polls ≡ 100000000) }
    {
        Pace::within(nodes, POLLS)
    }

    /// The same, giving up after this many looks.
    pub fn within(nodes: u16, polls: u32) -> Pace
        ensures { (result.nodes ≡ nodes) × (result.done.polls ≡ polls) }
    {
        Pace {
            nodes,
            done: Rally::new(polls),
        }
    }

    /// Whether a node gave up waiting; since then nobody is held back.
    pub fn gave_up(&self) -> bool {
        self.done.gave_up()
    }
}

impl Gate for Pace {
    fn before(&self, _node: u16, turn: u32) {
        self.done.wait_for(u64::from(self.nodes) * u64::from(turn));
    }

    fn after(&self, _node: u16, _turn: u32) {
        self.done.arrive();
    }
}
