//! What is kept of the node.
ghost use Rattle.std.specs.Prelude.{◌≡◌, ◌≤◌};
ghost use Rattle.pace.specs.Plans.{node_rest};
ghost use Rattle.pace.specs.Nodes.{quiet_node, holds, may_tick, was_called, called, moved_on};
ghost use Rattle.pace.specs.Nodes.{is_hasty, calls_for_haste};

use crate::clock::{LONGEST_REST, is_over};
use crate::pace::Manner;

/// While a loan with a lease runs, a node ticks at most once in this time, in microseconds: a lease
/// then means a time.
const TICK_OF_A_LEASE: u64 = 2_000;

/// A node at which somebody waits calls again after this time, in microseconds.
const CALL_AGAIN: u64 = 50_000;

/// A call is forgotten after this time, in microseconds.
const CALL_ENDS: u64 = 100_000;

/// The circuits of the token for which a call is good.
const CIRCUITS: u32 = 4;

/// The state of a node's desk and its clients.
#[derive(Clone, Copy)]
pub struct Outlook {
    /// Somebody waits for the lock.
    pub waits: bool,
    /// The lock is lent to somebody.
    pub lends: bool,
    /// Loans have a lease.
    pub has_lease: bool,
    /// A client has just let the lock go.
    pub let_go: bool,
}

/// What a node remembers of its own haste. Times are microseconds. Whatever these fields hold, a
/// pace goes by them, and loses no more than time.
#[derive(Clone, Copy)]
pub struct NodePace {
    /// Until when it keeps the news of its machines to itself.
    pub hold_until: u64,
    /// How many moves of its machines are still to be hasty.
    pub credit: u32,
    /// When it was last called, or called itself.
    pub called_at: u64,
    /// When it ticked last.
    pub ticked_at: u64,
}

impl NodePace {
    /// A node that has nothing to remember.
    pub fn new() -> NodePace
        ensures { result ≡ quiet_node }
    {
        NodePace {
            hold_until: 0,
            credit: 0,
            called_at: 0,
            ticked_at: 0,
        }
    }

    /// Whether it keeps the news of its machines to itself: the hold is not over, nobody waits, and
    /// nobody has just let go. A hold that ends later than a hold can is no hold.
    pub fn holds(&self, outlook: &Outlook, manner: &Manner, now: u64) -> bool
        ensures { result ≡ holds outlook.now manner.now now self.now }
    {
        now < self.hold_until
            && self.hold_until - now <= manner.hold
            && !outlook.waits
            && !outlook.let_go
    }

    /// How long it is until the hold is over, 2 milliseconds at most; 2 milliseconds if it does not
    /// hold.
    pub fn rest(&self, outlook: &Outlook, manner: &Manner, now: u64) -> u64
        ensures { result ≡ node_rest outlook.now manner.now now self.now }
    {
        if self.holds(outlook, manner, now) {
            LONGEST_REST.min(self.hold_until - now)
        } else {
            LONGEST_REST
        }
    }

    /// Whether it may tick: once in 2 milliseconds while a loan with a lease runs, and otherwise
    /// always.
    pub fn may_tick(&self, outlook: &Outlook, now: u64) -> bool
        ensures { result ≡ may_tick outlook.now now self.now }
    {
        !(outlook.lends && outlook.has_lease) || is_over(self.ticked_at, TICK_OF_A_LEASE, now)
    }

    /// Whether it was called a moment ago and has most of its haste left, so that a further call
    /// need not go on.
    pub fn was_called(&self, trees: u32, now: u64) -> bool
        requires { trees ≤ 64 }
        ensures { result ≡ was_called trees now self.now }
    {
        self.credit > (CIRCUITS - 1) * trees && !is_over(self.called_at, CALL_AGAIN / 2, now)
    }

    /// Takes note that it was called, or calls: it has haste for some circuits, and no hold.
    pub fn call(&mut self, trees: u32, now: u64)
        requires { trees ≤ 64 }
        ensures { self.new ≡ called trees now self.old }
    {
        self.hold_until = 0;
        self.credit = CIRCUITS * trees;
        self.called_at = now;
    }

    /// Takes note of a tick, in which some machine moved or none did.
    pub fn tick(&mut self, moved: bool, trees: u32, manner: &Manner, now: u64)
        requires { trees ≤ 64 }
        ensures { self.new ≡ moved_on moved trees manner.now now self.old }
    {
        self.ticked_at = now;
        self.credit = self.credit.min(CIRCUITS * trees);
        if !moved {
            return;
        }
        if self.is_hasty(now) {
            self.credit -= 1;
            self.hold_until = 0;
        } else {
            self.hold_until = now.saturating_add(manner.hold);
        }
    }

    /// Whether some of a call's haste is left.
    fn is_hasty(&self, now: u64) -> bool
        ensures { result ≡ is_hasty now self.now }
    {
        self.credit > 0 && !is_over(self.called_at, CALL_ENDS, now)
    }

    /// Whether it should call: somebody waits and nobody borrows, and its haste runs low or its
    /// last call was a while ago.
    pub fn calls_for_haste(&self, outlook: &Outlook, trees: u32, now: u64) -> bool
        ensures { result ≡ calls_for_haste outlook.now trees now self.now }
    {
        outlook.waits
            && !outlook.lends
            && (self.credit <= trees || is_over(self.called_at, CALL_AGAIN, now))
    }
}
