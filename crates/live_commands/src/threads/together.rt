//! Nodes on threads that take turns fairly.
ghost use Rattle.std.specs.Prelude.{◌≡◌};

use std::sync::atomic::{AtomicBool, AtomicU64, Ordering};
use std::thread;
use std::time::{Clock, Duration};
use thread_net::Gate;

/// How many turns a node does before it waits for the others. With fewer, threads wait more often;
/// with more, a short run on few processors has fewer sweeps.
const TURNS_A_BLOCK: u32 = 16;

/// The nodes meet during this many turns. Later each runs as fast as it can.
const MET_TURNS: u32 = 1024;

/// How often a node looks for the others before it sleeps between two looks, so that nodes which
/// wait leave the processors to those that do not. With fewer, a node on a processor of its own
/// sleeps past the end of a meeting.
const QUICK_LOOKS: u32 = 256;

/// How often a node looks in one wait before it gives up, after half a second or more. So a thread
/// that was refused does not hold up the others for long.
const LOOKS: u32 = 5_256;

/// How long a node sleeps between two looks, in microseconds.
const REST: u64 = 100;

/// A gate at which all nodes meet before their first turn, and again after each 16 of the first
/// 1,024. So no node runs far ahead of another at first, however the system shares out its
/// processors.
#[derive(Drop)]
pub struct Together<'a, R> {
    rt: &'a R,
    nodes: u16,
    /// How often nodes came to a meeting, over all meetings.
    arrivals: AtomicU64,
    /// Whether a node has given up waiting; since then no node waits.
    gave_up: AtomicBool,
}

impl<'a, R: Clock> Together<'a, R> {
    /// A gate for this many nodes. It takes no memory.
    pub fn new(rt: &'a R, nodes: u16) -> Together<'a, R>
        ensures { result.nodes ≡ nodes }
    {
        Together {
            rt,
            nodes,
            arrivals: AtomicU64::new(0),
            gave_up: AtomicBool::new(false),
        }
    }

    /// Whether nodes came to meetings this often, or one has given up waiting.
    fn have_come(&self, often: u64) -> bool {
        self.arrivals.load(Ordering::SeqCst) >= often || self.gave_up.load(Ordering::SeqCst)
    }

    /// Waits until nodes have come to meetings this often, or one has given up waiting. After
    /// `LOOKS` looks, this node gives up.
    fn wait_for_all(&self, often: u64) {
        for look in 0..LOOKS {
            if self.have_come(often) {
                return;
            }
            rest_after(self.rt, look);
        }
        self.gave_up.store(true, Ordering::SeqCst);
    }
}

impl<R: Clock + Sync> Gate for Together<'_, R> {
    fn before(&self, _node: u16, turn: u32) {
        if turn < MET_TURNS && turn % TURNS_A_BLOCK == 0 {
            let meetings = turn / TURNS_A_BLOCK + 1;
            self.arrivals.fetch_add(1, Ordering::SeqCst);
            self.wait_for_all(u64::from(self.nodes) * u64::from(meetings));
        }
    }

    fn after(&self, _node: u16, _turn: u32) {}
}

/// Lets others run after a look, for a while if there were many looks.
fn rest_after<R: Clock>(rt: &R, look: u32) {
    if look < QUICK_LOOKS {
        thread::yield_now();
    } else {
        thread::sleep(rt, Duration::from_micros(REST));
    }
}
