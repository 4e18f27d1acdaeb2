//! What is believed of a machine, and the times that follow from it.
ghost use Rattle.std.specs.Prelude.{◌≡◌};
ghost use Rattle.recovery_times.specs.Times.{usual, full_of, window_of, recovery_of, lending_of};

use std::alloc::Allocator;
use topology::{Net, laws as topology_laws};

/// How fast the nodes and the links of a network are, in microseconds.
#[derive(Clone, Copy)]
pub struct Premises {
    /// Each stretch of this length holds a whole turn of each node.
    pub turn: u32,
    /// A frame is taken at the latest in the first turn that begins this long after it was sent.
    pub delay: u32,
    /// The longest loan, from the grant to the leave, as its node sees it; 0 if no node lends.
    pub loan: u32,
    /// The time after which a node sends its frame again.
    pub repeat: u32,
}

impl Premises {
    /// Turns each 2.2 milliseconds, 0.1 milliseconds on the way, loans of at most 8.1 milliseconds,
    /// the longest that leave the window as it is, and frames again after 8 milliseconds.
    pub fn usual() -> Premises
        ensures { result ≡ usual }
    {
        Premises {
            turn: 2_200,
            delay: 100,
            loan: 8_100,
            repeat: 8_000,
        }
    }

    /// Each stretch of this length, in microseconds, holds a full tick of each node: a tick after
    /// which the node lends to nobody.
    pub fn full(&self) -> u64
        ensures { result ≡ full_of self.now }
    {
        if self.loan == 0 {
            u64::from(self.turn)
        } else {
            u64::from(self.loan) + 2 * u64::from(self.turn)
        }
    }

    /// Each stretch of this length, in microseconds, is a sweep.
    pub fn window(&self) -> u64
        ensures { result ≡ window_of self.now }
    {
        let heard = u64::from(self.repeat) + 2 * u64::from(self.turn) + u64::from(self.delay);
        self.full().max(heard)
    }

    /// The time after which the network serves, from whatever state, in microseconds.
    pub fn recovers_within<A: Allocator + Copy>(&self, net: &Net<A>) -> u64
        ensures { result ≡ recovery_of net.now self.now }
    {
        topology_laws::limits();
        topology_laws::eccentricity();
        let _nodes = net.nodes();
        let sweeps = net.sharp_bound();
        u64::from(sweeps) * self.window()
    }

    /// The time within which a legitimate network lends to a client that waits alone, in
    /// microseconds. If `loan` is 0, no node lends, and this says nothing.
    pub fn lends_within<A: Allocator + Copy>(&self, net: &Net<A>) -> u64
        ensures { result ≡ lending_of net.now 0 self.now }
    {
        let sweeps = 16 * (u64::from(net.nodes()) - 1);
        sweeps * self.window()
    }
}
