//! The greatest distance from the root, and the bound that follows from it.
ghost use Rattle.std.specs.Prelude.{◌≡◌};
ghost use Rattle.topology.specs.Eccentricity.{IsEccentricity, eccentricity_of, sharp_of};

use crate::net::Net;
use std::alloc::Allocator;

impl<A: Allocator + Copy> Net<A> {
    /// The greatest distance of a node from the root, 1 to `nodes() - 1`.
    pub fn eccentricity(&self) -> u16
        ensures greatest { IsEccentricity self.now result }
        ensures computed { result ≡ eccentricity_of self.now }
    {
        self.layout.distances.iter().copied().max().unwrap_or(0)
    }

    /// The sweeps after which the system is legitimate, from any state: 16(n-1) + 4e + 15, where e
    /// is the greatest distance. The capacity has no part in it, and it is never above
    /// [`Net::bound`].
    pub fn sharp_bound(&self) -> u32
        ensures { result ≡ sharp_of self.now }
    {
        16 * u32::from(self.nodes - 1) + 4 * u32::from(self.eccentricity()) + 15
    }
}
