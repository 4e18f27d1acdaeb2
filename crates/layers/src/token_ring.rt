//! Whether the token ring is good.
ghost use Rattle.std.specs.Prelude.{◌≡◌, ◌↔◌, ◌<◌, ℕ, List, ◌++◌, IsTrue};
ghost use Rattle.configuration.specs.ConfigurationView.{world_of};
ghost use Rattle.convergence.specs.Ring.{Leg, leg_values, IsTokenRingGood};
ghost use Rattle.layers.specs.RingReading.{MayFollow};

use crate::ring_reading::RingReading;
use crate::tour::{first_stop, next_stop};
use configuration::Configuration;
use std::alloc::Allocator;

/// Whether the values along the tour of the true tree are first all one value, and then all the
/// value before that.
pub fn is_token_ring_good<A: Allocator + Copy>(configuration: &Configuration<A>) -> bool
    ensures { IsTrue result ↔ IsTokenRingGood (world_of configuration.now) }
{
    euler_ring::laws::the_tour();
    let net = configuration.net();
    let nodes = net.nodes();
    let mut stop = first_stop(net);
    let head = configuration.node(stop.here).value(stop.from);
    let mut reading = RingReading::new(head, net.ring());
    for _ in 0..2 * (nodes - 1) {
        let next = next_stop(net, stop);
        reading = after_leg(configuration, reading, stop.from, stop.here, next.here);
        stop = next;
    }
    reading.is_good()
}

/// The reading of the ring after the three values of a leg: the machine's, the staged one, and the
/// copied one.
fn after_leg<A: Allocator + Copy>(
    configuration: &Configuration<A>,
    reading: RingReading,
    from: u16,
    here: u16,
    onward: u16,
) -> RingReading
    requires from_in { from < (world_of configuration.now).net.nodes }
    requires here_in { here < (world_of configuration.now).net.nodes }
    requires onward_in { onward < (world_of configuration.now).net.nodes }
    requires modulus { 0 < reading.modulus }
    ensures modulus { result.modulus ≡ reading.modulus }
    ensures follows { (rest : List ℕ) → MayFollow result rest
        ↔ MayFollow reading (leg_values (world_of configuration.now)
        (record { from = from; here = here; onward = onward }) ++ rest) }
{
    let machine = configuration.node(here).value(from);
    let staged = configuration.node(here).staged_for(onward).ring;
    let copied = configuration.node(onward).copy_of(here).ring;
    reading.after(machine).after(staged).after(copied)
}
