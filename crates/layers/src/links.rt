//! Which links are stable.
ghost use Rattle.std.specs.Prelude.{◌≡◌, ◌↔◌, ◌<◌, ◌≤◌, ◌*◌, IsTrue, length};
ghost use Rattle.topology.specs.Network.{neighbours_of};
ghost use Rattle.configuration.specs.run_model.Links.{AreLinksStable};
ghost use Rattle.configuration.specs.run_model.Project.{edge_of};
ghost use Rattle.configuration.specs.data_link.Edge.{IsStable, link_ring, modulus_of};
ghost use Rattle.configuration.specs.ConfigurationView.{world_of};
ghost use Rattle.k_state.specs.Ring.{IsGood};
ghost use Rattle.layers.specs.Links.{AreSuch, IsLinkStable, CarriesPayloads, links_from};
ghost use Rattle.layers.specs.Links.{links_of, AreStableFrom};

use crate::items::{FrameNumber, after_numbers, after_payloads};
use crate::payload_reading::PayloadReading;
use crate::ring_reading::RingReading;
use configuration::Configuration;
use std::alloc::Allocator;
use topology::{Net, laws as topology_laws};

/// How many links there are; each direction of an edge is one.
pub fn link_count<A: Allocator + Copy>(net: &Net<A>) -> usize
    ensures { result ≡ length (links_of net.now) }
{
    let mut count = 0;
    for from in 0..net.nodes() {
        count += net.neighbours(from).len();
    }
    count
}

/// How many links are stable.
pub fn stable_count<A: Allocator + Copy>(configuration: &Configuration<A>) -> usize
    ensures { AreSuch (IsLinkStable (world_of configuration.now))
        (links_of (world_of configuration.now).net) result }
{
    let mut count = 0;
    for from in 0..configuration.net().nodes() {
        count += stable_count_from(configuration, from);
    }
    count
}

/// How many of the links that lead from a node are stable.
fn stable_count_from<A: Allocator + Copy>(configuration: &Configuration<A>, from: u16) -> usize
    requires { from < (world_of configuration.now).net.nodes }
    ensures count { AreSuch (IsLinkStable (world_of configuration.now))
        (links_from (world_of configuration.now).net from) result }
    ensures few { result ≤ (world_of configuration.now).net.nodes }
{
    topology_laws::neighbours();
    let mut count = 0;
    for to in configuration.net().neighbours(from) {
        if is_stable(configuration, from, *to) {
            count += 1;
        }
    }
    count
}

/// Whether every link is stable, in both directions. It looks no further than the first that is not.
pub fn are_links_stable<A: Allocator + Copy>(configuration: &Configuration<A>) -> bool
    ensures { IsTrue result ↔ AreLinksStable (world_of configuration.now) }
{
    topology_laws::joined();
    for from in 0..configuration.net().nodes() {
        if !are_stable_from(configuration, from) {
            return false;
        }
    }
    true
}

/// Whether each link that leads from a node is stable.
fn are_stable_from<A: Allocator + Copy>(configuration: &Configuration<A>, from: u16) -> bool
    requires { from < (world_of configuration.now).net.nodes }
    ensures { IsTrue result ↔ AreStableFrom (world_of configuration.now) from }
{
    topology_laws::neighbours();
    topology_laws::joined();
    let net = configuration.net();
    let _known_nodes = net.nodes();
    for &to in net.neighbours(from) {
        if !is_stable(configuration, from, to) {
            return false;
        }
    }
    true
}

/// Whether the link from one node to another is stable.
fn is_stable<A: Allocator + Copy>(configuration: &Configuration<A>, from: u16, to: u16) -> bool
    requires from_in { from < (world_of configuration.now).net.nodes }
    requires to_in { to < (world_of configuration.now).net.nodes }
    ensures { IsTrue result ↔ IsLinkStable (world_of configuration.now) (from, to) }
{
    is_ring_good(configuration, from, to) && carries_payloads(configuration, from, to)
}

/// Whether the numbers along a link are first all one value, and then all the value before that.
fn is_ring_good<A: Allocator + Copy>(configuration: &Configuration<A>, from: u16, to: u16) -> bool
    requires from_in { from < (world_of configuration.now).net.nodes }
    requires to_in { to < (world_of configuration.now).net.nodes }
    ensures { IsTrue result ↔ IsGood (modulus_of (world_of configuration.now).net.capacity)
        (link_ring (edge_of (world_of configuration.now) from to)) }
{
    let seq = configuration.node(from).seq(to);
    let last = configuration.node(to).last(from);
    let near = RingReading::new(seq, configuration.net().counter()).after(seq);
    let out = after_numbers(configuration, from, to, FrameNumber::Own, near);
    let back = after_numbers(
        configuration,
        to,
        from,
        FrameNumber::Acknowledged,
        out.after(last),
    );
    back.is_good()
}

/// Whether each number along a link comes with its own payload.
fn carries_payloads<A: Allocator + Copy>(
    configuration: &Configuration<A>,
    from: u16,
    to: u16,
) -> bool
    requires from_in { from < (world_of configuration.now).net.nodes }
    requires to_in { to < (world_of configuration.now).net.nodes }
    ensures { IsTrue result ↔ CarriesPayloads (edge_of (world_of configuration.now) from to) }
{
    let near = configuration.node(from);
    let far = configuration.node(to);
    let start = PayloadReading::new(near.seq(to), near.staged_for(to));
    let copied = start.after(far.last(from), far.copy_of(from));
    after_payloads(configuration, from, to, copied).is_good()
}
