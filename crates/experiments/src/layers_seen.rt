//! What has been seen of the layers of the proof along a run under way.
ghost use Rattle.std.specs.Prelude.{◌≡◌, ◌+◌, not, ◌&&◌, ◌||◌, if◌then◌else◌, Some};
ghost use Rattle.judge.specs.Judging.{counted_up_to};
ghost use Rattle.judge.specs.configuration.ConfigurationView.{world_of};
ghost use Rattle.experiments.specs.Delays.{is_harm};
ghost use Rattle.experiments.specs.Recovery.{counted_from, unseen, AreLayersNow, LayersGoOn};

use judge::Configuration;
use layers::{are_links_stable, are_loans_privileged, is_token_ring_good, is_tree_reached};
use run_model::Event;
use std::alloc::Allocator;

/// What has been seen of the layers along a run.
#[derive(Clone, Copy)]
pub(crate) struct LayersSeen {
    /// How many events there were.
    pub(crate) events: u64,
    /// How many sweeps there had been when a link was last not stable.
    pub(crate) links: Option<u64>,
    /// How many sweeps there had been when the tree was last not reached.
    pub(crate) tree: Option<u64>,
    /// How many sweeps there had been when the token ring was last not good.
    pub(crate) ring: Option<u64>,
    /// Whether the network was legitimate when it was looked at last, and nothing was damaged since.
    settled: bool,
}

impl LayersSeen {
    /// What is seen at the first moment.
    pub(crate) fn first<A: Allocator + Copy>(
        configuration: &Configuration<A>,
        sweeps: u64,
    ) -> LayersSeen
        ensures events { result.events ≡ 0 }
        ensures layers { AreLayersNow (world_of configuration.now) sweeps unseen result }
    {
        let unseen = LayersSeen {
            events: 0,
            links: None,
            tree: None,
            ring: None,
            settled: false,
        };
        unseen.looked(configuration, sweeps)
    }

    /// What has been seen after one event more, which has led to this configuration and to this
    /// many sweeps. A network that has settled needs no look until something is damaged.
    pub(crate) fn after<A: Allocator + Copy>(
        self,
        configuration: &Configuration<A>,
        event: &Event,
        sweeps: u64,
    ) -> LayersSeen
        ensures { LayersGoOn (world_of configuration.now) event.now sweeps self result }
    {
        run_model::laws::in_range();
        layers::laws::closure();
        let more = self.with_event();
        if self.needs_look(event) {
            more.looked(configuration, sweeps)
        } else {
            more
        }
    }

    /// Whether a layer may fail after an event: not if all of them stood, unless it is a harm.
    fn needs_look(self, event: &Event) -> bool
        ensures { result ≡ (not self.settled || is_harm event.now) }
    {
        !self.settled || matches!(event, Event::Damage(_))
    }

    /// The same, with one event more.
    fn with_event(self) -> LayersSeen
        ensures { result ≡ record self { events = counted_up_to (self.events + 1) } }
    {
        LayersSeen {
            events: self.events.saturating_add(1),
            ..self
        }
    }

    /// What has been seen after one look more, when there have been this many sweeps.
    fn looked<A: Allocator + Copy>(
        self,
        configuration: &Configuration<A>,
        sweeps: u64,
    ) -> LayersSeen
        ensures events { result.events ≡ self.events }
        ensures layers { AreLayersNow (world_of configuration.now) sweeps self result }
    {
        let links = are_links_stable(configuration);
        let tree = is_tree_reached(configuration);
        let ring = is_token_ring_good(configuration);
        let loans = are_loans_privileged(configuration);
        LayersSeen {
            events: self.events,
            links: last_failure(links, sweeps, self.links),
            tree: last_failure(tree, sweeps, self.tree),
            ring: last_failure(ring, sweeps, self.ring),
            settled: all_stand(links, tree, ring, loans),
        }
    }
}

/// Whether all four conditions of a legitimate world hold.
fn all_stand(links: bool, tree: bool, ring: bool, loans: bool) -> bool
    ensures { result ≡ (links && (tree && (ring && loans))) }
{
    links && tree && ring && loans
}

/// How many sweeps there had been at the last moment at which something failed, with one moment
/// more.
pub(crate) fn last_failure(holds: bool, sweeps: u64, last: Option<u64>) -> Option<u64>
    ensures { result ≡ (if holds then last else Some sweeps) }
{
    if holds { last } else { Some(sweeps) }
}

/// The least number of sweeps after which something has held at every moment, by when it last
/// failed.
pub(crate) fn sweeps_after(last: Option<u64>) -> u64
    ensures { result ≡ counted_from last }
{
    match last {
        Some(sweeps) => sweeps.saturating_add(1),
        None => 0,
    }
}
