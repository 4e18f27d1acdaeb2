//! A run under way, and since when it serves.
ghost use Rattle.std.specs.Prelude.{◌≡◌, ◌∷◌, [], false, IsOk, if◌then◌else◌, Some};
ghost use Rattle.judge.specs.configuration.ConfigurationView.{world_of};
ghost use Rattle.judge.specs.JudgeView.{AreSweepsSeen};
ghost use Rattle.experiments.specs.Recovery.{beginning, counted_from, AnyLayersGoOn, AreAnyLayersFirst};
ghost use Rattle.experiments.specs.Recovery.{IsWatched};
ghost use Rattle.experiments.specs.Watched.{GoesOn};

use crate::layers_seen::{LayersSeen, last_failure, sweeps_after};
use byte_streams::Failed;
use judge::{Configuration, Judge, World, serves, serves_after, touched_sight};
use run_model::Event;
use schedules::EventSink;
use std::alloc::{Allocator, Global};
use std::marker::Model;

/// When a run under way last failed.
#[derive(Clone, Copy)]
pub(crate) struct LastFailures {
    /// How many sweeps there had been at the last moment at which it did not serve.
    serving: Option<u64>,
    /// What has been seen of the layers of the proof, if they are looked at.
    pub(crate) layers: Option<LayersSeen>,
}

/// Lets events happen from a world on, counts their sweeps, and keeps how many there had been when
/// the network last did not serve. It may look at the layers of the proof, too.
#[derive(Drop)]
pub struct ServiceWatch<A: Allocator + Copy = Global> {
    judge: Judge<A>,
    last: LastFailures,
    /// Whether it serves now. It is kept so that after an event only the node that it touches need
    /// be looked at.
    serves: bool,
}

impl<A: Allocator + Copy> Model for ServiceWatch<A> {
    ghost use Rattle.std.specs.Prelude.{◌↔◌, IsTrue};
    ghost use Rattle.judge.specs.configuration.ConfigurationView.{world_of};
    ghost use Rattle.run_model.specs.Headline.{IsServing};
    ghost use Rattle.experiments.specs.Recovery.{WatchView};

    ghost Value = { WatchView };

    ghost view = { λ w. record { judge = w.judge; last = w.last } };

    ghost invariant = { λ w. IsTrue w.serves ↔ IsServing (world_of w.judge.configuration) };
}

impl<A: Allocator + Copy> ServiceWatch<A> {
    /// A watch over what happens from a world on.
    pub fn new(world: World<A>) -> ServiceWatch<A>
        ensures { IsWatched (beginning (world_of world) false) [] result.judge
            result.last }
    {
        ServiceWatch::begin(world, false)
    }

    /// A watch that also looks at the layers if `layered` is true. It looks at them after each
    /// event until all of them stand. Then they stand until something is damaged, so it looks again
    /// only after a harm.
    pub(crate) fn begin(world: World<A>, layered: bool) -> ServiceWatch<A>
        ensures { IsWatched (beginning (world_of world) layered) [] result.judge
            result.last }
    {
        let judge = Judge::new(world);
        let now = judge.configuration();
        let sweeps = judge.sweeps();
        let serves = serves(now);
        let last = LastFailures {
            serving: last_failure(serves, sweeps, None),
            layers: first_layers(now, sweeps, layered),
        };
        ServiceWatch {
            judge,
            last,
            serves,
        }
    }

    /// The nodes and links now.
    pub fn configuration(&self) -> &Configuration<A>
        ensures { result.now ≡ self.now.judge.configuration }
    {
        self.judge.configuration()
    }

    /// How many sweeps there have been.
    pub fn sweeps(&self) -> u64
        ensures count { result ≡ self.now.judge.sweeps }
        ensures sweeps { AreSweepsSeen self.now.judge result }
    {
        self.judge.sweeps()
    }

    /// The least number of sweeps after which the network has served at every moment.
    pub fn served_after(&self) -> u64
        ensures { result ≡ counted_from self.now.last.serving }
    {
        sweeps_after(self.last.serving)
    }

    /// What has been seen of the layers, if they are looked at.
    pub(crate) fn layers(&self) -> Option<LayersSeen>
        ensures { result ≡ self.now.last.layers }
    {
        self.last.layers
    }
}

/// What is seen of the layers at the first moment, if they are looked at.
fn first_layers<A: Allocator + Copy>(
    configuration: &Configuration<A>,
    sweeps: u64,
    layered: bool,
) -> Option<LayersSeen>
    ensures { AreAnyLayersFirst (world_of configuration.now) sweeps layered result }
{
    if layered {
        Some(LayersSeen::first(configuration, sweeps))
    } else {
        None
    }
}

/// What has been seen of the layers after one more event, if they are looked at.
fn next_layers<A: Allocator + Copy>(
    layers: Option<LayersSeen>,
    configuration: &Configuration<A>,
    event: &Event,
    sweeps: u64,
) -> Option<LayersSeen>
    ensures { AnyLayersGoOn (world_of configuration.now) event.now sweeps layers result }
{
    match layers {
        Some(seen) => Some(seen.after(configuration, event, sweeps)),
        None => None,
    }
}

impl<A: Allocator + Copy> EventSink for ServiceWatch<A> {
    ghost use Rattle.experiments.specs.Watched.{GoesOn, goes-nowhere, goes-both};

    ghost takes = { λ a events b. GoesOn a.judge a.last events b.judge b.last };

    ghost failures = { λ w. 0 };

    /// It never fails. The whole network is looked at only if the node that the event touches looks
    /// different afterwards, and at harms.
    fn take(&mut self, event: &Event) -> Result<(), Failed>
        ensures taken { GoesOn self.old.judge self.old.last (event.now ∷ []) self.new.judge
            self.new.last }
        ensures done { IsOk result }
    {
        let before = touched_sight(self.judge.configuration(), event);
        let _answer = self.judge.step(event);
        let now = self.judge.configuration();
        let sweeps = self.judge.sweeps();
        self.serves = serves_after(now, event, self.serves, before);
        self.last = LastFailures {
            serving: last_failure(self.serves, sweeps, self.last.serving),
            layers: next_layers(self.last.layers, now, event, sweeps),
        };
        Ok(())
    }

    ghost takes_none = { λ s. goes-nowhere s.judge s.last };

    ghost takes_both = { λ a b c. goes-both a.judge b.judge c.judge a.last b.last c.last };
}
