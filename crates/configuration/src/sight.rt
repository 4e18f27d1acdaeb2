//! The test of whether a network serves, along a run: it looks at one node for each event.
ghost use Rattle.std.specs.Prelude.{◌≡◌, ◌↔◌, ◌<◌, IsTrue};
ghost use Rattle.run_model.specs.World.{World};
ghost use Rattle.run_model.specs.Step.{step};
ghost use Rattle.run_model.specs.Headline.{IsServing};
ghost use Rattle.configuration.specs.ConfigurationView.{world_of};
ghost use Rattle.configuration.specs.Sight.{sight_of, IsOwnNode, IsTouchedSight};

use crate::configuration::Configuration;
use crate::laws::sights;
use crate::whole::serves;
use run_model::Event;
use std::alloc::Allocator;

/// What matters at one node for whether the network serves.
#[derive(Clone, Copy, Debug, PartialEq, Eq)]
pub struct Sight {
    /// Its distance.
    pub distance: u16,
    /// Its parent.
    pub parent: Option<u16>,
    /// Whether it is privileged.
    pub privileged: bool,
    /// Whether it lends.
    pub lending: bool,
}

/// The sight of a node.
fn sight_at<A: Allocator + Copy>(configuration: &Configuration<A>, v: u16) -> Sight
    requires { v < (world_of configuration.now).net.nodes }
    ensures { result ≡ sight_of (world_of configuration.now) v }
{
    let node = configuration.node(v);
    Sight {
        distance: node.distance(),
        parent: node.parent(),
        privileged: node.privileged(),
        lending: node.lent().is_some(),
    }
}

/// The node that an event touches, if there is one; none for a harm.
fn own_node(event: &Event) -> Option<u16>
    ensures { IsOwnNode event.now result }
{
    match *event {
        Event::Take { to, .. } => Some(to),
        Event::Tick { node } | Event::Ask { node, .. } | Event::Leave { node, .. } => Some(node),
        Event::Send { .. } | Event::Lose { .. } | Event::Damage(_) => None,
    }
}

/// The sight of the node that an event touches, if the event is not a harm and there is such a
/// node. The event may have happened already, or be about to.
pub fn touched_sight<A: Allocator + Copy>(
    configuration: &Configuration<A>,
    event: &Event,
) -> Option<Sight>
    ensures { IsTouchedSight (world_of configuration.now) event.now result }
{
    match own_node(event) {
        Some(v) if v < configuration.net().nodes() => Some(sight_at(configuration, v)),
        _ => None,
    }
}

/// Whether a network serves after an event; `served` says whether it served before, and `before` is
/// what [`touched_sight`] returned then. Looks only at the node that the event touches, unless that
/// node looks different now or the event is a harm.
pub fn serves_after<A: Allocator + Copy>(
    configuration: &Configuration<A>,
    event: &Event,
    served: bool,
    before: Option<Sight>,
) -> bool
    ensures { (old : World) → world_of configuration.now ≡ step old event.now
        → IsTouchedSight old event.now before → (IsTrue served ↔ IsServing old)
        → (IsTrue result ↔ IsServing (world_of configuration.now)) }
{
    sights();
    run_model::laws::runs();
    if let Event::Damage(_) = event {
        return serves(configuration);
    }
    let is_same = before == touched_sight(configuration, event);
    if is_same {
        served
    } else {
        serves(configuration)
    }
}
