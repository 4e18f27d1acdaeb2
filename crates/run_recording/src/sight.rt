//! What is seen of all nodes, kept up to date event by event.
ghost use Rattle.std.specs.Prelude.{◌≡◌, ◌<◌, map};
ghost use Rattle.world.specs.judge.configuration.ConfigurationView.{world_of};
ghost use Rattle.world.specs.run_model.World.{World};
ghost use Rattle.world.specs.run_model.Step.{step};
ghost use Rattle.world.specs.run_model.declared.event.Event.TheVariants.{Damage};
ghost use Rattle.run_recording.specs.Seen.{place_at, places_of, look_at, looks_of};
ghost use Rattle.run_recording.specs.Seen.{edge_at, edges_of};
ghost use Rattle.run_recording.specs.Seen.{is_same, is_at, look_by, mark_of_look, sight_of};
ghost use Rattle.run_recording.specs.Columns.{AreChangedBy};
ghost use Rattle.run_recording.specs.SightSteps.{DiffersAt, recounted, with_look};

use crate::change::Change;
use crate::look::{Look, Place};
use crate::mark::Mark;
use crate::still::{MOST_EDGES, MOST_NODES, NO_EDGE};
use std::alloc::Allocator;
use topology::Net;
use world::{Configuration, Event, Harm};

/// What is seen of all nodes at one moment, by their ids.
///
/// It is updated event by event: an event changes the look of at most one node, unless it is damage
/// to the edges, which alone changes the true places.
#[derive(Clone, Copy)]
pub struct NodesSight {
    /// The true places.
    pub places: [Place; MOST_NODES],
    /// The edges, with [`NO_EDGE`] at places without one.
    pub edges: [(u16, u16); MOST_EDGES],
    /// What is seen of each node.
    pub looks: [Look; MOST_NODES],
    /// The marks of these looks.
    pub marks: [Mark; MOST_NODES],
    /// How many nodes are privileged.
    pub privileged: usize,
    /// How many nodes lend.
    pub lending: usize,
}

/// Whether both are none, or both are the same node.
fn is_same(parent: Option<u16>, other: Option<u16>) -> bool
    ensures { result ≡ is_same parent other }
{
    match (parent, other) {
        (None, None) => true,
        (Some(v), Some(w)) => v == w,
        _ => false,
    }
}

/// Whether both are the same place.
fn is_at(own: Place, place: Place) -> bool
    ensures { result ≡ is_at own place }
{
    own.distance == place.distance && is_same(own.parent, place.parent)
}

/// The look of a node with this true place.
fn look_by<A: Allocator + Copy>(configuration: &Configuration<A>, place: Place, v: u16) -> Look
    requires { v < (world_of configuration.now).net.nodes }
    ensures { result ≡ look_by (world_of configuration.now) place v }
{
    let node = configuration.node(v);
    let own = Place {
        distance: node.distance(),
        parent: node.parent(),
    };
    Look {
        own,
        settled: is_at(own, place),
        privileged: node.privileged(),
        lent: node.lent(),
    }
}

/// The mark of a look.
fn mark_of(look: Look) -> Mark
    ensures { result ≡ mark_of_look look }
{
    match look.lent {
        Some(ticket) => Mark::Lending { ticket },
        None if look.privileged => Mark::Privileged,
        None if look.settled => Mark::Settled,
        None => Mark::Wrong,
    }
}

/// The true place at an id.
fn place_at<A: Allocator + Copy>(net: &Net<A>, v: u16) -> Place
    ensures { result ≡ place_at net.now v }
{
    if v < net.nodes() {
        Place {
            distance: net.distance(v),
            parent: net.parent(v),
        }
    } else {
        Place::NOWHERE
    }
}

/// The true places of all ids.
fn places_of<A: Allocator + Copy>(net: &Net<A>) -> [Place; MOST_NODES]
    ensures { result ≡ places_of net.now }
{
    let mut places = [Place::NOWHERE; MOST_NODES];
    for v in 0..64 {
        places[usize::from(v)] = place_at(net, v);
    }
    places
}

/// The edge at a place.
fn edge_at<A: Allocator + Copy>(net: &Net<A>, k: usize) -> (u16, u16)
    ensures { result ≡ edge_at net.now k }
{
    net.edges().get(k).copied().unwrap_or(NO_EDGE)
}

/// The edges.
fn edges_of<A: Allocator + Copy>(net: &Net<A>) -> [(u16, u16); MOST_EDGES]
    ensures { result ≡ edges_of net.now }
{
    let mut edges = [NO_EDGE; MOST_EDGES];
    for k in 0..MOST_EDGES {
        edges[k] = edge_at(net, k);
    }
    edges
}

/// What is seen at an id.
fn look_at<A: Allocator + Copy>(
    configuration: &Configuration<A>,
    places: &[Place; MOST_NODES],
    v: u16,
) -> Look
    requires { v < 64 }
    ensures { places.now ≡ places_of (world_of configuration.now).net
        → result ≡ look_at (world_of configuration.now) v }
{
    if v < configuration.net().nodes() {
        look_by(configuration, places[usize::from(v)], v)
    } else {
        Look::NOTHING
    }
}

/// What is seen of all ids.
fn looks_of<A: Allocator + Copy>(
    configuration: &Configuration<A>,
    places: &[Place; MOST_NODES],
) -> [Look; MOST_NODES]
    ensures { places.now ≡ places_of (world_of configuration.now).net
        → result ≡ looks_of (world_of configuration.now) }
{
    let mut looks = [Look::NOTHING; MOST_NODES];
    for v in 0..64 {
        looks[usize::from(v)] = look_at(configuration, places, v);
    }
    looks
}

/// The marks of looks.
fn marks_of(looks: &[Look; MOST_NODES]) -> [Mark; MOST_NODES]
    ensures { result ≡ map mark_of_look looks.now }
{
    let mut marks = [Mark::Settled; MOST_NODES];
    for v in 0..64 {
        marks[v] = mark_of(looks[v]);
    }
    marks
}

/// Updates a count of nodes: one node may have started or stopped being counted.
fn recounted(count: usize, was: bool, is: bool) -> usize
    ensures { result ≡ recounted count was is }
{
    match (was, is) {
        (false, true) => count.saturating_add(1),
        (true, false) => count.saturating_sub(1),
        _ => count,
    }
}

impl NodesSight {
    /// What is seen of a configuration.
    pub fn of<A: Allocator + Copy>(configuration: &Configuration<A>) -> NodesSight
        ensures { result ≡ sight_of (world_of configuration.now) }
    {
        let places = places_of(configuration.net());
        let looks = looks_of(configuration, &places);
        NodesSight {
            places,
            edges: edges_of(configuration.net()),
            looks,
            marks: marks_of(&looks),
            privileged: configuration.privileged(),
            lending: configuration.lending(),
        }
    }

    /// Updates what is seen after an event led to this configuration, and says which marks may have
    /// changed. Looks at one node at most, unless an edge has joined or parted.
    // A separate call would write the event of each line to memory.
    #[inline(always)]
    pub fn follow<A: Allocator + Copy>(
        &mut self,
        configuration: &Configuration<A>,
        event: &Event,
    ) -> Change
        ensures sight { (w : World) → self.old ≡ sight_of w
            → world_of configuration.now ≡ step w event.now
            → self.new ≡ sight_of (world_of configuration.now) }
        ensures change { AreChangedBy result self.old.marks self.new.marks }
    {
        match *event {
            Event::Send { .. } => Change::Nothing,
            Event::Lose { .. } => Change::Nothing,
            Event::Take { to, .. } => self.look_again(configuration, to),
            Event::Tick { node } => self.look_again(configuration, node),
            Event::Ask { node, .. } => self.look_again(configuration, node),
            Event::Leave { node, .. } => self.look_again(configuration, node),
            Event::Damage(harm) => self.follow_harm(configuration, harm),
        }
    }

    /// Updates what is seen after damage. Looks at all nodes only if an edge has joined or parted.
    #[inline(never)]
    fn follow_harm<A: Allocator + Copy>(
        &mut self,
        configuration: &Configuration<A>,
        harm: Harm,
    ) -> Change
        ensures sight { (w : World) → self.old ≡ sight_of w
            → world_of configuration.now ≡ step w (Damage harm)
            → self.new ≡ sight_of (world_of configuration.now) }
        ensures change { AreChangedBy result self.old.marks self.new.marks }
    {
        match harm {
            Harm::Own { node, .. } => self.look_again(configuration, node),
            Harm::Counters { node, .. } => self.look_again(configuration, node),
            Harm::Staged { node, .. } => self.look_again(configuration, node),
            Harm::Copy { node, .. } => self.look_again(configuration, node),
            Harm::Value { node, .. } => self.look_again(configuration, node),
            Harm::Desk { node, .. } => self.look_again(configuration, node),
            Harm::Item { .. } => Change::Nothing,
            Harm::Empty { .. } => Change::Nothing,
            Harm::Join { .. } => self.look_at_all(configuration),
            Harm::Part { .. } => self.look_at_all(configuration),
        }
    }

    /// Looks at all nodes.
    #[inline(never)]
    fn look_at_all<A: Allocator + Copy>(&mut self, configuration: &Configuration<A>) -> Change
        ensures sight { self.new ≡ sight_of (world_of configuration.now) }
        ensures change { AreChangedBy result self.old.marks self.new.marks }
    {
        *self = NodesSight::of(configuration);
        Change::All
    }

    /// Updates what is seen if only this node changed. Writes nothing if it looks as before.
    #[inline(always)]
    fn look_again<A: Allocator + Copy>(
        &mut self,
        configuration: &Configuration<A>,
        v: u16,
    ) -> Change
        ensures sight { (w : World) → self.old ≡ sight_of w → DiffersAt v w (world_of configuration.now)
            → self.new ≡ sight_of (world_of configuration.now) }
        ensures change { AreChangedBy result self.old.marks self.new.marks }
    {
        if v < configuration.net().nodes() {
            let node = usize::from(v);
            let look = look_by(configuration, self.places[node], v);
            if look.is(self.looks[node]) {
                Change::Nothing
            } else {
                self.put(node, look);
                Change::At { node }
            }
        } else {
            Change::Nothing
        }
    }

    /// Replaces the look of a node.
    #[inline(never)]
    fn put(&mut self, v: usize, look: Look)
        requires { v < 64 }
        ensures { self.new ≡ with_look self.old v look }
    {
        let was = self.looks[v];
        self.privileged = recounted(self.privileged, was.privileged, look.privileged);
        self.lending = recounted(self.lending, was.lent.is_some(), look.lent.is_some());
        self.marks[v] = mark_of(look);
        self.looks[v] = look;
    }
}
