//! A world that begins as the network starts, and is set up to match another world.
ghost use Rattle.std.specs.Prelude.{◌≡◌, ◌<◌, ◌≤◌, ◌++◌, ◌∷◌, [], IfOk, IfErr, OnOk};
ghost use Rattle.record_gathering.specs.View.{gathered};
ghost use Rattle.record_gathering.specs.configuration.ConfigurationView.{world_of};
ghost use Rattle.record_gathering.specs.Facts.{edge_facts, states_below, state_facts};
ghost use Rattle.record_gathering.specs.Facts.{links_below, links_from};
ghost use Rattle.record_gathering.specs.configuration.run_model.World.{site};
ghost use Rattle.gather_command.specs.Woven.{IsBroken};
ghost use Rattle.gather_command.specs.Scene.{IsFresh, HasSet, IsSetUp};

use crate::fault::GatherFault;
use crate::gathered::give_all;
use crate::weaving::SPARE_PAIRS;
use command_parts::EventSink;
use node_recorder::network_mark;
use record_gathering::facts::{add_edges, add_links, add_state};
use record_gathering::{
    Configuration, Event, EventCounts, Fact, Gathering, laws as record_gathering_laws,
};
use std::alloc::{AllocError, Global};
use std::marker::Model;
use topology::Net;

/// A world that is set up, fact by fact.
#[derive(Drop)]
pub struct Scene {
    gathering: Gathering,
    /// How many events set it up, by their kinds.
    found: EventCounts,
}

impl Model for Scene {
    ghost use Rattle.gather_command.specs.Scene.{SceneView};

    ghost Value = { SceneView };

    ghost view = { λ s. record { gathering = s.gathering; found = s.found } };
}

impl Scene {
    /// The network as it starts.
    pub fn new(alloc: Global, net: &Net) -> Result<Scene, AllocError>
        ensures { IfOk result (IsFresh net.now) }
    {
        Ok(Scene {
            gathering: Gathering::new(alloc, net, SPARE_PAIRS)?,
            found: EventCounts::new(),
        })
    }

    /// Its world, and how many events set it up.
    pub fn into_parts(self) -> (Gathering, EventCounts)
        ensures gathering { result.0 ≡ self.gathering }
        ensures found { result.1 ≡ self.found }
    {
        (self.gathering, self.found)
    }

    /// Sets a fact. Its events are all that the list holds afterwards, and the sink takes them.
    fn sets<K: EventSink>(
        &mut self,
        fact: &Fact,
        events: &mut Vec<Event>,
        sink: &mut K,
    ) -> Result<(), GatherFault>
        ensures set { OnOk result (HasSet K.takes K.failures self.old sink.old (fact.now ∷ [])
            self.new sink.new) }
        ensures broken { IfErr result (λ fault.
            IsBroken fault (K.failures sink.old) (K.failures sink.new)) }
    {
        self.gathering.sets(fact, events)?;
        give_all(events, sink)?;
        self.found.count(events);
        Ok(())
    }
}

/// Sets facts, one after the other. The sink takes the events that they become.
fn set_all<K: EventSink>(
    alloc: Global,
    scene: &mut Scene,
    facts: &[Fact],
    sink: &mut K,
) -> Result<(), GatherFault>
    ensures set { OnOk result (HasSet K.takes K.failures scene.old sink.old facts.now scene.new
        sink.new) }
    ensures broken { IfErr result (λ fault.
        IsBroken fault (K.failures sink.old) (K.failures sink.new)) }
{
    record_gathering_laws::facts_join();
    record_gathering_laws::runs();
    let mut events = Vec::new(alloc);
    for fact in facts {
        scene.sets(fact, &mut events, sink)?;
    }
    Ok(())
}

/// Sets the edges that turn a network into another one.
fn set_edges<K: EventSink>(
    alloc: Global,
    scene: &mut Scene,
    net: &Net,
    other: &Net,
    sink: &mut K,
) -> Result<(), GatherFault>
    ensures set { OnOk result (HasSet K.takes K.failures scene.old sink.old
        (edge_facts net.now other.now) scene.new sink.new) }
    ensures broken { IfErr result (λ fault.
        IsBroken fault (K.failures sink.old) (K.failures sink.new)) }
{
    let mut facts = Vec::new(alloc);
    add_edges(net, other, &mut facts)?;
    set_all(alloc, scene, &facts, sink)
}

/// Sets the state of a node of the network with this number, as it is in a world.
fn set_node<K: EventSink>(
    alloc: Global,
    scene: &mut Scene,
    network: u32,
    world: &Configuration,
    node: u16,
    sink: &mut K,
) -> Result<(), GatherFault>
    requires { node < (world_of world.now).net.nodes }
    ensures set { OnOk result (HasSet K.takes K.failures scene.old sink.old
        (state_facts network (site (world_of world.now) node) ((world_of world.now).node node))
        scene.new sink.new) }
    ensures broken { IfErr result (λ fault.
        IsBroken fault (K.failures sink.old) (K.failures sink.new)) }
{
    let mut facts = Vec::new(alloc);
    add_state(network, world.node(node), &mut facts)?;
    set_all(alloc, scene, &facts, sink)
}

/// Sets the states of all nodes.
fn set_nodes<K: EventSink>(
    alloc: Global,
    scene: &mut Scene,
    network: u32,
    world: &Configuration,
    sink: &mut K,
) -> Result<(), GatherFault>
    ensures set { OnOk result (HasSet K.takes K.failures scene.old sink.old
        (states_below network (world_of world.now) (world_of world.now).net.nodes)
        scene.new sink.new) }
    ensures broken { IfErr result (λ fault.
        IsBroken fault (K.failures sink.old) (K.failures sink.new)) }
{
    record_gathering_laws::facts_join();
    record_gathering_laws::runs();
    for node in 0..world.net().nodes() {
        set_node(alloc, scene, network, world, node, sink)?;
    }
    Ok(())
}

/// Sets what is under way from a node in a world.
fn set_links<K: EventSink>(
    alloc: Global,
    scene: &mut Scene,
    world: &Configuration,
    from: u16,
    sink: &mut K,
) -> Result<(), GatherFault>
    requires { from < (world_of world.now).net.nodes }
    ensures set { OnOk result (HasSet K.takes K.failures scene.old sink.old
        (links_from (world_of world.now) from (world_of world.now).net.nodes) scene.new sink.new) }
    ensures broken { IfErr result (λ fault.
        IsBroken fault (K.failures sink.old) (K.failures sink.new)) }
{
    let mut facts = Vec::new(alloc);
    add_links(world, from, &mut facts)?;
    set_all(alloc, scene, &facts, sink)
}

/// Sets all that is under way.
fn set_all_links<K: EventSink>(
    alloc: Global,
    scene: &mut Scene,
    world: &Configuration,
    sink: &mut K,
) -> Result<(), GatherFault>
    ensures set { OnOk result (HasSet K.takes K.failures scene.old sink.old
        (links_below (world_of world.now) (world_of world.now).net.nodes) scene.new sink.new) }
    ensures broken { IfErr result (λ fault.
        IsBroken fault (K.failures sink.old) (K.failures sink.new)) }
{
    record_gathering_laws::facts_join();
    record_gathering_laws::runs();
    for from in 0..world.net().nodes() {
        set_links(alloc, scene, world, from, sink)?;
    }
    Ok(())
}

/// Returns the network as it starts, set up to match a world. The sink takes the events that lead
/// there.
///
/// # Errors
/// If the sink fails, or if memory runs out.
pub fn set_up<K: EventSink>(
    alloc: Global,
    net: &Net,
    world: &Configuration,
    sink: &mut K,
) -> Result<Scene, GatherFault>
    ensures set { IfOk result (λ scene. IsSetUp K.takes K.failures net.now (world_of world.now)
        sink.old scene sink.new) }
    ensures broken { IfErr result (λ fault.
        IsBroken fault (K.failures sink.old) (K.failures sink.new)) }
{
    record_gathering_laws::facts_join();
    record_gathering_laws::runs();
    let mut scene = Scene::new(alloc, net)?;
    set_edges(alloc, &mut scene, net, world.net(), sink)?;
    set_nodes(alloc, &mut scene, network_mark(net), world, sink)?;
    set_all_links(alloc, &mut scene, world, sink)?;
    Ok(scene)
}
