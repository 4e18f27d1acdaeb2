//! The facts of a world. Set in a world that begins as the network starts, they bring it into the
//! same state.
ghost use Rattle.std.specs.Prelude.{◌≡◌, ◌<◌, ◌++◌, ◌∷◌, [], OnOk, map};
ghost use Rattle.flight_records.specs.declared.entry.StatePart.TheVariants.{Waits};
ghost use Rattle.node_follower.specs.Parts.{port_part};
ghost use Rattle.configuration.specs.ConfigurationView.{world_of};
ghost use Rattle.configuration.specs.node_core.View.{site_in, state_of};
ghost use Rattle.record_gathering.specs.declared.facts.Fact.TheVariants.{State};
ghost use Rattle.record_gathering.specs.Facts.{lacking, edge_changes, edge_facts, state_facts};
ghost use Rattle.record_gathering.specs.Facts.{link_facts, links_from};

use configuration::{Configuration, Harm, Node};
use flight_records::StatePart;
use node_follower::{loan_part, own_part, port_part, start_part};
use std::alloc::{AllocError, Allocator};
use topology::Net;

/// A fact of a world.
#[derive(Clone, Copy)]
pub enum Fact {
    /// The state of a node has this part.
    State {
        /// The node.
        node: u16,
        /// The part.
        part: StatePart,
    },
    /// What this harm writes: an edge that joined or parted, or an item that is under way.
    Written(Harm),
}

/// Adds a fact.
fn add<B: Allocator>(facts: &mut Vec<Fact, B>, fact: Fact) -> Result<(), AllocError>
    ensures { OnOk result (facts.new.items ≡ facts.old.items ++ fact ∷ []) }
{
    facts.push(fact)?;
    Ok(())
}

/// Adds the fact that an edge joins, or parts, unless a network has it.
fn add_change<N: Allocator + Copy, B: Allocator>(
    net: &Net<N>,
    edge: (u16, u16),
    joins: bool,
    facts: &mut Vec<Fact, B>,
) -> Result<(), AllocError>
    ensures { OnOk result (facts.new.items
        ≡ facts.old.items ++ lacking joins net.now (edge ∷ [])) }
{
    let (node, neighbour) = edge;
    if net.are_joined(node, neighbour) {
        return Ok(());
    }
    if joins {
        add(facts, Fact::Written(Harm::Join { node, neighbour }))
    } else {
        add(facts, Fact::Written(Harm::Part { node, neighbour }))
    }
}

/// Adds the facts that those edges join, or part, that a network does not have.
fn add_lacking<N: Allocator + Copy, B: Allocator>(
    net: &Net<N>,
    edges: &[(u16, u16)],
    joins: bool,
    facts: &mut Vec<Fact, B>,
) -> Result<(), AllocError>
    ensures { OnOk result (facts.new.items
        ≡ facts.old.items ++ lacking joins net.now edges.now) }
{
    for edge in edges {
        add_change(net, *edge, joins, facts)?;
    }
    Ok(())
}

/// Adds the changes of edges that turn a network into another one.
fn add_changes<N: Allocator + Copy, M: Allocator + Copy, B: Allocator>(
    net: &Net<N>,
    other: &Net<M>,
    facts: &mut Vec<Fact, B>,
) -> Result<(), AllocError>
    ensures { OnOk result (facts.new.items
        ≡ facts.old.items ++ edge_changes net.now other.now) }
{
    add_lacking(net, other.edges(), true, facts)?;
    add_lacking(other, net.edges(), false, facts)
}

/// Adds the changes of edges that turn a network into another one to these facts. They are all
/// added twice: an edge for which no pair of links is left may join once another edge has parted.
pub fn add_edges<N: Allocator + Copy, M: Allocator + Copy, B: Allocator>(
    net: &Net<N>,
    other: &Net<M>,
    facts: &mut Vec<Fact, B>,
) -> Result<(), AllocError>
    ensures { OnOk result (facts.new.items ≡ facts.old.items ++ edge_facts net.now other.now) }
{
    add_changes(net, other, facts)?;
    add_changes(net, other, facts)
}

/// Adds the ports of a node.
fn add_ports<A: Allocator, B: Allocator>(
    id: u16,
    node: &Node<A>,
    facts: &mut Vec<Fact, B>,
) -> Result<(), AllocError>
    ensures { OnOk result (facts.new.items ≡ facts.old.items
        ++ map (λ u. State id (port_part (state_of node.now) u)) (site_in node.now).neighbours) }
{
    for neighbour in node.neighbours() {
        add(
            facts,
            Fact::State {
                node: id,
                part: port_part(node, *neighbour),
            },
        )?;
    }
    Ok(())
}

/// Adds the tickets that wait at a node.
fn add_queue<A: Allocator, B: Allocator>(
    id: u16,
    node: &Node<A>,
    facts: &mut Vec<Fact, B>,
) -> Result<(), AllocError>
    ensures { OnOk result (facts.new.items ≡ facts.old.items
        ++ map (λ t. State id (Waits t)) (state_of node.now).desk.waiting) }
{
    for ticket in node.tickets() {
        add(
            facts,
            Fact::State {
                node: id,
                part: StatePart::Waits { ticket: *ticket },
            },
        )?;
    }
    Ok(())
}

/// Adds the whole state of a node, part after part, to these facts. `network` is the number of its
/// network.
pub fn add_state<A: Allocator, B: Allocator>(
    network: u32,
    node: &Node<A>,
    facts: &mut Vec<Fact, B>,
) -> Result<(), AllocError>
    ensures { OnOk result (facts.new.items ≡ facts.old.items
        ++ state_facts network (site_in node.now) (state_of node.now)) }
{
    let id = node.id();
    let (start, own, loan) = (start_part(node, network), own_part(node), loan_part(node));
    add(
        facts,
        Fact::State {
            node: id,
            part: start,
        },
    )?;
    add(
        facts,
        Fact::State {
            node: id,
            part: own,
        },
    )?;
    add_ports(id, node, facts)?;
    add_queue(id, node, facts)?;
    add(
        facts,
        Fact::State {
            node: id,
            part: loan,
        },
    )?;
    add(
        facts,
        Fact::State {
            node: id,
            part: StatePart::Whole,
        },
    )
}

/// Adds what is under way from one node to another.
fn add_link<A: Allocator + Copy, B: Allocator>(
    world: &Configuration<A>,
    from: u16,
    to: u16,
    facts: &mut Vec<Fact, B>,
) -> Result<(), AllocError>
    requires from_in { from < (world_of world.now).net.nodes }
    requires to_in { to < (world_of world.now).net.nodes }
    ensures { OnOk result (facts.new.items
        ≡ facts.old.items ++ link_facts (world_of world.now) from to) }
{
    for index in 0..world.under_way(from, to) {
        let item = world.item(from, to, index);
        add(facts, Fact::Written(Harm::Item { from, to, item }))?;
    }
    Ok(())
}

/// Adds what is under way from a node to each other node to these facts; the oldest on each link
/// first.
pub fn add_links<A: Allocator + Copy, B: Allocator>(
    world: &Configuration<A>,
    from: u16,
    facts: &mut Vec<Fact, B>,
) -> Result<(), AllocError>
    requires { from < (world_of world.now).net.nodes }
    ensures { OnOk result (facts.new.items ≡ facts.old.items
        ++ links_from (world_of world.now) from (world_of world.now).net.nodes) }
{
    for to in 0..world.net().nodes() {
        add_link(world, from, to, facts)?;
    }
    Ok(())
}
