//! The rings that join nodes: each link becomes two of them, with what was under way on it.
ghost use Rattle.std.specs.Prelude.{◌≡◌, ◌+◌, ◌<◌, ◌≤◌, ℕ, List, [], ◌∷◌, ◌++◌, IsTrue, IfOk, OnOk};
ghost use Rattle.std.specs.Prelude.{◌==◌, if◌then◌else◌, length};
ghost use Rattle.topology.specs.Network.{are_joined};
ghost use Rattle.judge.specs.run_model.World.{World};
ghost use Rattle.judge.specs.configuration.LinksView.{LinksView, under_way};
ghost use Rattle.rtrb.specs.Ring.{sent, known_free, SameProducer};
ghost use Rattle.node_runner.specs.Ports.{opening, IsSender, IsReceiver};
ghost use Rattle.node_runner.specs.Runner.{IsPortNoted};
ghost use Rattle.thread_net.specs.Cables.{AreEnds, IsCable, IsCabledOnce, AreFurnished};
ghost use Rattle.thread_net.specs.Cables.{rows_of, row, seats_of, AreWithin, IsOver};

use judge::Links;
use node_runner::{Incoming, Outgoing, Runner, RunnerPort, StampBound, Stamped};
use rtrb::{Producer, RingBuffer};
use std::alloc::{AllocError, Allocator};
use topology::laws as topology_laws;

/// Puts what is under way on a link into its ring, with stamp 0.
fn load<A: Allocator + Copy>(
    links: &Links<A>,
    from: u16,
    to: u16,
    frames: &mut Producer<Stamped, A, StampBound>,
)
    requires from_in { from < links.now.net.nodes }
    requires to_in { to < links.now.net.nodes }
    requires empty { sent frames.old ≡ [] }
    requires room { length (under_way links.now from to) ≤ known_free frames.old }
    ensures ring { SameProducer frames.old frames.new }
    ensures sent { sent frames.new ≡ opening (under_way links.now from to) }
    ensures free { known_free frames.new + length (under_way links.now from to)
        ≡ known_free frames.old }
{
    for index in 0..links.len(from, to) {
        let item = links.get(from, to, index);
        frames.push_reserved(Stamped { stamp: 0, item });
    }
}

/// The ends of the link from one node to another, with what is under way on it.
fn link_ends<A: Allocator + Copy>(
    alloc: A,
    links: &Links<A>,
    from: u16,
    to: u16,
) -> Result<(Outgoing<A>, Incoming<A>), AllocError>
    requires from_in { from < links.now.net.nodes }
    requires to_in { to < links.now.net.nodes }
    requires within { length (under_way links.now from to) ≤ links.now.net.capacity }
    ensures sender { IfOk result (λ r.
        IsSender links.now.net.capacity (under_way links.now from to) [] r.0) }
    ensures receiver { IfOk result (λ r.
        IsReceiver links.now.net.capacity (length (under_way links.now from to)) [] r.1) }
    ensures ends { IfOk result (λ r. AreEnds r.0 r.1) }
{
    let capacity = usize::from(links.net().capacity());
    let (mut frames, mut came) = RingBuffer::with_protocol::<A, StampBound>(alloc, capacity)?;
    let (returned, places) = RingBuffer::with_protocol::<A, StampBound>(alloc, capacity)?;
    load(links, from, to, &mut frames);
    let standing = came.slots_beside(&mut frames);
    let outgoing = Outgoing {
        frames,
        places,
        free: capacity - standing,
    };
    let incoming = Incoming {
        frames: came,
        places: returned,
    };
    Ok((outgoing, incoming))
}

/// The ports of two neighbours to each other.
fn cable<A: Allocator + Copy>(
    alloc: A,
    links: &Links<A>,
    one: u16,
    other: u16,
) -> Result<(RunnerPort<A>, RunnerPort<A>), AllocError>
    requires one_in { one < links.now.net.nodes }
    requires other_in { other < links.now.net.nodes }
    requires joined { IsTrue (are_joined links.now.net.edges one other) }
    requires within { AreWithin links.now }
    ensures neighbours { IfOk result (λ r. (r.0.neighbour ≡ other) × (r.1.neighbour ≡ one)) }
    ensures said { IfOk result (λ r. (w : World) → IsOver w links.now
        → IsPortNoted w one [] r.0 × IsPortNoted w other [] r.1) }
    ensures cable { IfOk result (λ r. IsCable r.0 r.1) }
{
    topology_laws::joined();
    let (outgoing, far_incoming) = link_ends(alloc, links, one, other)?;
    let (far_outgoing, incoming) = link_ends(alloc, links, other, one)?;
    let near = RunnerPort {
        neighbour: other,
        outgoing,
        incoming,
    };
    let far = RunnerPort {
        neighbour: one,
        outgoing: far_outgoing,
        incoming: far_incoming,
    };
    Ok((near, far))
}

/// Adds a port to a node.
#[tactic(auto, using(crate::proofs::Maps::map_set_same))]
fn plug<A: Allocator>(
    runners: &mut Vec<Runner<A>, A>,
    node: u16,
    port: RunnerPort<A>,
) -> Result<(), AllocError>
    requires { node < length runners.old.items }
    ensures rows { OnOk result ((x : ℕ) → row (rows_of runners.new.items) x
        ≡ row (rows_of runners.old.items) x ++ (if x == node then port ∷ [] else [])) }
    ensures seats { seats_of runners.new.items ≡ seats_of runners.old.items }
    ensures all { length runners.new.items ≡ length runners.old.items }
{
    runners[usize::from(node)].ports.push(port)?;
    Ok(())
}

/// Adds the ports that join two neighbours.
fn join<A: Allocator + Copy>(
    alloc: A,
    links: &Links<A>,
    runners: &mut Vec<Runner<A>, A>,
    one: u16,
    other: u16,
) -> Result<(), AllocError>
    requires order { one < other }
    requires other_in { other < links.now.net.nodes }
    requires joined { IsTrue (are_joined links.now.net.edges one other) }
    requires all { length runners.old.items ≡ links.now.net.nodes }
    requires within { AreWithin links.now }
    ensures cabled { OnOk result (IsCabledOnce links.now one other
        (rows_of runners.old.items) (rows_of runners.new.items)) }
    ensures seats { seats_of runners.new.items ≡ seats_of runners.old.items }
    ensures all { length runners.new.items ≡ length runners.old.items }
{
    let (near, far) = cable(alloc, links, one, other)?;
    plug(runners, one, near)?;
    plug(runners, other, far)?;
    Ok(())
}

/// Adds the ports of all nodes, those of each node by ascending ids of its neighbours.
pub(crate) fn cable_all<A: Allocator + Copy>(
    alloc: A,
    links: &Links<A>,
    runners: &mut Vec<Runner<A>, A>,
) -> Result<(), AllocError>
    requires all { length runners.old.items ≡ links.now.net.nodes }
    requires within { AreWithin links.now }
    ensures furnished { OnOk result ((w : World) → IsOver w links.now
        → ((x : ℕ) → row (rows_of runners.old.items) x ≡ [])
        → AreFurnished w (rows_of runners.new.items)) }
    ensures seats { seats_of runners.new.items ≡ seats_of runners.old.items }
{
    topology_laws::joined();
    topology_laws::neighbours();
    let nodes = links.net().nodes();
    for one in 0..nodes {
        for other in one + 1..nodes {
            if links.are_joined(one, other) {
                join(alloc, links, runners, one, other)?;
            }
        }
    }
    Ok(())
}
