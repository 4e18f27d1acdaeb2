//! A judge of runs: it counts the sweeps of a run, event by event.
ghost use Rattle.std.specs.Prelude.{◌≡◌, ◌↔◌, ◌+◌, ◌-◌, ◌^◌, ◌<◌, ◌≤◌, ◌⊎◌, ℕ, min, length, true};
ghost use Rattle.std.specs.Prelude.{false, if◌then◌else◌, ◌==◌, List, [], ◌∷◌, ◌++◌, IsTrue, IfErr};
ghost use Rattle.std.specs.Prelude.{OnOk, None, Some, IfSome, IsSome};
ghost use Rattle.topology.specs.Network.{are_joined};
ghost use Rattle.configuration.specs.run_model.Step.{refusal, step};
ghost use Rattle.configuration.specs.run_model.Run.{is_damage};
ghost use Rattle.configuration.specs.ConfigurationView.{world_of};
ghost use Rattle.configuration.specs.run_model.World.{at_pair};
ghost use Rattle.judge.specs.Tallies.{has_place, tally_of, first_tally};
ghost use Rattle.judge.specs.Stretch.{IsRoomFor, IsKept, with_looks};
ghost use Rattle.judge.specs.JudgeView.{HasSeen, HasSeenNext, HasSeenSame, EndsSweep};
ghost use Rattle.judge.specs.JudgeView.{AreSweepsSeen, AreRefusalsSeen, AreVisitedSeen};
ghost use Rattle.judge.specs.JudgeView.{IsLackingSeen, IsTallySeen};

use crate::laws::below;
use crate::stretch::Stretch;
use crate::tallies::Tally;
use crate::visited::{privileged_nodes, visited_after};
use crate::world::World;
use configuration::{Configuration, Event, EventFault, Happened};
use std::alloc::{Allocator, Global};
use std::marker::Model;

/// Begins the tally of the link from one node to another.
fn begin_link<A: Allocator + Copy>(
    configuration: &Configuration<A>,
    stretch: &mut Stretch<A>,
    from: u16,
    to: u16,
)
    requires nodes { stretch.old.tallies.table.nodes ≡ (world_of configuration.now).net.nodes }
    requires from_in { from < (world_of configuration.now).net.nodes }
    requires to_in { to < (world_of configuration.now).net.nodes }
    requires placed { IsTrue (has_place stretch.old.tallies.table from to) }
    ensures table { stretch.new.tallies.table ≡ stretch.old.tallies.table }
    ensures lacking { stretch.new.lacking ≡ stretch.old.lacking }
    // All that is under way on the link is old; every other tally is unchanged.
    ensures tallies { (u v : ℕ) → v < stretch.old.tallies.table.nodes
        → tally_of stretch.new.tallies u v
        ≡ at_pair (tally_of stretch.old.tallies) from to
        (first_tally (world_of configuration.now) from to) u v }
{
    let tally = Tally {
        old: configuration.under_way(from, to) as u16,
        renewed: false,
    };
    stretch.begin_link(from, to, tally);
}

/// Begins a stretch at a configuration. Looks only at the links of edges.
#[inline(never)]
fn begin<A: Allocator + Copy>(configuration: &Configuration<A>, stretch: &mut Stretch<A>)
    requires { IsRoomFor (world_of configuration.now).net stretch.old }
    // It keeps an empty stretch, and the room is still the network's.
    ensures kept { IsKept (world_of configuration.now) [] stretch.new }
    ensures room { IsRoomFor (world_of configuration.now).net stretch.new }
{
    below();
    let _known_nodes = configuration.net().nodes();
    stretch.begin();
    let edges = configuration.net().edges();
    for edge in edges {
        begin_link(configuration, stretch, edge.0, edge.1);
        begin_link(configuration, stretch, edge.1, edge.0);
    }
}

/// A configuration, the sweeps and refused events that led to it, and the nodes that the privilege
/// has visited on the way.
///
/// A sweep counts at the first event that completes it. Damage restarts the count, and the visits
/// too.
#[derive(Drop)]
pub struct Judge<A: Allocator + Copy = Global> {
    configuration: Configuration<A>,
    stretch: Stretch<A>,
    sweeps: u64,
    refused: u64,
    visited: u64,
}

impl<A: Allocator + Copy> Model for Judge<A> {
    ghost use Rattle.judge.specs.JudgeView.{JudgeView};
    ghost use Rattle.judge.specs.Stretch.{IsRoomFor};

    ghost Value = { JudgeView };

    ghost view = { λ j. record
        { configuration = j.configuration; stretch = j.stretch; sweeps = j.sweeps; refused = j.refused; visited = j.visited } };

    ghost invariant = { λ j. IsRoomFor j.configuration.links.net j.stretch };
}

impl<A: Allocator + Copy> Judge<A> {
    /// A judge of what happens from this world on.
    pub fn new(world: World<A>) -> Judge<A>
        ensures configuration { result.configuration ≡ world }
        // It has seen no event yet, and its stretch is empty.
        ensures judging { HasSeen result (world_of world) [] }
        ensures looked { result.stretch.tallies.looked ≡ 0 }
    {
        below();
        world.ranges_hold();
        let World {
            configuration,
            mut room,
        } = world;
        room.lay(configuration.net());
        begin(&configuration, &mut room);
        room.clear_looked();
        let visited = privileged_nodes(&configuration);
        Judge {
            configuration,
            stretch: room,
            sweeps: 0,
            refused: 0,
            visited,
        }
    }

    /// Lets one event happen, as in `World::step`, and counts it if it is refused. Looks at tallies
    /// no more than twice, unless a sweep ends or damage is accepted.
    // A separate call would write the event to memory for each line of a text, and read it again.
    #[inline(always)]
    pub fn step(&mut self, event: &Event) -> Result<(), EventFault>
        ensures world { world_of self.new.configuration
            ≡ step (world_of self.old.configuration) event.now }
        ensures ok { OnOk result (refusal (world_of self.old.configuration) event.now ≡ None) }
        ensures err { IfErr result (λ fault. refusal (world_of self.old.configuration) event.now
            ≡ Some fault) }
        // Whatever it had seen, it has now seen the event too.
        ensures judging { HasSeenNext self.old event.now self.new }
        // It looks at tallies more than twice only for accepted damage, or if a sweep ends.
        ensures looked { (self.new.stretch.tallies.looked ≤ 2)
            ⊎ IsTrue (is_damage (world_of self.old.configuration) event.now)
            ⊎ EndsSweep self.old event.now }
    {
        below();
        let _known_nodes = self.configuration.net().nodes();
        self.stretch.clear_looked();
        let happened = match self.configuration.step(event) {
            Ok(happened) => happened,
            Err(fault) => {
                self.refused = self.refused.saturating_add(1);
                return Err(fault);
            }
        };
        if let Happened::Damaged = happened {
            self.sweeps = 0;
            self.visited = privileged_nodes(&self.configuration);
            self.stretch.lay(self.configuration.net());
            begin(&self.configuration, &mut self.stretch);
            return Ok(());
        }
        self.visited = visited_after(&self.configuration, self.visited, &happened);
        self.stretch.note(&happened);
        if self.stretch.is_complete() {
            self.sweeps = self.sweeps.saturating_add(1);
            begin(&self.configuration, &mut self.stretch);
        }
        Ok(())
    }

    /// How many sweeps there have been since the last accepted damage, or since the start if there
    /// was none; the count stops at its greatest value.
    pub fn sweeps(&self) -> u64
        ensures count { result ≡ self.now.sweeps }
        // Whatever it has seen, this is the number of sweeps since the last damage, or the greatest
        // value if there are more.
        ensures sweeps { AreSweepsSeen self.now result }
    {
        below();
        self.sweeps
    }

    /// How many events were refused; the count stops at its greatest value.
    pub fn refused(&self) -> u64
        ensures count { result ≡ self.now.refused }
        // Whatever it has seen, this is the number of refused events, or the greatest value if
        // there are more.
        ensures refused { AreRefusalsSeen self.now result }
    {
        self.refused
    }

    /// The nodes that were privileged at some moment since the last accepted damage, including the
    /// moment right after it, or since the start if there was none. Bit v stands for node v.
    pub fn visited(&self) -> u64
        ensures mask { result ≡ self.now.visited }
        // Whatever it has seen, exactly these nodes had the privilege.
        ensures visited { AreVisitedSeen self.now result }
    {
        self.visited
    }

    /// The nodes without a full tick in the unfinished stretch, the one after the last sweep. Bit
    /// v stands for node v.
    pub fn lacking(&self) -> u64
        ensures mask { result ≡ self.now.stretch.lacking }
        // Whatever it has seen, exactly these nodes lack a full tick.
        ensures lacking { IsLackingSeen self.now result }
    {
        self.stretch.lacking()
    }

    /// The tally of the link from one node to another in the unfinished stretch; `None` if no edge
    /// joins the two. It searches the edges, so any ids are allowed. Only the count of looks
    /// changes, which [`looked`](Judge::looked) returns.
    pub fn tally(&mut self, from: u16, to: u16) -> Option<Tally>
        ensures link { IsSome result
            ↔ IsTrue (are_joined (world_of self.old.configuration).net.edges from to) }
        ensures value { IfSome result (λ tally. tally ≡ tally_of self.old.stretch.tallies from to) }
        // Whatever it has seen, the tally is that of the link in the unfinished stretch.
        ensures tally { IfSome result (IsTallySeen self.old from to) }
        // Only the count of looks changes.
        ensures looked { self.new ≡ record self.old {
          stretch = with_looks self.old.stretch self.new.stretch.tallies.looked;
        } }
        // Whatever it had seen, it has seen no more.
        ensures same { HasSeenSame self.old self.new }
    {
        below();
        let net = self.configuration.net();
        let _known_nodes = net.nodes();
        if net.are_joined(from, to) {
            Some(self.stretch.tally(from, to))
        } else {
            None
        }
    }

    /// How often the last step, and the calls of [`tally`](Judge::tally) since then, read or wrote
    /// a tally; 0 if there was neither. The count stops at its greatest value.
    pub fn looked(&self) -> u32
        ensures { result ≡ self.now.stretch.tallies.looked }
    {
        self.stretch.looked()
    }

    /// The nodes and links now.
    pub fn configuration(&self) -> &Configuration<A>
        ensures { result.now ≡ self.now.configuration }
    {
        &self.configuration
    }

    /// The world that the events have led to.
    pub fn into_world(self) -> World<A>
        ensures { result ≡ self.configuration }
    {
        World {
            configuration: self.configuration,
            room: self.stretch,
        }
    }
}
