//! When a node turns, waits and speaks: what its pace says.
ghost use Rattle.std.specs.Prelude.{◌≡◌, ◌≤◌, true};
ghost use Rattle.pace.specs.Nodes.{may_tick};

use crate::run::NodeRun;
use crate::sight;
use node_connections::Doors;
use pace::{Plan, TurnPace};
use state_writing::Store;
use std::alloc::Allocator;

impl<D: Doors, S: Store + Drop, A: Allocator + Copy> NodeRun<D, S, A> {
    ghost use Rattle.node_loop.specs.Speaking.{IsPlanOf, outlook_of};
    ghost use Rattle.node_loop.specs.Moments.{moment_of};

    /// Waits at the doors until something may have come: as long as the pace allows, at most 2
    /// milliseconds. `now` is microseconds of a clock that never goes back.
    pub fn wait(&mut self, now: u64)
        // The doors may change, and nothing else.
        ensures node { (self.new.node ≡ self.old.node) × (self.new.net ≡ self.old.net)
            × (self.new.pace ≡ self.old.pace) }
        ensures rest { (self.new.ports ≡ self.old.ports) × (self.new.lobby ≡ self.old.lobby)
            × (self.new.clients ≡ self.old.clients) × (self.new.store ≡ self.old.store) }
        ensures marks { (self.new.turns ≡ self.old.turns) × (self.new.let_go ≡ self.old.let_go)
            × (self.new.has_ticked ≡ self.old.has_ticked)
            × (self.new.has_more ≡ self.old.has_more) }
    {
        let rest = self.rest(now);
        self.doors.wait(rest);
    }

    /// How long the node rests if nothing comes, in microseconds: not at all if the next turn must
    /// not wait.
    fn rest(&self, now: u64) -> u64
        ensures longest { result ≤ 2000 }
        ensures at_once { self.now.has_more ≡ true → result ≡ 0 }
    {
        if self.has_more {
            return 0;
        }
        let sights = sight::sights(&self.node, &self.net, &self.ports);
        let outlook = sight::outlook(&self.node, self.let_go);
        self.pace.rest(&sights[..self.ports.len()], &outlook, now)
    }

    /// Whether a turn is due: once in 2 milliseconds while a loan with a lease runs, and otherwise
    /// always. `now` is as for [`NodeRun::turn`].
    pub fn is_turn_due(&self, now: u64) -> bool
        ensures { result ≡ may_tick (outlook_of self.now.node self.now.let_go) now
            self.now.pace.node }
    {
        let outlook = sight::outlook(&self.node, self.let_go);
        self.pace.plan(&[], &outlook, now).ticks
    }

    /// What the pace would do now, in microseconds as for [`NodeRun::turn`].
    pub fn plan(&self, now: u64) -> Plan
        ensures { IsPlanOf now
            (moment_of self.now.node self.now.ports.items self.now.pace self.now.let_go)
            result }
    {
        topology::laws::neighbours();
        let sights = sight::sights(&self.node, &self.net, &self.ports);
        let outlook = sight::outlook(&self.node, self.let_go);
        self.pace.plan(&sights[..self.ports.len()], &outlook, now)
    }

    /// Has the pace remember this from now on, as after damage. Nothing else changes.
    pub fn set_pace(&mut self, pace: TurnPace)
        ensures pace { self.new.pace ≡ pace }
        ensures rest { (self.new.node ≡ self.old.node) × (self.new.net ≡ self.old.net)
            × (self.new.ports ≡ self.old.ports) × (self.new.clients ≡ self.old.clients)
            × (self.new.turns ≡ self.old.turns) × (self.new.store ≡ self.old.store) }
        ensures marks { (self.new.doors ≡ self.old.doors) × (self.new.lobby ≡ self.old.lobby)
            × (self.new.let_go ≡ self.old.let_go) × (self.new.has_ticked ≡ self.old.has_ticked)
            × (self.new.has_more ≡ self.old.has_more) }
    {
        self.pace = pace;
    }
}
