//! A trial's run, and how late it serves.
ghost use Rattle.std.specs.Prelude.{◌≡◌, [], false, IfOk, OnOk};
ghost use Rattle.experiments.specs.Delays.{is_harm};
ghost use Rattle.experiments.specs.Moves.{AreMoves};

use crate::trial::Trial;
use crate::watch::ServiceWatch;
use judge::World;
use rand::SeedableRng;
use rand::seq::SliceRandom;
use rand_pcg::Lcg64Xsh32;
use run_model::Event;
use schedules::EventSink;
use std::alloc::{AllocError, Global};
use topology::Net;

/// The fewest sweeps for which a network must have served before its run may end early.
const PATIENCE: u64 = 8;

/// How late a run serves. More sweeps are later; of equally many sweeps, more events are later.
#[derive(Clone, Copy, Debug, PartialEq, Eq, PartialOrd, Ord)]
pub(crate) struct Score {
    /// After how many sweeps it served.
    pub(crate) sweeps: u64,
    /// How many events there had been when this number last rose.
    pub(crate) events: usize,
}

/// The moves of one pass: each node ticks once; each link gets a frame and gives up an item.
pub(crate) fn moves_of(alloc: Global, net: &Net) -> Result<Vec<Event>, AllocError>
    ensures { IfOk result (λ moves. AreMoves moves.items) }
{
    let mut moves = Vec::new(alloc);
    for node in 0..net.nodes() {
        moves.push(Event::Tick { node })?;
    }
    for (one, other) in net.edges() {
        push_link(&mut moves, *one, *other)?;
        push_link(&mut moves, *other, *one)?;
    }
    Ok(moves)
}

/// Adds the moves of a link.
fn push_link(moves: &mut Vec<Event>, from: u16, to: u16) -> Result<(), AllocError>
    requires { AreMoves moves.old.items }
    ensures { OnOk result (AreMoves moves.new.items) }
{
    moves.push(Event::Send { from, to })?;
    moves.push(Event::Take { from, to })?;
    Ok(())
}

/// A run that is watched, and its events.
#[derive(Drop)]
pub(crate) struct Playing {
    watch: ServiceWatch,
    /// What has happened.
    pub(crate) events: Vec<Event>,
    /// How many events there had been when the number of sweeps after which it serves last rose.
    late: usize,
    /// How many passes there were.
    pub(crate) passes: usize,
}

impl Playing {
    /// A run in which only the harms of a trial have happened.
    fn new(alloc: Global, net: &Net, harms: &[Event]) -> Result<Playing, AllocError>
        ensures { IfOk result (λ playing. playing.events.items ≡ []) }
    {
        let mut world = World::new(alloc, net)?;
        for harm in harms {
            let _answer = world.step(harm);
        }
        Ok(Playing {
            watch: ServiceWatch::new(world),
            events: Vec::new(alloc),
            late: 0,
            passes: 0,
        })
    }

    /// How late the run serves, judged by what has happened so far.
    pub(crate) fn score(&self) -> Score
        ensures { result.events ≡ self.now.late }
    {
        Score {
            sweeps: self.watch.served_after(),
            events: self.late,
        }
    }

    /// Whether the run need not go on: it has served for the last third of its sweeps, rounded
    /// down, and for at least `PATIENCE` sweeps.
    fn is_over(&self) -> bool {
        let sweeps = self.watch.sweeps();
        sweeps.saturating_sub(self.watch.served_after()) >= (sweeps / 3).max(PATIENCE)
    }

    /// Lets an event happen that is no harm.
    fn happen(&mut self, event: Event) -> Result<(), AllocError>
        requires events { AreMoves self.old.events.items }
        requires event { is_harm event ≡ false }
        ensures { OnOk result (AreMoves self.new.events.items) }
    {
        let before = self.watch.served_after();
        let _taken = self.watch.take(&event);
        self.events.push(event)?;
        if self.watch.served_after() > before {
            self.late = self.events.len();
        }
        Ok(())
    }

    /// Shuffles the moves of a pass by a seed and lets them happen; then whoever has the lock gives
    /// it back.
    fn pass(&mut self, order: u32, moves: &mut [Event]) -> Result<(), AllocError>
        requires events { AreMoves self.old.events.items }
        requires moves { AreMoves moves.old }
        ensures events { OnOk result (AreMoves self.new.events.items) }
        ensures moves { AreMoves moves.new }
    {
        self.passes = self.passes.saturating_add(1);
        moves.shuffle(&mut Lcg64Xsh32::seed_from_u64(u64::from(order)));
        for event in moves.iter() {
            self.happen(*event)?;
        }
        self.give_back()
    }

    /// Whoever has the lock gives it back.
    fn give_back(&mut self) -> Result<(), AllocError>
        requires { AreMoves self.old.events.items }
        ensures { OnOk result (AreMoves self.new.events.items) }
    {
        for node in 0..self.watch.configuration().net().nodes() {
            self.give_back_at(node)?;
        }
        Ok(())
    }

    /// Whoever has the lock at a node gives it back.
    fn give_back_at(&mut self, node: u16) -> Result<(), AllocError>
        requires { AreMoves self.old.events.items }
        ensures { OnOk result (AreMoves self.new.events.items) }
    {
        if node >= self.watch.configuration().net().nodes() {
            return Ok(());
        }
        match self.watch.configuration().node(node).lent() {
            Some(ticket) => self.happen(Event::Leave { node, ticket }),
            None => Ok(()),
        }
    }
}

/// Plays a trial: its harms, and then pass after pass, until it has served for long or has no more
/// passes. Each pass shuffles the moves.
pub(crate) fn play(
    alloc: Global,
    net: &Net,
    trial: &Trial,
    moves: &mut [Event],
) -> Result<Playing, AllocError>
    requires { AreMoves moves.old }
    ensures moves { AreMoves moves.new }
    ensures events { IfOk result (λ playing. AreMoves playing.events.items) }
{
    let mut playing = Playing::new(alloc, net, trial.harms.as_slice())?;
    for order in trial.orders.iter() {
        if playing.is_over() {
            break;
        }
        playing.pass(*order, moves)?;
    }
    Ok(playing)
}
