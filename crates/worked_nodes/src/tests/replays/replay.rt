//! The events that the accounts of turns make, and the world that they lead to.
use crate::tests::nodes::stored;
use crate::tests::replays::account::{Account, Deed, Line};
use damage_tool::scramble_world;
use frame_codec::encode;
use judge::{Judge, World};
use node_core::Node;
use node_follower::Follower;
use node_state_file::{MOST_BYTES, MemoryStore, encode as encode_state};
use rand_core::SeedableRng;
use rand_pcg::Lcg64Xsh32;
use run_model::{Event, EventFault, Harm};
use std::alloc::{AllocError, Global};
use std::test::Fail;
use topology::Net;

/// What a replay finds wrong.
pub type Wrong = &'static str;

/// A line was sent that is not the frame at that port of the world's node.
pub const SENT_OTHER: Wrong = "another frame was sent";
/// A line was sent on a full link.
pub const SENT_ON_FULL: Wrong = "a frame was sent on a full link";
/// A line was taken that is not the oldest under way on its link.
pub const TOOK_OTHER: Wrong = "another frame was taken";
/// The world's node differs from the one that ran.
pub const OTHER_NODE: Wrong = "the node is another";
/// The world refused an event, other than an ask or leave that its desk may refuse; or the judge's
/// answer differed from the world's.
const REFUSED: Wrong = "an event was refused";

pub const NO_NODE: Wrong = "there is no such node";

const NO_MEMORY: Wrong = "memory was refused";

/// What is counted of a replay: its events, the losses among them, the sends that filled a link, how
/// often a node attended instead of taking a turn, and the sweeps.
pub type Counts = [u64; 5];

/// A world and a judge after the events of all turns so far.
#[derive(Drop)]
pub struct Replay {
    world: World,
    judge: Judge,
    /// For each node, a second one with which it is compared.
    followers: Vec<Follower>,
    /// The lines that were sent, and neither taken nor lost yet.
    under_way: Vec<Line>,
    events: u64,
    losses: u64,
    full: u64,
    attended: u64,
}

/// Whether the desk of a node may refuse this event with this fault.
fn is_excused(event: &Event, fault: EventFault) -> bool {
    match event {
        Event::Ask { .. } => fault == EventFault::Full || fault == EventFault::Twice,
        Event::Leave { .. } => fault == EventFault::Stranger,
        _ => false,
    }
}

impl Replay {
    /// A replay in which nothing has happened.
    pub fn new(alloc: Global, net: &Net) -> Result<Replay, AllocError> {
        let mut followers = Vec::with_capacity(alloc, net.nodes() as usize)?;
        for id in 0..net.nodes() {
            followers.push(Follower::new(alloc, net, id)?)?;
        }
        Ok(Replay {
            world: World::new(alloc, net)?,
            judge: Judge::new(World::new(alloc, net)?),
            followers,
            under_way: Vec::new(alloc),
            events: 0,
            losses: 0,
            full: 0,
            attended: 0,
        })
    }

    /// Lets one event happen.
    fn step(&mut self, event: &Event) -> Result<(), Wrong> {
        self.events = self.events.saturating_add(1);
        let answer = self.world.step(event);
        if self.judge.step(event) != answer {
            return Err(REFUSED);
        }
        match answer {
            Ok(()) => Ok(()),
            Err(fault) if is_excused(event, fault) => Ok(()),
            Err(_) => Err(REFUSED),
        }
    }

    /// Lets the harms that a seed draws for all nodes happen; they do not count. Desks and links
    /// stay empty.
    pub fn scramble(&mut self, alloc: Global, seed: u64) -> Result<(), Wrong> {
        let mut generator = Lcg64Xsh32::seed_from_u64(seed);
        let mut events = Vec::new(alloc);
        if scramble_world(self.world.net(), &mut generator, &mut events).is_err() {
            return Err(NO_MEMORY);
        }
        for event in &events {
            if !matches!(event, Event::Damage(Harm::Desk { .. } | Harm::Item { .. })) {
                self.step(event)?;
            }
        }
        self.events = 0;
        Ok(())
    }

    /// A store with the state of a node of the world.
    pub fn store_of(&self, alloc: Global, id: u16) -> Result<MemoryStore, Fail> {
        let mut bytes = [0; MOST_BYTES];
        if id >= self.world.net().nodes() {
            return stored(alloc, b"");
        }
        let count = encode_state(self.world.node(id), self.world.net(), &mut bytes);
        stored(alloc, &bytes[..count.min(MOST_BYTES)])
    }

    /// Loses what was under way on earlier connections of a line's link.
    fn lose_older(&mut self, line: &Line) -> Result<(), Wrong> {
        let older = self
            .under_way
            .iter()
            .filter(|other| other.is_older(line))
            .count();
        self.under_way.retain(|other| !other.is_older(line));
        let (from, to) = (line.from, line.to);
        for _ in 0..older {
            self.losses = self.losses.saturating_add(1);
            self.step(&Event::Lose { from, to, item: 0 })?;
        }
        Ok(())
    }

    /// Whether the link is full once this line is sent. It is an error if the line is not the
    /// frame that the world's node has for that port, or the link is already full.
    fn fills(&self, line: &Line) -> Result<bool, Wrong> {
        let nodes = self.world.net().nodes();
        if line.from >= nodes || line.to >= nodes {
            return Err(NO_NODE);
        }
        let node = self.world.node(line.from);
        if line.to >= node.ranges().nodes {
            return Err(NO_NODE);
        }
        if encode(&node.frame_for(line.to)) != line.frame {
            return Err(SENT_OTHER);
        }
        let capacity = self.world.net().capacity() as usize;
        let there = self.world.under_way(line.from, line.to);
        if there >= capacity {
            return Err(SENT_ON_FULL);
        }
        Ok(there + 1 == capacity)
    }

    /// Replays a line that was sent.
    fn send(&mut self, line: &Line) -> Result<(), Wrong> {
        self.lose_older(line)?;
        if self.fills(line)? {
            self.full = self.full.saturating_add(1);
        }
        if self.under_way.push(*line).is_err() {
            return Err(NO_MEMORY);
        }
        let (from, to) = (line.from, line.to);
        self.step(&Event::Send { from, to })
    }

    /// Replays a line that was taken.
    fn take(&mut self, line: &Line) -> Result<(), Wrong> {
        self.lose_older(line)?;
        let Some(place) = self
            .under_way
            .iter()
            .position(|other| other.shares_link(line))
        else {
            return Err(TOOK_OTHER);
        };
        let oldest = self.under_way.remove(place);
        if oldest.place != line.place || oldest.frame != line.frame {
            return Err(TOOK_OTHER);
        }
        let (from, to) = (line.from, line.to);
        self.step(&Event::Take { from, to })
    }

    /// Replays a deed of a node.
    fn follow(&mut self, node: u16, deed: Deed) -> Result<(), Wrong> {
        match deed {
            Deed::Takes(line) => self.take(&line),
            Deed::Sends(line) => self.send(&line),
            Deed::Asks(ticket) => self.step(&Event::Ask { node, ticket }),
            Deed::Leaves(ticket) => self.step(&Event::Leave { node, ticket }),
        }
    }

    /// Replays a turn of a node; `ticked` says whether the node ticked.
    pub fn turn(&mut self, node: u16, account: &Account, ticked: bool) -> Result<(), Wrong> {
        if !ticked {
            self.attended = self.attended.saturating_add(1);
        }
        for place in 0..account.count.get().saturating_add(1) {
            if ticked && place == account.heard.get() {
                self.step(&Event::Tick { node })?;
            }
            if let Some(deed) = account.get(place) {
                self.follow(node, deed)?;
            }
        }
        Ok(())
    }

    /// Checks that this is the world's node.
    pub fn compare(&mut self, node: &Node) -> Result<(), Wrong> {
        let id = node.id();
        if id >= self.world.net().nodes() {
            return Err(NO_NODE);
        }
        let Some(follower) = self.followers.get_mut(id as usize) else {
            return Err(NO_NODE);
        };
        if follower.take_over(self.world.node(id)) && follower.stands_as(node) {
            Ok(())
        } else {
            Err(OTHER_NODE)
        }
    }

    /// The sweeps so far.
    pub fn sweeps(&self) -> u64 {
        self.judge.sweeps()
    }

    /// What is counted so far.
    pub fn counts(&self) -> Counts {
        [
            self.events,
            self.losses,
            self.full,
            self.attended,
            self.judge.sweeps(),
        ]
    }
}
