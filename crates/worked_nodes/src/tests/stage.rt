//! What nodes in memory share, and the doors through which connections come to them.
ghost use Rattle.node_loop.specs.node_connections.Doors.{Opens};

use super::ends::{End, Part};
use super::replays::account::Account;
use super::replays::desk::Desk;
use super::wires::{Queue, ROOM};
use node_loop::{Door, Doors};
use std::alloc::{AllocError, Global};
use std::cell::Cell;

/// How often a planned mistake happens: once in this many frames or asks.
const EACH: u32 = 20;

/// A mistake of connections.
#[derive(Clone, Copy, Debug, PartialEq)]
pub enum Mistake {
    /// A frame is passed on twice.
    Twice,
    /// A frame is dropped from a working connection.
    Dropped,
    /// A frame is passed on, and its take is left out of the account.
    Untaken,
    /// A client asks, and that is left out of the account.
    Unasked,
}

/// What nodes in memory share.
#[derive(Drop)]
pub struct Stage {
    /// The connections that come to each node from higher neighbours.
    pub links: Vec<Queue>,
    /// Those that come from clients.
    pub clients: Vec<Queue>,
    /// How many calls come before the one that fails, among all calls of all doors and connections;
    /// none if none fails any more.
    pub spared: Cell<Option<u64>>,
    /// How many bytes each wire holds.
    pub room: usize,
    /// The tickets of each node's clients, if the deeds of turns are noted.
    pub desks: Vec<Desk>,
    /// The deeds of the current turn.
    pub account: Account,
    /// The mistake that happens now and then, if there is one.
    pub mistake: Option<Mistake>,
    chances: Cell<u32>,
}

impl Stage {
    /// A stage for this many nodes, with this many connections to each of them.
    pub fn new(
        alloc: Global,
        nodes: u16,
        links: usize,
        clients: usize,
    ) -> Result<Stage, AllocError> {
        let mut stage = Stage {
            links: Vec::new(alloc),
            clients: Vec::new(alloc),
            spared: Cell::new(None),
            room: ROOM,
            desks: Vec::new(alloc),
            account: Account::new(),
            mistake: None,
            chances: Cell::new(0),
        };
        for _ in 0..nodes {
            stage.links.push(Queue::new(alloc, links)?)?;
            stage.clients.push(Queue::new(alloc, clients)?)?;
        }
        Ok(stage)
    }

    /// Counts a call, and says whether it fails.
    pub fn trips(&self) -> bool {
        let spared = self.spared.get();
        self.spared
            .set(spared.and_then(|calls| calls.checked_sub(1)));
        spared == Some(0)
    }

    /// Counts a chance for this mistake, and says whether it happens.
    pub fn errs(&self, mistake: Mistake) -> bool {
        if self.mistake != Some(mistake) {
            return false;
        }
        let chances = self.chances.get().wrapping_add(1);
        self.chances.set(chances);
        chances % EACH == 0
    }

    /// Whether the deeds of turns are noted.
    pub fn is_noted(&self) -> bool {
        !self.desks.is_empty()
    }

    /// What is noted of a connection between a node and a neighbour at the node's end.
    fn part(&self, here: u16, there: u16, place: usize) -> Part<'_> {
        if self.is_noted() {
            Part::Link { here, there, place }
        } else {
            Part::Unseen
        }
    }

    /// The next connection of a neighbour that has come to a node.
    fn link(&self, node: u16) -> Option<End<'_>> {
        let links = self.links.get(node as usize)?;
        let place = links.given.get();
        let pair = links.next()?;
        let part = self.part(node, pair.newcomer.get(), place);
        Some(End::new(pair, false, self, part))
    }

    /// The next connection of a client that has come to a node.
    fn client(&self, node: u16) -> Option<End<'_>> {
        let clients = self.clients.get(node as usize)?;
        let Some(desk) = self.desks.get(node as usize) else {
            return Some(End::new(clients.next()?, false, self, Part::Unseen));
        };
        let ticket = desk.admit()?;
        let pair = clients.pairs.get(ticket as usize)?;
        pair.up.clear();
        pair.down.clear();
        pair.lasts.set(u64::MAX);
        Some(End::new(pair, false, self, Part::Client(desk, ticket)))
    }

    /// A connection that a node makes to a lower one; none once all are made.
    fn connect(&self, node: u16, lower: u16) -> Option<End<'_>> {
        let links = self.links.get(lower as usize)?;
        let place = links.come.get();
        let pair = links.knock()?;
        pair.newcomer.set(node);
        Some(End::new(pair, true, self, self.part(node, lower, place)))
    }
}

/// The doors of a node on a stage.
#[derive(Drop)]
pub struct StageDoors<'a> {
    pub node: u16,
    pub stage: &'a Stage,
    pub failures: u64,
}

impl<'a> StageDoors<'a> {
    /// The connection that `come` gets from the stage, unless this is the call that fails.
    fn door_of<F: FnOnce(&'a Stage) -> Option<End<'a>>>(&mut self, come: F) -> Door<End<'a>>
        requires { F.IsAlwaysCallable come }
        ensures { Opens result self.old.failures self.new.failures }
    {
        if self.stage.trips() {
            self.failures = self.failures.saturating_add(1);
            return Door::Failed;
        }
        match come(self.stage) {
            Some(end) => Door::Came(end),
            None => Door::Nobody,
        }
    }
}

impl<'a> Doors for StageDoors<'a> {
    type P = End<'a>;

    ghost failures = { λ d. d.failures };

    fn wait(&mut self, _rest: u64) {}

    fn link(&mut self) -> Door<End<'a>> {
        let node = self.node;
        self.door_of(|stage| stage.link(node))
    }

    fn client(&mut self) -> Door<End<'a>> {
        let node = self.node;
        self.door_of(|stage| stage.client(node))
    }

    fn connect(&mut self, neighbour: u16) -> Door<End<'a>> {
        let node = self.node;
        self.door_of(|stage| stage.connect(node, neighbour))
    }
}
