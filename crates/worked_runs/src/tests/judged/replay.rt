//! A long run that is judged twice: by a judge, and directly by the definition of a sweep. After
//! each event the sweeps, the nodes without a full tick and the tallies of all links are the same.
use super::*;
use crate::tests::texts::round_of;
use crate::tests::worlds::square;
use std::test::Fail;
use test_parts::is_expected;
use topology::Net;
use world::Tally;

/// The nodes of the square.
const NODES: usize = 4;

/// A link in the direct count. It holds one item at most.
#[derive(Clone, Copy)]
struct PlainLink {
    is_link: bool,
    /// Whether an item is under way.
    holds_item: bool,
    /// Whether that item was there when the stretch began.
    is_old: bool,
    /// Whether an item that was sent in the stretch was taken.
    renewed: bool,
}

/// A pair without a link.
const NO_LINK: PlainLink = PlainLink {
    is_link: false,
    holds_item: false,
    is_old: false,
    renewed: false,
};

impl PlainLink {
    /// Its tally; none without a link.
    fn tally(&self) -> Option<Tally> {
        if !self.is_link {
            return None;
        }
        Some(Tally {
            old: if self.is_old { 1 } else { 0 },
            renewed: self.renewed,
        })
    }
}

/// A stretch of a run of the square: which nodes have made a full tick, the state of each link,
/// and how many sweeps were before it.
#[derive(Clone, Copy)]
struct Plain {
    ticked: [bool; NODES],
    /// The link from `u` to `v` is at `4u + v`.
    links: [PlainLink; NODES * NODES],
    sweeps: u64,
}

impl Plain {
    /// The start of a run with these edges and nothing under way.
    fn new(edges: &[(u16, u16)]) -> Plain {
        let mut plain = Plain {
            ticked: [false; NODES],
            links: [NO_LINK; NODES * NODES],
            sweeps: 0,
        };
        for (u, v) in edges {
            plain.connect(usize::from(*u), usize::from(*v));
            plain.connect(usize::from(*v), usize::from(*u));
        }
        plain
    }

    /// Adds a link from one node to another.
    fn connect(&mut self, from: usize, to: usize) {
        if let Some(link) = self.link(from, to) {
            link.is_link = true;
        }
    }

    fn link(&mut self, from: usize, to: usize) -> Option<&mut PlainLink> {
        self.links
            .get_mut(from.saturating_mul(NODES).saturating_add(to))
    }

    /// Lets an event happen. Nobody asks for the lock, so each tick is full; and each event is
    /// accepted.
    fn step(&mut self, event: &Event) {
        match *event {
            Event::Tick { node } => {
                if let Some(ticked) = self.ticked.get_mut(usize::from(node)) {
                    *ticked = true;
                }
            }
            Event::Send { from, to } => self.send(usize::from(from), usize::from(to)),
            Event::Take { from, to } => self.take(usize::from(from), usize::from(to)),
            _ => {}
        }
        if self.is_sweep() {
            self.sweeps = self.sweeps.saturating_add(1);
            self.begin();
        }
    }

    /// Sends an item; a full link loses it.
    fn send(&mut self, from: usize, to: usize) {
        if let Some(link) = self.link(from, to) {
            link.holds_item = true;
        }
    }

    fn take(&mut self, from: usize, to: usize) {
        if let Some(link) = self.link(from, to) {
            link.renewed |= link.holds_item && !link.is_old;
            link.holds_item = false;
            link.is_old = false;
        }
    }

    /// Whether each node has ticked and each link was renewed.
    fn is_sweep(&self) -> bool {
        self.lacking() == 0 && self.links.iter().all(|link| link.renewed || !link.is_link)
    }

    /// The nodes that have not ticked: bit v stands for node v.
    fn lacking(&self) -> u64 {
        let mut mask = 0u64;
        for ticked in self.ticked.iter().rev() {
            mask = mask
                .wrapping_mul(2)
                .wrapping_add(if *ticked { 0 } else { 1 });
        }
        mask
    }

    /// The tally of a link; none if no edge joins the two nodes.
    fn tally(&self, from: u16, to: u16) -> Option<Tally> {
        let place = usize::from(from)
            .saturating_mul(NODES)
            .saturating_add(usize::from(to));
        self.links.get(place)?.tally()
    }

    /// Begins a stretch: what is under way is old from now on.
    fn begin(&mut self) {
        self.ticked = [false; NODES];
        for link in &mut self.links {
            link.is_old = link.holds_item;
            link.renewed = false;
        }
    }
}

/// The first `count` events of rounds of a network without every third take.
fn rounds_with_gaps(alloc: Global, round: &str, count: usize) -> Result<Vec<Event>, Fail> {
    let mut events = Vec::with_capacity(alloc, count)?;
    let mut takes = 0u32;
    for _ in 0..count {
        for line in round.lines() {
            let Some(event) = event_of(line) else {
                continue;
            };
            if let Event::Take { .. } = event {
                takes = takes.wrapping_add(1);
                if takes % 3 == 0 {
                    continue;
                }
            }
            if events.len() == count {
                return Ok(events);
            }
            events.push(event)?;
        }
    }
    Ok(events)
}

/// Whether a judge and the direct count keep the same about their stretch, for each node and each
/// link.
fn agree(judge: &mut Judge, plain: &Plain) -> bool {
    for from in 0..4 {
        for to in 0..4 {
            if judge.tally(from, to) != plain.tally(from, to) {
                return false;
            }
        }
    }
    judge.sweeps() == plain.sweeps && judge.lacking() == plain.lacking()
}

/// The first event that is refused, or after which the judge and the direct count differ, if any;
/// and how many sweeps there were.
fn first_difference(
    judge: &mut Judge,
    plain: &mut Plain,
    events: &[Event],
) -> (Option<usize>, u64) {
    for (at, event) in events.iter().enumerate() {
        plain.step(event);
        if judge.step(event).is_err() || !agree(judge, plain) {
            return (Some(at), plain.sweeps);
        }
    }
    (None, plain.sweeps)
}

/// The first `count` events of the rounds of a network without every third take.
fn events_with_gaps(alloc: Global, net: &Net, count: usize) -> Result<Vec<Event>, Fail> {
    let round = round_of(alloc, net)?;
    rounds_with_gaps(alloc, &round, count)
}

/// The comparison of the judge and the direct count on a world: the number of events, the first
/// one after which they differ, and the sweeps.
fn compared(world: World, events: &[Event]) -> (usize, Option<usize>, u64) {
    let mut plain = Plain::new(world.net().edges());
    let mut judge = Judge::new(world);
    let (difference, sweeps) = first_difference(&mut judge, &mut plain, events);
    (events.len(), difference, sweeps)
}

/// The same for a network, after `count` events of its rounds.
fn compared_on(
    alloc: Global,
    net: &Net,
    count: usize,
) -> Result<(usize, Option<usize>, u64), Fail> {
    let events = events_with_gaps(alloc, net, count)?;
    Ok(compared(start(alloc, net)?, &events))
}

/// The same for the square, with whether there are at least this many sweeps.
fn compared_on_square(
    alloc: Global,
    count: usize,
    least: u64,
) -> Result<(usize, Option<usize>, bool), Fail> {
    let net = square(alloc)?;
    let (events, difference, sweeps) = compared_on(alloc, &net, count)?;
    Ok((events, difference, sweeps >= least))
}

/// Each link has at least one take a round, right after a send, and at most one of its items is
/// old: so two whole rounds renew it. A stretch has at most one more round, in parts, and no round
/// has more than 36 events.
const LEAST_SWEEPS: u64 = 10_000 / (3 * 36);

#[test]
fn ten_thousand_events_with_every_third_take_left_out(rt: HostRuntime) -> Result<(), Fail> {
    let found = compared_on_square(rt.alloc(), 10_000, LEAST_SWEEPS)?;
    is_expected(&found, &(10_000, None, true))
}
