//! What a search changes, bit by bit.
ghost use Rattle.std.specs.Prelude.{◌≡◌, length, IfOk, OnOk};

use rand::seq::IndexedMutRandom;
use rand::{Rng, RngExt};
use rand_pcg::Lcg64Xsh32;
use run_model::{Event, Frame, Harm, Item, Payload};
use schedules::scramble_world;
use std::alloc::{AllocError, Global};
use topology::{Net, Ranges};

/// Harms, and for each pass over the nodes and links the seed of its order.
#[derive(Drop)]
pub(crate) struct Trial {
    pub(crate) harms: Vec<Event>,
    pub(crate) orders: Vec<u32>,
}

impl Trial {
    /// A trial with `passes` passes, every part of which is drawn.
    pub(crate) fn drawn(
        alloc: Global,
        net: &Net,
        passes: usize,
        generator: &mut Lcg64Xsh32,
    ) -> Result<Trial, AllocError>
        ensures { IfOk result (λ trial. length trial.orders.items ≡ passes) }
    {
        let mut harms = Vec::new(alloc);
        scramble_world(net, generator, &mut harms)?;
        let mut orders = Vec::new(alloc);
        for pass in 0..passes {
            orders.push(generator.next_u32())?;
        }
        Ok(Trial { harms, orders })
    }

    /// Becomes like the other one.
    pub(crate) fn become_like(&mut self, other: &Trial) -> Result<(), AllocError>
        ensures harms { OnOk result (self.new.harms.items ≡ other.now.harms.items) }
        ensures orders { OnOk result (self.new.orders.items ≡ other.now.orders.items) }
    {
        self.harms.clear();
        self.harms.extend_from_slice(other.harms.as_slice())?;
        self.orders.clear();
        self.orders.extend_from_slice(other.orders.as_slice())
    }

    /// Draws a part of it again: one harm, four harms, or the order of one of the first `passes` +
    /// 1 passes. Nothing changes if the pass that is drawn does not exist.
    pub(crate) fn change(&mut self, net: &Net, passes: usize, generator: &mut Lcg64Xsh32)
        ensures harms { length self.new.harms.items ≡ length self.old.harms.items }
        ensures orders { length self.new.orders.items ≡ length self.old.orders.items }
    {
        match generator.random_range(0..4u16) {
            0 => self.redraw_harm(net, generator),
            1 => self.redraw_harms(net, generator),
            _ => self.redraw_order(passes, generator),
        }
    }

    /// Draws four harms again.
    fn redraw_harms(&mut self, net: &Net, generator: &mut Lcg64Xsh32)
        ensures harms { length self.new.harms.items ≡ length self.old.harms.items }
        ensures orders { self.new.orders ≡ self.old.orders }
    {
        self.redraw_harm(net, generator);
        self.redraw_harm(net, generator);
        self.redraw_harm(net, generator);
        self.redraw_harm(net, generator);
    }

    /// Draws a harm again.
    fn redraw_harm(&mut self, net: &Net, generator: &mut Lcg64Xsh32)
        ensures harms { length self.new.harms.items ≡ length self.old.harms.items }
        ensures orders { self.new.orders ≡ self.old.orders }
    {
        if let Some(Event::Damage(harm)) = self.harms.as_mut_slice().choose_mut(generator) {
            *harm = redrawn(net.ranges(), *harm, generator);
        }
    }

    /// Draws the order of one of the first `passes` + 1 passes again, if that pass exists.
    fn redraw_order(&mut self, passes: usize, generator: &mut Lcg64Xsh32)
        ensures harms { self.new.harms ≡ self.old.harms }
        ensures orders { length self.new.orders.items ≡ length self.old.orders.items }
    {
        let pass = generator.random_range(0..=passes);
        if let Some(order) = self.orders.get_mut(pass) {
            *order = generator.next_u32();
        }
    }
}

/// A payload in range.
fn drawn_payload(ranges: Ranges, generator: &mut Lcg64Xsh32) -> Payload {
    let distance = generator.random_range(0..=ranges.nodes);
    let parent = drawn_parent(ranges, generator);
    let ring = generator.random_range(0..=ranges.ring.saturating_sub(1));
    Payload {
        distance,
        parent,
        ring,
    }
}

/// A parent: a node, or none.
fn drawn_parent(ranges: Ranges, generator: &mut Lcg64Xsh32) -> Option<u16> {
    let parent = generator.random_range(0..=ranges.nodes);
    if parent == ranges.nodes {
        None
    } else {
        Some(parent)
    }
}

/// An item: noise, or a frame.
fn drawn_item(ranges: Ranges, generator: &mut Lcg64Xsh32) -> Item {
    if generator.random_range(0..=3) == 0 {
        return Item::Noise;
    }
    let seq = generator.random_range(0..=ranges.counter.saturating_sub(1));
    let ack = generator.random_range(0..=ranges.counter.saturating_sub(1));
    let payload = drawn_payload(ranges, generator);
    Item::Frame(Frame { seq, ack, payload })
}

/// A newly drawn harm of the same part of the world. Harms that write a loan, empty a link, or join
/// or part an edge stay as they are.
fn redrawn(ranges: Ranges, harm: Harm, generator: &mut Lcg64Xsh32) -> Harm {
    match harm {
        Harm::Own { node, .. } => Harm::Own {
            node,
            distance: generator.random_range(0..=ranges.nodes),
            parent: drawn_parent(ranges, generator),
        },
        Harm::Counters {
            node,
            neighbour,
            ..
        } => Harm::Counters {
            node,
            neighbour,
            seq: generator.random_range(0..=ranges.counter.saturating_sub(1)),
            last: generator.random_range(0..=ranges.counter.saturating_sub(1)),
        },
        Harm::Staged {
            node,
            neighbour,
            ..
        } => Harm::Staged {
            node,
            neighbour,
            payload: drawn_payload(ranges, generator),
        },
        Harm::Copy {
            node,
            neighbour,
            ..
        } => Harm::Copy {
            node,
            neighbour,
            payload: drawn_payload(ranges, generator),
        },
        Harm::Value {
            node,
            neighbour,
            ..
        } => Harm::Value {
            node,
            neighbour,
            value: generator.random_range(0..=ranges.ring.saturating_sub(1)),
        },
        Harm::Item { from, to, .. } => Harm::Item {
            from,
            to,
            item: drawn_item(ranges, generator),
        },
        Harm::Desk { .. } | Harm::Empty { .. } | Harm::Join { .. } | Harm::Part { .. } => harm,
    }
}
