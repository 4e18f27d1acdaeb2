//! What has settled, column by column.
ghost use Rattle.std.specs.Prelude.{◌≡◌, ◌+◌, ◌^◌, ◌<◌, ◌≤◌, List, [], ◌∷◌, ◌++◌, length, IfOk};
ghost use Rattle.std.specs.Vec.{vec_capacity};
ghost use Rattle.world.specs.judge.configuration.ConfigurationView.{world_of};
ghost use Rattle.world.specs.run_model.World.{World};
ghost use Rattle.run_recording.specs.Laned.{AreEnds, left_after, seconds};

use layers::Layers;
use std::alloc::{AllocError, Allocator, Global};
use std::marker::Model;
use world::Configuration;

/// What has settled at the last moment of each full column. All full columns show the same number
/// of moments. That it is the number of a [`Strip`](crate::Strip) with the same limit is not
/// proved.
#[derive(Drop)]
pub struct Lanes<A: Allocator + Copy = Global> {
    /// The layers at the last moment of each full column.
    states: Vec<Layers, A>,
    limit: usize,
    /// How many moments a column shows.
    width: u64,
    /// How many moments came after those of the full columns.
    left: u64,
    /// How many moments there were.
    moments: u64,
}

impl<A: Allocator + Copy> Model for Lanes<A> {
    ghost use Rattle.std.specs.Prelude.{◌≡◌, ◌+◌, ◌*◌, ◌<◌, ◌≤◌, length};
    ghost use Rattle.std.specs.Vec.{vec_capacity};
    ghost use Rattle.run_recording.specs.Laned.{LanesView};

    ghost Value = { LanesView };

    ghost view = { λ l. record
        { states = l.states.items; limit = l.limit; width = l.width; left = l.left; moments = l.moments } };

    ghost invariant = { λ l. (0 < l.limit)
        × (length l.states.items ≤ l.limit)
        × (l.limit ≤ vec_capacity l.states)
        × (0 < l.left → length l.states.items < l.limit)
        × (l.left < l.width)
        × (length l.states.items * l.width + l.left ≡ l.moments)
        × (l.width ≤ 2 * l.moments + 1) };
}

impl<A: Allocator + Copy> Lanes<A> {
    /// Lanes without moments, of at most `limit` full columns. Takes all its memory.
    pub fn new(alloc: A, limit: usize) -> Result<Lanes<A>, AllocError>
        requires { 0 < limit }
        ensures ends { IfOk result (λ lanes. AreEnds lanes.width lanes.left [] lanes.states) }
        ensures limit { IfOk result (λ lanes. lanes.limit ≡ limit) }
        ensures moments { IfOk result (λ lanes. lanes.moments ≡ 0) }
    {
        Ok(Lanes {
            states: Vec::with_capacity(alloc, limit)?,
            limit,
            width: 1,
            left: 0,
            moments: 0,
        })
    }

    /// The layers at the last moment of each full column.
    pub fn states(&self) -> &[Layers]
        ensures { result.now ≡ self.now.states }
    {
        self.states.as_slice()
    }

    /// How many moments came after those of the full columns.
    pub fn left(&self) -> u64
        ensures { result ≡ self.now.left }
    {
        self.left
    }

    /// Adds one more moment, at most 2^62 in all. It looks at the network only if the moment is the
    /// last one of its column.
    pub fn push<N: Allocator + Copy>(&mut self, configuration: &Configuration<N>)
        requires { self.old.moments < 2 ^ 62 }
        ensures ends { (worlds : List World)
            → AreEnds self.old.width self.old.left worlds self.old.states
            → AreEnds self.new.width self.new.left (worlds ++ world_of configuration.now ∷ []) self.new.states }
        ensures limit { self.new.limit ≡ self.old.limit }
        ensures moments { self.new.moments ≡ self.old.moments + 1 }
    {
        self.make_room();
        self.add(configuration);
    }

    /// Joins the columns in pairs, if all are full and there are as many as there may be.
    fn make_room(&mut self)
        requires { self.old.moments < 2 ^ 62 }
        ensures ends { (worlds : List World)
            → AreEnds self.old.width self.old.left worlds self.old.states
            → AreEnds self.new.width self.new.left worlds self.new.states }
        ensures limit { self.new.limit ≡ self.old.limit }
        ensures moments { self.new.moments ≡ self.old.moments }
        ensures room { length self.new.states < self.new.limit }
    {
        if self.left == 0 && self.states.len() == self.limit {
            self.fold();
        }
    }

    /// Adds one more moment, if there is room for another full column.
    fn add<N: Allocator + Copy>(&mut self, configuration: &Configuration<N>)
        requires few { self.old.moments < 2 ^ 62 }
        requires room { length self.old.states < self.old.limit }
        ensures ends { (worlds : List World)
            → AreEnds self.old.width self.old.left worlds self.old.states
            → AreEnds self.new.width self.new.left (worlds ++ world_of configuration.now ∷ [])
            self.new.states }
        ensures limit { self.new.limit ≡ self.old.limit }
        ensures moments { self.new.moments ≡ self.old.moments + 1 }
    {
        self.moments += 1;
        self.left += 1;
        if self.left == self.width {
            self.states.push_reserved(Layers::of(configuration));
            self.left = 0;
        }
    }

    /// Joins the columns in pairs, so that there is room for one more. If their number was odd, the
    /// last one is no longer full.
    fn fold(&mut self)
        requires full { self.old.left ≡ 0 }
        requires some { 0 < length self.old.states }
        requires few { self.old.moments < 2 ^ 62 }
        ensures ends { (worlds : List World)
            → AreEnds self.old.width self.old.left worlds self.old.states
            → AreEnds self.new.width self.new.left worlds self.new.states }
        ensures limit { self.new.limit ≡ self.old.limit }
        ensures moments { self.new.moments ≡ self.old.moments }
        ensures room { length self.new.states < length self.old.states }
    {
        self.left = left_after(self.states.len(), self.width);
        keep_seconds(&mut self.states);
        self.width += self.width;
    }
}

/// How many moments are left without a full column when this many columns are joined in pairs.
fn left_after(columns: usize, width: u64) -> u64
    ensures { result ≡ left_after columns width }
{
    if columns % 2 == 0 { 0 } else { width }
}

/// Keeps every second item, from the second on.
fn keep_seconds<A: Allocator>(states: &mut Vec<Layers, A>)
    ensures seconds { states.new.items ≡ seconds states.old.items }
    ensures capacity { vec_capacity states.new ≡ vec_capacity states.old }
{
    let half = states.len() / 2;
    for k in 0..half {
        states[k] = states[2 * k + 1];
    }
    states.truncate(half);
}
