//! A limited number of stills of a run.
ghost use Rattle.std.specs.Prelude.{◌≡◌, ◌+◌, ◌<◌, ◌≤◌, List, [], ◌∷◌, ◌++◌, length, IfOk, IsTrue};
ghost use Rattle.std.specs.Prelude.{false, option_map};
ghost use Rattle.std.specs.Vec.{vec_capacity};
ghost use Rattle.run_recording.specs.declared.still.Still.{Still};
ghost use Rattle.run_recording.specs.Stills.{folded, are_calm, StandFor, MayJoin, MayLast};
ghost use Rattle.run_recording.specs.Reels.{Shows};

use crate::still::{Still, join_last};
use std::alloc::{AllocError, Allocator, Global};
use std::marker::Model;
use std::mem;

/// The stills of a run, no more than the reel was made for.
#[derive(Drop)]
pub struct Reel<A: Allocator + Copy = Global> {
    /// The first moment.
    opening: Option<Still>,
    stills: Vec<Still, A>,
    /// Where stills are joined; empty between two calls.
    spare: Vec<Still, A>,
    limit: usize,
    /// The most states that a still stands for, if it is calm.
    width: u64,
    /// The same if it is weighty, once the reel is crowded.
    weighty_width: u64,
    /// How many states the last still stands for.
    last: u64,
    /// Whether weighty moments had to be joined too.
    crowded: bool,
}

impl<A: Allocator + Copy> Model for Reel<A> {
    ghost use Rattle.std.specs.Prelude.{◌≡◌, ◌≤◌, [], length};
    ghost use Rattle.std.specs.Vec.{vec_capacity};
    ghost use Rattle.run_recording.specs.Reels.{ReelView};

    ghost Value = { ReelView };

    ghost view = { λ r. record
        { opening = r.opening; stills = r.stills.items; limit = r.limit; crowded = r.crowded } };

    ghost invariant = { λ r. (2 ≤ r.limit)
        × (length r.stills.items ≤ r.limit)
        × (r.limit ≤ vec_capacity r.stills)
        × (r.limit ≤ vec_capacity r.spare)
        × (r.spare.items ≡ []) };
}

impl<A: Allocator + Copy> Reel<A> {
    /// A reel without moments, of at most `limit` stills after the first moment. Takes all its
    /// memory.
    pub fn new(alloc: A, limit: usize) -> Result<Reel<A>, AllocError>
        requires { 2 ≤ limit }
        ensures shows { IfOk result (λ reel. Shows reel []) }
        ensures limit { IfOk result (λ reel. reel.limit ≡ limit) }
        ensures crowded { IfOk result (λ reel. reel.crowded ≡ false) }
    {
        Ok(Reel {
            opening: None,
            stills: Vec::with_capacity(alloc, limit)?,
            spare: Vec::with_capacity(alloc, limit)?,
            limit,
            width: 1,
            weighty_width: 1,
            last: 1,
            crowded: false,
        })
    }

    /// The first moment; `None` if there was none.
    pub fn opening(&self) -> Option<&Still>
        ensures { option_map (λ still. still.now) result ≡ self.now.opening }
    {
        self.opening.as_ref()
    }

    /// The stills after the first moment, at most as many as the limit that [`Reel::new`] was given.
    pub fn stills(&self) -> &[Still]
        ensures stills { result.now ≡ self.now.stills }
        ensures few { length result.now ≤ self.now.limit }
    {
        self.stills.as_slice()
    }

    /// Whether weighty moments had to be joined.
    pub fn is_crowded(&self) -> bool
        ensures { result ≡ self.now.crowded }
    {
        self.crowded
    }

    /// Adds one more moment.
    pub fn push(&mut self, moment: &Still)
        ensures shows { (moments : List Still)
            → Shows self.old moments → Shows self.new (moments ++ moment.now ∷ []) }
        ensures limit { self.new.limit ≡ self.old.limit }
    {
        if self.opening.is_none() {
            self.opening = Some(*moment);
        } else {
            self.push_later(moment);
        }
    }

    /// Adds one more moment after the first.
    fn push_later(&mut self, moment: &Still)
        ensures shows { (moments : List Still) → StandFor self.old.crowded moments self.old.stills
            → StandFor self.new.crowded (moments ++ moment.now ∷ []) self.new.stills }
        ensures limit { self.new.limit ≡ self.old.limit }
        ensures opening { self.new.opening ≡ self.old.opening }
    {
        if ends_like(self.stills.as_slice(), moment) {
            join_last(self.stills.as_mut_slice(), moment);
        } else if self.takes(moment) {
            join_last(self.stills.as_mut_slice(), moment);
            self.last = self.last.saturating_add(1);
        } else {
            self.make_room();
            self.stills.push_reserved(*moment);
            self.last = 1;
        }
    }

    /// Whether the last still may stand for a moment that looks different.
    fn takes(&self, moment: &Still) -> bool
        ensures { IsTrue result → MayLast self.now.crowded self.now.stills moment.now }
    {
        if ends_calm(self.stills.as_slice(), moment) {
            self.last < self.width
        } else {
            self.crowded && !self.stills.is_empty() && self.last < self.weighty_width
        }
    }

    /// Joins stills, if there is no room for one more.
    fn make_room(&mut self)
        ensures shows { (moments : List Still) → StandFor self.old.crowded moments self.old.stills
            → StandFor self.new.crowded moments self.new.stills }
        ensures limit { self.new.limit ≡ self.old.limit }
        ensures opening { self.new.opening ≡ self.old.opening }
        ensures room { length self.new.stills < self.new.limit }
    {
        if self.stills.len() < self.limit {
            return;
        }
        self.fold_calm();
        if self.stills.len() == self.limit {
            self.fold_all();
        }
        self.last = self.width;
    }

    /// Joins neighbouring stills in pairs, if both are calm.
    fn fold_calm(&mut self)
        ensures shows { (moments : List Still) → StandFor self.old.crowded moments self.old.stills
            → StandFor self.new.crowded moments self.new.stills }
        ensures limit { self.new.limit ≡ self.old.limit }
        ensures opening { self.new.opening ≡ self.old.opening }
    {
        fold_into(self.stills.as_slice(), &mut self.spare, false);
        self.width = self.width.saturating_add(self.width);
        mem::swap(&mut self.stills, &mut self.spare);
        self.spare.clear();
    }

    /// Joins neighbouring stills in pairs, weighty or not.
    fn fold_all(&mut self)
        requires { 2 ≤ length self.old.stills }
        ensures shows { (moments : List Still) → StandFor self.old.crowded moments self.old.stills
            → StandFor self.new.crowded moments self.new.stills }
        ensures limit { self.new.limit ≡ self.old.limit }
        ensures opening { self.new.opening ≡ self.old.opening }
        ensures room { length self.new.stills < length self.old.stills }
    {
        fold_into(self.stills.as_slice(), &mut self.spare, true);
        self.crowded = true;
        self.weighty_width = self.weighty_width.saturating_add(self.weighty_width);
        mem::swap(&mut self.stills, &mut self.spare);
        self.spare.clear();
    }
}

/// Whether the last still shows what is seen at a moment.
fn ends_like(stills: &[Still], moment: &Still) -> bool
    ensures { IsTrue result → MayJoin stills.now moment.now }
{
    match stills {
        [.., last] => last.damaged == moment.damaged && last.is_like(moment),
        [] => false,
    }
}

/// Whether there is a last still, and neither it nor the moment is weighty.
fn ends_calm(stills: &[Still], moment: &Still) -> bool
    ensures { IsTrue result → MayJoin stills.now moment.now }
{
    match stills {
        [.., last] => are_calm(last, moment),
        [] => false,
    }
}

/// Whether neither of two stills is weighty.
fn are_calm(first: &Still, second: &Still) -> bool
    ensures { result ≡ are_calm first.now second.now }
{
    !first.is_weighty() & !second.is_weighty()
}

/// Writes neighbouring stills joined in pairs: all, or only those that are calm. The others stay as
/// they are.
fn fold_into<A: Allocator>(stills: &[Still], spare: &mut Vec<Still, A>, all: bool)
    requires empty { spare.old.items ≡ [] }
    requires room { length stills.now ≤ vec_capacity spare.old }
    ensures folded { spare.new.items ≡ folded all stills.now }
    ensures capacity { vec_capacity spare.new ≡ vec_capacity spare.old }
{
    let mut rest = stills;
    while let [first, more @ ..] = rest {
        rest = more;
        let mut shown = *first;
        if let [second, others @ ..] = more {
            if all || are_calm(first, second) {
                shown = first.joined(second);
                rest = others;
            }
        }
        spare.push_reserved(shown);
    }
}
