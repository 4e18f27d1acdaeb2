//! The columns of a picture, from left to right.
ghost use Rattle.std.specs.Prelude.{◌≡◌, ◌+◌, ◌^◌, ◌<◌, ◌≤◌, List, [], ◌∷◌, ◌++◌, length, IfOk};
ghost use Rattle.std.specs.Vec.{vec_capacity};
ghost use Rattle.run_recording.specs.declared.change.Change.{Change};
ghost use Rattle.run_recording.specs.declared.column.Column.{Column};
ghost use Rattle.run_recording.specs.declared.mark.Mark.{Mark};
ghost use Rattle.run_recording.specs.Columns.{column_of, folded, last_folded, Follows, IsCovered};
ghost use Rattle.run_recording.specs.Strips.{Shows};

use crate::change::Change;
use crate::column::{Column, Counts, is_even, worsen_last};
use crate::mark::Mark;
use crate::still::MOST_NODES;
use std::alloc::{AllocError, Allocator, Global};
use std::marker::Model;
use std::mem;

/// Columns that each show the worst of `width` moments; the last may still show fewer. If there is
/// no room for one more column, the columns are joined in pairs.
#[derive(Drop)]
pub struct Strip<A: Allocator + Copy = Global> {
    columns: Vec<Column, A>,
    /// Room for folding; empty between two calls.
    spare: Vec<Column, A>,
    limit: usize,
    /// How many moments a column shows.
    width: u64,
    /// How many moments the last column shows; `width` if there is none.
    last: u64,
    /// How many moments there were.
    moments: u64,
}

impl<A: Allocator + Copy> Model for Strip<A> {
    ghost use Rattle.std.specs.Prelude.{◌≡◌, ◌<◌, ◌≤◌, [], length};
    ghost use Rattle.std.specs.Vec.{vec_capacity};
    ghost use Rattle.run_recording.specs.Strips.{StripView, IsStrip};

    ghost Value = { StripView };

    ghost view = { λ s. record
        { columns = s.columns.items; width = s.width; last = s.last; limit = s.limit; moments = s.moments } };

    ghost invariant = { λ s. (0 < s.limit)
        × (length s.columns.items ≤ s.limit)
        × (s.limit ≤ vec_capacity s.columns)
        × (s.limit ≤ vec_capacity s.spare)
        × (s.spare.items ≡ [])
        × IsStrip (record {
          columns = s.columns.items;
          width = s.width;
          last = s.last;
          limit = s.limit;
          moments = s.moments;
        }) };
}

impl<A: Allocator + Copy> Strip<A> {
    /// A strip without moments, of at most `limit` columns. Takes all its memory.
    pub fn new(alloc: A, limit: usize) -> Result<Strip<A>, AllocError>
        requires { 0 < limit }
        ensures shows { IfOk result (λ strip. Shows strip []) }
        ensures limit { IfOk result (λ strip. strip.limit ≡ limit) }
    {
        Ok(Strip {
            columns: Vec::with_capacity(alloc, limit)?,
            spare: Vec::with_capacity(alloc, limit)?,
            limit,
            width: 1,
            last: 1,
            moments: 0,
        })
    }

    /// The columns.
    pub fn columns(&self) -> &[Column]
        ensures { result.now ≡ self.now.columns }
    {
        self.columns.as_slice()
    }

    /// How many moments each column shows; the last may show fewer.
    pub fn width(&self) -> u64
        ensures { result ≡ self.now.width }
    {
        self.width
    }

    /// Adds one more moment, at most 2^62 in all. The change is the one since the moment before, or
    /// [`Change::All`] if that moment was not added.
    #[inline(always)]
    pub fn push(&mut self, marks: &[Mark; MOST_NODES], change: Change, counts: &Counts)
        requires few { self.old.moments < 2 ^ 62 }
        requires follows { Follows self.old.columns change marks.now }
        ensures shows { (moments : List Column)
            → Shows self.old moments → Shows self.new (moments ++ column_of marks.now counts.now ∷ []) }
        ensures covers { IsCovered self.new.columns marks.now }
        ensures limit { self.new.limit ≡ self.old.limit }
        ensures moments { self.new.moments ≡ self.old.moments + 1 }
    {
        if self.last == self.width && self.columns.len() == self.limit {
            self.fold();
        }
        self.add(marks, change, counts);
    }

    /// Adds one more moment, if there is room for it.
    #[inline(always)]
    fn add(&mut self, marks: &[Mark; MOST_NODES], change: Change, counts: &Counts)
        requires few { self.old.moments < 2 ^ 62 }
        requires follows { Follows self.old.columns change marks.now }
        requires room { self.old.last ≡ self.old.width
            → length self.old.columns < self.old.limit }
        ensures shows { (moments : List Column)
            → Shows self.old moments → Shows self.new (moments ++ column_of marks.now counts.now ∷ []) }
        ensures covers { IsCovered self.new.columns marks.now }
        ensures limit { self.new.limit ≡ self.old.limit }
        ensures moments { self.new.moments ≡ self.old.moments + 1 }
    {
        self.moments += 1;
        if self.last == self.width {
            self.columns.push_reserved(Column::of(marks, counts));
            self.last = 1;
        } else {
            worsen_last(self.columns.as_mut_slice(), marks, change, counts);
            self.last += 1;
        }
    }

    /// Folds the columns in pairs, so that there is room for one more moment.
    #[inline(never)]
    fn fold(&mut self)
        requires full { self.old.last ≡ self.old.width }
        requires some { 0 < length self.old.columns }
        requires few { self.old.moments < 2 ^ 62 }
        ensures shows { (moments : List Column) → Shows self.old moments → Shows self.new moments }
        ensures follows { (change : Change) (marks : List Mark)
            → Follows self.old.columns change marks → Follows self.new.columns change marks }
        ensures limit { self.new.limit ≡ self.old.limit }
        ensures moments { self.new.moments ≡ self.old.moments }
        ensures room { self.new.last ≡ self.new.width
            → length self.new.columns < length self.old.columns }
    {
        fold_into(self.columns.as_slice(), &mut self.spare);
        self.last = last_folded(is_even(self.columns.as_slice()), self.width, self.last);
        self.width += self.width;
        mem::swap(&mut self.columns, &mut self.spare);
        self.spare.clear();
    }
}

/// How many moments the last column shows after a fold.
fn last_folded(even: bool, width: u64, last: u64) -> u64
    requires { last + width < 2 ^ 64 }
    ensures { result ≡ last_folded even width last }
{
    if even { last + width } else { last }
}

/// Writes the columns folded in pairs; an odd one at the end stays.
fn fold_into<A: Allocator>(columns: &[Column], spare: &mut Vec<Column, A>)
    requires empty { spare.old.items ≡ [] }
    requires room { length columns.now ≤ vec_capacity spare.old }
    ensures folded { spare.new.items ≡ folded columns.now }
    ensures capacity { vec_capacity spare.new ≡ vec_capacity spare.old }
{
    let mut rest = columns;
    while let [first, second, more @ ..] = rest {
        spare.push_reserved(first.worse(second));
        rest = more;
    }
    if let [only] = rest {
        spare.push_reserved(*only);
    }
}
