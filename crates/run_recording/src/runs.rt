//! The marks of a node from left to right, as runs of one mark.
ghost use Rattle.std.specs.Prelude.{◌≡◌, ◌+◌, ◌^◌, ◌<◌, ◌↔◌, IsTrue, IfOk, OnOk, map};
ghost use Rattle.run_recording.specs.Runs.{mark_in, longer, AreRuns, AreRunsNext, EndIn};

use crate::column::Column;
use crate::mark::Mark;
use std::alloc::{AllocError, Global};

/// Adjacent columns in which a node has the same mark.
#[derive(Clone, Copy)]
pub struct Run {
    /// The first column.
    pub first: usize,
    /// The number of columns.
    pub count: usize,
    /// The mark.
    pub mark: Mark,
}

/// The runs of a node, from left to right.
pub fn runs_of(alloc: Global, columns: &[Column], v: u16) -> Result<Vec<Run>, AllocError>
    ensures { IfOk result (λ runs. AreRuns (map (mark_in v) columns.now) runs.items) }
{
    let mut runs: Vec<Run> = Vec::new(alloc);
    for place in 0..columns.len() {
        put_mark(&mut runs, place, mark_in(&columns[place], v))?;
    }
    Ok(runs)
}

/// The mark of a node in a column.
fn mark_in(column: &Column, v: u16) -> Mark
    ensures { result ≡ mark_in v column.now }
{
    column
        .marks
        .get(usize::from(v))
        .copied()
        .unwrap_or(Mark::Settled)
}

/// Adds the mark in the next column to the runs.
fn put_mark(runs: &mut Vec<Run>, place: usize, mark: Mark) -> Result<(), AllocError>
    requires { place < 2 ^ 63 }
    ensures { OnOk result (AreRunsNext runs.old.items place mark runs.new.items) }
{
    if end_in(runs.as_slice(), mark) {
        lengthen(runs.as_mut_slice());
        return Ok(());
    }
    runs.push(Run {
        first: place,
        count: 1,
        mark,
    })?;
    Ok(())
}

/// Whether the last run has this mark.
fn end_in(runs: &[Run], mark: Mark) -> bool
    ensures { IsTrue result ↔ EndIn mark runs.now }
{
    match runs {
        [.., last] => last.mark == mark,
        [] => false,
    }
}

/// Makes the last run, if there is one, a column longer.
fn lengthen(runs: &mut [Run])
    ensures { runs.new ≡ longer runs.old }
{
    if runs.is_empty() {
        return;
    }
    let last = runs.len() - 1;
    runs[last].count = runs[last].count.saturating_add(1);
}
