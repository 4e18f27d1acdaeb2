//! Hill climbing.
ghost use Rattle.std.specs.Prelude.{◌≡◌, IfOk, Some};
ghost use Rattle.experiments.specs.Delays.{IsReplayed};
ghost use Rattle.experiments.specs.Moves.{AreMoves};

use crate::delay::{Delay, replay};
use crate::play::{Playing, moves_of, play};
use crate::trial::Trial;
use rand::SeedableRng;
use rand_pcg::Lcg64Xsh32;
use run_model::Event;
use std::alloc::{AllocError, Global};
use std::mem;
use topology::Net;

/// How a search goes.
#[derive(Clone, Copy, Debug)]
pub struct Search {
    /// The seed from which everything is drawn.
    pub seed: u64,
    /// How many changes it tries.
    pub steps: u32,
}

/// A run that serves late.
#[derive(Drop)]
pub struct SlowRun {
    /// What happens in the default world first.
    pub harms: Vec<Event>,
    /// What happens then.
    pub events: Vec<Event>,
    /// How late the run serves.
    pub delay: Delay,
}

/// The number of passes of a trial for each sweep of the sharper bound.
const PASSES_A_SWEEP: usize = 3;

/// Looks for a run that serves late. It begins with a trial that is drawn, and tries one change
/// after the other. A change stays if the run then serves no earlier.
///
/// # Errors
/// `AllocError` if memory is refused.
pub fn climb(alloc: Global, net: &Net, search: Search) -> Result<SlowRun, AllocError>
    // The list that it returns serves as late as it says.
    ensures { IfOk result (λ run. IsReplayed net.now run.harms.items run.events.items
        (Some run.delay)) }
{
    let mut moves = moves_of(alloc, net)?;
    let (harms, events) = climbed(alloc, net, search, moves.as_mut_slice())?;
    let delay = replay(alloc, net, harms.as_slice(), events.as_slice())?;
    Ok(SlowRun {
        delay: delay.unwrap(),
        harms,
        events,
    })
}

/// The harms and the events of the last trial that stayed.
fn climbed(
    alloc: Global,
    net: &Net,
    search: Search,
    moves: &mut [Event],
) -> Result<(Vec<Event>, Vec<Event>), AllocError>
    requires { AreMoves moves.old }
    ensures { IfOk result (λ found. AreMoves found.1.items) }
{
    let mut generator = Lcg64Xsh32::seed_from_u64(search.seed);
    let passes = PASSES_A_SWEEP * net.sharp_bound() as usize;
    let mut trial = Trial::drawn(alloc, net, passes, &mut generator)?;
    let mut next = Trial::drawn(alloc, net, passes, &mut generator)?;
    let mut best = play(alloc, net, &trial, moves)?;
    for _ in 0..search.steps {
        next.become_like(&trial)?;
        next.change(net, best.passes, &mut generator);
        let played = play(alloc, net, &next, moves)?;
        if played.score() >= best.score() {
            mem::swap(&mut trial, &mut next);
            best = played;
        }
    }
    Ok((trial.harms, best.events))
}
