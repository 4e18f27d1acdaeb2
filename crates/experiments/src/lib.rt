//! Experiments: how fast a network recovers in fact, compared with what the theorem allows.
//!
//! A [`ServiceWatch`] lets events happen, one by one, and keeps the number of sweeps after which
//! the network has served ever since. [`measure_run`] watches one run: a world that is scrambled by
//! a seed, and a schedule up to the sharper bound. [`measure_layers`] also says when each layer of
//! the proof stood permanently. [`summary_of`] gives the least, the median and the most of many
//! numbers.
//!
//! How many sweeps a network can really take is not known; each run that serves late is a lower
//! bound. [`climb`] looks for one by hill climbing over the harms at the start and over the order
//! in which nodes and links move. Nothing is claimed of the search itself: whatever it does, the
//! list that it returns is judged again from its start, and the contract of [`climb`] speaks of
//! that list.
//!
//! ```
//! let run = measure_run(alloc, &net, Scheduler::Rounds, 7)?;
//! // after run.sweeps sweeps it served; there were run.seen of them
//! let run = climb(alloc, &net, Search { seed: 7, steps: 2000 })?;
//! // run.events, after run.harms, serve only after run.delay.sweeps sweeps
//! ```
//!
//! Two traps. The search may miss later runs: that it finds none proves nothing. And a loan that
//! the scramble wrote has no client that would ever give the lock back. After each stretch or pass
//! of a run, the experiment gives the lock back in that client's name, since a network without a
//! lease would otherwise wait for ever.
#![tactic(auto)]

mod climbing;
mod delay;
mod giving_back;
pub mod laws;
mod layered_run;
mod layers_seen;
mod measured_run;
mod plan;
mod play;
mod summary;
mod trial;
mod watch;

pub use climbing::{Search, SlowRun, climb};
pub use delay::{Delay, replay};
pub use layered_run::{Settling, measure_layers};
pub use layers::Layers;
pub use measured_run::{Recovery, Scheduler, measure_run};
pub use plan::{Order, PlanFault, give_plan};
pub use schedules::{Chances, EventSink};
pub use summary::{ThreeNumberSummary, summary_of};
pub use watch::ServiceWatch;
