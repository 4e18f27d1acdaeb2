//! Schedules: orders in which the nodes and links of a network do their part, as lists of events.
//!
//! What a self-stabilising system does depends on who moves when. A schedule by *rounds* is the
//! plainest fair one: in each round every node ticks once, and every link carries one item more
//! than it holds. Whether a run is fair is otherwise an assumption; of this schedule it is a law
//! that a round is a sweep if each tick is full (`laws::rounds`), so the theorem on sweeps says
//! what it leads to.
//!
//! Another is the *random* one: each step is drawn from a seeded generator, so the same seed gives
//! the same events on any machine. It can lose items, and have clients that ask and leave.
//!
//! In a third kind a link or a node is *slow*: the rounds are as before, but it has its part only
//! in a share of them. This shows what a single laggard costs. These rounds hold sweeps as well, if
//! no client waits and no node lends (`laws::slow_rounds`).
//!
//! The events go to an [`EventSink`], one by one; no list of them is kept:
//!
//! ```
//! give_rounds(&net, 100, &mut sink)?;
//! let mut generator = Lcg64Xsh32::seed_from_u64(7);
//! let chances = Chances { loss: 10, clients: true };
//! give_random(&mut configuration, chances, 5000, &mut generator, &mut sink)?;
//! let slow = slow_link(&net, &generator);
//! for round in 0..100 {
//!     give_slow_round(&net, slow, 25, round, &mut sink)?; // it carries its items in 25 of these
//! }
//! ```
//!
//! The trap: a round is a sweep only if each tick is full. The tick of a node that lends the lock
//! after it is not full, for example if a client keeps the lock and there is no lease.
//!
//! Sources: S. Dolev, Self-Stabilization, MIT Press 2000 (rounds of fair executions); J. Bresenham,
//! Algorithm for computer control of a digital plotter, IBM Systems Journal 4, 1965 (the rounds of a
//! share, spread as evenly as can be).
#![tactic(auto)]

mod by_rounds;
mod draws;
mod event_sink;
pub mod laws;
mod random;
mod slow;

pub use by_rounds::{give_round, give_rounds};
pub use damage_tool::{junk_line, scramble_node, scramble_world};
pub use event_sink::EventSink;
pub use random::{Chances, draw_step, give_random, next_step};
pub use slow::{Slow, give_slow_round, has_part, slow_link, slow_node};
