//! The laws of a run from any state.
//!
//! A law is a function that does nothing; its contract is what is proved. A proof about a world
//! calls it and cites its clauses. Their statements are in `Rattle.convergence.specs.Laws` and
//! `Rattle.judge.specs.run_model.Headline`:
//!
//! - `converge`, convergence: from every world in range, over every list of events without damage,
//!   links are stable after 4(C + 1) sweeps; from then on, at the end of any three sweeps, all that
//!   is staged and copied is what its node would have said at some moment of them; the tree is
//!   reached 4(n + 1) sweeps after the links are stable; the token ring is good after R - 1 sweeps,
//!   and after R the world is legitimate. So it serves: each distance is the least length of a walk
//!   to the root, each parent is the true one, at most one node is privileged, and at most one
//!   lends.
//! - `sharp`, the same after 16(n - 1) + 4e + 15 sweeps, e being the greatest distance of a node:
//!   links are stable after 6 sweeps, and the tree is reached after 4(e + 2) more.
//! - `service`: from a legitimate world in range, over every list of events without damage, each
//!   node is privileged at some moment of any 16(n - 1) sweeps, and a ticket that waits after i
//!   others, and does not leave while it waits, is lent the lock within 8(n - 1)(i + 2) sweeps.
//! - `closure`, closure: over every list of events without damage a legitimate world in range stays
//!   legitimate, and every legitimate world in range serves.
//!
//! The trap: no law claims that sweeps occur. A sweep needs a full tick of each node, so none ends
//! while a client holds the lock.

pub use convergence::laws::{closure, converge, service, sharp};
