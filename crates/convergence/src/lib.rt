//! Self-stabilisation: from every state the lock comes to serve, and then always serves.
//!
//! Over any list of events without damage (losses, asks, leaves and refused events are not damage),
//! sweeps repair one layer after the other: the links become stable, the tree is reached, the token
//! ring becomes good, and each node that lends is privileged. Then the world is legitimate and
//! stays so: each node has its shortest distance and its true parent, and at most one node holds
//! the privilege and lends the lock.
//!
//! The token ring is Dijkstra's K-state machines on a tree, laid along its Euler tour. On a
//! *settled* world (in range, every link stable, the tree reached) each event without damage is a
//! run of changes of the copying ring in which its head moves at most once. So the ring becomes
//! *good*, after moves of the head or after sweeps, and stays good; and on a good ring at most one
//! node is privileged. A world is *legitimate* if every link is stable, the tree is reached, its
//! ring is good, and each node that lends is privileged. That it is in range is not part of this:
//! the laws ask for it apart.
//!
//! Nothing is computed here, and nothing is claimed about time: not that sweeps occur, only what
//! holds once they have. The laws are contracts of functions without parameters. A proof about a
//! running program calls `laws::closure` and `laws::converge` and cites their clauses. `ring_laws`
//! has the laws of the ring; read its definitions in `specs/` in the order Ring, Legs, Settled,
//! Legitimate, Moves, RingLaws, RingService.
//!
//! The traps: a sweep needs a *full* tick of each node, a tick after which it lends to nobody;
//! while a client holds the lock, no sweep ends. And the ring has three places for each step of
//! the tour (a machine's value, the staged one and the copied one), so it needs 6(n - 1) + 1
//! values, not one for each machine.
//!
//! Sources: E. W. Dijkstra, Self-stabilizing systems in spite of distributed control, 1974; S.
//! Dolev, A. Israeli, S. Moran, Self-stabilization of dynamic systems assuming only read/write
//! atomicity, 1993; S. Dolev, Self-Stabilization, 2000.
#![tactic(auto)]

pub mod laws;
pub mod ring_laws;
