//! Nodes that run over connections in memory: their turns, their clients, their failures and their
//! restarts, with every expected value computed by hand; and replays of what they did in their turns.
//!
//! In a replay, three or five nodes run in any order, with clients that ask, leave and vanish, and
//! connections that break at any call. The accounts of the nodes make events, which lead a world to
//! the same nodes, turn for turn. A seed says which node turns when, what clients do, and at which
//! calls connections break. Connections that go wrong on purpose show that the replay can fail.
//!
//! There are only tests here, since testing a crate proves all of that crate once more.
#![tactic(auto)]

#[cfg(test)]
mod tests;
