//! The laws of a node's account, each the contract of a function that does nothing; and those laws
//! of its parts (its tree step, its desk, its edges) that the crates above cite.
ghost use Rattle.node_core.specs.Laws.{AccountsJoin, OneEnd, FramesJoin};

pub use bfs_tree::laws::step_in_range;
pub use data_link::laws::{payloads, ports, six_sweeps, stays_stable, sweeps, turns_stable};
pub use euler_ring::laws::{round_a_node, the_tour, true_view};
pub use lock_desk::laws::{
    loans_need_privilege, one_loan_a_stay, only_ticks_lend, ranges_are_kept,
    waiting_tickets_are_served,
};

/// Two accounts of a node with the same neighbours, the second from where the first led, are one
/// account. It says of each neighbour what the first says and then what the second says. An account
/// leads to one state alone. So the accounts of many turns can be strung together into one, if the
/// neighbours stay the same.
pub fn accounts()
    ensures join { AccountsJoin }
    ensures one_end { OneEnd }
    ensures frames { FramesJoin }
{}
