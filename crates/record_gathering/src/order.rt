//! Which of the next entries of all records comes next.
ghost use Rattle.std.specs.Prelude.{◌≡◌, option_map};
ghost use Rattle.configuration.specs.ConfigurationView.{world_of};
ghost use Rattle.record_gathering.specs.Order.{is_sent, rank, is_no_later, head_of, IsNext};
ghost use Rattle.record_gathering.specs.Firsts.{earlier, with_head};

use crate::entries::is_ready;
use configuration::Configuration;
use flight_records::{Deed, Entry, Noted};
use std::alloc::Allocator;

/// Whether what is noted is a frame that a link accepted.
fn is_sent(noted: &Noted) -> bool
    ensures { result ≡ is_sent noted.now }
{
    matches!(noted, Noted::Deed(Deed::Sends { .. }))
}

/// The rank of an entry, the lowest of which comes first: 0 for an entry that is ready, 1 for a
/// frame that was sent on a link that is full, and 2 for a frame that was taken and is not under
/// way.
fn rank<A: Allocator + Copy>(world: &Configuration<A>, node: u16, entry: &Entry) -> u8
    ensures { result ≡ rank (world_of world.now) node entry.now }
{
    if is_ready(world, node, &entry.noted) {
        0
    } else if is_sent(&entry.noted) {
        1
    } else {
        2
    }
}

/// Whether a rank and an instant are no later than another rank and instant.
fn is_no_later(rank: u8, instant: u64, other: u8, later: u64) -> bool
    ensures { result ≡ is_no_later rank instant other later }
{
    rank < other || (rank == other && instant <= later)
}

/// The node whose next entry comes first among those of the nodes so far.
#[derive(Clone, Copy)]
struct First {
    node: u16,
    rank: u8,
    instant: u64,
}

/// The node whose entry comes next. `heads` are the next entries of all nodes' records, by node.
/// None if all records are read to their ends.
pub fn next_node<A: Allocator + Copy>(
    world: &Configuration<A>,
    heads: &[Option<Entry>],
) -> Option<u16>
    ensures { IsNext (world_of world.now) heads.now (world_of world.now).net.nodes result }
{
    let mut first: Option<First> = None;
    for node in 0..world.net().nodes() {
        first = with_head(world, node, head_of(heads, node), first);
    }
    node_of(first)
}

/// The next entry of a node's record.
fn head_of(heads: &[Option<Entry>], node: u16) -> Option<Entry>
    ensures { result ≡ head_of heads.now node }
{
    heads.get(usize::from(node)).copied().unwrap_or(None)
}

/// The earlier of two: the first among the nodes before this one, and this node with its next
/// entry.
fn with_head<A: Allocator + Copy>(
    world: &Configuration<A>,
    node: u16,
    head: Option<Entry>,
    first: Option<First>,
) -> Option<First>
    ensures { result ≡ with_head (world_of world.now) node head first }
{
    let Some(entry) = head else {
        return first;
    };
    let turn = First {
        node,
        rank: rank(world, node, &entry),
        instant: entry.instant,
    };
    Some(earlier(first, turn))
}

/// The node of the first, if there is one.
fn node_of(first: Option<First>) -> Option<u16>
    ensures { result ≡ option_map (λ f. f.node) first }
{
    first.map(|first| first.node)
}

/// The earlier of two, of which the first may be none.
fn earlier(first: Option<First>, turn: First) -> First
    ensures { result ≡ earlier first turn }
{
    match first {
        Some(first) if is_no_later(first.rank, first.instant, turn.rank, turn.instant) => first,
        _ => turn,
    }
}
