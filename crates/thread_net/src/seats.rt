//! Nodes take their seats as runners, and leave them again.
ghost use Rattle.std.specs.Prelude.{◌≡◌, ◌+◌, ◌*◌, ◌^◌, ◌<◌, ◌≤◌, ℕ, List, [], length, map, All};
ghost use Rattle.std.specs.Prelude.{IfOk, OnOk};
ghost use Rattle.std.specs.Prelude.{vec_len, vec_capacity, slice_index_or};
ghost use Rattle.judge.specs.node_core.View.{site_in};
ghost use Rattle.thread_net.specs.Cables.{rows_of, row, seats_of};
ghost use Rattle.node_runner.specs.weaving.Journals.{entries_in};
ghost use Rattle.thread_net.specs.Seats.{nodes_of, entries_of_all, IsNew, entry_room, HasRoom};
ghost use Rattle.thread_net.specs.Seats.{total_room, AreShort};
ghost use Rattle.thread_net.specs.Tables.{rows_in, AreEmptySeats};

use judge::Node;
use node_runner::{Journal, Runner, RunnerPort};
use std::alloc::{AllocError, Allocator};

/// The parts of runners, each in a table of its own.
#[derive(Drop)]
pub(crate) struct RunnerSeats<A: Allocator> {
    pub(crate) nodes: Vec<Node<A>, A>,
    pub(crate) journals: Vec<Journal<A>, A>,
    pub(crate) rows: Vec<Vec<RunnerPort<A>, A>, A>,
}

/// Empty tables for the parts of this many runners.
pub(crate) fn new_seats<A: Allocator + Copy>(
    alloc: A,
    count: usize,
) -> Result<RunnerSeats<A>, AllocError>
    ensures { IfOk result (AreEmptySeats count) }
{
    Ok(RunnerSeats {
        nodes: Vec::with_capacity(alloc, count)?,
        journals: Vec::with_capacity(alloc, count)?,
        rows: Vec::with_capacity(alloc, count)?,
    })
}

/// The most entries of a node's journal: one a turn, and three more for each neighbour.
pub(crate) fn entry_room(turns: u32, neighbours: usize) -> usize
    requires { neighbours ≤ 64 }
    ensures room { result ≡ entry_room turns neighbours }
    ensures few { result ≤ 193 * 2 ^ 32 }
{
    turns as usize * (1 + 3 * neighbours)
}

/// Makes each node a runner, without a port or an entry, its clock at 0.
pub(crate) fn seat_all<A: Allocator + Copy>(
    alloc: A,
    nodes: Vec<Node<A>, A>,
    runners: &mut Vec<Runner<A>, A>,
)
    requires empty { runners.old.items ≡ [] }
    requires room { vec_len nodes ≤ vec_capacity runners.old }
    ensures nodes { nodes_of runners.new.items ≡ nodes.items }
    ensures new { All IsNew (seats_of runners.new.items) }
    ensures rows { (x : ℕ) → row (rows_of runners.new.items) x ≡ [] }
    ensures all { length runners.new.items ≡ vec_len nodes }
{
    for node in nodes {
        let id = node.id();
        runners.push_reserved(Runner {
            id,
            node,
            ports: Vec::new(alloc),
            clock: 0,
            journal: Journal {
                entries: Vec::new(alloc),
            },
        });
    }
}

/// Reserves the journal of each runner. Returns how many entries there may be in all of them.
pub(crate) fn reserve_journals<A: Allocator + Copy>(
    alloc: A,
    turns: u32,
    runners: &mut Vec<Runner<A>, A>,
) -> Result<usize, AllocError>
    requires few { length runners.old.items ≤ 64 }
    requires short { AreShort (nodes_of runners.old.items) }
    requires new { All IsNew (seats_of runners.old.items) }
    ensures nodes { nodes_of runners.new.items ≡ nodes_of runners.old.items }
    ensures rows { rows_of runners.new.items ≡ rows_of runners.old.items }
    ensures new { All IsNew (seats_of runners.new.items) }
    ensures all { length runners.new.items ≡ length runners.old.items }
    ensures room { OnOk result (All (HasRoom turns) (seats_of runners.new.items)) }
    ensures total { IfOk result (λ total.
        total ≡ total_room turns (nodes_of runners.old.items)) }
{
    let mut total = 0;
    for place in 0..runners.len() {
        let room = entry_room(turns, runners[place].node.neighbours().len());
        let entries = Vec::with_capacity(alloc, room)?;
        runners[place].journal = Journal { entries };
        total += room;
    }
    Ok(total)
}

/// Moves the runners' parts to the tables.
pub(crate) fn unseat_all<A: Allocator>(runners: Vec<Runner<A>, A>, seats: &mut RunnerSeats<A>)
    requires { AreEmptySeats (vec_len runners) seats.old }
    ensures nodes { seats.new.nodes.items ≡ nodes_of runners.items }
    ensures journals { entries_in seats.new.journals.items ≡ entries_of_all runners.items }
    ensures rows { rows_in seats.new.rows.items ≡ rows_of runners.items }
    ensures all_journals { length seats.new.journals.items ≡ length runners.items }
    ensures all_rows { length seats.new.rows.items ≡ length runners.items }
{
    for runner in runners {
        let Runner {
            id: _,
            node,
            ports,
            clock: _,
            journal,
        } = runner;
        seats.nodes.push_reserved(node);
        seats.journals.push_reserved(journal);
        seats.rows.push_reserved(ports);
    }
}
