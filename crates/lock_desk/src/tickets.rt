//! Lists of tickets.
ghost use Rattle.std.specs.Prelude.{◌≡◌, ◌≤◌, length};
ghost use Rattle.std.specs.Vec.{vec_capacity};
ghost use Rattle.lock_desk.specs.Desk.{without, are_distinct, may_be_lent};
ghost use Rattle.lock_desk.specs.Queue.{queue_fits};

use std::alloc::Allocator;

/// The tickets that can wait at a desk.
pub const PLACES: usize = 64;

/// Takes the ticket out of the list.
pub fn take_out<A: Allocator>(tickets: &mut Vec<u16, A>, ticket: u16)
    ensures rest { tickets.new.items ≡ without ticket tickets.old.items }
    ensures room { vec_capacity tickets.new ≡ vec_capacity tickets.old }
{
    tickets.retain(move |waiting| *waiting != ticket)
}

/// Whether these tickets may wait while the lock is lent as `lent` says.
pub fn queue_fits(tickets: &[u16], lent: Option<u16>) -> bool
    ensures { result ≡ queue_fits tickets.now lent }
{
    tickets.len() <= PLACES && are_distinct(tickets) && may_be_lent(tickets, lent)
}

/// Whether the lock may be lent as `lent` says while these tickets wait.
pub fn may_be_lent(tickets: &[u16], lent: Option<u16>) -> bool
    ensures { result ≡ may_be_lent tickets.now lent }
{
    match lent {
        Some(ticket) => !tickets.contains(&ticket),
        None => true,
    }
}

/// Whether no ticket appears twice in the list.
fn are_distinct(tickets: &[u16]) -> bool
    ensures { result ≡ are_distinct tickets.now }
{
    for (i, ticket) in tickets.iter().enumerate() {
        if tickets[i + 1..].contains(ticket) {
            return false;
        }
    }
    true
}

/// Replaces the tickets of the list by these.
pub fn write_over<A: Allocator>(list: &mut Vec<u16, A>, tickets: &[u16])
    requires { length tickets.now ≤ vec_capacity list.old }
    ensures tickets { list.new.items ≡ tickets.now }
    ensures room { vec_capacity list.new ≡ vec_capacity list.old }
{
    list.clear();
    for ticket in tickets {
        list.push_reserved(*ticket);
    }
}
