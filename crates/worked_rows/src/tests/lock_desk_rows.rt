//! A desk from its first ticket to its last; with memory refused; and client lines in pieces of
//! any size.
use super::least_heap::least_heap;
use linked_list_allocator::LocalHeap;
use lock_desk::{AskFault, ClientLine, ClientReader, Desk, DeskAct, OutOfRange, Stranger};
use std::alloc::{Allocator, Global};
use std::test::Fail;
use test_parts::{as_expected, is_expected, on_full, on_heap};

/// What is done to a desk, and what it answers.
#[derive(Clone, Copy)]
enum Deed<'a> {
    Asks(u16, Result<(), AskFault>),
    /// Each ticket below 64 asks, and is accepted.
    AllAsk,
    Leaves(u16, Result<(), Stranger>),
    /// A tick, with or without the privilege.
    Ticks(bool, DeskAct),
    /// A hundred ticks with the privilege, all of them quiet.
    StaysQuiet,
    /// A loan is written: its ticket, its ticks left, and whether the desk has served.
    LoanIsSet((Option<u16>, u16, bool), Result<(), OutOfRange>),
    QueueIsSet(&'a [u16], Result<(), OutOfRange>),
    /// No act: this is the loan.
    HasLoan((Option<u16>, u16, bool)),
    /// No act: these tickets wait.
    HasQueue(&'a [u16]),
    /// No act: this many tickets wait.
    Waits(usize),
    /// No act: this is the lease.
    HasLease(u16),
}

use Deed::{
    AllAsk, Asks, HasLease, HasLoan, HasQueue, Leaves, LoanIsSet, QueueIsSet, StaysQuiet, Ticks,
    Waits,
};

/// Whether each ticket below 64 is accepted.
fn all_are_taken<A: Allocator + Copy>(desk: &mut Desk<A>) -> bool {
    for ticket in 0..64 {
        if desk.ask(ticket).is_err() {
            return false;
        }
    }
    true
}

/// Whether a hundred ticks with the privilege do nothing.
fn stays_quiet<A: Allocator + Copy>(desk: &mut Desk<A>) -> bool {
    for _ in 0..100 {
        if desk.tick(true) != DeskAct::Quiet {
            return false;
        }
    }
    true
}

/// Does this, and returns whether the desk answers like this.
fn answers_so<A: Allocator + Copy>(desk: &mut Desk<A>, deed: &Deed<'_>) -> bool {
    match *deed {
        Asks(ticket, want) => desk.ask(ticket) == want,
        AllAsk => all_are_taken(desk),
        Leaves(ticket, want) => desk.leave(ticket) == want,
        Ticks(privileged, want) => desk.tick(privileged) == want,
        StaysQuiet => stays_quiet(desk),
        LoanIsSet((lent, left, served), want) => desk.set_loan(lent, left, served) == want,
        QueueIsSet(tickets, want) => desk.set_waiting(tickets) == want,
        HasLoan(want) => (desk.lent(), desk.left(), desk.served()) == want,
        HasQueue(want) => desk.tickets() == want && desk.waiting() == want.len(),
        Waits(want) => desk.waiting() == want,
        HasLease(want) => desk.lease() == want,
    }
}

/// The place of the first deed that the desk answers differently.
fn first_wrong<A: Allocator + Copy>(desk: &mut Desk<A>, deeds: &[Deed<'_>]) -> Option<usize> {
    for (at, deed) in deeds.iter().enumerate() {
        if !answers_so(desk, deed) {
            return Some(at);
        }
    }
    None
}

/// The place of the first deed that a new desk with this lease answers differently.
fn first_wrong_of(alloc: Global, lease: u16, deeds: &[Deed<'_>]) -> Result<Option<usize>, Fail> {
    let mut desk = Desk::new(alloc, lease)?;
    Ok(first_wrong(&mut desk, deeds))
}

/// The queue is full, and has room again.
const SIXTY_FOUR: [Deed<'static>; 10] = [
    AllAsk,
    Waits(64),
    Asks(64, Err(AskFault::Full)),
    Asks(5, Err(AskFault::Full)),
    Leaves(5, Ok(())),
    Leaves(5, Err(Stranger)),
    Asks(6, Err(AskFault::Twice)),
    Asks(5, Ok(())),
    Ticks(true, DeskAct::Granted(0)),
    Asks(0, Err(AskFault::Twice)),
];

#[test]
fn sixty_four_wait_and_no_more(rt: HostRuntime) -> Result<(), Fail> {
    as_expected(first_wrong_of(rt.alloc(), 0, &SIXTY_FOUR), &None)
}

/// A loan with a lease of one tick.
const ONE_TICK: [Deed<'static>; 7] = [
    Asks(1, Ok(())),
    Ticks(true, DeskAct::Granted(1)),
    HasLoan((Some(1), 1, false)),
    Ticks(true, DeskAct::Quiet),
    HasLoan((Some(1), 0, false)),
    Ticks(true, DeskAct::Lost(1)),
    HasLoan((None, 0, false)),
];

#[test]
fn a_lease_of_one_tick_ends_in_the_third(rt: HostRuntime) -> Result<(), Fail> {
    as_expected(first_wrong_of(rt.alloc(), 1, &ONE_TICK), &None)
}

/// A loan without a lease, and the next one.
const NO_LEASE: [Deed<'static>; 9] = [
    HasLease(0),
    Asks(8, Ok(())),
    Asks(9, Ok(())),
    Ticks(false, DeskAct::Quiet),
    Ticks(true, DeskAct::Granted(8)),
    StaysQuiet,
    Ticks(false, DeskAct::Lost(8)),
    HasQueue(&[9]),
    Ticks(true, DeskAct::Granted(9)),
];

#[test]
fn a_loan_without_lease_ends_with_the_privilege(rt: HostRuntime) -> Result<(), Fail> {
    as_expected(first_wrong_of(rt.alloc(), 0, &NO_LEASE), &None)
}

/// Two loans, with a quiet tick between them.
const TWO_LOANS: [Deed<'static>; 11] = [
    Asks(1, Ok(())),
    Asks(2, Ok(())),
    Ticks(true, DeskAct::Granted(1)),
    Leaves(3, Err(Stranger)),
    Leaves(1, Ok(())),
    HasLoan((None, 0, true)),
    HasQueue(&[2]),
    Ticks(true, DeskAct::Quiet),
    HasLoan((None, 0, false)),
    HasQueue(&[2]),
    Ticks(true, DeskAct::Granted(2)),
];

#[test]
fn the_token_leaves_before_the_second_loan(rt: HostRuntime) -> Result<(), Fail> {
    as_expected(first_wrong_of(rt.alloc(), 0, &TWO_LOANS), &None)
}

/// Loans are written to a desk with a lease of three ticks.
const WRITTEN_LOANS: [Deed<'static>; 9] = [
    Asks(4, Ok(())),
    LoanIsSet((Some(4), 0, false), Err(OutOfRange)),
    LoanIsSet((Some(5), 4, false), Err(OutOfRange)),
    LoanIsSet((None, 1, false), Err(OutOfRange)),
    HasLoan((None, 0, false)),
    LoanIsSet((Some(5), 3, true), Ok(())),
    HasLoan((Some(5), 3, true)),
    LoanIsSet((None, 0, true), Ok(())),
    HasLoan((None, 0, true)),
];

#[test]
fn a_loan_is_written_if_it_fits(rt: HostRuntime) -> Result<(), Fail> {
    as_expected(first_wrong_of(rt.alloc(), 3, &WRITTEN_LOANS), &None)
}

/// Queues are written to a desk that lends to ticket 5.
const WRITTEN_QUEUES: [Deed<'static>; 9] = [
    LoanIsSet((Some(5), 0, false), Ok(())),
    QueueIsSet(&[3, 1, 2], Ok(())),
    QueueIsSet(&[3, 1, 3], Err(OutOfRange)),
    QueueIsSet(&[3, 5], Err(OutOfRange)),
    QueueIsSet(&[0; 65], Err(OutOfRange)),
    HasQueue(&[3, 1, 2]),
    Leaves(5, Ok(())),
    Ticks(true, DeskAct::Quiet),
    Ticks(true, DeskAct::Granted(3)),
];

#[test]
fn a_queue_is_written_if_it_fits(rt: HostRuntime) -> Result<(), Fail> {
    as_expected(first_wrong_of(rt.alloc(), 0, &WRITTEN_QUEUES), &None)
}

/// A desk is full and lends.
const USE: [Deed<'static>; 3] = [AllAsk, Ticks(true, DeskAct::Granted(0)), Leaves(1, Ok(()))];

/// Whether a desk answers each of these deeds right, and takes nothing more of its heap for them.
/// None if the heap has no room for it.
fn is_used(heap: &LocalHeap) -> Option<bool> {
    let Ok(mut desk) = Desk::new(heap, 2) else {
        return None;
    };
    let used = heap.used();
    let wrong = first_wrong(&mut desk, &USE);
    Some(wrong.is_none() && heap.used() == used)
}

#[test]
fn memory_is_refused_once_and_then_needed_no_more(rt: HostRuntime) -> Result<(), Fail> {
    let (units, is_so) = least_heap(rt.alloc(), |heap| Ok(is_used(heap)))?;
    is_expected(&(is_so && units > 1 && units < 100), &true)
}

/// Each kind of deed, with a full queue at first.
const WITHOUT_MEMORY: [Deed<'static>; 12] = [
    AllAsk,
    Asks(64, Err(AskFault::Full)),
    Ticks(true, DeskAct::Granted(0)),
    Leaves(0, Ok(())),
    Leaves(63, Ok(())),
    Asks(63, Ok(())),
    Ticks(true, DeskAct::Quiet),
    QueueIsSet(&[9; 2], Err(OutOfRange)),
    QueueIsSet(&[3, 1, 2], Ok(())),
    LoanIsSet((Some(5), 1, false), Ok(())),
    Ticks(false, DeskAct::Lost(5)),
    HasQueue(&[3, 1, 2]),
];

/// The place of the first deed that a desk answers differently on a heap with nothing left, and how
/// much the heap had left.
fn first_wrong_on_full(alloc: Global, heap: &LocalHeap) -> Result<(Option<usize>, usize), Fail> {
    let mut desk = Desk::new(heap, 2)?;
    on_full(alloc, heap, || first_wrong(&mut desk, &WITHOUT_MEMORY))
}

#[test]
fn a_desk_takes_no_memory(rt: HostRuntime) -> Result<(), Fail> {
    as_expected(
        on_heap(rt.alloc(), 4096, first_wrong_on_full),
        &((None, 0), 0),
    )
}

/// Bytes, and the answers of a new reader.
const CLIENT_LINES: [(&[u8], &[ClientLine]); 11] = [
    (b"lock\n", &[ClientLine::Lock]),
    (b"unlock\n", &[ClientLine::Unlock]),
    (b"status\n", &[ClientLine::Status]),
    (b"Lock\n", &[ClientLine::Unknown]),
    (b"lock \n", &[ClientLine::Unknown]),
    (b"loc\n", &[ClientLine::Unknown]),
    (b"\n", &[ClientLine::Unknown]),
    (b"lock\r\n", &[ClientLine::Unknown]),
    (
        b"xxxxxxxxxxxxxxxxx\nlock\n",
        &[ClientLine::Unknown, ClientLine::Lock],
    ),
    (
        b"xxxxxxxxxxxxxlock\nlock\n",
        &[ClientLine::Unknown, ClientLine::Lock],
    ),
    (b"lock", &[]),
];

/// Whether a new reader answers exactly these lines to these bytes.
fn is_read_as(bytes: &[u8], want: &[ClientLine]) -> bool {
    let mut reader = ClientReader::new();
    let mut rest = want;
    for byte in bytes {
        if let Some(line) = reader.push(*byte) {
            match rest.split_first() {
                Some((first, others)) if *first == line => rest = others,
                _ => return false,
            }
        }
    }
    rest.is_empty()
}

/// The place of the first row whose bytes are read differently.
fn first_misread(rows: &[(&[u8], &[ClientLine])]) -> Option<usize> {
    for (at, (bytes, want)) in rows.iter().enumerate() {
        if !is_read_as(bytes, want) {
            return Some(at);
        }
    }
    None
}

#[test]
fn client_lines_are_matched_byte_for_byte() -> Result<(), Fail> {
    is_expected(&first_misread(&CLIENT_LINES), &None)
}
