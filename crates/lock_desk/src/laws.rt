//! Laws of a desk, each the contract of a function that does nothing. The proofs above a desk rely
//! on these alone.
ghost use Rattle.lock_desk.specs.Laws.{LoansNeedPrivilege, OnlyTicksLend, LoansAreNotExchanged};
ghost use Rattle.lock_desk.specs.Laws.{OneLoanAStay, PassesOnlyServed, FullTicksClear};
ghost use Rattle.lock_desk.specs.Laws.{FirstComeFirstServed, TicksKeepRanges, AsksKeepRanges};
ghost use Rattle.lock_desk.specs.Laws.{LeavesKeepRanges, LoansKeepRanges};

/// A loan begins in a tick, or outlasts one, only with privilege. So after a tick without privilege
/// a desk lends to nobody. The proof that a legitimate network stays legitimate needs this.
pub fn loans_need_privilege()
    ensures { LoansNeedPrivilege }
{}

/// No ask begins a loan, and no leave does. So of asks, leaves and ticks, only a tick can begin
/// one: a proof that follows how loans begin need not consider the other two.
pub fn only_ticks_lend()
    ensures { OnlyTicksLend }
{}

/// One tick never ends a loan and begins another, so an act names each loan that a tick began or
/// ended.
pub fn loans_are_not_exchanged()
    ensures { LoansAreNotExchanged }
{}

/// Once a desk lends or has served, no ask, leave or tick begins a loan until a full tick is over.
/// So between two full ticks they begin at most one. A full tick clears `served`.
pub fn one_loan_a_stay()
    ensures kept_off { OneLoanAStay }
    ensures cleared { FullTicksClear }
{}

/// Privilege passes a waiting ticket only if the desk is marked as having served, which damage may
/// have written, or ended a loan in that very tick; and tickets are served in the order in which they wait. The proof that counts the sweeps
/// until a ticket is served needs both.
pub fn waiting_tickets_are_served()
    ensures passes { PassesOnlyServed }
    ensures in_turn { FirstComeFirstServed }
{}

/// A desk in range stays in range: in a tick, if a ticket asks and is not refused, if one leaves,
/// and if a loan that fits is written. In range, at most 64 distinct tickets wait, none of them
/// borrows, and what is left of a loan is at most the lease.
pub fn ranges_are_kept()
    ensures ticks { TicksKeepRanges }
    ensures asks { AsksKeepRanges }
    ensures leaves { LeavesKeepRanges }
    ensures writes { LoansKeepRanges }
{}
