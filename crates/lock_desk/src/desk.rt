//! The desk of one node.
ghost use Rattle.std.specs.Prelude.{◌≡◌, false, true, None, Some, IsTrue, IfErr, IfOk, OnErr, OnOk};
ghost use Rattle.std.specs.Prelude.{length, ◌≤◌};
ghost use Rattle.lock_desk.specs.Desk.{DeskState, no_desk, desk_fits, waits, ask_fault, asked};
ghost use Rattle.lock_desk.specs.Desk.{is_stranger, after_leave, desk_ticked, ended};
ghost use Rattle.lock_desk.specs.Desk.{loan_looked_at, loan_begun, loan_fits, with_loan};
ghost use Rattle.lock_desk.specs.Act.{desk_act};
ghost use Rattle.lock_desk.specs.View.{DeskView};
ghost use Rattle.lock_desk.specs.Queue.{queue_fits, with_queue};

use crate::tickets::{PLACES, may_be_lent, queue_fits, take_out, write_over};
use crate::{AskFault, DeskAct, OutOfRange, Stranger};
use std::alloc::{AllocError, Allocator, Global};
use std::marker::Model;

/// The tickets that wait for the lock at one node, and the loan of the lock to another ticket.
#[derive(Drop)]
pub struct Desk<A: Allocator = Global> {
    lease: u16,
    waiting: Vec<u16, A>,
    lent: Option<u16>,
    left: u16,
    served: bool,
}

impl<A: Allocator> Model for Desk<A> {
    ghost use Rattle.std.specs.Prelude.{◌≤◌, IsTrue};
    ghost use Rattle.std.specs.Vec.{vec_capacity};
    ghost use Rattle.lock_desk.specs.Desk.{desk_fits};
    ghost use Rattle.lock_desk.specs.View.{DeskView};

    ghost Value = { DeskView };

    ghost view = { λ d. record {
      lease = d.lease;
      state = record { waiting = d.waiting.items; lent = d.lent; left = d.left; served = d.served };
    } };

    ghost invariant = { λ d. (64 ≤ vec_capacity d.waiting)
        × IsTrue (desk_fits d.lease
        (record { waiting = d.waiting.items; lent = d.lent; left = d.left; served = d.served })) };
}

impl<A: Allocator> Desk<A> {
    /// A desk at which nobody has asked, with loans of this many ticks; 0 means no limit. All
    /// places are reserved here.
    ///
    /// # Errors
    /// If memory runs out.
    pub fn new(alloc: A, lease: u16) -> Result<Desk<A>, AllocError>
        ensures { IfOk result (λ desk. desk ≡ record { lease = lease; state = no_desk }) }
    {
        let waiting = Vec::with_capacity(alloc, PLACES)?;
        Ok(Desk {
            lease,
            waiting,
            lent: None,
            left: 0,
            served: false,
        })
    }

    /// How many ticks a loan is for; 0 means no limit.
    pub fn lease(&self) -> u16
        ensures lease { result ≡ self.now.lease }
        ensures fits { IsTrue (desk_fits self.now.lease self.now.state) }
    {
        self.lease
    }

    /// The ticket that the lock is lent to.
    pub fn lent(&self) -> Option<u16>
        ensures { result ≡ self.now.state.lent }
    {
        self.lent
    }

    /// How many tickets wait, at most 64.
    pub fn waiting(&self) -> usize
        ensures number { result ≡ length self.now.state.waiting }
        ensures within { result ≤ 64 }
    {
        self.waiting.len()
    }

    /// The tickets that wait, the next one first.
    pub fn tickets(&self) -> &[u16]
        ensures { result.now ≡ self.now.state.waiting }
    {
        self.waiting.as_slice()
    }

    /// How many more ticks the loan outlasts at most if there is a lease; 0 if there is no loan.
    pub fn left(&self) -> u16
        ensures { result ≡ self.now.state.left }
    {
        self.left
    }

    /// Whether the desk is marked as one whose loan ended since the last full tick.
    pub fn served(&self) -> bool
        ensures { result ≡ self.now.state.served }
    {
        self.served
    }

    /// Whether the ticket waits.
    fn waits(&self, ticket: u16) -> bool
        ensures { result ≡ waits self.now.state ticket }
    {
        self.waiting.contains(&ticket)
    }

    /// Puts the ticket after all others that wait. Refused as `Full` if 64 tickets wait, whichever
    /// they are, and otherwise as `Twice` if this one waits or the lock is lent to it. If it is
    /// refused, nothing changes.
    pub fn ask(&mut self, ticket: u16) -> Result<(), AskFault>
        // It is accepted exactly if nothing forbids it; else the first fault is reported.
        ensures accepted { OnOk result (ask_fault ticket self.old.state ≡ None) }
        ensures asked { OnOk result (self.new
            ≡ record self.old { state = asked ticket self.old.state }) }
        ensures refused { IfErr result (λ fault. ask_fault ticket self.old.state ≡ Some fault) }
        ensures unchanged { OnErr result (self.new ≡ self.old) }
    {
        if self.waiting() >= PLACES {
            return Err(AskFault::Full);
        }
        if self.waits(ticket) || self.lent == Some(ticket) {
            return Err(AskFault::Twice);
        }
        self.waiting.push_reserved(ticket);
        Ok(())
    }

    /// Takes the ticket out of those that wait, or ends its loan. Refused if it neither waits nor
    /// borrows; then nothing changes.
    pub fn leave(&mut self, ticket: u16) -> Result<(), Stranger>
        ensures gone { OnOk result (self.new
            ≡ record self.old { state = after_leave ticket self.old.state }) }
        // A ticket is refused exactly if it is a stranger: it neither waits nor borrows.
        ensures known { OnOk result (is_stranger ticket self.old.state ≡ false) }
        ensures refused { OnErr result (is_stranger ticket self.old.state ≡ true) }
        ensures unchanged { OnErr result (self.new ≡ self.old) }
    {
        if self.waits(ticket) {
            take_out(&mut self.waiting, ticket);
            Ok(())
        } else if self.lent == Some(ticket) {
            self.end_loan();
            Ok(())
        } else {
            Err(Stranger)
        }
    }

    /// Ends the loan.
    fn end_loan(&mut self)
        ensures { self.new ≡ record self.old { state = ended self.old.state } }
    {
        self.lent = None;
        self.left = 0;
        self.served = true;
    }

    /// Does what a tick of the node does at its desk, in this order. A loan ends if the node has no
    /// privilege or the lease has run out; otherwise, if there is a lease, it has one tick less
    /// left. If the node is privileged, lends to nobody, has not served and somebody waits, the
    /// first who waits borrows. If it now lends to nobody, `served` is cleared: the tick is a full
    /// one, and the node's machines may move.
    pub fn tick(&mut self, privileged: bool) -> DeskAct
        ensures ticked { self.new
            ≡ record self.old { state = desk_ticked self.old.lease privileged self.old.state } }
        // What the tick did to the loan is seen from the states before and after it.
        ensures act { result ≡ desk_act self.old.state self.new.state }
    {
        let before = self.lent;
        self.look_at_loan(privileged);
        self.begin_loan(privileged);
        if self.lent.is_none() {
            self.served = false;
        }
        match (before, self.lent) {
            (None, Some(ticket)) => DeskAct::Granted(ticket),
            (Some(ticket), None) => DeskAct::Lost(ticket),
            _ => DeskAct::Quiet,
        }
    }

    /// Ends the loan, or counts one of its ticks.
    fn look_at_loan(&mut self, privileged: bool)
        ensures { self.new
            ≡ record self.old { state = loan_looked_at privileged self.old.lease self.old.state } }
    {
        if self.lent.is_none() {
            return;
        }
        if !privileged || (self.lease > 0 && self.left == 0) {
            self.end_loan();
        } else if self.lease > 0 {
            self.left -= 1;
        }
    }

    /// Lends the lock to the first who waits, if a loan is due.
    fn begin_loan(&mut self, privileged: bool)
        ensures { self.new
            ≡ record self.old { state = loan_begun privileged self.old.lease self.old.state } }
    {
        if privileged && self.lent.is_none() && !self.served && !self.waiting.is_empty() {
            self.lent = Some(self.waiting.remove(0));
            self.left = self.lease;
        }
    }

    /// Writes a loan. Refused if its ticket waits, if more is left than the lease, or if anything
    /// is left without a loan; then nothing changes.
    pub fn set_loan(&mut self, lent: Option<u16>, left: u16, served: bool) -> Result<(), OutOfRange>
        ensures written { OnOk result (self.new
            ≡ record self.old { state = with_loan self.old.state lent left served }) }
        // It is written exactly if the desk may hold it.
        ensures fits { OnOk result (IsTrue (loan_fits self.old.lease self.old.state lent left)) }
        ensures refused { OnErr result (loan_fits self.old.lease self.old.state lent left ≡ false) }
        ensures unchanged { OnErr result (self.new ≡ self.old) }
    {
        if !may_be_lent(&self.waiting, lent) || left > self.lease || (lent.is_none() && left > 0) {
            return Err(OutOfRange);
        }
        self.lent = lent;
        self.left = left;
        self.served = served;
        Ok(())
    }

    /// Replaces the tickets that wait by these, the next one first. Refused if there are more than
    /// 64, if one appears twice, or if one of them borrows; then nothing changes.
    pub fn set_waiting(&mut self, tickets: &[u16]) -> Result<(), OutOfRange>
        ensures written { OnOk result (self.new
            ≡ record self.old { state = with_queue self.old.state tickets.now }) }
        // It is written exactly if the desk may hold it.
        ensures fits { OnOk result (IsTrue (queue_fits tickets.now self.old.state.lent)) }
        ensures refused { OnErr result (queue_fits tickets.now self.old.state.lent ≡ false) }
        ensures unchanged { OnErr result (self.new ≡ self.old) }
    {
        if !queue_fits(tickets, self.lent) {
            return Err(OutOfRange);
        }
        write_over(&mut self.waiting, tickets);
        Ok(())
    }
}
