//! What a judge keeps of the unfinished stretch of a run.
ghost use Rattle.std.specs.Prelude.{◌≡◌, ◌↔◌, ◌+◌, ◌-◌, ◌^◌, ◌<◌, ◌≤◌, ◌==◌, ◌&&◌, ℕ, not, min};
ghost use Rattle.std.specs.Prelude.{nat_lt, IfOk};
ghost use Rattle.std.specs.Prelude.{IsTrue};
ghost use Rattle.configuration.specs.data_link.Sweep.{Takes, Loses};
ghost use Rattle.topology.specs.Network.{are_joined};
ghost use Rattle.configuration.specs.run_model.World.{at_pair};
ghost use Rattle.judge.specs.Tallies.{has_place, no_tally, tally_of, tally_after, tally_happened};
ghost use Rattle.judge.specs.Stretch.{has_bit, is_full_tick_of, names_below, names_place};
ghost use Rattle.judge.specs.Stretch.{IsComplete, with_looks};

use crate::tallies::{Tallies, Tally};
use configuration::Happened;
use std::alloc::{AllocError, Allocator, Global};
use std::marker::Model;
use topology::Net;

/// The mask of all nodes below this number.
fn all_nodes(nodes: u16) -> u64
    requires some { 0 < nodes }
    requires few { nodes ≤ 64 }
    ensures { (v : ℕ) → has_bit result v ≡ nat_lt v nodes }
{
    u64::MAX >> (64 - nodes)
}

/// The mask without the bit of a node.
fn without(mask: u64, node: u16) -> u64
    requires { node < 64 }
    ensures { (v : ℕ) → has_bit result v ≡ (has_bit mask v && not (v == node)) }
{
    mask & !(1 << node)
}

/// The nodes that still lack a full tick, and the tallies of the links.
#[derive(Drop)]
pub struct Stretch<A: Allocator = Global> {
    lacking: u64,
    tallies: Tallies<A>,
}

impl<A: Allocator> Model for Stretch<A> {
    ghost use Rattle.judge.specs.Stretch.{StretchView};

    ghost Value = { StretchView };

    ghost view = { λ s. record { lacking = s.lacking; tallies = s.tallies } };
}

impl<A: Allocator + Copy> Stretch<A> {
    /// Room for the stretches of a network. Reserves all memory.
    pub(crate) fn new<N: Allocator + Copy>(alloc: A, net: &Net<N>) -> Result<Stretch<A>, AllocError>
        ensures nodes { IfOk result (λ s. s.tallies.table.nodes ≡ net.now.nodes) }
        ensures placed { IfOk result (λ s. (u v : ℕ) → IsTrue (are_joined net.now.edges u v)
            → IsTrue (has_place s.tallies.table u v)) }
        ensures empty { IfOk result (λ s. (u v : ℕ) → tally_of s.tallies u v ≡ no_tally) }
    {
        Ok(Stretch {
            lacking: 0,
            tallies: Tallies::new(alloc, net)?,
        })
    }
}

impl<A: Allocator> Stretch<A> {
    /// Notes that the oldest item of a link was taken.
    #[inline(always)]
    fn take(&mut self, from: u16, to: u16)
        requires from_in { from < self.old.tallies.table.nodes }
        requires to_in { to < self.old.tallies.table.nodes }
        requires placed { IsTrue (has_place self.old.tallies.table from to) }
        ensures lacking { self.new.lacking ≡ self.old.lacking }
        ensures table { self.new.tallies.table ≡ self.old.tallies.table }
        ensures tallies { (u v : ℕ) → v < self.old.tallies.table.nodes
            → tally_of self.new.tallies u v
            ≡ at_pair (tally_of self.old.tallies) from to
            (tally_after Takes 1 (tally_of self.old.tallies from to)) u v }
        ensures looked { self.new.tallies.looked ≤ self.old.tallies.looked + 2 }
    {
        let tally = self.tallies.get(from, to);
        self.tallies.set(from, to, tally.taken());
    }

    /// Notes that an item of a link was lost.
    fn lose(&mut self, from: u16, to: u16, item: u16)
        requires from_in { from < self.old.tallies.table.nodes }
        requires to_in { to < self.old.tallies.table.nodes }
        requires placed { IsTrue (has_place self.old.tallies.table from to) }
        ensures lacking { self.new.lacking ≡ self.old.lacking }
        ensures table { self.new.tallies.table ≡ self.old.tallies.table }
        ensures tallies { (u v : ℕ) → v < self.old.tallies.table.nodes
            → tally_of self.new.tallies u v
            ≡ at_pair (tally_of self.old.tallies) from to
            (tally_after (Loses item) 0 (tally_of self.old.tallies from to)) u v }
        ensures looked { self.new.tallies.looked ≤ self.old.tallies.looked + 2 }
    {
        let tally = self.tallies.get(from, to);
        self.tallies.set(from, to, tally.lost(item));
    }

    /// Notes what an event did, unless it was damage.
    #[inline(always)]
    pub(crate) fn note(&mut self, happened: &Happened)
        requires few { self.old.tallies.table.nodes ≤ 64 }
        requires nodes { IsTrue (names_below self.old.tallies.table.nodes happened.now) }
        requires placed { IsTrue (names_place self.old.tallies.table happened.now) }
        ensures table { self.new.tallies.table ≡ self.old.tallies.table }
        ensures lacking { (v : ℕ)
            → has_bit self.new.lacking v
            ≡ (has_bit self.old.lacking v && not (is_full_tick_of v happened.now)) }
        ensures tallies { (u v : ℕ) → v < self.old.tallies.table.nodes
            → tally_of self.new.tallies u v
            ≡ tally_happened u v happened.now (tally_of self.old.tallies u v) }
        // Reads and writes at most one tally.
        ensures looked { self.new.tallies.looked ≤ self.old.tallies.looked + 2 }
    {
        match *happened {
            Happened::FullTick { node } => self.lacking = without(self.lacking, node),
            Happened::Taken { from, to } => self.take(from, to),
            Happened::Lost { from, to, item } => self.lose(from, to, item),
            _ => {}
        }
    }

    /// Starts over: every node lacks a full tick. The caller must then begin the tally of each
    /// link.
    pub(crate) fn begin(&mut self)
        requires some { 0 < self.old.tallies.table.nodes }
        requires few { self.old.tallies.table.nodes ≤ 64 }
        ensures lacking { (v : ℕ)
            → has_bit self.new.lacking v ≡ nat_lt v self.old.tallies.table.nodes }
        ensures tallies { self.new.tallies ≡ self.old.tallies }
    {
        self.lacking = all_nodes(self.tallies.nodes());
    }

    /// Lays out room for the present edges of a network, with no link left to renew. The caller
    /// must then begin the tally of each link.
    #[inline(never)]
    pub(crate) fn lay<N: Allocator + Copy>(&mut self, net: &Net<N>)
        requires { self.old.tallies.table.nodes ≡ net.now.nodes }
        ensures nodes { self.new.tallies.table.nodes ≡ net.now.nodes }
        ensures placed { (u v : ℕ) → IsTrue (are_joined net.now.edges u v)
            → IsTrue (has_place self.new.tallies.table u v) }
        ensures empty { (u v : ℕ) → tally_of self.new.tallies u v ≡ no_tally }
    {
        self.tallies.lay(net);
    }

    /// Restarts the tally of a link.
    pub(crate) fn begin_link(&mut self, from: u16, to: u16, tally: Tally)
        requires from_in { from < self.old.tallies.table.nodes }
        requires to_in { to < self.old.tallies.table.nodes }
        requires placed { IsTrue (has_place self.old.tallies.table from to) }
        ensures lacking { self.new.lacking ≡ self.old.lacking }
        ensures table { self.new.tallies.table ≡ self.old.tallies.table }
        ensures tallies { (u v : ℕ) → v < self.old.tallies.table.nodes
            → tally_of self.new.tallies u v
            ≡ at_pair (tally_of self.old.tallies) from to tally u v }
    {
        self.tallies.set(from, to, tally);
    }

    /// The nodes that still lack a full tick. Bit v stands for node v.
    pub(crate) fn lacking(&self) -> u64
        ensures { result ≡ self.now.lacking }
    {
        self.lacking
    }

    /// The tally of a link. The look is counted.
    pub(crate) fn tally(&mut self, from: u16, to: u16) -> Tally
        requires from_in { from < self.old.tallies.table.nodes }
        requires to_in { to < self.old.tallies.table.nodes }
        ensures tally { result ≡ tally_of self.old.tallies from to }
        // Only the count of looks changes.
        ensures looked { self.new
            ≡ with_looks self.old (min (self.old.tallies.looked + 1) (2 ^ 32 - 1)) }
    {
        self.tallies.get(from, to)
    }

    /// Whether no node lacks a full tick and every link is renewed.
    pub(crate) fn is_complete(&self) -> bool
        ensures { IsTrue result ↔ IsComplete self.now }
    {
        self.lacking == 0 && self.tallies.are_renewed()
    }

    /// How many tallies were looked at since the count was cleared.
    pub(crate) fn looked(&self) -> u32
        ensures { result ≡ self.now.tallies.looked }
    {
        self.tallies.count()
    }

    /// Sets the count of looks to 0.
    pub(crate) fn clear_looked(&mut self)
        ensures { self.new ≡ record self.old { tallies = record self.old.tallies { looked = 0 } } }
    {
        self.tallies.clear_count();
    }
}
