//! What a judge keeps of the links in an unfinished stretch of a run.
ghost use Rattle.std.specs.Prelude.{◌≡◌, ◌↔◌, ◌+◌, ◌-◌, ◌*◌, ◌^◌, ◌<◌, ℕ, min, length, replicate};
ghost use Rattle.std.specs.Prelude.{IfOk, IsTrue};
ghost use Rattle.topology.specs.Network.{IsAcceptedNetwork, are_joined};
ghost use Rattle.configuration.specs.data_link.Sweep.{Takes, Loses};
ghost use Rattle.configuration.specs.run_model.World.{at_pair};
ghost use Rattle.configuration.specs.PairTable.{value_at};
ghost use Rattle.judge.specs.Tallies.{has_place, tally_of, tally_after, missing, no_tally};
ghost use Rattle.judge.specs.Laid.{IsLaid};

use configuration::PairTable;
use std::alloc::{AllocError, Allocator, Global};
use std::marker::Model;
use topology::{Net, laws as topology_laws};

/// What is known about one link in a stretch: how many of the items that were there when the
/// stretch began are still there (they are the oldest), and whether an item that was sent inside
/// the stretch was taken.
#[derive(Clone, Copy, Debug, PartialEq, Eq)]
pub struct Tally {
    /// The number of old items, 0 to 4096.
    pub old: u16,
    /// Whether an item that was sent inside the stretch was taken.
    pub renewed: bool,
}

impl Tally {
    /// 1 if the link is not renewed, else 0.
    fn missing(self) -> usize
        ensures { result ≡ missing self }
    {
        if self.renewed { 0 } else { 1 }
    }

    /// The tally after a take from the link: the item is an old one while there is any, else one
    /// that was sent inside the stretch.
    pub(crate) fn taken(self) -> Tally
        ensures { result ≡ tally_after Takes 1 self }
    {
        if self.old > 0 {
            Tally {
                old: self.old - 1,
                ..self
            }
        } else {
            Tally {
                renewed: true,
                ..self
            }
        }
    }

    /// The tally after the loss of the item at this index of the link; 0 is the oldest.
    pub(crate) fn lost(self, index: u16) -> Tally
        ensures { result ≡ tally_after (Loses index) 0 self }
    {
        if index < self.old {
            Tally {
                old: self.old - 1,
                ..self
            }
        } else {
            self
        }
    }
}

/// Clears all tallies: no link is left to renew.
fn forget<A: Allocator>(tallies: &mut Vec<Tally, A>)
    ensures { tallies.new.items ≡ replicate (length tallies.old.items) no_tally }
{
    let _known_all = tallies.as_slice();
    tallies.fill(Tally {
        old: 0,
        renewed: true,
    });
}

/// Gives the links of a network the places from 1 on, two for each edge, edge by edge. Pairs
/// without an edge have the place 0.
fn lay_all<A: Allocator, N: Allocator + Copy>(table: &mut PairTable<A>, net: &Net<N>)
    requires { table.old.nodes ≡ net.now.nodes }
    ensures network { IsAcceptedNetwork net.now }
    // Each link has its own place, after the first.
    ensures laid { IsLaid net.now.nodes (are_joined net.now.edges) table.new
        (2 * length net.now.edges + 1) }
{
    topology_laws::joined();
    let _known_nodes = net.nodes();
    table.clear();
    let mut place = 1;
    for edge in net.edges() {
        table.set(edge.0, edge.1, place);
        table.set(edge.1, edge.0, place + 1);
        place += 2;
    }
}

/// The number of tallies: one each way for the most edges of a network, and the first.
const MOST_TALLIES: usize = 513;

/// The tallies of all links of a network: one each way for each edge, close together, after one
/// that stands for all pairs without an edge. Only `get` and `set` reach a tally, and each call of
/// them is counted.
#[derive(Drop)]
pub struct Tallies<A: Allocator = Global> {
    table: PairTable<A>,
    places: Vec<Tally, A>,
    unrenewed: usize,
    looked: u32,
}

impl<A: Allocator> Model for Tallies<A> {
    ghost use Rattle.judge.specs.Tallies.{TalliesView, IsTallied};

    ghost Value = { TalliesView };

    ghost view = { λ t. record { table = t.table; places = t.places.items; looked = t.looked } };

    ghost invariant = { λ t. IsTallied t.table t.places.items t.unrenewed };
}

impl<A: Allocator + Copy> Tallies<A> {
    /// Tallies for the links of a network, with none left to renew. Reserves all memory.
    pub fn new<N: Allocator + Copy>(alloc: A, net: &Net<N>) -> Result<Tallies<A>, AllocError>
        ensures nodes { IfOk result (λ t. t.table.nodes ≡ net.now.nodes) }
        // Each link has its own tally.
        ensures placed { IfOk result (λ t. (u v : ℕ) → IsTrue (are_joined net.now.edges u v)
            → IsTrue (has_place t.table u v)) }
        // Nothing is left to renew, on a link or elsewhere.
        ensures empty { IfOk result (λ t. (u v : ℕ) → tally_of t u v ≡ no_tally) }
        ensures looked { IfOk result (λ t. t.looked ≡ 0) }
    {
        topology_laws::joined();
        let mut table = PairTable::new(alloc, net.nodes())?;
        lay_all(&mut table, net);
        let none = Tally {
            old: 0,
            renewed: true,
        };
        Ok(Tallies {
            table,
            places: vec![in alloc; none; MOST_TALLIES]?,
            unrenewed: 0,
            looked: 0,
        })
    }
}

impl<A: Allocator> Tallies<A> {
    /// How many nodes there are.
    pub fn nodes(&self) -> u16
        ensures { result ≡ self.now.table.nodes }
    {
        self.table.nodes()
    }

    /// The place of the tally of the link from one node to another.
    fn place(&self, from: u16, to: u16) -> usize
        requires from_in { from < self.now.table.nodes }
        requires to_in { to < self.now.table.nodes }
        ensures place { result ≡ value_at self.now.table from to }
        ensures there { result < length self.now.places }
    {
        usize::from(self.table.get(from, to))
    }

    /// The tally of a link.
    #[inline(always)]
    pub fn get(&mut self, from: u16, to: u16) -> Tally
        requires from_in { from < self.old.table.nodes }
        requires to_in { to < self.old.table.nodes }
        ensures tally { result ≡ tally_of self.old from to }
        // The look is counted, up to the greatest number of 32 bits.
        ensures looked { self.new
            ≡ record self.old { looked = min (self.old.looked + 1) (2 ^ 32 - 1) } }
    {
        self.looked = self.looked.saturating_add(1);
        let place = self.place(from, to);
        self.places[place]
    }

    /// Writes the tally of a link that has a place.
    #[inline(always)]
    pub fn set(&mut self, from: u16, to: u16, tally: Tally)
        requires from_in { from < self.old.table.nodes }
        requires to_in { to < self.old.table.nodes }
        requires placed { IsTrue (has_place self.old.table from to) }
        ensures table { self.new.table ≡ self.old.table }
        // No other link's tally changes.
        ensures tallies { (u v : ℕ) → v < self.old.table.nodes
            → tally_of self.new u v ≡ at_pair (tally_of self.old) from to tally u v }
        // The look is counted, up to the greatest number of 32 bits.
        ensures looked { self.new.looked ≡ min (self.old.looked + 1) (2 ^ 32 - 1) }
    {
        self.looked = self.looked.saturating_add(1);
        let place = self.place(from, to);
        let before = self.places[place];
        self.unrenewed = self.unrenewed - before.missing() + tally.missing();
        self.places[place] = tally;
    }

    /// Whether every link is renewed.
    pub fn are_renewed(&self) -> bool
        // For all pairs of nodes: pairs without a link lack nothing.
        ensures { IsTrue result ↔ ((u v : ℕ) → u < self.now.table.nodes → v < self.now.table.nodes
            → IsTrue (tally_of self.now u v).renewed) }
    {
        self.unrenewed == 0
    }

    /// Lays the tallies out again for the edges of a network, with none left to renew: new edges
    /// have their own, and no tally of a removed edge is left. Takes no memory.
    pub fn lay<N: Allocator + Copy>(&mut self, net: &Net<N>)
        requires { self.old.table.nodes ≡ net.now.nodes }
        ensures nodes { self.new.table.nodes ≡ net.now.nodes }
        // Each link of the network has its own tally.
        ensures placed { (u v : ℕ) → IsTrue (are_joined net.now.edges u v)
            → IsTrue (has_place self.new.table u v) }
        // Nothing is left to renew, on a link or elsewhere.
        ensures empty { (u v : ℕ) → tally_of self.new u v ≡ no_tally }
    {
        topology_laws::joined();
        lay_all(&mut self.table, net);
        forget(&mut self.places);
        self.unrenewed = 0;
    }

    /// How many tallies were looked at since the count was cleared.
    pub fn count(&self) -> u32
        ensures { result ≡ self.now.looked }
    {
        self.looked
    }

    /// Sets the count to 0.
    pub fn clear_count(&mut self)
        ensures { self.new ≡ record self.old { looked = 0 } }
    {
        self.looked = 0;
    }
}
