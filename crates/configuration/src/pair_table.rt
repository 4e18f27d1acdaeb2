//! A table of numbers by two nodes' ids.
ghost use Rattle.std.specs.Prelude.{◌≡◌, ◌*◌, ◌<◌, ℕ, IfOk, length, replicate};
ghost use Rattle.run_model.specs.World.{at_pair};
ghost use Rattle.configuration.specs.PairTable.{place_of, value_at};

use std::alloc::{AllocError, Allocator, Global};
use std::marker::Model;

/// A table with a number for each pair of nodes: a place in a dense list.
#[derive(Drop)]
pub struct PairTable<A: Allocator = Global> {
    nodes: u16,
    values: Vec<u16, A>,
}

impl<A: Allocator> Model for PairTable<A> {
    ghost use Rattle.std.specs.Prelude.{◌≡◌, ◌*◌, length};
    ghost use Rattle.configuration.specs.PairTable.{PairTableView};

    ghost Value = { PairTableView };

    ghost view = { λ t. record { nodes = t.nodes; values = t.values.items } };

    ghost invariant = { λ t. length t.values.items ≡ t.nodes * t.nodes };
}

/// Writes 0 at every place.
fn write_zeros<A: Allocator>(values: &mut Vec<u16, A>)
    ensures { values.new.items ≡ replicate (length values.old.items) 0 }
{
    let _known_all = values.as_slice();
    values.fill(0);
}

impl<A: Allocator + Copy> PairTable<A> {
    /// A table for this many nodes, with 0 for each pair. Reserves all memory.
    pub fn new(alloc: A, nodes: u16) -> Result<PairTable<A>, AllocError>
        ensures nodes { IfOk result (λ table. table.nodes ≡ nodes) }
        ensures zeros { IfOk result (λ table. (u v : ℕ) → value_at table u v ≡ 0) }
    {
        let count = usize::from(nodes) * usize::from(nodes);
        Ok(PairTable {
            nodes,
            values: vec![in alloc; 0; count]?,
        })
    }
}

impl<A: Allocator> PairTable<A> {
    /// How many nodes there are.
    pub fn nodes(&self) -> u16
        ensures { result ≡ self.now.nodes }
    {
        self.nodes
    }

    /// The place of the number of two nodes.
    fn place(&self, first: u16, second: u16) -> usize
        requires first { first < self.now.nodes }
        requires second { second < self.now.nodes }
        ensures place { result ≡ place_of self.now.nodes first second }
        ensures there { result < length self.now.values }
    {
        usize::from(first) * usize::from(self.nodes) + usize::from(second)
    }

    /// The number of two nodes, in this order.
    pub fn get(&self, first: u16, second: u16) -> u16
        requires first { first < self.now.nodes }
        requires second { second < self.now.nodes }
        ensures { result ≡ value_at self.now first second }
    {
        self.values[self.place(first, second)]
    }

    /// Writes the number of two nodes, in this order; every other pair keeps its own.
    pub fn set(&mut self, first: u16, second: u16, value: u16)
        requires first { first < self.old.nodes }
        requires second { second < self.old.nodes }
        ensures nodes { self.new.nodes ≡ self.old.nodes }
        // No other pair's number changes.
        ensures values { (u v : ℕ) → v < self.old.nodes
            → value_at self.new u v ≡ at_pair (value_at self.old) first second value u v }
    {
        let place = self.place(first, second);
        self.values[place] = value;
    }

    /// Sets all numbers to 0.
    pub fn clear(&mut self)
        ensures nodes { self.new.nodes ≡ self.old.nodes }
        ensures zeros { (u v : ℕ) → value_at self.new u v ≡ 0 }
    {
        write_zeros(&mut self.values);
    }

    /// Exchanges the numbers of two pairs; every other pair keeps its own.
    pub fn swap(&mut self, one: (u16, u16), other: (u16, u16))
        requires one { (one.0 < self.old.nodes) × (one.1 < self.old.nodes) }
        requires other { (other.0 < self.old.nodes) × (other.1 < self.old.nodes) }
        ensures nodes { self.new.nodes ≡ self.old.nodes }
        // Each has the number that the other had, and no other pair changes.
        ensures values { (u v : ℕ) → v < self.old.nodes → value_at self.new u v
            ≡ at_pair (at_pair (value_at self.old) one.0 one.1 (value_at self.old other.0 other.1))
            other.0 other.1 (value_at self.old one.0 one.1) u v }
    {
        let first = self.get(one.0, one.1);
        let second = self.get(other.0, other.1);
        self.set(one.0, one.1, second);
        self.set(other.0, other.1, first);
    }
}
