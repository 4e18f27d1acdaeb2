//! The links of a network, with what is under way on them.
ghost use Rattle.std.specs.Prelude.{◌≡◌, ◌↔◌, ◌+◌, ◌-◌, ◌*◌, ◌<◌, ℕ, ◌≤◌, ◌++◌, List, [], ◌∷◌};
ghost use Rattle.std.specs.Prelude.{if◌then◌else◌, nat_lt, IsTrue, IfOk, IfErr, IsOk, OnOk, OnErr};
ghost use Rattle.std.specs.Prelude.{IfSome, Some, None, length, remove, take, drop, slice_get};
ghost use Rattle.std.specs.Prelude.{slice_index_or};
ghost use Rattle.std.specs.Vec.{vec_capacity};
ghost use Rattle.topology.specs.Tree.{is_connected};
ghost use Rattle.topology.specs.Change.{join_fault};
ghost use Rattle.topology.specs.Network.{IsAcceptedNetwork, are_joined, joined_net, parted_net};
ghost use Rattle.topology.specs.declared.fault.NetFault.TheVariants.{Apart};
ghost use Rattle.topology.specs.Ranges.{ranges_of};
ghost use Rattle.run_model.specs.World.{item_fits, at_pair};
ghost use Rattle.run_model.specs.link_model.Link.{LinkView};
ghost use Rattle.configuration.specs.Placed.{ArePlaced, AreStocked};
ghost use Rattle.configuration.specs.LinksView.{IsLinks, spare_pairs, under_way};
ghost use Rattle.configuration.specs.PairTable.{value_at};

use crate::pair_table::PairTable;
use run_model::{Item, Link, NoItem};
use std::alloc::{AllocError, Allocator, Global};
use std::marker::Model;
use topology::{Net, NetFault};

/// The links of a network: one each way for each edge, close together, after a first link without
/// places, which stands for all pairs without an edge. There are also spare pairs of links, each
/// for one more edge.
#[derive(Drop)]
pub struct Links<A: Allocator + Copy = Global> {
    net: Net<A>,
    places: PairTable<A>,
    links: Vec<Link<A>, A>,
    /// The places of the spare links.
    spares: Vec<u16, A>,
}

impl<A: Allocator + Copy> Model for Links<A> {
    ghost use Rattle.std.specs.Prelude.{◌≤◌, length};
    ghost use Rattle.std.specs.Vec.{vec_capacity};
    ghost use Rattle.configuration.specs.LinksView.{LinksView, IsLinks};

    ghost Value = { LinksView };

    ghost view = { λ l. record
        { net = l.net; places = l.places; links = l.links.items; spares = l.spares.items } };

    ghost invariant = { λ l. IsLinks
        (record { net = l.net; places = l.places; links = l.links.items; spares = l.spares.items })
        × (length l.links.items ≤ vec_capacity l.spares) };
}

/// How many links there are: two for each edge, and two for each spare pair.
fn link_count<A: Allocator + Copy>(net: &Net<A>, pairs: u16) -> u16
    requires { pairs ≤ 256 }
    ensures count { result ≡ 2 * (length net.now.edges + pairs) }
    ensures few { result ≤ 1024 }
{
    let _known_nodes = net.nodes();
    2 * (net.edges().len() as u16 + pairs)
}

/// Empty links, after one without places, and the list of their places, all of them spare. The list
/// has room for the places of all links.
fn stock<A: Allocator + Copy>(
    alloc: A,
    capacity: usize,
    count: u16,
) -> Result<(Vec<Link<A>, A>, Vec<u16, A>), AllocError>
    requires few { count < 65535 }
    // Every link is empty and spare, except the one at place 0.
    ensures stocked { IfOk result (λ made. AreStocked capacity count made.0.items made.1.items) }
    // Giving a place back takes no memory.
    ensures room { IfOk result (λ made. count + 1 ≤ vec_capacity made.1) }
{
    let mut links = Vec::new(alloc);
    let mut spares = Vec::with_capacity(alloc, usize::from(count) + 1)?;
    links.push(Link::new(alloc, 0)?)?;
    for place in 0..count {
        links.push(Link::new(alloc, capacity)?)?;
        spares.push_reserved(place + 1);
    }
    Ok((links, spares))
}

/// Lays a spare link from one node to another.
fn lay<A: Allocator>(places: &mut PairTable<A>, spares: &mut Vec<u16, A>, from: u16, to: u16)
    requires from_in { from < places.old.nodes }
    requires to_in { to < places.old.nodes }
    requires some { 0 < length spares.old.items }
    ensures nodes { places.new.nodes ≡ places.old.nodes }
    // The link has the last spare place; every other pair keeps its own.
    ensures values { (u v : ℕ) → v < places.old.nodes → value_at places.new u v
        ≡ at_pair (value_at places.old) from to
        (slice_index_or spares.old.items (length spares.old.items - 1) 0) u v }
    ensures spares { spares.new.items ≡ take (length spares.old.items - 1) spares.old.items }
    ensures capacity { vec_capacity spares.new ≡ vec_capacity spares.old }
{
    if let Some(place) = spares.pop() {
        places.set(from, to, place);
    }
}

/// Makes the link from one node to another spare again.
fn give_back<A: Allocator>(places: &mut PairTable<A>, spares: &mut Vec<u16, A>, from: u16, to: u16)
    requires from_in { from < places.old.nodes }
    requires to_in { to < places.old.nodes }
    requires room { length spares.old.items < vec_capacity spares.old }
    ensures nodes { places.new.nodes ≡ places.old.nodes }
    ensures values { (u v : ℕ) → v < places.old.nodes → value_at places.new u v
        ≡ at_pair (value_at places.old) from to 0 u v }
    ensures spares { spares.new.items ≡ spares.old.items ++ value_at places.old from to ∷ [] }
    ensures capacity { vec_capacity spares.new ≡ vec_capacity spares.old }
{
    spares.push_reserved(places.get(from, to));
    places.set(from, to, 0);
}

/// Lays the links of a network from the spare ones, of which there must be enough, and returns
/// their places.
fn lay_all<A: Allocator + Copy, N: Allocator + Copy>(
    alloc: A,
    net: &Net<N>,
    spares: &mut Vec<u16, A>,
) -> Result<PairTable<A>, AllocError>
    requires enough { 2 * length net.now.edges ≤ length spares.old.items }
    ensures network { IsAcceptedNetwork net.now }
    // Each link of an edge has its own place, for any links in stock.
    ensures laid { IfOk result (λ places. (links : List LinkView)
        → AreStocked net.now.capacity (length spares.old.items) links spares.old.items
        → ArePlaced net.now (are_joined net.now.edges) places links spares.new.items) }
    ensures left { OnOk result
        (length spares.new.items + 2 * length net.now.edges ≡ length spares.old.items) }
    ensures capacity { OnOk result (vec_capacity spares.new ≡ vec_capacity spares.old) }
{
    let mut places = PairTable::new(alloc, net.nodes())?;
    for edge in net.edges() {
        lay(&mut places, spares, edge.0, edge.1);
        lay(&mut places, spares, edge.1, edge.0);
    }
    Ok(places)
}

impl<A: Allocator + Copy> Links<A> {
    /// Empty links of a network, which is copied, and `pairs` spare pairs of links, at most 256.
    /// Reserves all places.
    pub fn with_spares<N: Allocator + Copy>(
        alloc: A,
        net: &Net<N>,
        pairs: u16,
    ) -> Result<Links<A>, AllocError>
        requires few { pairs ≤ 256 }
        ensures net { IfOk result (λ links. links.net ≡ net.now) }
        ensures spares { IfOk result (λ links. spare_pairs links ≡ pairs) }
        // Nothing is under way between any two nodes.
        ensures empty { IfOk result (λ links. under_way links ≡ λ u v. []) }
    {
        let net = net.copy(alloc)?;
        let count = link_count(&net, pairs);
        let (links, mut spares) = stock(alloc, usize::from(net.capacity()), count)?;
        let places = lay_all(alloc, &net, &mut spares)?;
        Ok(Links {
            net,
            places,
            links,
            spares,
        })
    }

    /// The network.
    pub fn net(&self) -> &Net<A>
        ensures net { result.now ≡ self.now.net }
        // All that holds for links: places of their own, capacities, items in range.
        ensures links { IsLinks self.now }
    {
        &self.net
    }

    /// How many pairs of links are spare.
    pub fn spares(&self) -> usize
        ensures { result ≡ spare_pairs self.now }
    {
        self.spares.len() / 2
    }

    /// The place of the link from one node to another.
    fn place(&self, from: u16, to: u16) -> usize
        requires from_in { from < self.now.net.nodes }
        requires to_in { to < self.now.net.nodes }
        ensures place { result ≡ value_at self.now.places from to }
        ensures there { result < length self.now.links }
    {
        usize::from(self.places.get(from, to))
    }

    /// Whether an edge joins the two nodes.
    pub fn are_joined(&self, from: u16, to: u16) -> bool
        requires from_in { from < self.now.net.nodes }
        requires to_in { to < self.now.net.nodes }
        ensures { result ≡ are_joined self.now.net.edges from to }
    {
        let place = self.place(from, to);
        self.links[place].capacity() != 0
    }

    /// Puts an item at the end of a link; on a full link it is lost.
    pub fn put(&mut self, from: u16, to: u16, item: Item)
        requires from_in { from < self.old.net.nodes }
        requires to_in { to < self.old.net.nodes }
        requires joined { IsTrue (are_joined self.old.net.edges from to) }
        requires fits { IsTrue (item_fits (ranges_of self.old.net) item) }
        ensures net { self.new.net ≡ self.old.net }
        ensures spares { self.new.spares ≡ self.old.spares }
        // On a full link the item is lost.
        ensures put { under_way self.new
            ≡ (if nat_lt (length (under_way self.old from to)) self.old.net.capacity
            then at_pair (under_way self.old) from to (under_way self.old from to ++ item ∷ [])
            else under_way self.old) }
    {
        let place = self.place(from, to);
        let _lost = self.links[place].put(item);
    }

    /// How many items are under way on a link.
    pub fn len(&self, from: u16, to: u16) -> usize
        requires from_in { from < self.now.net.nodes }
        requires to_in { to < self.now.net.nodes }
        ensures items { result ≡ length (under_way self.now from to) }
        // 4096 is the greatest capacity.
        ensures few { result ≤ 4096 }
    {
        let place = self.place(from, to);
        self.links[place].len()
    }

    /// The item at an index of a link, 0 being the oldest.
    pub fn get(&self, from: u16, to: u16, index: usize) -> Item
        requires from_in { from < self.now.net.nodes }
        requires to_in { to < self.now.net.nodes }
        requires there { index < length (under_way self.now from to) }
        ensures { slice_get (under_way self.now from to) index ≡ Some result }
    {
        let place = self.place(from, to);
        *self.links[place].get(index)
    }

    /// Takes the oldest item of a link.
    pub fn take(&mut self, from: u16, to: u16) -> Option<Item>
        requires from_in { from < self.old.net.nodes }
        requires to_in { to < self.old.net.nodes }
        ensures net { self.new.net ≡ self.old.net }
        ensures spares { self.new.spares ≡ self.old.spares }
        ensures taken { result ≡ slice_get (under_way self.old from to) 0 }
        ensures rest { under_way self.new
            ≡ at_pair (under_way self.old) from to (drop 1 (under_way self.old from to)) }
        // What is under way is in range.
        ensures fits { IfSome result (λ item. IsTrue (item_fits (ranges_of self.old.net) item)) }
    {
        let place = self.place(from, to);
        self.links[place].take()
    }

    /// Loses the item at an index of a link, 0 being the oldest.
    pub fn lose(&mut self, from: u16, to: u16, index: usize) -> Result<(), NoItem>
        requires from_in { from < self.old.net.nodes }
        requires to_in { to < self.old.net.nodes }
        // There is an item to lose exactly if the index is below the number of items.
        ensures variant { IsOk result ↔ (index < length (under_way self.old from to)) }
        ensures net { self.new.net ≡ self.old.net }
        ensures spares { self.new.spares ≡ self.old.spares }
        // The others keep their order, and no other link changes.
        ensures ok { OnOk result (under_way self.new
            ≡ at_pair (under_way self.old) from to (remove (under_way self.old from to) index)) }
        ensures no_item { OnErr result (under_way self.new ≡ under_way self.old) }
    {
        let place = self.place(from, to);
        self.links[place].lose(index)
    }

    /// Loses every item of a link.
    pub fn clear(&mut self, from: u16, to: u16)
        requires from_in { from < self.old.net.nodes }
        requires to_in { to < self.old.net.nodes }
        ensures net { self.new.net ≡ self.old.net }
        ensures spares { self.new.spares ≡ self.old.spares }
        // No other link changes.
        ensures empty { under_way self.new ≡ at_pair (under_way self.old) from to [] }
    {
        let place = self.place(from, to);
        self.links[place].clear();
    }

    /// Joins two nodes by an edge, with the two empty links of a spare pair. Takes no memory.
    pub fn join(&mut self, u: u16, v: u16)
        // The two are different nodes that no edge joins, and there are fewer edges than a network
        // may have.
        requires allowed { join_fault self.old.net u v ≡ None }
        requires spare { 0 < spare_pairs self.old }
        ensures net { self.new.net ≡ joined_net self.old.net u v }
        ensures spares { spare_pairs self.new ≡ spare_pairs self.old - 1 }
        // Nothing is under way on the two links, and no other link changes.
        ensures empty { under_way self.new
            ≡ at_pair (at_pair (under_way self.old) u v []) v u [] }
    {
        topology::laws::changes();
        let _joined = self.net.join(u, v);
        lay(&mut self.places, &mut self.spares, u, v);
        lay(&mut self.places, &mut self.spares, v, u);
    }

    /// Removes the edge between two nodes, with what is under way on its links; these become a
    /// spare pair. Takes no memory.
    ///
    /// # Errors
    /// `Apart` if the other edges do not connect the nodes; then nothing has changed.
    pub fn part(&mut self, u: u16, v: u16) -> Result<(), NetFault>
        requires from_in { u < self.old.net.nodes }
        requires to_in { v < self.old.net.nodes }
        requires joined { IsTrue (are_joined self.old.net.edges u v) }
        // The edge goes exactly if the others connect the nodes.
        ensures allowed { IsOk result ↔ IsTrue (is_connected (parted_net self.old.net u v)) }
        ensures net { OnOk result (self.new.net ≡ parted_net self.old.net u v) }
        ensures spares { OnOk result (spare_pairs self.new ≡ spare_pairs self.old + 1) }
        // What was under way on the two links is gone, and no other link changes.
        ensures empty { OnOk result (under_way self.new
            ≡ at_pair (at_pair (under_way self.old) u v []) v u []) }
        ensures apart { IfErr result (λ fault. fault ≡ Apart) }
        ensures unchanged { OnErr result (self.new ≡ self.old) }
    {
        topology::laws::changes();
        topology::laws::joined();
        self.net.part(u, v)?;
        let out = usize::from(self.places.get(u, v));
        let back = usize::from(self.places.get(v, u));
        self.links[out].clear();
        self.links[back].clear();
        give_back(&mut self.places, &mut self.spares, u, v);
        give_back(&mut self.places, &mut self.spares, v, u);
        Ok(())
    }
}
