//! One directed link.
ghost use Rattle.std.specs.Prelude.{◌≡◌, ◌+◌, ◌<◌, ◌≤◌, ◌==◌, ◌↔◌, [], ◌∷◌, ◌++◌, length, take};
ghost use Rattle.std.specs.Prelude.{drop, remove, slice_get, IsOk, IfOk, OnOk, OnErr, IfSome};
ghost use Rattle.std.specs.Prelude.{IfNone, Some};
ghost use Rattle.link_model.specs.Link.{link};

use crate::fault::{Full, NoItem};
use crate::item::Item;
use circular_buffer::HeapCircularBuffer;
use std::alloc::{AllocError, Allocator, Global};
use std::marker::Model;

/// At most `capacity` items, oldest first.
#[derive(Drop)]
pub struct Link<A: Allocator = Global> {
    items: HeapCircularBuffer<Item, A>,
}

impl<A: Allocator> Model for Link<A> {
    ghost use Rattle.std.specs.Prelude.{◌≤◌, length};
    ghost use Rattle.link_model.specs.Link.{LinkView, link};

    ghost Value = { LinkView };

    ghost view = { λ l. link l.items.capacity l.items.items };

    ghost invariant = { λ l. length l.items.items ≤ l.items.capacity };
}

impl<A: Allocator> Link<A> {
    /// An empty link. It reserves all its places here, and returns `AllocError` only if that memory
    /// is refused.
    pub fn new(alloc: A, capacity: usize) -> Result<Link<A>, AllocError>
        ensures { IfOk result (λ l. l ≡ link capacity []) }
    {
        Ok(Link {
            items: HeapCircularBuffer::with_capacity(alloc, capacity)?,
        })
    }

    /// The greatest number of items that the link may hold.
    pub fn capacity(&self) -> usize
        ensures capacity { result ≡ self.now.capacity }
        ensures within { length self.now.items ≤ result }
    {
        self.items.capacity()
    }

    /// The number of items on the link.
    pub fn len(&self) -> usize
        ensures len { result ≡ length self.now.items }
        ensures within { result ≤ self.now.capacity }
    {
        self.items.len()
    }

    /// Whether no item is on the link.
    pub fn is_empty(&self) -> bool
        ensures { result ≡ (length self.now.items == 0) }
    {
        self.items.is_empty()
    }

    /// Whether the link holds as many items as it may.
    pub fn is_full(&self) -> bool
        ensures { result ≡ (length self.now.items == self.now.capacity) }
    {
        self.items.is_full()
    }

    /// The item at an index, 0 being the oldest.
    pub fn get(&self, index: usize) -> &Item
        requires { index < length self.now.items }
        ensures { slice_get self.now.items index ≡ Some result.now }
    {
        match self.items.get(index) {
            Some(item) => item,
            None => unreachable!(),
        }
    }

    /// Puts an item last. A full link stays as it is: the item is dropped, and none is overwritten.
    pub fn put(&mut self, item: Item) -> Result<(), Full>
        // A full link refuses the item, and no other link does.
        ensures variant { IsOk result ↔ (length self.old.items < self.old.capacity) }
        ensures ok { OnOk result (self.new ≡ link self.old.capacity (self.old.items ++ item ∷ [])) }
        ensures full { OnErr result (self.new ≡ self.old) }
    {
        match self.items.try_push_back(item) {
            Ok(()) => Ok(()),
            Err(_item) => Err(Full),
        }
    }

    /// Takes the oldest item.
    pub fn take(&mut self) -> Option<Item>
        // The item was in front of all that are left.
        ensures some { IfSome result (λ item. self.old
            ≡ link self.new.capacity (item ∷ self.new.items)) }
        ensures none { IfNone result ((self.old.items ≡ []) × (self.new ≡ self.old)) }
    {
        self.items.pop_front()
    }

    /// Loses the item at an index, 0 being the oldest; the others keep their order.
    /// Each item is taken from the front once, and all but the lost one are put at the back again.
    ///
    /// # Errors
    /// `NoItem` if there is no item at the index; then nothing has changed.
    pub fn lose(&mut self, index: usize) -> Result<(), NoItem>
        // There is an item to lose exactly if the index is below their number.
        ensures variant { IsOk result ↔ (index < length self.old.items) }
        ensures ok { OnOk result (self.new ≡ link self.old.capacity (remove self.old.items index)) }
        ensures no_item { OnErr result (self.new ≡ self.old) }
    {
        let count = self.items.len();
        if index >= count {
            return Err(NoItem);
        }
        for place in 0..count {
            if let Some(item) = self.items.pop_front() {
                if place != index {
                    self.items.push_back(item);
                }
            }
        }
        Ok(())
    }

    /// Loses every item.
    pub fn clear(&mut self)
        ensures { self.new ≡ link self.old.capacity [] }
    {
        self.items.clear();
    }
}
