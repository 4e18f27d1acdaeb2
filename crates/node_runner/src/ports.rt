//! A node's ends of the links to and from a neighbour.
ghost use Rattle.std.specs.Prelude.{◌≡◌, ◌+◌, ◌<◌, ◌≤◌, ◌^◌, ℕ, List, [], ◌∷◌, ◌++◌, length, max};
ghost use Rattle.std.specs.Prelude.{IfSome, IfNone, IsSome};
ghost use Rattle.rtrb.specs.Ring.{received, known_free, known_items, SameConsumer};
ghost use Rattle.link_model.specs.declared.item.Item.{Item};
ghost use Rattle.weaving.specs.declared.journal.Stamped.{Stamped};
ghost use Rattle.node_runner.specs.Stamps.{last_stamp, last_place, stamp_after};
ghost use Rattle.node_runner.specs.Ports.{with_sent, with_taken, SameOutgoing, SameIncoming};
ghost use Rattle.node_runner.specs.Ports.{IsSender, IsReceiver};

use link_model::Item;
use rtrb::{Consumer, Producer, Protocol};
use std::alloc::{Allocator, Global};
use weaving::Stamped;

/// The greatest stamp of an item. No run within the limits comes near it.
const LAST_STAMP: u64 = 1 << 62;

/// The greatest stamp of a place that comes back.
const LAST_PLACE: u64 = 1 << 61;

/// The rule of the rings: no stamp of an item is above 2^62, and none of a place above 2^61.
#[derive(Clone, Copy, Debug)]
pub struct StampBound;

impl Protocol<Stamped> for StampBound {
    ghost use Rattle.std.specs.Prelude.{◌≤◌};
    ghost use Rattle.node_runner.specs.Stamps.{last_stamp};

    ghost allows = { λ before x. x.stamp ≤ last_stamp };
}

impl Protocol<u64> for StampBound {
    ghost use Rattle.std.specs.Prelude.{◌≤◌};
    ghost use Rattle.node_runner.specs.Stamps.{last_place};

    ghost allows = { λ before x. x ≤ last_place };
}

/// The stamp of an event after two others; none if that would be above 2^62.
fn stamp_after(one: u64, other: u64) -> Option<u64>
    ensures { result ≡ stamp_after one other }
{
    let last = one.max(other);
    if last < LAST_STAMP {
        Some(last + 1)
    } else {
        None
    }
}

/// The sender's end of a link: it pushes items, and gets back the places that they leave free.
#[derive(Drop)]
pub struct Outgoing<A: Allocator = Global> {
    /// Items go out here.
    pub frames: Producer<Stamped, A, StampBound>,
    /// Free places come back here, each with the stamp of the take that left it.
    pub places: Consumer<u64, A, StampBound>,
    /// How many places are left of those that were free at the start.
    pub free: usize,
}

/// The receiver's end of a link: it pops items, and gives back the places that they leave free.
#[derive(Drop)]
pub struct Incoming<A: Allocator = Global> {
    /// Items come in here.
    pub frames: Consumer<Stamped, A, StampBound>,
    /// Free places go back here.
    pub places: Producer<u64, A, StampBound>,
}

impl<A: Allocator> Outgoing<A> {
    /// Spends the next place, if there is one, and returns the stamp of the send that spends it.
    fn spend(&mut self, clock: u64) -> Option<u64>
        ensures frames { self.new.frames ≡ self.old.frames }
        ensures ring { SameConsumer self.old.places self.new.places }
        ensures none { IfNone result
            ((self.new.free ≡ self.old.free)
            × (received self.new.places ≡ received self.old.places)) }
        ensures some { IfSome result
            (λ t. (clock < t) × (t ≤ last_stamp) × (t ≤ max clock last_place + 1)) }
        // Places free at the start are spent before those that came back.
        ensures first { 0 < self.old.free → IfSome result (λ t. (self.new.free + 1 ≡ self.old.free)
            × (received self.new.places ≡ received self.old.places)) }
        ensures back { self.old.free ≡ 0
            → IfSome result (λ t. (self.new.free ≡ 0) × (place : ℕ) × (place < t)
            × (received self.new.places ≡ received self.old.places ++ place ∷ [])) }
        ensures succeeds { 0 < self.old.free → clock < last_stamp → IsSome result }
    {
        if self.free > 0 {
            let stamp = stamp_after(clock, 0)?;
            self.free -= 1;
            return Some(stamp);
        }
        if self.places.is_empty() {
            return None;
        }
        let stamp = stamp_after(clock, *self.places.peek_known())?;
        self.places.pop_known();
        Some(stamp)
    }

    /// Sends an item, if a place is free for it, and returns its stamp. Sends nothing and returns
    /// none if no place is free, or the clock is at its end.
    pub fn send(&mut self, clock: u64, item: Item) -> Option<u64>
        ensures same { SameOutgoing self.old self.new }
        ensures later { IfSome result
            (λ t. (clock < t) × (t ≤ last_stamp) × (t ≤ max clock last_place + 1)) }
        // The item is sent, with the returned stamp.
        ensures sent { (capacity : ℕ) (old : List Item) (sends : List Stamped)
            → IsSender capacity old sends self.old
            → IsSender capacity old (with_sent sends item result) self.new }
        // If a place of the start is left, the item goes out.
        ensures succeeds { 0 < self.old.free → 0 < known_free self.old.frames → clock < last_stamp
            → IsSome result }
    {
        if self.frames.is_full() {
            return None;
        }
        let stamp = self.spend(clock)?;
        self.frames.push_reserved(Stamped { stamp, item });
        Some(stamp)
    }
}

impl<A: Allocator> Incoming<A> {
    /// Takes the oldest item, if there is one, and gives its place back. Returns the item with the
    /// stamp of the take, which is later than the item's. A place whose stamp would be above 2^61
    /// is not given back.
    pub fn take(&mut self, clock: u64) -> Option<Stamped>
        requires { clock + 1 < 2 ^ 64 }
        ensures same { SameIncoming self.old self.new }
        ensures later { IfSome result
            (λ taken. (clock < taken.stamp) × (taken.stamp ≤ max clock last_stamp + 1)) }
        ensures taken { (capacity old : ℕ) (takes : List Stamped)
            → IsReceiver capacity old takes self.old
            → IsReceiver capacity old (with_taken takes result) self.new }
        // An item that is known to be there is taken.
        ensures succeeds { 0 < known_free self.old.places → 0 < length (known_items self.old.frames)
            → IsSome result }
    {
        if self.places.is_full() {
            return None;
        }
        let Ok(came) = self.frames.pop() else {
            return None;
        };
        let stamp = clock.max(came.stamp) + 1;
        if stamp <= LAST_PLACE {
            self.places.push_reserved(stamp);
        }
        Some(Stamped {
            stamp,
            item: came.item,
        })
    }
}
