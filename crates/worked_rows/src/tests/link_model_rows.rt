//! A link that is filled, loses items and is emptied; also with memory refused.
use super::least_heap::least_heap;
use link_model::{Frame, Full, Item, Link, NoItem, Payload};
use linked_list_allocator::LocalHeap;
use std::alloc::{Allocator, Global};
use std::test::Fail;
use test_parts::{as_expected, is_expected, on_full};

/// What goes over a link.
#[derive(Clone, Copy)]
enum Sent {
    /// A frame with this number.
    Numbered(u16),
    Noise,
}

use Sent::{Noise, Numbered};

/// The item that was sent.
fn item(sent: Sent) -> Item {
    match sent {
        Noise => Item::Noise,
        Numbered(seq) => Item::Frame(Frame {
            seq,
            ack: 0,
            payload: Payload {
                distance: 0,
                parent: None,
                ring: 0,
            },
        }),
    }
}

/// What is done to a link, and what it answers.
#[derive(Clone, Copy)]
enum Deed {
    Puts(Sent, Result<(), Full>),
    Takes(Option<Sent>),
    Loses(usize, Result<(), NoItem>),
    Clears,
    /// No act: this is the number of items on it.
    Holds(usize),
    /// No act: whether it is full.
    IsFull(bool),
}

use Deed::{Clears, Holds, IsFull, Loses, Puts, Takes};

/// Does this, and returns whether the link answers like this.
fn answers_so<A: Allocator>(link: &mut Link<A>, deed: &Deed) -> bool {
    match *deed {
        Puts(sent, want) => link.put(item(sent)) == want,
        Takes(want) => link.take() == want.map(item),
        Loses(at, want) => link.lose(at) == want,
        Clears => {
            link.clear();
            true
        }
        Holds(want) => link.len() == want && link.is_empty() == (want == 0),
        IsFull(want) => link.is_full() == want,
    }
}

/// The place of the first deed that the link answers differently.
fn first_wrong<A: Allocator>(link: &mut Link<A>, deeds: &[Deed]) -> Option<usize> {
    for (at, deed) in deeds.iter().enumerate() {
        if !answers_so(link, deed) {
            return Some(at);
        }
    }
    None
}

/// The place of the first deed that a new link of this many places answers differently.
fn first_wrong_of(alloc: Global, capacity: usize, deeds: &[Deed]) -> Result<Option<usize>, Fail> {
    let mut link = Link::new(alloc, capacity)?;
    Ok(first_wrong(&mut link, deeds))
}

/// Items go over a link of three places.
const ORDER: [Deed; 14] = [
    Holds(0),
    Takes(None),
    Puts(Numbered(0), Ok(())),
    Puts(Numbered(1), Ok(())),
    Puts(Numbered(2), Ok(())),
    Puts(Noise, Err(Full)),
    Takes(Some(Numbered(0))),
    Puts(Noise, Ok(())),
    Loses(3, Err(NoItem)),
    Loses(1, Ok(())),
    Holds(2),
    Takes(Some(Numbered(1))),
    Takes(Some(Noise)),
    Takes(None),
];

#[test]
fn items_keep_their_order(rt: HostRuntime) -> Result<(), Fail> {
    as_expected(first_wrong_of(rt.alloc(), 3, &ORDER), &None)
}

/// An item comes to a link without places.
const NO_PLACE: [Deed; 3] = [Holds(0), IsFull(true), Puts(Noise, Err(Full))];

#[test]
fn a_link_of_no_place_is_full(rt: HostRuntime) -> Result<(), Fail> {
    as_expected(first_wrong_of(rt.alloc(), 0, &NO_PLACE), &None)
}

/// Items go over a link of four places, which is then cleared.
const WITHOUT_MEMORY: [Deed; 10] = [
    Puts(Numbered(0), Ok(())),
    Puts(Numbered(1), Ok(())),
    Puts(Numbered(2), Ok(())),
    Puts(Numbered(3), Ok(())),
    Takes(Some(Numbered(0))),
    Puts(Noise, Ok(())),
    Puts(Noise, Err(Full)),
    Loses(0, Ok(())),
    Clears,
    Holds(0),
];

/// Whether a link of four places answers each of these deeds right on a heap that then has nothing
/// free. None if the heap has no room for it.
fn is_right_on_full(alloc: Global, heap: &LocalHeap) -> Result<Option<bool>, Fail> {
    let Ok(mut link) = Link::new(heap, 4) else {
        return Ok(None);
    };
    let found = on_full(alloc, heap, || first_wrong(&mut link, &WITHOUT_MEMORY))?;
    Ok(Some(found == (None, 0)))
}

#[test]
fn only_new_asks_for_memory(rt: HostRuntime) -> Result<(), Fail> {
    let alloc = rt.alloc();
    let (units, is_so) = least_heap(alloc, |heap| is_right_on_full(alloc, heap))?;
    is_expected(&(is_so && units > 1 && units < 100), &true)
}
