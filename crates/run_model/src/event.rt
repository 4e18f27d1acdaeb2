//! The atomic events of a run.

use link_model::{Item, Payload};
use thiserror::Error;

/// One atomic step of the network: what one thread does between two moments that others may see.
#[derive(Clone, Copy, Debug, PartialEq, Eq)]
pub enum Event {
    /// The node `from` puts the frame of its port to `to` on that link. On a full link the frame is
    /// lost.
    Send { from: u16, to: u16 },
    /// The node `to` takes the oldest item of the link from `from`. On an empty link nothing
    /// happens.
    Take { from: u16, to: u16 },
    /// An item of a link is lost under way; 0 is the oldest.
    Lose { from: u16, to: u16, item: u16 },
    /// The node recomputes its distance and parent, serves its desk, and moves its privileged
    /// machines.
    Tick { node: u16 },
    /// A client of the node asks for the lock, with its ticket.
    Ask { node: u16, ticket: u16 },
    /// A client of the node releases the lock, or no longer waits for it.
    Leave { node: u16, ticket: u16 },
    /// A transient fault writes one part of the world, or adds or removes one edge.
    Damage(Harm),
}

/// What one transient fault does: it writes any value in range to one part, or adds or removes one
/// edge.
#[derive(Clone, Copy, Debug, PartialEq, Eq)]
pub enum Harm {
    /// A node's distance and parent.
    Own {
        node: u16,
        distance: u16,
        parent: Option<u16>,
    },
    /// The two numbers of a node's port to a neighbour.
    Counters {
        node: u16,
        neighbour: u16,
        seq: u16,
        last: u16,
    },
    /// The payload that a port has staged.
    Staged {
        node: u16,
        neighbour: u16,
        payload: Payload,
    },
    /// The payload that a port has copied.
    Copy {
        node: u16,
        neighbour: u16,
        payload: Payload,
    },
    /// The value of the machine that comes in from a neighbour.
    Value {
        node: u16,
        neighbour: u16,
        value: u16,
    },
    /// A desk's loan: the ticket that it lends to, the ticks left, and whether a loan ended since
    /// the last full tick.
    Desk {
        node: u16,
        lent: Option<u16>,
        left: u16,
        served: bool,
    },
    /// A link gets one more item, as the newest.
    Item {
        from: u16,
        to: u16,
        item: Item,
    },
    /// A link loses all its items.
    Empty {
        from: u16,
        to: u16,
    },
    /// A new edge between two nodes: each keeps all its other ports. The edge gets the two links
    /// of a spare pair, empty.
    Join {
        node: u16,
        neighbour: u16,
    },
    /// The edge between two nodes goes, with its ports and the items of its two links; these
    /// become a spare pair.
    Part {
        node: u16,
        neighbour: u16,
    },
}

/// Why an event is refused, in the order of the checks. A refused event changes nothing.
#[derive(Clone, Copy, Debug, PartialEq, Eq, Drop, Error)]
pub enum EventFault {
    /// There is no node with this id.
    #[error("NoNode")]
    NoNode,
    /// The two nodes are not neighbours.
    #[error("NoLink")]
    NoLink,
    /// The link has no such item.
    #[error("NoItem")]
    NoItem,
    /// A field of a harm is out of range. Or a desk would lend to a ticket that waits there, or
    /// have ticks left without a loan. Or the link for an item is full. Or no edge may join the two
    /// nodes, since they are the same, are already joined, or there are 256 edges.
    #[error("OutOfRange")]
    OutOfRange,
    /// The desk has no room for another ticket.
    #[error("Full")]
    Full,
    /// The ticket already waits, or has the lock.
    #[error("Twice")]
    Twice,
    /// The ticket neither waits nor has the lock.
    #[error("Stranger")]
    Stranger,
    /// No pair of links is left for a new edge.
    #[error("NoSpare")]
    NoSpare,
    /// Without the edge the network would not be connected.
    #[error("Apart")]
    Apart,
}
