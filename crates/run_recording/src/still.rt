//! What a film shows at a moment.
ghost use Rattle.std.specs.Prelude.{◌≡◌, IsTrue};
ghost use Rattle.run_recording.specs.Stills.{is_weighty, joined, with_last};
ghost use Rattle.run_recording.specs.Stills.{IsLike};
ghost use Rattle.world.specs.run_model.topology.Network.{are_joined};

use crate::look::{Look, Place};
use world::Event;

/// The most nodes that a network may have.
pub const MOST_NODES: usize = 64;

/// The most edges that a network may have.
pub const MOST_EDGES: usize = 256;

/// What is under way is seen only in a network of at most this many nodes.
pub const MOST_FRAMED: u16 = 12;

/// How many pairs (u, v) of nodes such a network has at most.
pub const MOST_WAYS: usize = 144;

/// Stands for no edge, since an edge joins two different nodes.
pub const NO_EDGE: (u16, u16) = (0, 0);

/// What is seen of a network at a moment, or at the last of several.
#[derive(Clone, Copy)]
pub struct Still {
    /// What is seen of each node, by its id; [`Look::NOTHING`] if there is no such node.
    pub looks: [Look; MOST_NODES],
    /// The true place of each node, by its id.
    pub places: [Place; MOST_NODES],
    /// The edges, and [`NO_EDGE`] at the places that have none.
    pub edges: [(u16, u16); MOST_EDGES],
    /// How many items, frames or noise, are under way: those from u to v at the place 12 u + v. In
    /// a network of more than [`MOST_FRAMED`] nodes they are not seen, and all places hold 0.
    pub under_way: [u16; MOST_WAYS],
    /// How many events have led to the moment.
    pub events: u64,
    /// The last of them; `None` at the start.
    pub event: Option<Event>,
    /// How many sweeps there have been since the last damage.
    pub sweeps: u64,
    /// Whether damage was accepted at any of the moments.
    pub damaged: bool,
    /// How many nodes are privileged: the most at any of the moments.
    pub privileged: usize,
    /// How many nodes lend: the most at any of the moments.
    pub lending: usize,
}

impl Still {
    /// Whether there was damage, or two nodes are privileged, or two lend.
    pub fn is_weighty(&self) -> bool
        ensures { result ≡ is_weighty self.now }
    {
        self.damaged | (self.privileged >= 2) | (self.lending >= 2)
    }

    /// One still for the moments of this still and of the later one.
    pub fn joined(&self, later: &Still) -> Still
        ensures { result ≡ joined self.now later.now }
    {
        Still {
            damaged: self.damaged | later.damaged,
            privileged: self.privileged.max(later.privileged),
            lending: self.lending.max(later.lending),
            ..*later
        }
    }

    /// Whether both show the same nodes in the same way, and the same edges.
    pub fn is_like(&self, other: &Still) -> bool
        ensures { IsTrue result → IsLike self.now other.now }
    {
        are_same(&self.looks, &other.looks)
            && are_same(&self.places, &other.places)
            && are_same(&self.edges, &other.edges)
    }

    /// Whether an edge joins these two different nodes.
    pub fn joins(&self, v: u16, w: u16) -> bool
        ensures { result ≡ are_joined self.now.edges v w }
    {
        self.edges.iter().any(|edge| (edge.0 == v && edge.1 == w) || (edge.0 == w && edge.1 == v))
    }
}

/// Makes the last still, if there is one, stand for one moment more.
pub fn join_last(stills: &mut [Still], moment: &Still)
    ensures { stills.new ≡ with_last stills.old moment.now }
{
    if stills.is_empty() {
        return;
    }
    let place = stills.len() - 1;
    stills[place] = stills[place].joined(moment);
}

/// What a still shows of one node or edge.
trait StillPart: Copy {
    /// Whether both are the same.
    fn is_same(self, other: Self) -> bool
        ensures { IsTrue result → self ≡ other };
}

impl StillPart for Look {
    fn is_same(self, other: Look) -> bool {
        self.is(other)
    }
}

impl StillPart for Place {
    fn is_same(self, other: Place) -> bool {
        self.is(other)
    }
}

/// Edges are the same only if their ends are in the same order.
impl StillPart for (u16, u16) {
    fn is_same(self, other: (u16, u16)) -> bool {
        self.0 == other.0 && self.1 == other.1
    }
}

/// Whether the parts are the same, in the same order.
fn are_same<T: StillPart, const N: usize>(parts: &[T; N], others: &[T; N]) -> bool
    ensures { IsTrue result → parts.now ≡ others.now }
{
    for k in 0..N {
        if !parts[k].is_same(others[k]) {
            return false;
        }
    }
    true
}
