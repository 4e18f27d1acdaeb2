//! Where the nodes stand.
ghost use Rattle.std.specs.Prelude.{◌≡◌, ◌<◌, ◌≤◌, ◌+◌, ◌*◌, ℕ, slice_index_or};
ghost use Rattle.topology.specs.Tree.{distance_of};
ghost use Rattle.run_film.specs.Places.{is_narrow, is_wide, place_in, root_place, IsStage};

use run_recording::MOST_NODES;
use svg_drawing::{Point, Px};
use topology::Net;

/// The least width of the drawing.
const LEAST_WIDTH: u32 = 720;

/// The height at which the root stands.
const ROOT: Px = Px(136);

/// The least distance of two neighbours that leaves room for words between them.
const WIDE: u32 = 112;

/// The least distance of two neighbours that leaves room for a number between them.
const NARROW: u32 = 64;

/// Where the nodes of a network stand: each as far below the root as its true distance, and those
/// of one distance in the order in which the tour of the tree comes to them first, so that edges of
/// the tree need not cross. Contracts say only how far below the root they stand.
#[derive(Clone, Copy)]
pub struct Stage {
    /// The place of each node, by its id.
    places: [Point; MOST_NODES],
    /// The width of the drawing.
    pub width: Px,
    /// Where the graph ends.
    pub floor: Px,
    /// How far apart two neighbours in a row stand.
    pub stride: Px,
}

/// How many nodes of the order have each distance.
fn row_lengths(net: &Net, order: &[u16]) -> [usize; MOST_NODES] {
    let mut lengths = [0; MOST_NODES];
    for v in order {
        let row = row_of(net, *v);
        lengths[row] = usize::saturating_add(lengths[row], 1);
    }
    lengths
}

/// The row of a node: its true distance.
fn row_of(net: &Net, v: u16) -> usize
    ensures { result < 64 }
{
    if v < net.nodes() {
        usize::from(net.distance(v)).min(63)
    } else {
        0
    }
}

/// How many nodes the longest row has; at least 1.
fn longest(lengths: &[usize; MOST_NODES]) -> usize {
    let mut most = 1;
    for length in lengths.as_slice() {
        most = most.max(*length);
    }
    most
}

/// How far two neighbours of a row are apart, if the longest row has `most` nodes.
fn stride_of(most: usize) -> Px {
    Px((1100 / most.max(1)).min(132).max(48) as u32)
}

/// How far two rows are apart, if there are `depth` rows below the root. Between the signs of two rows
/// there is room for lines and for two lines of text.
fn rise_of(depth: usize) -> Px
    ensures least { 80 ≤ result.0 }
    ensures most { result.0 ≤ 96 }
{
    Px((300 / depth.max(1)).min(96).max(80) as u32)
}

/// How far below the last row the graph ends: if nodes stand close to one another, their numbers stand
/// below them, too.
fn foot_of(stride: Px) -> Px {
    if stride.0 < NARROW { Px(56) } else { Px(40) }
}

/// The places of the nodes, all at the left, each at the height of its row.
fn rows_of(net: &Net, rise: Px) -> [Point; MOST_NODES]
    requires { rise.0 ≤ 96 }
    ensures heights { (v : ℕ) → v < net.now.nodes → (slice_index_or result v root_place).y.0
        ≡ 136 + rise.0 * distance_of net.now v }
    ensures few { (v : ℕ) → v < net.now.nodes → (slice_index_or result v root_place).y.0 < 10000000 }
{
    let mut places = [Point { x: Px(0), y: ROOT }; MOST_NODES];
    for v in 0..net.nodes() {
        places[usize::from(v)].y = ROOT + rise * usize::from(net.distance(v));
    }
    places
}

impl Stage {
    /// The stage of a network; the nodes come in the order of the tour.
    pub fn of(net: &Net, order: &[u16]) -> Stage
        ensures { IsStage net.now result }
    {
        let lengths = row_lengths(net, order);
        let most = longest(&lengths);
        let stride = stride_of(most);
        let depth = usize::from(net.eccentricity());
        let rise = rise_of(depth);
        let width = Px((stride * most + Px(96)).0.max(LEAST_WIDTH));
        let mut stage = Stage {
            places: rows_of(net, rise),
            width,
            floor: ROOT + rise * depth + foot_of(stride),
            stride,
        };
        stage.stand(net, order, &lengths);
        stage
    }

    /// Whether there is room for words between two neighbours in a row.
    pub fn is_wide(&self) -> bool
        ensures { result ≡ is_wide self.now }
    {
        self.stride.0 >= WIDE
    }

    /// Whether there is no room for a number between two neighbours in a row.
    pub fn is_narrow(&self) -> bool
        ensures { result ≡ is_narrow self.now }
    {
        self.stride.0 < NARROW
    }

    /// Gives each node its place within its row.
    fn stand(&mut self, net: &Net, order: &[u16], lengths: &[usize; MOST_NODES])
        ensures { (v : ℕ) → (place_in self.new v).y ≡ (place_in self.old v).y }
    {
        let mut taken = [0; MOST_NODES];
        for v in order {
            let row = row_of(net, *v);
            let left = self.width.half() - (self.stride * lengths[row]).half();
            self.shift(*v, left + self.stride * taken[row] + self.stride.half());
            taken[row] = usize::saturating_add(taken[row], 1);
        }
    }

    /// Gives a node its place from the left.
    fn shift(&mut self, v: u16, x: Px)
        ensures { (u : ℕ) → (place_in self.new u).y ≡ (place_in self.old u).y }
    {
        if usize::from(v) < MOST_NODES {
            self.places[usize::from(v)].x = x;
        }
    }

    /// The place of a node.
    pub fn at(&self, v: u16) -> Point
        ensures { result ≡ place_in self.now v }
    {
        if usize::from(v) < MOST_NODES {
            self.places[usize::from(v)]
        } else {
            Point { x: Px(0), y: ROOT }
        }
    }
}
