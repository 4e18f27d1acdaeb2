//! Where the words of a ticket stand beside the node that lends to it: clear of nodes and lines.
ghost use Rattle.std.specs.Prelude.{◌≡◌, ◌<◌, ℕ, IsTrue};
ghost use Rattle.run_film.specs.Places.{half_width, is_clear_of, place_in, IsBelow, IsClearOfNodes, IsStage};

use crate::curve::{EdgeLine, REACH, apart, line_of};
use crate::stage::Stage;
use svg_drawing::{Point, Px};
use topology::Net;

/// The most parts into which a straight line is divided.
const PARTS: u32 = 512;

/// Half of the width of the widest words of a ticket: 14 letters of 7, or 8 if nodes stand close to one another.
fn half_width(stage: &Stage) -> Px
    ensures { result.0 ≡ half_width stage.now }
{
    if stage.is_wide() { Px(49) } else { Px(28) }
}

/// Where the ticket of a node stands: at the first of its places that is clear of all nodes and of
/// the network's lines, or else below the node. The contract says only that it is clear of all
/// nodes.
pub fn ticket_place(net: &Net, stage: &Stage, v: u16) -> Point
    ensures clear { IsStage net.now stage.now → v < net.now.nodes
        → IsClearOfNodes net.now stage.now result (half_width stage.now) }
{
    let half = half_width(stage);
    for place in possible_places(stage, half, v) {
        if is_clear_of_nodes(net, stage, place, half)
            && is_clear_of_lines(net, stage, place, half)
        {
            return place;
        }
    }
    below(stage, v)
}

/// The places for the ticket of a node: beside it, and below it.
fn possible_places(stage: &Stage, half: Px, v: u16) -> [Point; 5] {
    let at = stage.at(v);
    let low = below(stage, v).y;
    let level = at.y + Px(7);
    let (wide, near) = (half + Px(24), half + Px(6));
    [
        point(at.x + wide, level),
        point(at.x - wide, level),
        point(at.x, low),
        point(at.x + near, low),
        point(at.x - near, low),
    ]
}

/// The place that is this far from the left and from the top.
fn point(x: Px, y: Px) -> Point {
    Point { x, y }
}

/// The place below a node, and below its number if that stands there.
fn below(stage: &Stage, v: u16) -> Point
    ensures { IsBelow (place_in stage.now v).y.0 result.y.0 }
{
    let at = stage.at(v);
    let down = if stage.is_narrow() { 48 } else { 36 };
    Point {
        x: at.x,
        y: at.y + Px(down),
    }
}

/// Whether words of this half-width keep clear of all nodes.
fn is_clear_of_nodes(net: &Net, stage: &Stage, at: Point, half: Px) -> bool
    ensures { IsTrue result → IsClearOfNodes net.now stage.now at half.0 }
{
    for v in 0..net.nodes() {
        if !is_clear_of(stage.at(v), at, half) {
            return false;
        }
    }
    true
}

/// Whether such words keep clear of a node.
fn is_clear_of(node: Point, at: Point, half: Px) -> bool
    ensures { result ≡ is_clear_of node at half.0 }
{
    let (left, right) = (u64::from(node.x.0), u64::from(at.x.0));
    let (high, low) = (u64::from(node.y.0), u64::from(at.y.0));
    let reach = u64::from(half.0) + u64::from(REACH.0);
    high + 31 < low || low + 24 < high || left + reach < right || right + reach < left
}

/// Whether such words keep clear of the line of each edge.
fn is_clear_of_lines(net: &Net, stage: &Stage, at: Point, half: Px) -> bool {
    net.edges().iter().all(|edge| is_clear_of_line(&line_of(stage, edge.0, edge.1), at, half))
}

/// Whether such words keep clear of a line.
fn is_clear_of_line(line: &EdgeLine, at: Point, half: Px) -> bool {
    let words = PlacedWords { at, half };
    words.are_clear_of_part(line.start, line.near)
        && words.are_clear_of_part(line.near, line.far)
        && words.are_clear_of_part(line.far, line.end)
}

/// Words at a place, with half of their width.
#[derive(Clone, Copy)]
struct PlacedWords {
    at: Point,
    half: Px,
}

impl PlacedWords {
    /// Whether they keep clear of the places along the straight line between two places, about 8 apart.
    fn are_clear_of_part(self, from: Point, to: Point) -> bool {
        let long = (apart(from.x, to.x) + apart(from.y, to.y)).0;
        let parts = (long / 8 + 1).min(PARTS);
        (0..parts + 1).all(|part: u32| -> bool {
            self.are_clear_of_point(Point {
                x: divided(from.x, to.x, part, parts),
                y: divided(from.y, to.y, part, parts),
            })
        })
    }

    /// Whether they neither cover this place of a line nor come near it.
    fn are_clear_of_point(self, line: Point) -> bool {
        let (at, reach) = (self.at, self.half + Px(4));
        (at.y + Px(7)).0 < line.y.0
            || (line.y + Px(14)).0 < at.y.0
            || (at.x + reach).0 < line.x.0
            || (line.x + reach).0 < at.x.0
    }
}

/// The length that is `part` of `parts` equal parts of the way from a length to another.
fn divided(a: Px, b: Px, part: u32, parts: u32) -> Px {
    let left = parts.saturating_sub(part);
    let sum = a * left as usize + b * part as usize;
    Px(sum.0 / parts.max(1))
}
