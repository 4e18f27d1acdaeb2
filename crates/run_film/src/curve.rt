//! The line from a node to another, bent if a straight one might go through a third node.
ghost use Rattle.std.specs.Prelude.{◌≡◌, ◌+◌, ◌-◌, ◌/◌, IfOk, max, string_bytes};
ghost use Rattle.svg_drawing.specs.Lengths.{px};
ghost use Rattle.run_film.specs.Places.{place_in, IsWay, IsWayFrom, IsWayFromMiddle};
ghost use Rattle.run_film.specs.Places.{corner, past_middle, quarter, IsBetween};

use crate::stage::Stage;
use std::alloc::{AllocError, Global};
use svg_drawing::{Point, Px};

/// How far from the middle of a node its widest sign reaches, to each side: the frame of a node that lends.
pub const REACH: Px = Px(21);

/// How far beside a node a bent line has its corner: nearer than any neighbour's sign.
const ASIDE: Px = Px(24);

/// How far above or below a node the corner stands: clear of the signs in the node's row.
const CLEAR: Px = Px(25);

/// A line that is bent: it leaves a node downwards or upwards, goes straight from corner to corner, in the
/// space between two rows, and comes in upwards or downwards.
#[derive(Clone, Copy)]
struct Bent {
    /// The corner beside the node that it leaves.
    near: Point,
    /// The corner beside the node that it reaches.
    far: Point,
}

/// How far two lengths are apart.
pub fn apart(a: Px, b: Px) -> Px
    ensures { result.0 ≡ max (a.0 - b.0) (b.0 - a.0) }
{
    Px((a - b).0.max((b - a).0))
}

/// Whether the straight line between two places passes by the signs beside both: a line between two neighbours
/// in a row does, and so does one from row to row that is steep enough.
fn is_straight(stage: &Stage, from: Point, to: Point) -> bool {
    let across = apart(from.x, to.x);
    let down = apart(from.y, to.y);
    let room = stage.stride - REACH;
    if down.0 == 0 {
        across.0 <= stage.stride.0
    } else {
        (across * 5).0 <= (down * 9).0 && (across * 21).0 <= (down * room.0 as usize).0
    }
}

/// The corners of the line between two places; none if it is straight.
fn bend_of(stage: &Stage, from: Point, to: Point) -> Option<Bent> {
    if is_straight(stage, from, to) {
        return None;
    }
    Some(Bent {
        near: corner_of(stage, from, to),
        far: corner_of(stage, to, from),
    })
}

/// The corner, beside a place, of the line from there to another place.
fn corner_of(stage: &Stage, from: Point, to: Point) -> Point
    ensures { result.x.0 ≡ corner from.x.0 to.x.0 }
{
    let y = if to.y.0 < from.y.0 {
        from.y - CLEAR
    } else if to.y.0 > from.y.0 {
        from.y + CLEAR
    } else {
        from.y + CLEAR + lane(stage, from, to)
    };
    Point {
        x: corner(from.x, to.x),
        y,
    }
}

/// How much lower a line within a row goes, so that lines of different lengths can be distinguished.
fn lane(stage: &Stage, from: Point, to: Point) -> Px {
    let strides = apart(from.x, to.x).0 / stage.stride.0.max(1);
    Px(3) * (strides % 4) as usize
}

/// How far from the left the corner beside a place is.
fn corner(a: Px, b: Px) -> Px
    ensures { result.0 ≡ corner a.0 b.0 }
{
    if a.0 < b.0 { a + ASIDE } else { a - ASIDE }
}

/// The middle of two lengths.
fn middle(a: Px, b: Px) -> Px
    ensures { result.0 ≡ px (a.0 + b.0) / 2 }
{
    (a + b).half()
}

/// A length a quarter of the way from one to another.
fn quarter(a: Px, b: Px) -> Px
    ensures { result.0 ≡ quarter a.0 b.0 }
{
    (a * 3 + b).half().half()
}

/// A length five eighths of the way from one to another.
fn past_middle(a: Px, b: Px) -> Px
    ensures { result.0 ≡ past_middle a.0 b.0 }
{
    (a * 3 + b * 5).half().half().half()
}

/// The place half of the way along the line between two nodes.
pub fn middle_of(stage: &Stage, v: u16, w: u16) -> Point
    ensures { result.x.0 ≡ px ((place_in stage.now v).x.0 + (place_in stage.now w).x.0) / 2 }
{
    let (from, to) = (stage.at(v), stage.at(w));
    let (high, low) = heights(stage, from, to);
    Point {
        x: middle(from.x, to.x),
        y: middle(high, low),
    }
}

/// Where a frame waits that is under way from a node to another: past the middle of the line, so that the frames
/// of both directions can be distinguished, and the head of an arrow hides neither.
pub fn waiting_place(stage: &Stage, v: u16, w: u16) -> Point
    ensures { result.x.0 ≡ past_middle (place_in stage.now v).x.0 (place_in stage.now w).x.0 }
{
    let (from, to) = (stage.at(v), stage.at(w));
    let (high, low) = heights(stage, from, to);
    Point {
        x: past_middle(from.x, to.x),
        y: past_middle(high, low),
    }
}

/// The heights between which the straight part of the line between two places goes.
fn heights(stage: &Stage, from: Point, to: Point) -> (Px, Px) {
    match bend_of(stage, from, to) {
        None => (from.y, to.y),
        Some(bent) => (bent.near.y, bent.far.y),
    }
}

/// Where a dot turns that travels half of the line from a node to another: a quarter of the way along a straight
/// line, or at the corner of a bent one.
pub fn between_of(stage: &Stage, v: u16, w: u16) -> Point
    ensures { IsBetween (place_in stage.now v).x.0 (place_in stage.now w).x.0 result.x.0 }
{
    let (from, to) = (stage.at(v), stage.at(w));
    if is_straight(stage, from, to) {
        Point {
            x: quarter(from.x, to.x),
            y: quarter(from.y, to.y),
        }
    } else {
        corner_of(stage, from, to)
    }
}

/// The steps of the line from a node to another.
pub fn whole(alloc: Global, stage: &Stage, v: u16, w: u16) -> Result<String, AllocError>
    ensures { IfOk result (λ text. IsWay (place_in stage.now v) (place_in stage.now w) (string_bytes text)) }
{
    let (from, to) = (stage.at(v), stage.at(w));
    let between = whole_between(alloc, stage, from, to)?;
    let (x, y, end, low) = (from.x.0, from.y.0, to.x.0, to.y.0);
    format!(in alloc; "M{x} {y}{}{end} {low}", between.as_str())
}

/// The steps between the two ends of that line.
fn whole_between(
    alloc: Global,
    stage: &Stage,
    from: Point,
    to: Point,
) -> Result<String, AllocError> {
    let Some(bent) = bend_of(stage, from, to) else {
        return format!(in alloc; "L");
    };
    let (x, end) = (from.x.0, to.x.0);
    let (near, high) = (bent.near.x.0, bent.near.y.0);
    let (far, low) = (bent.far.x.0, bent.far.y.0);
    format!(in alloc; "Q{x} {high} {near} {high}L{far} {low}Q{end} {low} ")
}

/// The steps of the first half of that line.
pub fn half(alloc: Global, stage: &Stage, v: u16, w: u16) -> Result<String, AllocError>
    ensures { IfOk result (λ text. IsWayFrom (place_in stage.now v) (string_bytes text)) }
{
    let (from, to) = (stage.at(v), stage.at(w));
    let rest = half_rest(alloc, stage, from, to)?;
    format!(in alloc; "M{} {}{}", from.x.0, from.y.0, rest.as_str())
}

/// What follows the beginning of that half.
fn half_rest(alloc: Global, stage: &Stage, from: Point, to: Point) -> Result<String, AllocError> {
    let (high, low) = heights(stage, from, to);
    let (end, down) = (middle(from.x, to.x).0, middle(high, low).0);
    match bend_of(stage, from, to) {
        None => format!(in alloc; "L{end} {down}"),
        Some(bent) => {
            let (x, near, turn) = (from.x.0, bent.near.x.0, bent.near.y.0);
            format!(in alloc; "Q{x} {turn} {near} {turn}L{end} {down}")
        }
    }
}

/// The way from a node to where a dot turns that goes to another.
pub fn first_quarter(alloc: Global, stage: &Stage, v: u16, w: u16) -> Result<String, AllocError>
    ensures { IfOk result (λ text. IsWayFrom (place_in stage.now v) (string_bytes text)) }
{
    let (from, to) = (stage.at(v), between_of(stage, v, w));
    let (x, y, end, low) = (from.x.0, from.y.0, to.x.0, to.y.0);
    format!(in alloc; "M{x} {y}L{end} {low}")
}

/// The way from the middle of the line between two nodes to where a dot turns that comes to the second.
pub fn last_quarter(alloc: Global, stage: &Stage, v: u16, w: u16) -> Result<String, AllocError>
    ensures { IfOk result (λ text. IsWayFromMiddle (place_in stage.now v) (place_in stage.now w) (string_bytes text)) }
{
    let (from, to) = (middle_of(stage, v, w), between_of(stage, w, v));
    let (x, y, end, low) = (from.x.0, from.y.0, to.x.0, to.y.0);
    format!(in alloc; "M{x} {y}L{end} {low}")
}

/// The line between two nodes, as the straight parts that come close to it.
#[derive(Clone, Copy)]
pub struct EdgeLine {
    /// Where it begins.
    pub start: Point,
    /// Its corner near that place; that place itself if the line is straight.
    pub near: Point,
    /// Its corner near its end; the end itself if the line is straight.
    pub far: Point,
    /// Where it ends.
    pub end: Point,
}

/// The line between two nodes.
pub fn line_of(stage: &Stage, v: u16, w: u16) -> EdgeLine
    ensures start { result.start ≡ place_in stage.now v }
    ensures end { result.end ≡ place_in stage.now w }
{
    let (start, end) = (stage.at(v), stage.at(w));
    let (near, far) = match bend_of(stage, start, end) {
        None => (start, end),
        Some(bent) => (bent.near, bent.far),
    };
    EdgeLine {
        start,
        near,
        far,
        end,
    }
}
