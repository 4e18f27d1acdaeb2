//! The curves below the lanes: how many nodes are privileged, and how many lend.
ghost use Rattle.std.specs.Prelude.{◌≡◌, ◌++◌, ◌<◌, ◌^◌, OnOk, IfOk, string_bytes};
ghost use Rattle.std.specs.Prelude.{length, map};
ghost use Rattle.run_picture.specs.Curves.{most_nodes, node_height, count_in, curve_steps};
ghost use Rattle.run_picture.specs.Curves.{step_in, first_count, curves_shown, levels_shown};
ghost use Rattle.run_picture.specs.Curves.{level_shown, level_pen, name_shown, names_shown};
ghost use Rattle.svg_drawing.specs.Drawn.{drawn, pen_of};

use super::page::Page;
use super::words::numeral;
use run_recording::Column;
use std::alloc::{AllocError, Global};
use std::fmt::Write;
use svg_drawing::{Anchor, Canvas, Colour, Point, Px, Stroke};

/// What a curve counts.
#[derive(Clone, Copy)]
pub enum Curve {
    /// The privileged nodes.
    Privileged,
    /// The nodes that lend.
    Lending,
}

impl Curve {
    /// How many nodes it counts in a column.
    fn count(self, column: &Column) -> usize
        ensures { result ≡ count_in self column.now }
    {
        match self {
            Curve::Privileged => column.privileged,
            Curve::Lending => column.lending,
        }
    }
}

/// The line of the privileged nodes.
const PRIVILEGED: Stroke = Stroke {
    colour: Colour::Gold,
    width: Px(3),
    dashes: "none",
};

/// The line of the nodes that lend.
const LENDING: Stroke = Stroke {
    colour: Colour::Red,
    width: Px(2),
    dashes: "4 2",
};

/// Draws both curves.
pub fn draw_curves(canvas: &mut Canvas, page: Page, columns: &[Column]) -> Result<(), AllocError>
    ensures { OnOk result (drawn canvas.new ≡ drawn canvas.old ++ curves_shown page columns.now) }
{
    let node = node_height(most_nodes(columns));
    let privileged = steps_of(canvas.alloc(), page, node, Curve::Privileged, columns)?;
    canvas.path(privileged.as_str(), PRIVILEGED)?;
    let lending = steps_of(canvas.alloc(), page, node, Curve::Lending, columns)?;
    canvas.path(lending.as_str(), LENDING)
}

/// The steps of a curve.
fn steps_of(
    alloc: Global,
    page: Page,
    node: Px,
    curve: Curve,
    columns: &[Column],
) -> Result<String, AllocError>
    ensures { IfOk result (λ steps. string_bytes steps
        ≡ curve_steps page node.0 (map (count_in curve) columns.now)) }
{
    let start = page.left.0;
    let y = page.level(node, first_count(curve, columns)).0;
    let mut steps = format!(in alloc; "M{start} {y}")?;
    for place in 0..columns.len() {
        push_step(&mut steps, page, node, place, curve.count(&columns[place]))?;
    }
    Ok(steps)
}

/// What a curve counts in the first column; 0 if there is none.
fn first_count(curve: Curve, columns: &[Column]) -> usize
    ensures { result ≡ first_count (map (count_in curve) columns.now) }
{
    match columns {
        [first, ..] => curve.count(first),
        [] => 0,
    }
}

/// Adds a curve's steps in a column.
fn push_step(
    steps: &mut String,
    page: Page,
    node: Px,
    place: usize,
    count: usize,
) -> Result<(), AllocError>
    requires { place < 2 ^ 63 }
    ensures { OnOk result (string_bytes steps.new
        ≡ string_bytes steps.old ++ step_in page node.0 place count) }
{
    let y = page.level(node, count).0;
    let end = page.x(place + 1).0;
    write!(steps, "V{y}H{end}")
}

/// The most nodes that are privileged, or lend, in any column; at least 1.
fn most_nodes(columns: &[Column]) -> usize
    ensures { result ≡ most_nodes columns.now }
{
    let mut most = 1;
    for column in columns {
        most = most.max(column.privileged.max(column.lending));
    }
    most
}

/// The height of one node in the curves.
fn node_height(most: usize) -> Px
    ensures { result.0 ≡ node_height most }
{
    let height = 64 / most.max(1);
    Px(height.min(24).max(1) as u32)
}

/// Draws the lines at 0 nodes, at 1 and at the most, with their numbers; and says which curve is
/// which.
pub fn draw_levels(canvas: &mut Canvas, page: Page, columns: &[Column]) -> Result<(), AllocError>
    ensures { OnOk result (drawn canvas.new ≡ drawn canvas.old ++ levels_shown page columns.now) }
{
    let most = most_nodes(columns);
    let node = node_height(most);
    draw_level(canvas, page, node, 0)?;
    draw_level(canvas, page, node, 1)?;
    draw_level(canvas, page, node, most)?;
    draw_names(canvas, page, page.ground() + Px(48))
}

/// Draws the line at a number of nodes, with this number.
fn draw_level(canvas: &mut Canvas, page: Page, node: Px, count: usize) -> Result<(), AllocError>
    ensures { OnOk result (drawn canvas.new
        ≡ drawn canvas.old ++ level_shown page node.0 count) }
{
    let y = page.level(node, count);
    let from = Point { x: page.left, y };
    let to = Point { x: page.right(), y };
    canvas.line(from, to, level(count))?;
    let text = numeral(canvas.alloc(), count as u64)?;
    let name = Point {
        x: page.left - Px(8),
        y: y + Px(4),
    };
    canvas.words(name, Anchor::End, Colour::Ink, text.as_str())
}

/// The line at a number of nodes: the one at 1 stands out.
fn level(count: usize) -> Stroke
    ensures { pen_of result ≡ level_pen count }
{
    if count == 1 {
        Stroke {
            dashes: "1 3",
            ..Stroke::whole(Colour::Ink, 1)
        }
    } else {
        Stroke::whole(Colour::Faint, 1)
    }
}

/// Says which curve is which, and what the axis counts.
fn draw_names(canvas: &mut Canvas, page: Page, y: Px) -> Result<(), AllocError>
    ensures { OnOk result (drawn canvas.new ≡ drawn canvas.old ++ names_shown page y.0) }
{
    let left = Point { x: page.left, y };
    draw_name(canvas, left, "privileged nodes", PRIVILEGED)?;
    let right = Point {
        x: page.left + Px(150),
        y,
    };
    draw_name(canvas, right, "lending nodes", LENDING)?;
    let title = Point { x: page.right(), y };
    canvas.words(title, Anchor::End, Colour::Ink, "events since the start")
}

/// Draws a piece of a line, and says after it what the line is.
fn draw_name(canvas: &mut Canvas, at: Point, name: &str, stroke: Stroke) -> Result<(), AllocError>
    ensures { OnOk result (drawn canvas.new
        ≡ drawn canvas.old ++ name_shown at.x.0 at.y.0 name.now (pen_of stroke)) }
{
    let y = at.y - Px(4);
    let from = Point { x: at.x, y };
    let to = Point {
        x: at.x + Px(24),
        y,
    };
    canvas.line(from, to, stroke)?;
    let later = Point {
        x: at.x + Px(30),
        y: at.y,
    };
    canvas.words(later, Anchor::Start, Colour::Ink, name)
}
