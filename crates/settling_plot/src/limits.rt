//! The proved bounds, as upright lines.
ghost use Rattle.std.specs.Prelude.{◌≡◌, ◌++◌, ◌≤◌, OnOk, IfOk, string_bytes};
ghost use Rattle.svg_drawing.specs.Drawn.{drawn, pen_of};
ghost use Rattle.settling_plot.specs.Axes.{IsAxis};
ghost use Rattle.settling_plot.specs.Limits.{limit_shown, limit_words, limits_shown, thin_pen};
ghost use Rattle.settling_plot.specs.Limits.{label_of};

use crate::axis::{Axis, GROUND};
use crate::figure::{Figure, PlottedLayer};
use std::alloc::{AllocError, Global};
use svg_drawing::{Anchor, Canvas, Colour, Point, Px, Stroke};

/// Draws the bounds of the four layers, the lowest layer's first.
pub(crate) fn draw_limits(
    canvas: &mut Canvas,
    axis: Axis,
    figure: &Figure,
) -> Result<(), AllocError>
    requires { IsAxis axis }
    ensures { OnOk result (drawn canvas.new ≡ drawn canvas.old ++ limits_shown axis figure.now) }
{
    draw_limit(canvas, axis, PlottedLayer::Links, figure.links.bound)?;
    draw_limit(canvas, axis, PlottedLayer::Tree, figure.tree.bound)?;
    draw_limit(canvas, axis, PlottedLayer::Ring, figure.ring.bound)?;
    draw_limit(canvas, axis, PlottedLayer::Served, figure.served.bound)
}

/// Draws the bound of a layer: a line up to the layer's row, and in that row, left of the line,
/// what the bound is.
fn draw_limit(
    canvas: &mut Canvas,
    axis: Axis,
    layer: PlottedLayer,
    bound: u32,
) -> Result<(), AllocError>
    requires { IsAxis axis }
    ensures { OnOk result (drawn canvas.new ≡ drawn canvas.old ++ limit_shown axis layer bound) }
{
    let x = axis.x(u64::from(bound));
    let y = label(layer);
    let top = Point { x, y: y - Px(10) };
    canvas.line(Point { x, y: GROUND }, top, thin(layer))?;
    let words = limit_words(canvas.alloc(), bound)?;
    let name = Point { x: x - Px(4), y };
    canvas.words(name, Anchor::End, Colour::Ink, words.as_str())
}

/// The baseline of the words at a layer's bound.
fn label(layer: PlottedLayer) -> Px
    ensures { result.0 ≡ label_of layer }
{
    Px(124) - Px(16) * layer.row()
}

/// The line of a layer's bound.
fn thin(layer: PlottedLayer) -> Stroke
    ensures { pen_of result ≡ thin_pen layer }
{
    Stroke::whole(layer.stroke().colour, 1)
}

/// The words at a bound.
fn limit_words(alloc: Global, bound: u32) -> Result<String, AllocError>
    ensures { IfOk result (λ words. string_bytes words ≡ limit_words bound) }
{
    format!(in alloc; "proved by {bound}")
}
