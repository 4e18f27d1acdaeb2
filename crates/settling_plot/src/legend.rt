//! Which curve is which.
ghost use Rattle.std.specs.Prelude.{◌≡◌, ◌++◌, OnOk};
ghost use Rattle.svg_drawing.specs.Drawn.{drawn};
ghost use Rattle.settling_plot.specs.Legend.{entry_x, entry_shown, legend_shown};

use crate::axis::LEFT;
use crate::figure::PlottedLayer;
use std::alloc::AllocError;
use svg_drawing::{Anchor, Canvas, Colour, Point, Px};

/// The baseline of the legend.
const LEGEND: Px = Px(442);

/// Draws the legend.
pub(crate) fn draw_legend(canvas: &mut Canvas) -> Result<(), AllocError>
    ensures { OnOk result (drawn canvas.new ≡ drawn canvas.old ++ legend_shown) }
{
    draw_entry(canvas, PlottedLayer::Links)?;
    draw_entry(canvas, PlottedLayer::Tree)?;
    draw_entry(canvas, PlottedLayer::Ring)?;
    draw_entry(canvas, PlottedLayer::Served)
}

/// Draws a piece of a layer's curve, and after it what the layer is called.
fn draw_entry(canvas: &mut Canvas, layer: PlottedLayer) -> Result<(), AllocError>
    ensures { OnOk result (drawn canvas.new ≡ drawn canvas.old ++ entry_shown layer) }
{
    let x = entry_x(layer);
    let y = LEGEND - Px(4);
    let end = Point { x: x + Px(28), y };
    canvas.line(Point { x, y }, end, layer.stroke())?;
    let name = Point {
        x: x + Px(34),
        y: LEGEND,
    };
    canvas.words(name, Anchor::Start, Colour::Ink, layer.words())
}

/// Where a layer's entry begins.
fn entry_x(layer: PlottedLayer) -> Px
    ensures { result.0 ≡ entry_x layer }
{
    LEFT + Px(160) * layer.row()
}
