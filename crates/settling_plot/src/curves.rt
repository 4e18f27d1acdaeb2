//! The curves: in how many runs a layer holds by each number of sweeps.
ghost use Rattle.std.specs.Prelude.{◌≡◌, ◌++◌, ◌≤◌, ◌^◌, ◌<◌, [], ◌∷◌, IfOk, OnOk, codes};
ghost use Rattle.std.specs.Prelude.{string_bytes};
ghost use Rattle.svg_drawing.specs.Drawn.{drawn};
ghost use Rattle.settling_plot.specs.Axes.{IsAxis};
ghost use Rattle.settling_plot.specs.Curves.{corner, curve_shown, curve_steps, curves_shown};
ghost use Rattle.settling_plot.specs.Curves.{end_step, scale_of};

use crate::axis::{Axis, height};
use crate::figure::{Distribution, Figure, PlottedLayer};
use crate::tally::tally;
use std::alloc::{AllocError, Global};
use std::fmt::Write;
use svg_drawing::Canvas;

/// Draws the four curves, the lowest layer's first.
pub(crate) fn draw_curves(
    canvas: &mut Canvas,
    axis: Axis,
    figure: &Figure,
) -> Result<(), AllocError>
    requires { IsAxis axis }
    ensures { OnOk result (drawn canvas.new ≡ drawn canvas.old ++ curves_shown axis figure.now) }
{
    let scale = scale_of(axis, figure);
    draw_curve(canvas, scale, PlottedLayer::Links, &figure.links)?;
    draw_curve(canvas, scale, PlottedLayer::Tree, &figure.tree)?;
    draw_curve(canvas, scale, PlottedLayer::Ring, &figure.ring)?;
    draw_curve(canvas, scale, PlottedLayer::Served, &figure.served)
}

/// What the curves of a figure are drawn over.
fn scale_of(axis: Axis, figure: &Figure) -> Scale
    ensures { result ≡ scale_of axis figure.now }
{
    Scale {
        axis,
        runs: figure.runs,
        last: figure.last_bound(),
    }
}

/// What a curve is drawn over.
#[derive(Clone, Copy)]
pub(crate) struct Scale {
    /// The axis of sweeps.
    pub(crate) axis: Axis,
    /// How many runs there are in all.
    pub(crate) runs: u32,
    /// The last number that a curve reaches.
    pub(crate) last: u32,
}

/// Draws the curve of a layer.
fn draw_curve(
    canvas: &mut Canvas,
    scale: Scale,
    layer: PlottedLayer,
    distribution: &Distribution,
) -> Result<(), AllocError>
    requires { IsAxis scale.axis }
    ensures { OnOk result (drawn canvas.new
        ≡ drawn canvas.old ++ curve_shown scale layer distribution.now.sweeps.items ∷ []) }
{
    let steps = steps_of(canvas.alloc(), scale, distribution.sweeps.as_slice())?;
    canvas.path(steps.as_str(), layer.stroke())
}

/// The steps of a curve.
fn steps_of(alloc: Global, scale: Scale, sweeps: &[u64]) -> Result<String, AllocError>
    requires { IsAxis scale.axis }
    ensures { IfOk result (λ steps. string_bytes steps ≡ curve_steps scale sweeps.now) }
{
    let tally = tally(alloc, sweeps, scale.last)?;
    let mut steps = String::new(alloc);
    steps.push_str("M72 378")?;
    let mut by = 0;
    for number in 0..tally.len() {
        by += tally[number];
        push_corner(&mut steps, scale, number, tally[number], by)?;
    }
    push_end(&mut steps, scale.axis)?;
    Ok(steps)
}

/// Adds the corner of a curve at a number of sweeps, which `at` runs have, and which `by` runs have
/// or fall short of.
fn push_corner(
    steps: &mut String,
    scale: Scale,
    number: usize,
    at: usize,
    by: usize,
) -> Result<(), AllocError>
    requires { IsAxis scale.axis }
    ensures { OnOk result (string_bytes steps.new
        ≡ string_bytes steps.old ++ corner scale number at by) }
{
    if at == 0 {
        return Ok(());
    }
    let x = scale.axis.x(number as u64).0;
    let y = height(scale.runs, by).0;
    write!(steps, "H{x}V{y}")
}

/// Adds the way to the right end of the axis.
fn push_end(steps: &mut String, axis: Axis) -> Result<(), AllocError>
    ensures { OnOk result (string_bytes steps.new ≡ string_bytes steps.old ++ end_step axis) }
{
    let x = axis.right().0;
    write!(steps, "H{x}")
}
