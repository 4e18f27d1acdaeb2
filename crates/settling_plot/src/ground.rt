//! What the curves stand on: the levels of the shares, and the axis of sweeps.
ghost use Rattle.std.specs.Prelude.{◌≡◌, ◌++◌, ◌≤◌, ◌<◌, OnOk, IfOk, string_bytes};
ghost use Rattle.svg_drawing.specs.Drawn.{drawn};
ghost use Rattle.settling_plot.specs.Axes.{IsAxis};
ghost use Rattle.settling_plot.specs.Ground.{ground_shown, level_shown, levels_shown};
ghost use Rattle.settling_plot.specs.Ground.{percent_words, tick_shown, ticks_shown, titles_shown};
ghost use Rattle.settling_plot.specs.Ground.{power_shown, tick_words};

use crate::axis::{Axis, GROUND, LEFT, height, power};
use std::alloc::{AllocError, Global};
use svg_drawing::{Anchor, Canvas, Colour, Point, Px, Stroke};

/// Draws what the curves stand on.
pub(crate) fn draw_ground(canvas: &mut Canvas, axis: Axis) -> Result<(), AllocError>
    requires { IsAxis axis }
    ensures { OnOk result (drawn canvas.new ≡ drawn canvas.old ++ ground_shown axis) }
{
    draw_levels(canvas, axis)?;
    draw_ticks(canvas, axis)?;
    draw_titles(canvas, axis)
}

/// Draws a line at each quarter of the runs.
fn draw_levels(canvas: &mut Canvas, axis: Axis) -> Result<(), AllocError>
    ensures { OnOk result (drawn canvas.new ≡ drawn canvas.old ++ levels_shown axis) }
{
    for quarter in 0..5 {
        draw_level(canvas, axis, quarter)?;
    }
    Ok(())
}

/// Draws the line at a number of quarters, with its share to the left of it.
fn draw_level(canvas: &mut Canvas, axis: Axis, quarter: usize) -> Result<(), AllocError>
    requires { quarter < 5 }
    ensures { OnOk result (drawn canvas.new ≡ drawn canvas.old ++ level_shown axis quarter) }
{
    let y = height(4, quarter);
    let end = Point { x: axis.right(), y };
    canvas.line(Point { x: LEFT, y }, end, Stroke::whole(Colour::Faint, 1))?;
    let share = percent(canvas.alloc(), quarter)?;
    let name = Point {
        x: LEFT - Px(8),
        y: y + Px(4),
    };
    canvas.words(name, Anchor::End, Colour::Ink, share.as_str())
}

/// The share that this many quarters make.
fn percent(alloc: Global, quarter: usize) -> Result<String, AllocError>
    requires { quarter < 5 }
    ensures { IfOk result (λ words. string_bytes words ≡ percent_words quarter) }
{
    let share = 25 * quarter;
    format!(in alloc; "{share} %")
}

/// Draws the numbers of the axis of sweeps.
fn draw_ticks(canvas: &mut Canvas, axis: Axis) -> Result<(), AllocError>
    requires { IsAxis axis }
    ensures { OnOk result (drawn canvas.new ≡ drawn canvas.old ++ ticks_shown axis) }
{
    draw_tick(canvas, LEFT, 0)?;
    for doublings in 0..axis.doublings + 1 {
        draw_power(canvas, axis, doublings)?;
    }
    Ok(())
}

/// Draws the number that the axis of sweeps reaches after this many doublings.
fn draw_power(canvas: &mut Canvas, axis: Axis, doublings: u32) -> Result<(), AllocError>
    requires { doublings ≤ 32 }
    ensures { OnOk result (drawn canvas.new ≡ drawn canvas.old ++ power_shown axis doublings) }
{
    draw_tick(canvas, axis.tick(doublings), power(doublings))
}

/// Draws a number of the axis of sweeps.
fn draw_tick(canvas: &mut Canvas, x: Px, number: u64) -> Result<(), AllocError>
    ensures { OnOk result (drawn canvas.new ≡ drawn canvas.old ++ tick_shown x.0 number) }
{
    let end = Point {
        x,
        y: GROUND + Px(6),
    };
    canvas.line(Point { x, y: GROUND }, end, Stroke::whole(Colour::Ink, 1))?;
    let words = numeral(canvas.alloc(), number)?;
    let name = Point {
        x,
        y: GROUND + Px(20),
    };
    canvas.words(name, Anchor::Middle, Colour::Ink, words.as_str())
}

/// A number, as a text.
fn numeral(alloc: Global, number: u64) -> Result<String, AllocError>
    ensures { IfOk result (λ words. string_bytes words ≡ tick_words number) }
{
    format!(in alloc; "{number}")
}

/// Says what the axes count.
fn draw_titles(canvas: &mut Canvas, axis: Axis) -> Result<(), AllocError>
    ensures { OnOk result (drawn canvas.new ≡ drawn canvas.old ++ titles_shown axis) }
{
    let upper = Point {
        x: Px(16),
        y: Px(124),
    };
    canvas.words(upper, Anchor::Start, Colour::Ink, "share of runs")?;
    let right = Point {
        x: axis.right(),
        y: GROUND + Px(38),
    };
    canvas.words(
        right,
        Anchor::End,
        Colour::Ink,
        "sweeps since the start; from 1 on, each step doubles the number",
    )
}
