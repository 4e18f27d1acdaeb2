//! The axis of events.
ghost use Rattle.std.specs.Prelude.{◌≡◌, ◌^◌, ◌<◌, ◌≤◌, ◌++◌, ◌↔◌, IsTrue, IfOk, OnOk};
ghost use Rattle.std.specs.List.{flat_map};
ghost use Rattle.run_picture.specs.Added.{Adds};
ghost use Rattle.run_picture.specs.Axis.{AreFarApart, IsRoundStep, FirstFarApart};
ghost use Rattle.run_picture.specs.Axis.{axis_numbers, number_at, number_shown, IsAxis};
ghost use Rattle.svg_drawing.specs.Drawn.{drawn};

use super::page::Page;
use super::words::numeral;
use std::alloc::{AllocError, Global};
use svg_drawing::{Anchor, Canvas, Colour, Point, Px, Stroke};

/// The least distance between two numbers on the axis.
const APART: u128 = 70;

/// A number of the axis.
#[derive(Clone, Copy)]
pub struct AxisNumber {
    /// The column in which the moment is shown.
    pub place: usize,
    /// How many events have led to the moment.
    pub event: u64,
}

/// Draws the ticks of the axis. The first moment is the one after `first` events, and a column
/// shows `moments` moments.
pub fn draw_axis(
    canvas: &mut Canvas,
    page: Page,
    first: u64,
    moments: u64,
) -> Result<(), AllocError>
    ensures { OnOk result
        (Adds (IsAxis page first moments) (drawn canvas.old) (drawn canvas.new)) }
{
    let step = round_step(moments, page.column);
    let numbers = axis_numbers(canvas.alloc(), page.columns, first, moments, step)?;
    draw_numbers(canvas, page, numbers.as_slice())
}

/// Draws the ticks with their numbers.
fn draw_numbers(canvas: &mut Canvas, page: Page, numbers: &[AxisNumber]) -> Result<(), AllocError>
    ensures { OnOk result (drawn canvas.new
        ≡ drawn canvas.old ++ flat_map (number_shown page) numbers.now) }
{
    for number in numbers {
        draw_number(canvas, page, *number)?;
    }
    Ok(())
}

/// Draws a tick with its number.
fn draw_number(canvas: &mut Canvas, page: Page, number: AxisNumber) -> Result<(), AllocError>
    ensures { OnOk result (drawn canvas.new ≡ drawn canvas.old ++ number_shown page number) }
{
    let x = page.x(number.place);
    let y = page.ground();
    canvas.line(
        Point { x, y },
        Point { x, y: y + Px(6) },
        Stroke::whole(Colour::Ink, 1),
    )?;
    let text = numeral(canvas.alloc(), number.event)?;
    let below = Point { x, y: y + Px(20) };
    canvas.words(below, Anchor::Middle, Colour::Ink, text.as_str())
}

/// The numbers of the axis, a step apart.
fn axis_numbers(
    alloc: Global,
    columns: usize,
    first: u64,
    moments: u64,
    step: u64,
) -> Result<Vec<AxisNumber>, AllocError>
    requires { 0 < step }
    ensures { IfOk result (λ numbers. numbers.items ≡ axis_numbers columns first moments step) }
{
    let mut numbers = Vec::new(alloc);
    let mut next = first.checked_next_multiple_of(step);
    for _ in 0..columns {
        let Some(event) = next else {
            return Ok(numbers);
        };
        let number = number_at(first, moments, event);
        if number.place >= columns {
            return Ok(numbers);
        }
        numbers.push(number)?;
        next = event.checked_add(step);
    }
    Ok(numbers)
}

/// The number of the moment after `event` events.
fn number_at(first: u64, moments: u64, event: u64) -> AxisNumber
    ensures { result ≡ number_at first moments event }
{
    let later = event.saturating_sub(first);
    AxisNumber {
        place: later.checked_div(moments).unwrap_or(0) as usize,
        event,
    }
}

/// The least of 1, 2, 5, 10, 20, 50 and so on whose ticks are far enough apart, if a column shows
/// `moments` moments and is `width` wide; 10^19 if no lower one is.
fn round_step(moments: u64, width: Px) -> u64
    ensures { IsRoundStep moments width.0 result }
{
    let mut power = 1;
    for _ in 0..19usize {
        if let Some(step) = step_from(power, moments, width) {
            return step;
        }
        power *= 10;
    }
    power
}

/// The first of a power of ten, its double and five times it whose ticks are far enough apart, if
/// there is one.
fn step_from(power: u64, moments: u64, width: Px) -> Option<u64>
    requires { power ≤ 10 ^ 18 }
    ensures { FirstFarApart moments width.0 power result }
{
    if are_far_apart(power, moments, width) {
        Some(power)
    } else if are_far_apart(2 * power, moments, width) {
        Some(2 * power)
    } else if are_far_apart(5 * power, moments, width) {
        Some(5 * power)
    } else {
        None
    }
}

/// Whether ticks that are `step` events apart are far enough apart.
fn are_far_apart(step: u64, moments: u64, width: Px) -> bool
    ensures { IsTrue result ↔ AreFarApart moments width.0 step }
{
    u128::from(moments) * APART <= u128::from(step) * u128::from(width.0)
}
