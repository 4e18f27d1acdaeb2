//! What stands above the lanes: damage, sweeps, and the lines from which the guarantee holds.
ghost use Rattle.std.specs.Prelude.{◌≡◌, if◌then◌else◌, [], ◌∷◌, ◌++◌, OnOk, IfOk};
ghost use Rattle.std.specs.Prelude.{string_bytes, length, map};
ghost use Rattle.run_picture.specs.Added.{over_each, Adds};
ghost use Rattle.svg_drawing.specs.Drawn.{drawn};
ghost use Rattle.run_picture.specs.Ruler.{mark_over, AreNumbers};
ghost use Rattle.run_picture.specs.Ruler.{has_room, with_number, damage_shown, ticks_shown};
ghost use Rattle.run_picture.specs.Ruler.{guarantee_shown, guarantees_over, lines_named};
ghost use Rattle.run_picture.specs.Ruler.{sweeps_shown, IsRuler};

use super::page::Page;
use super::words::numeral;
use run_recording::Column;
use std::alloc::{AllocError, Global};
use std::fmt::Write;
use svg_drawing::{Anchor, Canvas, Colour, Point, Px, Stroke};

/// The least distance between two numbers of sweeps.
const APART: u32 = 30;

/// A mark of damage, from its upper end on.
pub const BOLT: &str = "l4 0l-2 5l3 0l-6 9l2 -6l-3 0z";

/// Where damage is marked.
const DAMAGE: Px = Px(134);

/// Where the ticks of the sweeps begin.
const SWEEPS: Px = Px(164);

/// A mark over a column.
#[derive(Clone, Copy)]
enum RulerMark {
    /// Damage was accepted in it.
    Damage,
    /// A sweep ends in it.
    Sweep,
}

/// The line from which a guarantee holds.
#[derive(Clone, Copy)]
struct Guarantee {
    name: &'static str,
    /// The lengths of its dashes and gaps.
    dashes: &'static str,
    /// The upper end of its name, which stands left of it.
    name_at: Px,
}

/// The line of the sharp bound.
const SHARP: Guarantee = Guarantee {
    name: "sharp bound",
    dashes: "2 3",
    name_at: Px(110),
};

/// The line of the bound. Its name stands lower, so that the two do not touch.
const BOUND: Guarantee = Guarantee {
    name: "bound",
    dashes: "7 3",
    name_at: Px(122),
};

/// A number over a tick.
#[derive(Clone, Copy)]
pub struct SweepNumber {
    /// The column of the tick.
    pub place: usize,
    /// How many sweeps have ended up to the end of this column.
    pub ended: u64,
}

/// Draws what stands above the lanes, if `before` sweeps have ended before the first column.
pub fn draw_ruler(
    canvas: &mut Canvas,
    page: Page,
    columns: &[Column],
    before: u64,
) -> Result<(), AllocError>
    ensures { OnOk result
        (Adds (IsRuler page before columns.now) (drawn canvas.old) (drawn canvas.new)) }
{
    name_lines(canvas, page)?;
    draw_damage(canvas, page, columns)?;
    draw_sweeps(canvas, page, columns)?;
    let numbers = sweep_numbers(canvas.alloc(), page, columns, before)?;
    number_sweeps(canvas, page, numbers.as_slice())?;
    draw_guarantees(canvas, page, columns)
}

/// Says what the lines of damage and of sweeps are.
fn name_lines(canvas: &mut Canvas, page: Page) -> Result<(), AllocError>
    ensures { OnOk result (drawn canvas.new ≡ drawn canvas.old ++ lines_named page) }
{
    let x = page.left - Px(8);
    let damage = Point {
        x,
        y: DAMAGE + Px(11),
    };
    canvas.words(damage, Anchor::End, Colour::Ink, "damage")?;
    let sweeps = Point {
        x,
        y: SWEEPS + Px(8),
    };
    canvas.words(sweeps, Anchor::End, Colour::Ink, "sweeps")
}

/// Draws a mark over each column in which damage was accepted.
fn draw_damage(canvas: &mut Canvas, page: Page, columns: &[Column]) -> Result<(), AllocError>
    ensures { OnOk result (drawn canvas.new
        ≡ drawn canvas.old ++ damage_shown page columns.now ∷ []) }
{
    let steps = mark_steps(canvas.alloc(), page, columns, RulerMark::Damage)?;
    canvas.form(steps.as_str(), Colour::Red)
}

/// Draws a tick over each column in which a sweep ends.
fn draw_sweeps(canvas: &mut Canvas, page: Page, columns: &[Column]) -> Result<(), AllocError>
    ensures { OnOk result (drawn canvas.new
        ≡ drawn canvas.old ++ ticks_shown page columns.now ∷ []) }
{
    let steps = mark_steps(canvas.alloc(), page, columns, RulerMark::Sweep)?;
    canvas.path(steps.as_str(), Stroke::whole(Colour::Ink, 1))
}

/// The steps of the marks over the columns.
fn mark_steps(
    alloc: Global,
    page: Page,
    columns: &[Column],
    mark: RulerMark,
) -> Result<String, AllocError>
    ensures { IfOk result (λ steps. string_bytes steps
        ≡ over_each (mark_over mark page) 0 columns.now) }
{
    let mut steps = String::new(alloc);
    for place in 0..columns.len() {
        push_mark(&mut steps, page, place, &columns[place], mark)?;
    }
    Ok(steps)
}

/// Adds the mark over a column, if what it stands for happened there.
fn push_mark(
    steps: &mut String,
    page: Page,
    place: usize,
    column: &Column,
    mark: RulerMark,
) -> Result<(), AllocError>
    ensures { OnOk result (string_bytes steps.new
        ≡ string_bytes steps.old ++ mark_over mark page place column.now) }
{
    let x = page.middle(place).0;
    match mark {
        RulerMark::Damage if column.damaged => write!(steps, "M{x} {}{BOLT}", DAMAGE.0),
        RulerMark::Sweep if column.sweeps != 0 => write!(steps, "M{x} {}v10", SWEEPS.0),
        _ => Ok(()),
    }
}

/// Writes the numbers over the ticks.
fn number_sweeps(canvas: &mut Canvas, page: Page, numbers: &[SweepNumber]) -> Result<(), AllocError>
    ensures { OnOk result (drawn canvas.new
        ≡ drawn canvas.old ++ map (sweeps_shown page) numbers.now) }
{
    for number in numbers {
        number_sweep(canvas, page, *number)?;
    }
    Ok(())
}

/// Writes how many sweeps have ended, over a tick.
fn number_sweep(canvas: &mut Canvas, page: Page, number: SweepNumber) -> Result<(), AllocError>
    ensures { OnOk result (drawn canvas.new
        ≡ drawn canvas.old ++ sweeps_shown page number ∷ []) }
{
    let text = numeral(canvas.alloc(), number.ended)?;
    let at = Point {
        x: page.middle(number.place),
        y: SWEEPS - Px(2),
    };
    canvas.words(at, Anchor::Middle, Colour::Ink, text.as_str())
}

/// The numbers over the ticks, if `before` sweeps have ended before the first column.
fn sweep_numbers(
    alloc: Global,
    page: Page,
    columns: &[Column],
    before: u64,
) -> Result<Vec<SweepNumber>, AllocError>
    ensures { IfOk result (λ numbers.
        AreNumbers page before columns.now (length columns.now) numbers.items) }
{
    let mut numbers = Vec::new(alloc);
    let mut ended = before;
    for place in 0..columns.len() {
        let sweeps = columns[place].sweeps;
        ended = ended.saturating_add(sweeps);
        put_number(&mut numbers, page, sweeps, SweepNumber { place, ended })?;
    }
    Ok(numbers)
}

/// Adds a number, if `sweeps`, the count of sweeps that end in its column, is not 0 and there is
/// room for it.
fn put_number(
    numbers: &mut Vec<SweepNumber>,
    page: Page,
    sweeps: u64,
    number: SweepNumber,
) -> Result<(), AllocError>
    ensures { OnOk result (numbers.new.items
        ≡ with_number page sweeps number numbers.old.items) }
{
    if sweeps != 0 && has_room(page, numbers.as_slice(), number.place) {
        numbers.push(number)?;
    }
    Ok(())
}

/// Whether the last number, if there is one, leaves room for one over a column.
fn has_room(page: Page, numbers: &[SweepNumber], place: usize) -> bool
    ensures { result ≡ has_room page numbers.now place }
{
    match numbers {
        [.., last] => (page.middle(last.place) + Px(APART)).0 <= page.middle(place).0,
        [] => true,
    }
}

/// Draws a line where the sweeps since the last damage reach a bound.
fn draw_guarantees(canvas: &mut Canvas, page: Page, columns: &[Column]) -> Result<(), AllocError>
    ensures { OnOk result (drawn canvas.new
        ≡ drawn canvas.old ++ over_each (guarantees_over page) 0 columns.now) }
{
    for place in 0..columns.len() {
        draw_guarantees_over(canvas, page, place, &columns[place])?;
    }
    Ok(())
}

/// Draws the lines of the bounds that are reached in a column.
fn draw_guarantees_over(
    canvas: &mut Canvas,
    page: Page,
    place: usize,
    column: &Column,
) -> Result<(), AllocError>
    ensures { OnOk result (drawn canvas.new
        ≡ drawn canvas.old ++ guarantees_over page place column.now) }
{
    draw_if_reached(canvas, page, place, column.sharp, SHARP)?;
    draw_if_reached(canvas, page, place, column.bound, BOUND)
}

/// Draws the line of a bound in a column, if it is reached there.
fn draw_if_reached(
    canvas: &mut Canvas,
    page: Page,
    place: usize,
    is_reached: bool,
    line: Guarantee,
) -> Result<(), AllocError>
    ensures { OnOk result (drawn canvas.new ≡ drawn canvas.old ++ (if is_reached
        then guarantee_shown page place line.name_at.0 line.dashes.now line.name.now else [])) }
{
    if !is_reached {
        return Ok(());
    }
    draw_guarantee(canvas, page, place, line)
}

/// Draws the line of a bound through the middle of a column, with its name.
fn draw_guarantee(
    canvas: &mut Canvas,
    page: Page,
    place: usize,
    line: Guarantee,
) -> Result<(), AllocError>
    ensures { OnOk result (drawn canvas.new ≡ drawn canvas.old
        ++ guarantee_shown page place line.name_at.0 line.dashes.now line.name.now) }
{
    let x = page.middle(place);
    let top = Point { x, y: line.name_at };
    let ground = Point {
        x,
        y: page.ground(),
    };
    let stroke = Stroke {
        dashes: line.dashes,
        ..Stroke::whole(Colour::Blue, 2)
    };
    canvas.line(top, ground, stroke)?;
    let beside = Point {
        x: x - Px(4),
        y: line.name_at + Px(9),
    };
    canvas.words(beside, Anchor::End, Colour::Blue, line.name)
}
