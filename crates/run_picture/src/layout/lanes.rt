//! The lanes: the marks of each node, from left to right.
ghost use Rattle.std.specs.Prelude.{◌≡◌, ◌++◌, OnOk, IfOk, string_bytes};
ghost use Rattle.std.specs.List.{flat_map};
ghost use Rattle.std.specs.Option.{option_map};
ghost use Rattle.run_picture.specs.Added.{Adds};
ghost use Rattle.svg_drawing.specs.Drawn.{drawn};
ghost use Rattle.run_picture.specs.Lanes.{bar, width_of, all_bars_shown, bars_shown, lane_shown};
ghost use Rattle.run_picture.specs.Lanes.{ticket_shown, AreLanes};
ghost use Rattle.run_picture.specs.Words.{ticket_words};

use super::page::Page;
use super::words::numeral;
use run_recording::{Column, Mark, Run, runs_of};
use std::alloc::{AllocError, Global};
use std::fmt::Write;
use svg_drawing::{Anchor, Canvas, Colour, Point, Px, Stroke};

/// Draws the lane of each node; `order` names the nodes of the lanes from the top.
pub fn draw_lanes(
    canvas: &mut Canvas,
    page: Page,
    order: &[u16],
    columns: &[Column],
) -> Result<(), AllocError>
    ensures { OnOk result
        (Adds (AreLanes page columns.now 0 order.now) (drawn canvas.old) (drawn canvas.new)) }
{
    for lane in 0..order.len() {
        let runs = runs_of(canvas.alloc(), columns, order[lane])?;
        draw_lane(canvas, page, lane, runs.as_slice())?;
    }
    Ok(())
}

/// Draws a lane. The worse the mark, the higher the bar.
fn draw_lane(canvas: &mut Canvas, page: Page, lane: usize, runs: &[Run]) -> Result<(), AllocError>
    ensures { OnOk result (drawn canvas.new ≡ drawn canvas.old ++ lane_shown page lane runs.now) }
{
    let y = page.y(lane);
    let high = page.lane - Px(2);
    let top = Point {
        x: page.left,
        y: y - high.half(),
    };
    canvas.rect(top, page.right() - page.left, high, Colour::Pale)?;
    draw_all_bars(canvas, page, y, runs, high)?;
    draw_tickets(canvas, page, y, runs)
}

/// Draws the bars of the runs that are wrong, privileged and lending, by the ranks of their marks.
fn draw_all_bars(
    canvas: &mut Canvas,
    page: Page,
    y: Px,
    runs: &[Run],
    high: Px,
) -> Result<(), AllocError>
    ensures { OnOk result (drawn canvas.new
        ≡ drawn canvas.old ++ all_bars_shown page y.0 high.0 runs.now) }
{
    let wrong = bars(canvas.alloc(), page, y, runs, 1)?;
    draw_steps(canvas, wrong.as_str(), Colour::Grey, high.half())?;
    let privileged = bars(canvas.alloc(), page, y, runs, 2)?;
    draw_steps(
        canvas,
        privileged.as_str(),
        Colour::Gold,
        (high * 3).half().half(),
    )?;
    let lending = bars(canvas.alloc(), page, y, runs, 3)?;
    draw_steps(canvas, lending.as_str(), Colour::Red, high)
}

/// Draws bars along steps, if there are any.
fn draw_steps(
    canvas: &mut Canvas,
    steps: &str,
    colour: Colour,
    height: Px,
) -> Result<(), AllocError>
    ensures { OnOk result (drawn canvas.new
        ≡ drawn canvas.old ++ bars_shown steps.now colour height.0) }
{
    if steps.is_empty() {
        return Ok(());
    }
    let stroke = Stroke {
        width: height,
        ..Stroke::whole(colour, 0)
    };
    canvas.path(steps, stroke)
}

/// The steps along all runs whose mark has this rank.
fn bars(alloc: Global, page: Page, y: Px, runs: &[Run], bad: u8) -> Result<String, AllocError>
    ensures { IfOk result (λ steps. string_bytes steps ≡ flat_map (bar page y.0 bad) runs.now) }
{
    let mut steps = String::new(alloc);
    for run in runs {
        push_bar(&mut steps, page, y, run, bad)?;
    }
    Ok(steps)
}

/// Adds the steps along a run, if its mark has this rank.
fn push_bar(steps: &mut String, page: Page, y: Px, run: &Run, bad: u8) -> Result<(), AllocError>
    ensures { OnOk result (string_bytes steps.new
        ≡ string_bytes steps.old ++ bar page y.0 bad run.now) }
{
    if run.mark.rank() != bad {
        return Ok(());
    }
    let x = page.x(run.first).0;
    let y = y.0;
    let width = width_of(page, run).0;
    write!(steps, "M{x} {y}h{width}")
}

/// How wide a run is.
fn width_of(page: Page, run: &Run) -> Px
    ensures { result.0 ≡ width_of page run.now }
{
    page.column * run.count
}

/// Writes the tickets of the runs that have room for them.
fn draw_tickets(canvas: &mut Canvas, page: Page, y: Px, runs: &[Run]) -> Result<(), AllocError>
    ensures { OnOk result (drawn canvas.new
        ≡ drawn canvas.old ++ flat_map (ticket_shown page y.0) runs.now) }
{
    for run in runs {
        draw_ticket(canvas, page, y, run)?;
    }
    Ok(())
}

/// Writes the ticket of a run that lends, if it has room.
fn draw_ticket(canvas: &mut Canvas, page: Page, y: Px, run: &Run) -> Result<(), AllocError>
    ensures { OnOk result (drawn canvas.new ≡ drawn canvas.old ++ ticket_shown page y.0 run.now) }
{
    let Some(text) = ticket_words(canvas.alloc(), run.mark)? else {
        return Ok(());
    };
    let width = width_of(page, run);
    if width.0 < (Px(7) * text.as_str().len() + Px(3)).0 {
        return Ok(());
    }
    let middle = Point {
        x: page.x(run.first) + width.half(),
        y: y + Px(4),
    };
    canvas.words(middle, Anchor::Middle, Colour::Paper, text.as_str())
}

/// The ticket of a node that lends, as a text.
fn ticket_words(alloc: Global, mark: Mark) -> Result<Option<String>, AllocError>
    ensures { IfOk result (λ words. option_map string_bytes words ≡ ticket_words mark) }
{
    match mark {
        Mark::Lending { ticket } => Ok(Some(numeral(alloc, u64::from(ticket))?)),
        _ => Ok(None),
    }
}
