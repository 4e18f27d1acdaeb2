//! What the colours and signs of a picture mean.
ghost use Rattle.std.specs.Prelude.{◌≡◌, ◌+◌, ◌-◌, ◌∷◌, ◌++◌, [], IfOk, OnOk, string_bytes};
ghost use Rattle.svg_drawing.specs.Drawn.{drawn, pen_of, line_shown, words_shown};
ghost use Rattle.svg_drawing.specs.declared.canvas.Anchor.TheVariants.{Start};
ghost use Rattle.svg_drawing.specs.declared.colours.Colour.TheVariants.{Ink};
ghost use Rattle.run_picture.specs.declared.layout.legend.Sign.TheVariants.{Bar, Bolt};
ghost use Rattle.run_picture.specs.Legend.{sign_shown, room_of, later, meanings_shown};
ghost use Rattle.run_picture.specs.Legend.{colour_meanings, sign_meanings, legend_shown};
ghost use Rattle.svg_drawing.specs.Lengths.{px};
ghost use Rattle.run_picture.specs.Words.{column_words};

use super::page::Page;
use super::ruler::BOLT;
use std::alloc::{AllocError, Global};
use svg_drawing::{Anchor, Canvas, Colour, Point, Px, Stroke};

/// Where the three lines of the legend begin.
const COLOURS: Point = Point {
    x: Page::MARGIN,
    y: Px(68),
};

const SIGNS: Point = Point {
    x: Page::MARGIN,
    y: Px(86),
};

const COLUMNS: Point = Point {
    x: Page::MARGIN,
    y: Px(104),
};

/// The assumed width of a letter.
const LETTER: Px = Px(6);

/// What the legend explains.
#[derive(Clone, Copy)]
pub enum Sign {
    /// A bar of a lane: its colour, and its height.
    Bar(Colour, u32),
    /// The mark of damage.
    Bolt,
    /// A line that stands over the lanes, or goes through them: its colour, and its width.
    Upright(Colour, u32),
    /// A line that joins two nodes: its colour, and its width.
    Edge(Colour, u32),
}

impl Sign {
    /// How far to the right of its place its meaning is written.
    fn room(self) -> Px
        ensures { result.0 ≡ room_of self }
    {
        match self {
            Sign::Upright(..) => Px(16),
            _ => Px(22),
        }
    }
}

/// Draws the legend, for columns that show `width` moments each.
pub fn draw_legend(canvas: &mut Canvas, width: u64) -> Result<(), AllocError>
    ensures { OnOk result (drawn canvas.new ≡ drawn canvas.old ++ legend_shown width) }
{
    draw_colours(canvas)?;
    draw_signs(canvas)?;
    draw_width(canvas, width)
}

/// Explains the colours of the lanes.
fn draw_colours(canvas: &mut Canvas) -> Result<(), AllocError>
    ensures { OnOk result (drawn canvas.new
        ≡ drawn canvas.old ++ meanings_shown 16 68 colour_meanings) }
{
    let sign = Sign::Bar(Colour::Pale, 12);
    let next = explain(canvas, COLOURS, sign, "distance and parent true")?;
    let sign = Sign::Bar(Colour::Grey, 6);
    let next = explain(canvas, next, sign, "distance or parent wrong")?;
    let sign = Sign::Bar(Colour::Gold, 9);
    let next = explain(canvas, next, sign, "privileged")?;
    let sign = Sign::Bar(Colour::Red, 12);
    explain(canvas, next, sign, "lends the lock, to the ticket written")?;
    Ok(())
}

/// Explains the signs above the lanes, and the edges beside them.
fn draw_signs(canvas: &mut Canvas) -> Result<(), AllocError>
    ensures { OnOk result (drawn canvas.new
        ≡ drawn canvas.old ++ meanings_shown 16 86 sign_meanings) }
{
    let next = explain(canvas, SIGNS, Sign::Bolt, "damage")?;
    let sign = Sign::Upright(Colour::Ink, 1);
    let next = explain(canvas, next, sign, "a sweep ends")?;
    let sign = Sign::Upright(Colour::Blue, 2);
    let next = explain(canvas, next, sign, "the guarantee holds from here")?;
    let sign = Sign::Edge(Colour::Ink, 3);
    let next = explain(canvas, next, sign, "edge of the tree")?;
    let sign = Sign::Edge(Colour::Faint, 1);
    explain(canvas, next, sign, "other edge")?;
    Ok(())
}

/// Writes what a column is.
fn draw_width(canvas: &mut Canvas, width: u64) -> Result<(), AllocError>
    ensures { OnOk result (drawn canvas.new
        ≡ drawn canvas.old ++ words_shown 16 104 Start Ink (column_words width) ∷ []) }
{
    let what = column_words(canvas.alloc(), width)?;
    canvas.words(COLUMNS, Anchor::Start, Colour::Ink, what.as_str())
}

/// How many moments a column shows, in words.
fn column_words(alloc: Global, width: u64) -> Result<String, AllocError>
    ensures { IfOk result (λ words. string_bytes words ≡ column_words width) }
{
    if width == 1 {
        format!(in alloc; "a column is 1 event")
    } else {
        format!(in alloc; "a column is {width} events, and shows the worst of them")
    }
}

/// Draws a sign, writes after it what it means, and returns where the next one may stand.
fn explain(canvas: &mut Canvas, at: Point, sign: Sign, meaning: &str) -> Result<Point, AllocError>
    ensures signs { OnOk result (drawn canvas.new
        ≡ drawn canvas.old ++ (sign_shown at.x.0 at.y.0 sign
        ∷ words_shown (px (at.x.0 + room_of sign)) at.y.0 Start Ink meaning.now ∷ [])) }
    ensures x { IfOk result (λ next. next.x.0
        ≡ later (px (at.x.0 + room_of sign)) meaning.now) }
    ensures y { IfOk result (λ next. next.y.0 ≡ at.y.0) }
{
    draw_sign(canvas, at, sign)?;
    let Point { x, y } = at;
    let x = x + sign.room();
    canvas.words(Point { x, y }, Anchor::Start, Colour::Ink, meaning)?;
    Ok(Point {
        x: x + LETTER * meaning.len() + Px(16),
        y,
    })
}

/// Draws a sign.
fn draw_sign(canvas: &mut Canvas, at: Point, sign: Sign) -> Result<(), AllocError>
    ensures { OnOk result (drawn canvas.new
        ≡ drawn canvas.old ++ sign_shown at.x.0 at.y.0 sign ∷ []) }
{
    match sign {
        Sign::Bar(colour, height) => draw_bar(canvas, at, colour, Px(height)),
        Sign::Bolt => draw_bolt(canvas, at),
        Sign::Upright(colour, width) => draw_upright(canvas, at, Stroke::whole(colour, width)),
        Sign::Edge(colour, width) => draw_edge(canvas, at, Stroke::whole(colour, width)),
    }
}

/// Draws a bar of a lane.
fn draw_bar(canvas: &mut Canvas, at: Point, colour: Colour, height: Px) -> Result<(), AllocError>
    ensures { OnOk result (drawn canvas.new
        ≡ drawn canvas.old ++ sign_shown at.x.0 at.y.0 (Bar colour height.0) ∷ []) }
{
    let top = Point {
        x: at.x,
        y: at.y - Px(4) - height.half(),
    };
    canvas.rect(top, Px(16), height, colour)
}

/// Draws a mark of damage.
fn draw_bolt(canvas: &mut Canvas, at: Point) -> Result<(), AllocError>
    ensures { OnOk result (drawn canvas.new
        ≡ drawn canvas.old ++ sign_shown at.x.0 at.y.0 Bolt ∷ []) }
{
    let x = (at.x + Px(6)).0;
    let y = (at.y - Px(10)).0;
    let steps = format!(in canvas.alloc(); "M{x} {y}{BOLT}")?;
    canvas.form(steps.as_str(), Colour::Red)
}

/// Draws an upright line.
fn draw_upright(canvas: &mut Canvas, at: Point, stroke: Stroke) -> Result<(), AllocError>
    ensures { OnOk result (drawn canvas.new ≡ drawn canvas.old
        ++ line_shown (px (at.x.0 + 8)) (at.y.0 - 10) (px (at.x.0 + 8)) at.y.0 (pen_of stroke)
        ∷ []) }
{
    let x = at.x + Px(8);
    let top = Point {
        x,
        y: at.y - Px(10),
    };
    canvas.line(top, Point { x, y: at.y }, stroke)
}

/// Draws an edge.
fn draw_edge(canvas: &mut Canvas, at: Point, stroke: Stroke) -> Result<(), AllocError>
    ensures { OnOk result (drawn canvas.new ≡ drawn canvas.old
        ++ line_shown at.x.0 (at.y.0 - 4) (px (at.x.0 + 16)) (at.y.0 - 4) (pen_of stroke) ∷ []) }
{
    let y = at.y - Px(4);
    let end = Point {
        x: at.x + Px(16),
        y,
    };
    canvas.line(Point { x: at.x, y }, end, stroke)
}
