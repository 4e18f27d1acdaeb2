//! What is above the curves.
ghost use Rattle.std.specs.Prelude.{◌≡◌, ◌++◌, IfOk, OnOk, string_bytes};
ghost use Rattle.svg_drawing.specs.Drawn.{drawn};
ghost use Rattle.settling_plot.specs.Heading.{heading_shown, run_words, served_words, said_words};

use crate::figure::Figure;
use std::alloc::{AllocError, Global};
use std::fmt::Write;
use svg_drawing::{Anchor, Canvas, Colour, Point, Px};

/// The title.
const TITLE: &str = "Sweeps until each layer stands for good";

/// The page's width.
pub(crate) const WIDTH: Px = Px(760);

/// The page's height.
pub(crate) const HEIGHT: Px = Px(460);

/// Draws what comes first: the title and the description, for those who do not see the plot; the
/// white ground; and over it both of them again.
pub(crate) fn draw_heading(canvas: &mut Canvas, figure: &Figure) -> Result<(), AllocError>
    ensures { OnOk result (drawn canvas.new ≡ drawn canvas.old ++ heading_shown figure.now) }
{
    let said = said(canvas.alloc(), figure)?;
    canvas.note("title", TITLE)?;
    canvas.note("desc", said.as_str())?;
    let corner = Point { x: Px(0), y: Px(0) };
    canvas.rect(corner, WIDTH, HEIGHT, Colour::Paper)?;
    let upper = Point {
        x: Px(16),
        y: Px(26),
    };
    canvas.heading(upper, TITLE)?;
    let lower = Point {
        x: Px(16),
        y: Px(46),
    };
    canvas.words(lower, Anchor::Start, Colour::Ink, said.as_str())
}

/// What the runs were.
fn said(alloc: Global, figure: &Figure) -> Result<String, AllocError>
    ensures { IfOk result (λ words. string_bytes words ≡ said_words figure.now) }
{
    let mut text = runs(alloc, figure.runs, figure.nodes, figure.seed)?;
    push_served(&mut text, figure.served.sweeps.len(), figure.served.bound)?;
    Ok(text)
}

/// How many runs there were, and what they started from.
fn runs(alloc: Global, runs: u32, nodes: u16, seed: u32) -> Result<String, AllocError>
    ensures { IfOk result (λ words. string_bytes words ≡ run_words runs nodes seed) }
{
    format!(in alloc; "{runs} runs of {nodes} nodes from scrambled worlds, seeds from {seed} on; ")
}

/// Adds how many runs served by the bound.
fn push_served(text: &mut String, served: usize, bound: u32) -> Result<(), AllocError>
    ensures { OnOk result (string_bytes text.new
        ≡ string_bytes text.old ++ served_words served bound) }
{
    write!(text, "{served} of them served by sweep {bound}")
}
