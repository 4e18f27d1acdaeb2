//! What has settled, as four thin lanes below the picture.
ghost use Rattle.std.specs.Prelude.{◌≡◌, ◌++◌, ◌<◌, ◌^◌, if◌then◌else◌, OnOk, IfOk, map, string_bytes};
ghost use Rattle.svg_drawing.specs.Drawn.{drawn};
ghost use Rattle.run_picture.specs.Settled.{all_lanes_shown, base_of, colour_of, share};
ghost use Rattle.run_picture.specs.Settled.{lane_words, level_in, row_of, settled_lane_shown};
ghost use Rattle.run_picture.specs.Settled.{settled_step, settled_steps};

use super::page::Page;
use run_recording::Layers;
use std::alloc::{AllocError, Global};
use std::fmt::Write;
use svg_drawing::{Anchor, Canvas, Colour, Point, Px};

/// The height of a lane if its whole layer holds.
const HIGH: u32 = 8;

/// A layer of the proof.
#[derive(Clone, Copy)]
pub enum Layer {
    /// The links: as high as the share of them that is stable.
    Links,
    /// The tree: as high as the stage up to which the distances are right, and at full height only
    /// if the tree is reached.
    Tree,
    /// The token ring.
    Ring,
    /// The loans: whether each has the privilege.
    Loans,
}

impl Layer {
    /// The name to the left of its lane.
    fn words(self) -> &'static str
        ensures { result.now ≡ lane_words self }
    {
        match self {
            Layer::Links => "links",
            Layer::Tree => "tree",
            Layer::Ring => "ring",
            Layer::Loans => "loans",
        }
    }

    /// The colour of its lane.
    fn colour(self) -> Colour
        ensures { result ≡ colour_of self }
    {
        match self {
            Layer::Links => Colour::Sky,
            Layer::Tree => Colour::Green,
            Layer::Ring => Colour::Purple,
            Layer::Loans => Colour::Vermilion,
        }
    }

    /// Its place among the four, from the top.
    fn row(self) -> usize
        ensures { result ≡ row_of self }
    {
        match self {
            Layer::Links => 0,
            Layer::Tree => 1,
            Layer::Ring => 2,
            Layer::Loans => 3,
        }
    }

    /// The height of its lane in a column with these layers.
    fn level(self, layers: &Layers) -> u32
        ensures { result ≡ level_in self layers.now }
    {
        match self {
            Layer::Links => share(layers.stable, layers.links),
            Layer::Tree if layers.tree => HIGH,
            Layer::Tree => {
                share(usize::from(layers.stage), usize::from(layers.last_stage)).min(HIGH - 1)
            }
            Layer::Ring => whole(layers.ring),
            Layer::Loans => whole(layers.loans),
        }
    }
}

/// The height of a lane if a part of its layer holds.
fn share(part: usize, all: usize) -> u32
    ensures { result ≡ share part all }
{
    let high = part.min(1_000_000) * 8 / all.max(1);
    high.min(8) as u32
}

/// The height of a lane whose layer holds as a whole or not at all.
fn whole(stands: bool) -> u32
    ensures { result ≡ (if stands then 8 else 0) }
{
    if stands { HIGH } else { 0 }
}

/// Draws the four lanes, of the layers at the last moment of each column.
pub fn draw_settled(canvas: &mut Canvas, page: Page, states: &[Layers]) -> Result<(), AllocError>
    ensures { OnOk result (drawn canvas.new ≡ drawn canvas.old ++ all_lanes_shown page states.now) }
{
    draw_lane(canvas, page, Layer::Links, states)?;
    draw_lane(canvas, page, Layer::Tree, states)?;
    draw_lane(canvas, page, Layer::Ring, states)?;
    draw_lane(canvas, page, Layer::Loans, states)
}

/// Draws the lane of a layer: its ground, over that where the layer holds, and to the left its
/// name.
fn draw_lane(
    canvas: &mut Canvas,
    page: Page,
    layer: Layer,
    states: &[Layers],
) -> Result<(), AllocError>
    ensures { OnOk result (drawn canvas.new
        ≡ drawn canvas.old ++ settled_lane_shown page layer states.now) }
{
    let base = base_of(page, layer);
    let top = Point {
        x: page.left,
        y: base - Px(HIGH),
    };
    canvas.rect(top, page.right() - page.left, Px(HIGH), Colour::Pale)?;
    let steps = steps_of(canvas.alloc(), page, layer, states)?;
    canvas.form(steps.as_str(), layer.colour())?;
    let name = Point {
        x: page.left - Px(8),
        y: base,
    };
    canvas.words(name, Anchor::End, Colour::Ink, layer.words())
}

/// The lower end of the lane of a layer.
fn base_of(page: Page, layer: Layer) -> Px
    ensures { result.0 ≡ base_of page layer }
{
    page.ground() + Px(80) + Px(14) * layer.row()
}

/// The outline of where a layer holds.
fn steps_of(
    alloc: Global,
    page: Page,
    layer: Layer,
    states: &[Layers],
) -> Result<String, AllocError>
    ensures { IfOk result (λ steps. string_bytes steps
        ≡ settled_steps page (base_of page layer) (map (level_in layer) states.now)) }
{
    let base = base_of(page, layer).0;
    let left = page.left.0;
    let mut steps = format!(in alloc; "M{left} {base}")?;
    for place in 0..states.len() {
        push_step(&mut steps, page, base, place, layer.level(&states[place]))?;
    }
    write!(steps, "V{base}z")?;
    Ok(steps)
}

/// Adds the outline's steps in a column.
fn push_step(
    steps: &mut String,
    page: Page,
    base: u32,
    place: usize,
    level: u32,
) -> Result<(), AllocError>
    requires { place < 2 ^ 63 }
    ensures { OnOk result (string_bytes steps.new
        ≡ string_bytes steps.old ++ settled_step page base place level) }
{
    let y = base.saturating_sub(level);
    let end = page.x(place + 1).0;
    write!(steps, "V{y}H{end}")
}
