//! A run laid out on a page.
ghost use Rattle.std.specs.Prelude.{◌≡◌, IfOk, OnOk, map};
ghost use Rattle.svg_drawing.specs.Drawn.{given_of};
ghost use Rattle.run_picture.specs.Picture.{attributes_of, AddsLastState, AreStatesOf};
ghost use Rattle.run_picture.specs.Picture.{IsLayeredPicture, IsPicture};

mod axis;
mod curves;
mod lanes;
mod legend;
mod page;
mod ruler;
mod settled;
mod tree;
mod words;

use axis::draw_axis;
use curves::{draw_curves, draw_levels};
use lanes::draw_lanes;
use legend::draw_legend;
use page::Page;
use ruler::draw_ruler;
use run_recording::{Layers, Recording, first_visits};
use settled::draw_settled;
use std::alloc::{AllocError, Global};
use svg_drawing::{Attribute, Canvas, Colour, Drawing, Element, Point, Px};
use topology::Net;
use tree::draw_tree;
use words::draw_head;

/// The drawing of a run on a network.
pub fn draw(alloc: Global, net: &Net, recording: &Recording) -> Result<Drawing, AllocError>
    ensures { IfOk result (IsPicture net.now recording.now) }
{
    let columns = recording.strip().columns();
    let width = recording.strip().width();
    let before = recording.before();
    let order = first_visits(alloc, net)?;
    let page = Page::new(net, columns.len());
    let mut canvas = Canvas::new(alloc);
    draw_head(&mut canvas, page, net, recording)?;
    draw_legend(&mut canvas, width)?;
    draw_tree(&mut canvas, page, net, order.as_slice())?;
    draw_lanes(&mut canvas, page, order.as_slice(), columns)?;
    draw_levels(&mut canvas, page, columns)?;
    draw_curves(&mut canvas, page, columns)?;
    draw_axis(&mut canvas, page, before.events, width)?;
    draw_ruler(&mut canvas, page, columns, before.sweeps)?;
    Ok(Drawing {
        attributes: page_attributes(alloc, page.width(), page.height())?,
        elements: canvas.elements,
    })
}

/// How much higher the page is with the lanes of what has settled.
const SETTLED: Px = Px(72);

/// The drawing of a run on a network, and below it what has settled, column by column.
pub fn draw_layered(alloc: Global, net: &Net, recording: &Recording) -> Result<Drawing, AllocError>
    ensures { IfOk result (IsLayeredPicture net.now recording.now) }
{
    let page = Page::new(net, recording.strip().columns().len());
    let picture = draw(alloc, net, recording)?;
    let states = states_of(alloc, recording)?;
    let mut canvas = Canvas::new(alloc);
    canvas.elements = picture.elements;
    let corner = Point {
        x: Px(0),
        y: page.height(),
    };
    canvas.rect(corner, page.width(), SETTLED, Colour::Paper)?;
    draw_settled(&mut canvas, page, states.as_slice())?;
    Ok(Drawing {
        attributes: page_attributes(alloc, page.width(), page.height() + SETTLED)?,
        elements: canvas.elements,
    })
}

/// What had settled at the last moment of each column. If the last column is not full, its last
/// moment is the end of the run; if the window does not hold that moment, nothing stands for the
/// column.
fn states_of(alloc: Global, recording: &Recording) -> Result<Vec<Layers>, AllocError>
    ensures { IfOk result (λ states. AreStatesOf recording.now states.items) }
{
    let mut states = Vec::new(alloc);
    let Some(lanes) = recording.lanes() else {
        return Ok(states);
    };
    states.extend_from_slice(lanes.states())?;
    put_last(&mut states, lanes.left(), recording)?;
    Ok(states)
}

/// Adds what has settled at the end, if `left`, the number of moments in no full column, is not 0
/// and the window holds the end.
fn put_last(states: &mut Vec<Layers>, left: u64, recording: &Recording) -> Result<(), AllocError>
    ensures { OnOk result (AddsLastState recording.now left states.old.items states.new.items) }
{
    if left == 0 {
        return Ok(());
    }
    let Some(last) = recording.settled_at_end() else {
        return Ok(());
    };
    states.push(last)?;
    Ok(())
}

/// The attributes of the element that holds a page.
fn page_attributes(alloc: Global, width: Px, height: Px) -> Result<Vec<Attribute>, AllocError>
    ensures { IfOk result (λ attributes. map given_of attributes.items
        ≡ attributes_of width.0 height.0) }
{
    let (width, height) = (width.0, height.0);
    let view = format!(in alloc; "0 0 {width} {height}")?;
    let holder = Element::new(alloc, "svg")
        .with(alloc, "xmlns", "http://www.w3.org/2000/svg")?
        .with(alloc, "version", "1.1")?
        .with_number(alloc, "width", width)?
        .with_number(alloc, "height", height)?
        .with(alloc, "viewBox", view.as_str())?
        .with(alloc, "font-family", "sans-serif")?
        .with(alloc, "font-size", "11")?;
    Ok(holder.attributes)
}
