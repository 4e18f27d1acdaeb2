//! The whole plot.
ghost use Rattle.std.specs.Prelude.{◌≡◌, IfOk, map};
ghost use Rattle.svg_drawing.specs.Drawn.{given_of};
ghost use Rattle.svg_drawing.specs.Xml.{IsContent};
ghost use Rattle.settling_plot.specs.Plot.{IsPlot, IsPlotted, page_attributes};

use crate::axis::Axis;
use crate::curves::draw_curves;
use crate::figure::Figure;
use crate::ground::draw_ground;
use crate::heading::{HEIGHT, WIDTH, draw_heading};
use crate::legend::draw_legend;
use crate::limits::draw_limits;
use std::alloc::{AllocError, Global};
use svg_drawing::{Attribute, Canvas, Drawing, Element, spelled};

/// The text of a figure's plot: SVG 1.1, as a file has it.
///
/// # Errors
/// If memory runs out. Each curve needs room for as many numbers as the greatest bound.
pub fn plotted(alloc: Global, figure: &Figure) -> Result<Vec<u8>, AllocError>
    ensures text { IfOk result (λ text. IsPlotted figure.now text.items) }
    ensures nests { IfOk result (λ text. IsContent text.items) }
{
    let drawing = draw(alloc, figure)?;
    spelled(alloc, &drawing)
}

/// The drawing of a figure.
///
/// # Errors
/// If memory runs out.
pub fn draw(alloc: Global, figure: &Figure) -> Result<Drawing, AllocError>
    ensures { IfOk result (IsPlot figure.now) }
{
    let axis = Axis::to(figure.last_bound());
    let mut canvas = Canvas::new(alloc);
    draw_heading(&mut canvas, figure)?;
    draw_ground(&mut canvas, axis)?;
    draw_limits(&mut canvas, axis, figure)?;
    draw_curves(&mut canvas, axis, figure)?;
    draw_legend(&mut canvas)?;
    Ok(Drawing {
        attributes: page_attributes(alloc)?,
        elements: canvas.elements,
    })
}

/// The attributes of the element that holds the page.
fn page_attributes(alloc: Global) -> Result<Vec<Attribute>, AllocError>
    ensures { IfOk result (λ attributes. map given_of attributes.items ≡ page_attributes) }
{
    let page = Element::new(alloc, "svg")
        .with(alloc, "xmlns", "http://www.w3.org/2000/svg")?
        .with(alloc, "version", "1.1")?
        .with_number(alloc, "width", WIDTH.0)?
        .with_number(alloc, "height", HEIGHT.0)?
        .with(alloc, "viewBox", "0 0 760 460")?
        .with(alloc, "font-family", "sans-serif")?
        .with(alloc, "font-size", "11")?;
    Ok(page.attributes)
}
