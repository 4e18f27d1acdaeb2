//! What symbols are made of.
ghost use Rattle.std.specs.Prelude.{◌≡◌, [], IfOk};
ghost use Rattle.svg_drawing.specs.Drawn.{shown_of};
ghost use Rattle.svg_drawing.specs.Grouped.{grouped_of};
ghost use Rattle.run_film.specs.Shapes.{circle_shown, outline_shown, form_shown, symbol_shown};

use std::alloc::{AllocError, Global};
use svg_drawing::{Element, Group, Point};

/// A symbol with a name, which holds nothing yet.
pub fn symbol(alloc: Global, name: &str) -> Result<Group, AllocError>
    ensures { IfOk result (λ group. grouped_of group
        ≡ record { element = symbol_shown name.now; inside = [] }) }
{
    let element = Element::new(alloc, "symbol")
        .with(alloc, "id", name)?
        .with(alloc, "overflow", "visible")?;
    Ok(Group::alone(alloc, element))
}

/// A circle round a place.
pub fn circle(
    alloc: Global,
    at: Point,
    radius: u32,
    class: &str,
    fill: &str,
) -> Result<Element, AllocError>
    ensures { IfOk result (λ element. shown_of element
        ≡ circle_shown at radius class.now fill.now) }
{
    Element::new(alloc, "circle")
        .with_number(alloc, "cx", at.x.0)?
        .with_number(alloc, "cy", at.y.0)?
        .with_number(alloc, "r", radius)?
        .with(alloc, "class", class)?
        .with(alloc, "fill", fill)?
        .with(alloc, "stroke", "#22262a")
}

/// A form without a fill.
pub fn outline(
    alloc: Global,
    steps: &str,
    class: &str,
    colour: &str,
    width: u32,
) -> Result<Element, AllocError>
    ensures { IfOk result (λ element. shown_of element
        ≡ outline_shown steps.now class.now colour.now width) }
{
    Element::new(alloc, "path")
        .with(alloc, "d", steps)?
        .with(alloc, "class", class)?
        .with(alloc, "fill", "none")?
        .with(alloc, "stroke", colour)?
        .with_number(alloc, "stroke-width", width)
}

/// A filled form.
pub fn form(alloc: Global, steps: &str, class: &str, colour: &str) -> Result<Element, AllocError>
    ensures { IfOk result (λ element. shown_of element
        ≡ form_shown steps.now class.now colour.now) }
{
    Element::new(alloc, "path")
        .with(alloc, "d", steps)?
        .with(alloc, "class", class)?
        .with(alloc, "fill", colour)
}
