//! A text of a film.
ghost use Rattle.std.specs.Prelude.{◌≡◌, IfOk};
ghost use Rattle.svg_drawing.specs.Drawn.{shown_of};
ghost use Rattle.run_film.specs.Words.{words_shown};

use std::alloc::{AllocError, Global};
use svg_drawing::{Element, Point};

/// A text whose left end stands at a place.
pub fn words(alloc: Global, at: Point, text: &str) -> Result<Element, AllocError>
    ensures { IfOk result (λ element. shown_of element ≡ words_shown at text.now) }
{
    Element::new(alloc, "text")
        .with_number(alloc, "x", at.x.0)?
        .with_number(alloc, "y", at.y.0)?
        .with(alloc, "class", "ink")?
        .with(alloc, "fill", "#22262a")?
        .saying(text)
}
