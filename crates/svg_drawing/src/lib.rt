//! A drawing, and its text as SVG 1.1.
//!
//! A [`Canvas`] takes elements, one over the other: rectangles, circles, lines, forms, and texts in
//! one line. Lengths are [`Px`], in units of the page. A [`Drawing`] is an element `svg` that holds
//! such [`Element`]s, and [`spelled`] writes it:
//!
//! ```
//! let mut canvas = Canvas::new(alloc);
//! canvas.circle(Point { x: Px(24), y: Px(192) }, Px(5), Colour::Ink)?;
//! let drawing = Drawing { attributes, elements: canvas.elements };
//! let text = spelled(alloc, &drawing)?;      // bytes of a file that a browser shows
//! ```
//!
//! It knows nothing about networks and runs, and measures no text: what is drawn, and at which
//! place, is up to the caller.
//!
//! The trap: lengths stay between 0 and what 32 bits hold, so what would be beyond these ends is
//! drawn at them.
#![tactic(auto)]

mod canvas;
mod colours;
mod element;
mod px;
mod spelling;

pub use canvas::{Anchor, Canvas, Point, Stroke};
pub use colours::Colour;
pub use element::{Attribute, Document, Drawing, Element, Fixed, Group, GroupedDrawing};
pub use px::Px;
pub use spelling::{spelled, spelled_document, spelled_scene};
