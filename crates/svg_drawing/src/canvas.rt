//! Where the elements of a drawing are collected.
ghost use Rattle.std.specs.Prelude.{◌≡◌, ◌∷◌, ◌++◌, [], OnOk};
ghost use Rattle.svg_drawing.specs.Drawn.{drawn, shown_of, anchor_code, pen_of, whole};
ghost use Rattle.svg_drawing.specs.Drawn.{note_shown, rect_shown, circle_shown, line_shown};
ghost use Rattle.svg_drawing.specs.Drawn.{path_shown, form_shown, words_shown, heading_shown};

use crate::colours::Colour;
use crate::element::Element;
use crate::px::Px;
use std::alloc::{AllocError, Global};

/// A place on the page.
#[derive(Clone, Copy)]
pub struct Point {
    /// How far it is from the left edge.
    pub x: Px,
    /// How far it is from the upper edge.
    pub y: Px,
}

/// Which part of a text is at its place.
#[derive(Clone, Copy)]
pub enum Anchor {
    /// Its left end.
    Start,
    /// Its middle.
    Middle,
    /// Its right end.
    End,
}

impl Anchor {
    /// The anchor as SVG writes it.
    fn code(self) -> &'static str
        ensures { result.now ≡ anchor_code self }
    {
        match self {
            Anchor::Start => "start",
            Anchor::Middle => "middle",
            Anchor::End => "end",
        }
    }
}

/// How a line is drawn.
#[derive(Clone, Copy)]
pub struct Stroke {
    /// Its colour.
    pub colour: Colour,
    /// Its width.
    pub width: Px,
    /// The lengths of dashes and gaps; `none` for a line without gaps.
    pub dashes: &'static str,
}

impl Stroke {
    /// A line without gaps.
    pub fn whole(colour: Colour, width: u32) -> Stroke
        ensures { pen_of result ≡ whole colour width }
    {
        Stroke {
            colour,
            width: Px(width),
            dashes: "none",
        }
    }
}

/// The elements of a drawing, the undermost first.
#[derive(Drop)]
pub struct Canvas {
    alloc: Global,
    pub elements: Vec<Element>,
}

impl Canvas {
    /// A canvas with nothing on it.
    pub fn new(alloc: Global) -> Canvas
        ensures { drawn result ≡ [] }
    {
        Canvas {
            alloc,
            elements: Vec::new(alloc),
        }
    }

    /// The allocator that memory is taken from.
    pub fn alloc(&self) -> Global {
        self.alloc
    }

    /// Adds an element over all others.
    fn add(&mut self, element: Element) -> Result<(), AllocError>
        ensures { OnOk result (drawn self.new ≡ drawn self.old ++ shown_of element ∷ []) }
    {
        self.elements.push(element)?;
        Ok(())
    }

    /// Adds an element that only says something about the drawing.
    pub fn note(&mut self, name: &'static str, text: &str) -> Result<(), AllocError>
        ensures { OnOk result (drawn self.new
            ≡ drawn self.old ++ note_shown name.now text.now ∷ []) }
    {
        let note = Element::new(self.alloc, name).saying(text)?;
        self.add(note)
    }

    /// Adds a filled rectangle.
    pub fn rect(
        &mut self,
        at: Point,
        width: Px,
        height: Px,
        colour: Colour,
    ) -> Result<(), AllocError>
        ensures { OnOk result (drawn self.new
            ≡ drawn self.old ++ rect_shown at.x.0 at.y.0 width.0 height.0 colour ∷ []) }
    {
        let rect = Element::new(self.alloc, "rect")
            .with_number(self.alloc, "x", at.x.0)?
            .with_number(self.alloc, "y", at.y.0)?
            .with_number(self.alloc, "width", width.0)?
            .with_number(self.alloc, "height", height.0)?
            .with(self.alloc, "fill", colour.code())?;
        self.add(rect)
    }

    /// Adds a filled circle.
    pub fn circle(&mut self, at: Point, radius: Px, colour: Colour) -> Result<(), AllocError>
        ensures { OnOk result (drawn self.new
            ≡ drawn self.old ++ circle_shown at.x.0 at.y.0 radius.0 colour ∷ []) }
    {
        let circle = Element::new(self.alloc, "circle")
            .with_number(self.alloc, "cx", at.x.0)?
            .with_number(self.alloc, "cy", at.y.0)?
            .with_number(self.alloc, "r", radius.0)?
            .with(self.alloc, "fill", colour.code())?;
        self.add(circle)
    }

    /// Adds a straight line.
    pub fn line(&mut self, from: Point, to: Point, stroke: Stroke) -> Result<(), AllocError>
        ensures { OnOk result (drawn self.new
            ≡ drawn self.old ++ line_shown from.x.0 from.y.0 to.x.0 to.y.0 (pen_of stroke) ∷ []) }
    {
        let (x, y, end_x, end_y) = (from.x.0, from.y.0, to.x.0, to.y.0);
        let steps = format!(in self.alloc; "M{x} {y}L{end_x} {end_y}")?;
        self.path(steps.as_str(), stroke)
    }

    /// Adds a line of any form: its steps are those of an SVG path.
    pub fn path(&mut self, steps: &str, stroke: Stroke) -> Result<(), AllocError>
        ensures { OnOk result (drawn self.new
            ≡ drawn self.old ++ path_shown steps.now (pen_of stroke) ∷ []) }
    {
        let path = Element::new(self.alloc, "path")
            .with(self.alloc, "d", steps)?
            .with(self.alloc, "fill", "none")?
            .with(self.alloc, "stroke", stroke.colour.code())?
            .with_number(self.alloc, "stroke-width", stroke.width.0)?
            .with(self.alloc, "stroke-dasharray", stroke.dashes)?;
        self.add(path)
    }

    /// Adds a filled form: its steps are those of an SVG path.
    pub fn form(&mut self, steps: &str, colour: Colour) -> Result<(), AllocError>
        ensures { OnOk result (drawn self.new
            ≡ drawn self.old ++ form_shown steps.now colour ∷ []) }
    {
        let form = Element::new(self.alloc, "path")
            .with(self.alloc, "d", steps)?
            .with(self.alloc, "fill", colour.code())?;
        self.add(form)
    }

    /// Adds a text in one line, its baseline at the place.
    pub fn words(
        &mut self,
        at: Point,
        anchor: Anchor,
        colour: Colour,
        text: &str,
    ) -> Result<(), AllocError>
        ensures { OnOk result (drawn self.new
            ≡ drawn self.old ++ words_shown at.x.0 at.y.0 anchor colour text.now ∷ []) }
    {
        let words = Element::new(self.alloc, "text")
            .with_number(self.alloc, "x", at.x.0)?
            .with_number(self.alloc, "y", at.y.0)?
            .with(self.alloc, "text-anchor", anchor.code())?
            .with(self.alloc, "fill", colour.code())?
            .saying(text)?;
        self.add(words)
    }

    /// Adds a heading, its baseline at the place.
    pub fn heading(&mut self, at: Point, text: &str) -> Result<(), AllocError>
        ensures { OnOk result (drawn self.new
            ≡ drawn self.old ++ heading_shown at.x.0 at.y.0 text.now ∷ []) }
    {
        let heading = Element::new(self.alloc, "text")
            .with_number(self.alloc, "x", at.x.0)?
            .with_number(self.alloc, "y", at.y.0)?
            .with(self.alloc, "font-size", "16")?
            .with(self.alloc, "font-weight", "bold")?
            .saying(text)?;
        self.add(heading)
    }
}
