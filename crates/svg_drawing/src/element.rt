//! What a drawing is made of.
ghost use Rattle.std.specs.Prelude.{◌≡◌, ◌++◌, ◌∷◌, [], IfOk, OnOk, decimal, map};
ghost use Rattle.svg_drawing.specs.Drawn.{fixed_of, given_of, note_shown, numbered, shown_of};
ghost use Rattle.svg_drawing.specs.Drawn.{with_all, with_given, with_text};
ghost use Rattle.svg_drawing.specs.Grouped.{grouped_of, with_inside};

use std::alloc::{AllocError, Global};

/// An attribute of an element.
#[derive(Drop)]
pub struct Attribute {
    /// Its name.
    pub name: &'static str,
    /// Its value, unescaped: it is escaped when it is written.
    pub value: String,
}

/// An attribute that the code knows: its name and its value.
pub struct Fixed(pub &'static str, pub &'static str);

/// Adds an attribute.
fn push_attribute(
    alloc: Global,
    attributes: &mut Vec<Attribute>,
    name: &'static str,
    value: &str,
) -> Result<(), AllocError>
    ensures { OnOk result (map given_of attributes.new.items
        ≡ map given_of attributes.old.items ++ record { name = name.now; value = value.now } ∷ []) }
{
    let value = format!(in alloc; "{value}")?;
    attributes.push(Attribute { name, value })?;
    Ok(())
}

/// Adds these attributes.
fn push_all(
    alloc: Global,
    attributes: &mut Vec<Attribute>,
    fixed: &[Fixed],
) -> Result<(), AllocError>
    ensures { OnOk result (map given_of attributes.new.items
        ≡ map given_of attributes.old.items ++ map fixed_of fixed.now) }
{
    for attribute in fixed {
        push_attribute(alloc, attributes, attribute.0, attribute.1)?;
    }
    Ok(())
}

/// An element that holds only a text.
#[derive(Drop)]
pub struct Element {
    /// Its name.
    pub name: &'static str,
    /// Its attributes, in the order in which they are written.
    pub attributes: Vec<Attribute>,
    /// Its text, unescaped: it is escaped when it is written.
    pub text: String,
}

impl Element {
    /// An element without attributes or text.
    pub fn new(alloc: Global, name: &'static str) -> Element
        ensures { shown_of result ≡ note_shown name.now [] }
    {
        Element {
            name,
            attributes: Vec::new(alloc),
            text: String::new(alloc),
        }
    }

    /// The element with one more attribute.
    pub fn with(
        mut self,
        alloc: Global,
        name: &'static str,
        value: &str,
    ) -> Result<Element, AllocError>
        ensures { IfOk result (λ element. shown_of element
            ≡ with_given (shown_of self) (record { name = name.now; value = value.now })) }
    {
        push_attribute(alloc, &mut self.attributes, name, value)?;
        Ok(self)
    }

    /// The element with these attributes after its own.
    pub fn with_all(mut self, alloc: Global, fixed: &[Fixed]) -> Result<Element, AllocError>
        ensures { IfOk result (λ element. shown_of element ≡ with_all (shown_of self) fixed.now) }
    {
        push_all(alloc, &mut self.attributes, fixed)?;
        Ok(self)
    }

    /// The element with one more attribute, whose value is a number.
    pub fn with_number(
        mut self,
        alloc: Global,
        name: &'static str,
        number: u32,
    ) -> Result<Element, AllocError>
        ensures { IfOk result (λ element. shown_of element
            ≡ with_given (shown_of self) (numbered name.now number)) }
    {
        let value = format!(in alloc; "{number}")?;
        self.attributes.push(Attribute { name, value })?;
        Ok(self)
    }

    /// The element with this text after its own.
    pub fn saying(mut self, text: &str) -> Result<Element, AllocError>
        ensures { IfOk result (λ element. shown_of element
            ≡ with_text (shown_of self) text.now) }
    {
        self.text.push_str(text)?;
        Ok(self)
    }
}

/// A drawing: an element `svg` that holds elements.
#[derive(Drop)]
pub struct Drawing {
    /// The attributes of the element `svg`.
    pub attributes: Vec<Attribute>,
    /// What it holds, the undermost first.
    pub elements: Vec<Element>,
}

/// An element that may hold others.
#[derive(Drop)]
pub struct Group {
    /// The element; its text comes before what it holds.
    pub element: Element,
    /// The elements that it holds, the undermost first.
    pub inside: Vec<Element>,
}

impl Group {
    /// An element that holds no others.
    pub fn alone(alloc: Global, element: Element) -> Group
        ensures { grouped_of result ≡ record { element = shown_of element; inside = [] } }
    {
        Group {
            element,
            inside: Vec::new(alloc),
        }
    }

    /// The group with one more element inside, over the others.
    pub fn holding(mut self, element: Element) -> Result<Group, AllocError>
        ensures { IfOk result (λ group. grouped_of group
            ≡ with_inside (grouped_of self) (shown_of element)) }
    {
        self.inside.push(element)?;
        Ok(self)
    }
}

/// A drawing whose elements may hold others: an element `svg` that holds groups.
#[derive(Drop)]
pub struct GroupedDrawing {
    /// The attributes of the element `svg`.
    pub attributes: Vec<Attribute>,
    /// What it holds, the undermost first.
    pub groups: Vec<Group>,
}

/// An HTML document with one drawing: what comes before it, the drawing, and what comes after it.
#[derive(Drop)]
pub struct Document {
    /// What comes before the drawing.
    pub before: Vec<Group>,
    /// The drawing.
    pub scene: GroupedDrawing,
    /// What comes after the drawing.
    pub after: Vec<Group>,
}
