//! How a drawing is written.
ghost use Rattle.std.specs.Prelude.{◌≡◌, ◌++◌, OnOk, IfOk, codes};
ghost use Rattle.std.specs.List.{flat_map};
ghost use Rattle.svg_drawing.specs.Spelling.{attribute_text, drawing_text, element_text, end_tag};
ghost use Rattle.svg_drawing.specs.Spelling.{escaped, escaped_byte, start_tag};
ghost use Rattle.svg_drawing.specs.Spelling.{document_text, group_text};
ghost use Rattle.svg_drawing.specs.Spelling.{scene_text};
ghost use Rattle.svg_drawing.specs.Xml.{IsContent, IsDocument};

use crate::element::{Attribute, Document, Drawing, Element, Group, GroupedDrawing};
use std::alloc::{AllocError, Global};

/// The text of a drawing: an element `svg`, in which tags nest. Names are written as they are.
pub fn spelled(alloc: Global, drawing: &Drawing) -> Result<Vec<u8>, AllocError>
    ensures text { IfOk result (λ text. text.items ≡ drawing_text drawing.now) }
    ensures nests { IfOk result (λ text. IsContent text.items) }
{
    let mut text = Vec::new(alloc);
    push_start(&mut text, "svg", drawing.attributes.as_slice())?;
    text.extend_from_slice(b"\n")?;
    push_elements(&mut text, drawing.elements.as_slice())?;
    push_end(&mut text, "svg")?;
    text.extend_from_slice(b"\n")?;
    Ok(text)
}

/// The text of a drawing whose elements hold others: an element `svg`, in which tags nest. Names
/// are written as they are.
pub fn spelled_scene(alloc: Global, scene: &GroupedDrawing) -> Result<Vec<u8>, AllocError>
    ensures text { IfOk result (λ text. text.items ≡ scene_text scene.now) }
    ensures nests { IfOk result (λ text. IsContent text.items) }
{
    let mut text = Vec::new(alloc);
    push_scene(&mut text, scene)?;
    Ok(text)
}

/// The text of a document with a drawing: a first line, and then an element `html`, in which tags
/// nest. Names are written as they are.
pub fn spelled_document(alloc: Global, document: &Document) -> Result<Vec<u8>, AllocError>
    ensures text { IfOk result (λ text. text.items ≡ document_text document.now) }
    ensures nests { IfOk result (λ text. IsDocument text.items) }
{
    let mut text = Vec::new(alloc);
    text.extend_from_slice(b"<!DOCTYPE html>\n")?;
    push_start(&mut text, "html", &[])?;
    text.extend_from_slice(b"\n")?;
    push_groups(&mut text, document.before.as_slice())?;
    push_scene(&mut text, &document.scene)?;
    push_groups(&mut text, document.after.as_slice())?;
    push_end(&mut text, "html")?;
    text.extend_from_slice(b"\n")?;
    Ok(text)
}

/// Adds a drawing whose elements hold others.
fn push_scene(text: &mut Vec<u8>, scene: &GroupedDrawing) -> Result<(), AllocError>
    ensures { OnOk result (text.new.items ≡ text.old.items ++ scene_text scene.now) }
{
    push_start(text, "svg", scene.attributes.as_slice())?;
    text.extend_from_slice(b"\n")?;
    push_groups(text, scene.groups.as_slice())?;
    push_end(text, "svg")?;
    text.extend_from_slice(b"\n")
}

/// Adds groups.
fn push_groups(text: &mut Vec<u8>, groups: &[Group]) -> Result<(), AllocError>
    ensures { OnOk result (text.new.items ≡ text.old.items ++ flat_map group_text groups.now) }
{
    for group in groups {
        push_group(text, group)?;
    }
    Ok(())
}

/// Adds an element with the elements that it holds, and a newline.
fn push_group(text: &mut Vec<u8>, group: &Group) -> Result<(), AllocError>
    ensures { OnOk result (text.new.items ≡ text.old.items ++ group_text group.now) }
{
    let element = &group.element;
    push_start(text, element.name, element.attributes.as_slice())?;
    push_escaped(text, element.text.as_str())?;
    push_elements(text, group.inside.as_slice())?;
    push_end(text, element.name)?;
    text.extend_from_slice(b"\n")
}

/// Adds elements, each on a line.
fn push_elements(text: &mut Vec<u8>, elements: &[Element]) -> Result<(), AllocError>
    ensures { OnOk result (text.new.items
        ≡ text.old.items ++ flat_map element_text elements.now) }
{
    for element in elements {
        push_element(text, element)?;
    }
    Ok(())
}

/// Adds an element and a newline.
fn push_element(text: &mut Vec<u8>, element: &Element) -> Result<(), AllocError>
    ensures { OnOk result (text.new.items ≡ text.old.items ++ element_text element.now) }
{
    push_start(text, element.name, element.attributes.as_slice())?;
    push_escaped(text, element.text.as_str())?;
    push_end(text, element.name)?;
    text.extend_from_slice(b"\n")
}

/// Adds a start tag.
fn push_start(text: &mut Vec<u8>, name: &str, attributes: &[Attribute]) -> Result<(), AllocError>
    ensures { OnOk result (text.new.items ≡ text.old.items ++ start_tag name.now attributes.now) }
{
    text.extend_from_slice(b"<")?;
    text.extend_from_slice(name.as_bytes())?;
    push_attributes(text, attributes)?;
    text.extend_from_slice(b">")
}

/// Adds attributes, each after a space.
fn push_attributes(text: &mut Vec<u8>, attributes: &[Attribute]) -> Result<(), AllocError>
    ensures { OnOk result (text.new.items
        ≡ text.old.items ++ flat_map attribute_text attributes.now) }
{
    for attribute in attributes {
        push_attribute(text, attribute)?;
    }
    Ok(())
}

/// Adds a space and an attribute.
fn push_attribute(text: &mut Vec<u8>, attribute: &Attribute) -> Result<(), AllocError>
    ensures { OnOk result (text.new.items ≡ text.old.items ++ attribute_text attribute.now) }
{
    text.extend_from_slice(b" ")?;
    text.extend_from_slice(attribute.name.as_bytes())?;
    text.extend_from_slice(b"=\"")?;
    push_escaped(text, attribute.value.as_str())?;
    text.extend_from_slice(b"\"")
}

/// Adds an end tag.
fn push_end(text: &mut Vec<u8>, name: &str) -> Result<(), AllocError>
    ensures { OnOk result (text.new.items ≡ text.old.items ++ end_tag name.now) }
{
    text.extend_from_slice(b"</")?;
    text.extend_from_slice(name.as_bytes())?;
    text.extend_from_slice(b">")
}

/// Adds a text, in which no byte begins a tag or ends an attribute.
fn push_escaped(text: &mut Vec<u8>, meant: &str) -> Result<(), AllocError>
    ensures { OnOk result (text.new.items ≡ text.old.items ++ escaped meant.now) }
{
    for byte in meant.as_bytes() {
        push_byte(text, *byte)?;
    }
    Ok(())
}

/// Adds a byte, or the reference that stands for it.
fn push_byte(text: &mut Vec<u8>, byte: u8) -> Result<(), AllocError>
    ensures { OnOk result (text.new.items ≡ text.old.items ++ escaped_byte byte) }
{
    match byte {
        b'<' => text.extend_from_slice(b"&lt;"),
        b'>' => text.extend_from_slice(b"&gt;"),
        b'&' => text.extend_from_slice(b"&amp;"),
        b'"' => text.extend_from_slice(b"&quot;"),
        _ => text.extend_from_slice(&[byte]),
    }
}
