//! The symbols of which a film is made: each has a short name, and is drawn where a part shows it.
ghost use Rattle.std.specs.Prelude.{◌≡◌, ◌++◌, ℕ, IfOk, OnOk, codes};
ghost use Rattle.std.specs.Prelude.{List, decimal};
ghost use Rattle.std.specs.List.{list_any};
ghost use Rattle.svg_drawing.specs.Grouped.{grouped_of};
ghost use Rattle.run_film.specs.Beats.{film_of};
ghost use Rattle.run_film.specs.Films.{drawn, Keeps};
ghost use Rattle.run_film.specs.Shapes.{symbol_shown};
ghost use Rattle.run_film.specs.Symbols.{has_parent, parents_in, HasDistances};
ghost use Rattle.run_film.specs.Symbols.{HasEdge, HasMarks, HasSymbols, IsDefined};
ghost use Rattle.run_film.specs.Tracks.{pair_code};

use crate::curve::{half, whole};
use crate::frames::put_frame_symbols;
use crate::material::Material;
use crate::pace::Shown;
use crate::pairs::{Paired, put_pairs};
use crate::shapes::{circle, form, outline, symbol};
use crate::stage::Stage;
use crate::track::{is_named, look_of};
use crate::words::words;
use run_recording::Still;
use std::alloc::{AllocError, Global};
use svg_drawing::{Element, Fixed, Group, Point, Px};
use topology::Net;

/// The most tickets that have a symbol.
const MOST_TICKETS: usize = 256;

/// The place of what is drawn round its own middle.
const MIDDLE: Point = Point { x: Px(0), y: Px(0) };

/// The frame of a node that lends.
const FRAME: &str = "M-19 -19H19V19H-19z";

/// The second circle of a privileged node.
const RING: &str = "M-20 0a20 20 0 1 0 40 0a20 20 0 1 0 -40 0";

/// What strikes a node.
const BOLT: &str = "M-18 -42l14 0l-6 12l9 0l-19 24l5 -18l-9 0z";

/// Adds the symbols of a film.
pub fn put_symbols(material: Material<'_>, groups: &mut Vec<Group>) -> Result<(), AllocError>
    ensures { OnOk result (HasSymbols (drawn groups.new.items) (film_of material.entry.shown) material.entry.net.now) }
{
    put_others(material, groups)?;
    put_marks(material.alloc, groups)?;
    put_distances(material.alloc, groups, material.net)?;
    put_pairs(material, groups, Paired::Arrow)?;
    put_pairs(material, groups, Paired::Lines)?;
    put_frame_symbols(material, groups)?;
    Ok(())
}

/// Adds the symbols of tickets and of sweeps, and what stands at the ends of lines.
fn put_others(material: Material<'_>, groups: &mut Vec<Group>) -> Result<(), AllocError> {
    let head = form(material.alloc, "M-8 -6L4 0L-8 6z", "blue", "#0b5394")?;
    groups.push(line_end(material.alloc, "h", head)?)?;
    let dot = circle(material.alloc, MIDDLE, 6, "dot", "#22262a")?;
    groups.push(line_end(material.alloc, "f", dot)?)?;
    put_tickets(material, groups)?;
    put_sweeps(material, groups)
}

/// A symbol that holds one element.
fn symbol_of(alloc: Global, name: &str, element: Element) -> Result<Group, AllocError>
    ensures { IfOk result (λ group. (grouped_of group).element ≡ symbol_shown name.now) }
{
    symbol(alloc, name)?.holding(element)
}

/// Adds the symbols of the four ways in which a node stands, which differ in their outlines too: settled
/// is plain, wrong has dashes, privileged has two circles, and lending is in a frame. Also adds those of
/// what strikes a node, of damage, and of nothing.
fn put_marks(alloc: Global, groups: &mut Vec<Group>) -> Result<(), AllocError>
    ensures marks { OnOk result (HasMarks (drawn groups.new.items)) }
{
    put_symbol(groups, settled(alloc)?)?;
    put_symbol(groups, wrong(alloc)?)?;
    put_symbol(groups, privileged(alloc)?)?;
    put_symbol(groups, lending(alloc)?)?;
    put_symbol(groups, symbol(alloc, "n")?)?;
    put_symbol(
        groups,
        symbol_of(alloc, "z", form(alloc, BOLT, "red", "#c3263f")?)?,
    )?;
    put_symbol(
        groups,
        symbol_of(alloc, "y", words(alloc, MIDDLE, "damage")?)?,
    )?;
    Ok(())
}

/// Adds a symbol.
pub fn put_symbol(groups: &mut Vec<Group>, group: Group) -> Result<(), AllocError>
    ensures defined { OnOk result ((name : List ℕ) → (grouped_of group).element ≡ symbol_shown name
        → IsDefined (drawn groups.new.items) name) }
    ensures keeps { OnOk result (Keeps (drawn groups.old.items) (drawn groups.new.items)) }
{
    groups.push(group)?;
    Ok(())
}

/// A node whose place is the true one.
fn settled(alloc: Global) -> Result<Group, AllocError>
    ensures { IfOk result (λ group. (grouped_of group).element ≡ symbol_shown (codes "p")) }
{
    symbol_of(alloc, "p", circle(alloc, MIDDLE, 15, "settled", "#e6edf2")?)
}

/// A node whose place is not the true one.
fn wrong(alloc: Global) -> Result<Group, AllocError>
    ensures { IfOk result (λ group. (grouped_of group).element ≡ symbol_shown (codes "w")) }
{
    let dashed = circle(alloc, MIDDLE, 15, "wrong", "#8a8f94")?.with(
        alloc,
        "stroke-dasharray",
        "4 3",
    )?;
    symbol_of(alloc, "w", dashed)
}

/// A privileged node.
fn privileged(alloc: Global) -> Result<Group, AllocError>
    ensures { IfOk result (λ group. (grouped_of group).element ≡ symbol_shown (codes "g")) }
{
    let gold = circle(alloc, MIDDLE, 15, "gold", "#f2b705")?;
    symbol_of(alloc, "g", gold)?.holding(outline(alloc, RING, "golden", "#b98500", 3)?)
}

/// A node that lends.
fn lending(alloc: Global) -> Result<Group, AllocError>
    ensures { IfOk result (λ group. (grouped_of group).element ≡ symbol_shown (codes "l")) }
{
    let lent = circle(alloc, MIDDLE, 15, "lent", "#f3c3ca")?;
    symbol_of(alloc, "l", lent)?.holding(outline(alloc, FRAME, "framed", "#c3263f", 4)?)
}

/// Adds the number of each distance that a node may have.
fn put_distances(alloc: Global, groups: &mut Vec<Group>, net: &Net) -> Result<(), AllocError>
    ensures distances { OnOk result (HasDistances (drawn groups.new.items) net.now) }
    ensures keeps { OnOk result (Keeps (drawn groups.old.items) (drawn groups.new.items)) }
{
    for distance in 0..net.nodes() + 1 {
        put_distance(alloc, groups, distance)?;
    }
    Ok(())
}

/// Adds the number of a distance.
fn put_distance(alloc: Global, groups: &mut Vec<Group>, distance: u16) -> Result<(), AllocError>
    ensures distance { OnOk result (IsDefined (drawn groups.new.items) (codes "d" ++ decimal distance)) }
    ensures keeps { OnOk result (Keeps (drawn groups.old.items) (drawn groups.new.items)) }
{
    put_symbol(groups, distance_text(alloc, distance)?)
}

/// The number of a distance, in the middle of a node.
fn distance_text(alloc: Global, distance: u16) -> Result<Group, AllocError>
    ensures { IfOk result (λ group. (grouped_of group).element ≡ symbol_shown (codes "d" ++ decimal distance)) }
{
    let name = format!(in alloc; "d{distance}")?;
    let number = format!(in alloc; "{distance}")?;
    let text = Element::new(alloc, "text")
        .with(alloc, "y", "5")?
        .with(alloc, "text-anchor", "middle")?
        .saying(number.as_str())?;
    symbol_of(alloc, name.as_str(), text)
}

/// Whether a node has another as its parent in some still.
pub fn is_parent(shown: Shown<'_>, v: u16, parent: u16) -> bool
    ensures { result ≡ parents_in (film_of shown.entry) v parent }
{
    has_parent(shown.opening(), v, parent) || any_has_parent(shown.later(), v, parent)
}

/// Whether a node has another as its parent in some of these stills.
fn any_has_parent(stills: &[Still], v: u16, parent: u16) -> bool
    ensures { result ≡ list_any (λ still. has_parent still v parent) stills.now }
{
    stills.iter().any(|still| has_parent(still, v, parent))
}

/// Whether a node has another as its parent in a still.
fn has_parent(still: &Still, v: u16, parent: u16) -> bool
    ensures { result ≡ has_parent still.now v parent }
{
    is_named(look_of(still, v).own.parent, parent)
}

/// The arrow from a node to a parent.
pub fn arrow(alloc: Global, stage: &Stage, v: u16, parent: u16) -> Result<Group, AllocError>
    ensures { IfOk result (λ group. (grouped_of group).element ≡ symbol_shown (pair_code (codes "a") v parent)) }
{
    let name = format!(in alloc; "a{v}-{parent}")?;
    let steps = half(alloc, stage, v, parent)?;
    let line = outline(alloc, steps.as_str(), "arrow", "#0b5394", 3)?.with(
        alloc,
        "marker-end",
        "url(#h)",
    )?;
    symbol_of(alloc, name.as_str(), line)
}

/// Adds the lines of the edge between two nodes: a thin one, and a strong one for the time when it is
/// part of the true tree.
pub fn put_lines(
    material: Material<'_>,
    groups: &mut Vec<Group>,
    v: u16,
    w: u16,
) -> Result<(), AllocError>
    ensures lines { OnOk result (HasEdge (drawn groups.new.items) v w) }
    ensures keeps { OnOk result (Keeps (drawn groups.old.items) (drawn groups.new.items)) }
{
    put_symbol(groups, edge(material, "e", 2, v, w)?)?;
    put_symbol(groups, edge(material, "b", 5, v, w)?)?;
    Ok(())
}

/// The line of an edge, under a name that begins with `start`.
fn edge(
    material: Material<'_>,
    start: &str,
    width: u32,
    v: u16,
    w: u16,
) -> Result<Group, AllocError>
    ensures { IfOk result (λ group. (grouped_of group).element ≡ symbol_shown (pair_code start.now v w)) }
{
    let name = format!(in material.alloc; "{start}{v}-{w}")?;
    let steps = whole(material.alloc, material.stage, v, w)?;
    symbol_of(
        material.alloc,
        name.as_str(),
        outline(material.alloc, steps.as_str(), "edge", "#b4bac0", width)?,
    )
}

/// The attributes of the end of a line.
const LINE_END: [Fixed; 5] = [
    Fixed("viewBox", "-8 -8 16 16"),
    Fixed("markerWidth", "16"),
    Fixed("markerHeight", "16"),
    Fixed("markerUnits", "userSpaceOnUse"),
    Fixed("orient", "auto"),
];

/// What stands at the end of a line.
fn line_end(alloc: Global, name: &str, drawn: Element) -> Result<Group, AllocError> {
    let element = Element::new(alloc, "marker")
        .with(alloc, "id", name)?
        .with_all(alloc, &LINE_END)?;
    Group::alone(alloc, element).holding(drawn)
}

/// Adds the words of each ticket that a node lends to in some still, for the first 256 of them.
fn put_tickets(material: Material<'_>, groups: &mut Vec<Group>) -> Result<(), AllocError> {
    let mut tickets: Vec<u16> = Vec::new(material.alloc);
    note_tickets(&mut tickets, material.net, material.shown.opening())?;
    for still in material.shown.later() {
        note_tickets(&mut tickets, material.net, still)?;
    }
    for ticket in tickets.as_slice() {
        let name = format!(in material.alloc; "t{ticket}")?;
        let text = ticket_text(material.alloc, material.stage, *ticket)?;
        groups.push(symbol_of(material.alloc, name.as_str(), text)?)?;
    }
    Ok(())
}

/// Notes the tickets that nodes lend to in a still, each once.
fn note_tickets(tickets: &mut Vec<u16>, net: &Net, still: &Still) -> Result<(), AllocError> {
    for v in 0..net.nodes() {
        if let Some(ticket) = look_of(still, v).lent {
            let is_new = tickets.iter().all(|other| *other != ticket);
            if is_new && tickets.len() < MOST_TICKETS {
                tickets.push(ticket)?;
            }
        }
    }
    Ok(())
}

/// The attributes of each ticket.
const TICKET: [Fixed; 3] = [
    Fixed("text-anchor", "middle"),
    Fixed("class", "ink"),
    Fixed("fill", "#22262a"),
];

/// A ticket, whose words are centred on its place.
fn ticket_text(alloc: Global, stage: &Stage, ticket: u16) -> Result<Element, AllocError> {
    let words = if stage.is_wide() {
        format!(in alloc; "lends to {ticket}")?
    } else {
        format!(in alloc; "to {ticket}")?
    };
    Element::new(alloc, "text")
        .with_all(alloc, &TICKET)?
        .saying(words.as_str())
}

/// Adds the text of each number of sweeps that some still has.
fn put_sweeps(material: Material<'_>, groups: &mut Vec<Group>) -> Result<(), AllocError> {
    let mut counts: Vec<u64> = Vec::new(material.alloc);
    counts.push(material.shown.opening().sweeps)?;
    for still in material.shown.later() {
        if counts.iter().all(|other| *other != still.sweeps) {
            counts.push(still.sweeps)?;
        }
    }
    for sweeps in counts.as_slice() {
        groups.push(sweeps_text(material.alloc, material.net, *sweeps)?)?;
    }
    Ok(())
}

/// The text of a number of sweeps.
fn sweeps_text(alloc: Global, net: &Net, sweeps: u64) -> Result<Group, AllocError> {
    let name = format!(in alloc; "s{sweeps}")?;
    let (sharp, bound) = (net.sharp_bound(), net.bound());
    let said = format!(in alloc;
        "sweeps since the last damage: {sweeps}; proved to suffice: {sharp} (bound: {bound})"
    )?;
    symbol_of(alloc, name.as_str(), words(alloc, MIDDLE, said.as_str())?)
}
