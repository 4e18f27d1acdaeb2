//! What comes first: title, style, background and legend.
ghost use Rattle.std.specs.Prelude.{◌≡◌, IfOk, codes, map, string_bytes};
ghost use Rattle.svg_drawing.specs.Drawn.{given_of, note_shown};
ghost use Rattle.svg_drawing.specs.Grouped.{grouped_of};
ghost use Rattle.run_film.specs.Heads.{attributes_of, line_shown, stills_text, title_text};
ghost use Rattle.run_film.specs.Heads.{said_text, IsHeaded};
ghost use Rattle.run_film.specs.Words.{alone};

use crate::stage::Stage;
use crate::words::words;
use run_recording::MOST_FRAMED;
use std::alloc::{AllocError, Global};
use svg_drawing::{Attribute, Element, Group, Point, Px};

/// A background round the words, so that no line goes through them; and the colours of dark pages.
const STYLE: &str = "\
text.ink { paint-order: stroke; stroke: #ffffff; stroke-linejoin: round; stroke-width: 4px }
@media (prefers-color-scheme: dark) {
.ground { fill: #16191c }
text.ink { stroke: #16191c }
text, .ink { fill: #e8eaec }
.settled { fill: #3a4854; stroke: #cfd6dc }
.wrong { fill: #6d7378; stroke: #e8eaec }
.gold { fill: #8a6a00; stroke: #ffe9a8 }
.golden { stroke: #f2b705 }
.lent { fill: #6b2430; stroke: #ffd9de }
.framed, .cross { stroke: #ff6b81 }
.red { fill: #ff6b81 }
.blue { fill: #6db3f2 }
.arrow { stroke: #6db3f2 }
.edge { stroke: #59626a }
.way { stroke: #e8eaec }
.dot { fill: #e8eaec; stroke: #16191c }
.curve-lending { stroke: #ff6b81 }
}";

/// How high the drawing is below the graph.
pub const BELOW: Px = Px(150);

/// What a film says about its run.
#[derive(Clone, Copy)]
pub struct FilmHead {
    /// How many nodes there are.
    pub nodes: u16,
    /// How many events there were.
    pub events: u64,
    /// How many lines were refused.
    pub refused: u64,
    /// How many stills are shown.
    pub stills: usize,
    /// Whether moments that count had to be joined.
    pub crowded: bool,
}

/// The attributes of the element that holds the film.
pub fn attributes(alloc: Global, stage: &Stage) -> Result<Vec<Attribute>, AllocError>
    ensures { IfOk result (λ attributes. map given_of attributes.items ≡ attributes_of stage.now) }
{
    let width = stage.width.0;
    let height = (stage.floor + BELOW).0;
    let view = format!(in alloc; "0 0 {width} {height}")?;
    let holder = Element::new(alloc, "svg")
        .with(alloc, "xmlns", "http://www.w3.org/2000/svg")?
        .with_number(alloc, "width", width)?
        .with_number(alloc, "height", height)?
        .with(alloc, "viewBox", view.as_str())?
        .with(alloc, "font-family", "sans-serif")?
        .with(alloc, "font-size", "13")?;
    Ok(holder.attributes)
}

/// What comes first: the title and what the run was, which a screen reader says; and, beneath all
/// else, the background, with these words, how the stills stand for the run, and the legend.
pub fn head(alloc: Global, stage: &Stage, said: FilmHead) -> Result<Vec<Group>, AllocError>
    ensures { IfOk result (λ groups. IsHeaded (map grouped_of groups.items) said) }
{
    let mut groups = under_title(alloc, stage, said)?;
    groups.push(film_title(alloc, said)?)?;
    Ok(groups)
}

/// The title.
fn film_title(alloc: Global, said: FilmHead) -> Result<Group, AllocError>
    ensures { IfOk result (λ group. grouped_of group
        ≡ alone (note_shown (codes "title") (title_text said))) }
{
    let title = title_said(alloc, said)?;
    said_note(alloc, "title", title.as_str())
}

/// The words of the title.
fn title_said(alloc: Global, said: FilmHead) -> Result<String, AllocError>
    ensures { IfOk result (λ text. string_bytes text ≡ title_text said) }
{
    let nodes = said.nodes;
    format!(in alloc; "A run of a lock on {nodes} nodes, as a film")
}

/// What the run was.
fn run_said(alloc: Global, said: FilmHead) -> Result<String, AllocError>
    ensures { IfOk result (λ text. string_bytes text ≡ said_text said) }
{
    let (events, refused) = (said.events, said.refused);
    format!(in alloc; "{events} events, {refused} lines refused")
}

/// All that comes first, except the title.
fn under_title(alloc: Global, stage: &Stage, said: FilmHead) -> Result<Vec<Group>, AllocError> {
    let title = title_said(alloc, said)?;
    let was = run_said(alloc, said)?;
    let stills = stills_said(alloc, said)?;
    let mut groups = Vec::new(alloc);
    groups.push(said_note(alloc, "desc", was.as_str())?)?;
    groups.push(said_note(alloc, "style", STYLE)?)?;
    groups.push(film_ground(alloc, stage)?)?;
    groups.push(written_line(alloc, Px(26), title.as_str())?)?;
    groups.push(written_line(alloc, Px(46), was.as_str())?)?;
    groups.push(written_line(alloc, stage.floor + Px(140), stills.as_str())?)?;
    put_key(alloc, &mut groups, said)?;
    put_legend(alloc, &mut groups)?;
    Ok(groups)
}

/// What the numbers and the lines mean, which the legend does not show.
const KEY: &str = "in a node: its distance; arrow: to its parent; thick: the true tree";

/// Draws what the numbers, the lines and the signs mean that the legend does not show, beside the
/// title.
fn put_key(alloc: Global, groups: &mut Vec<Group>, said: FilmHead) -> Result<(), AllocError> {
    let signs = if said.nodes <= MOST_FRAMED {
        "lightning: damage; dot: a frame under way; cross: one that is lost"
    } else {
        "lightning: damage"
    };
    groups.push(key_line(alloc, Px(26), KEY)?)?;
    groups.push(key_line(alloc, Px(46), signs)?)?;
    Ok(())
}

/// A line of what is drawn beside the title.
fn key_line(alloc: Global, y: Px, text: &str) -> Result<Group, AllocError> {
    Ok(Group::alone(alloc, words(alloc, Point { x: Px(300), y }, text)?))
}

/// An element that says something about the film.
fn said_note(alloc: Global, name: &'static str, text: &str) -> Result<Group, AllocError>
    ensures { IfOk result (λ group. grouped_of group ≡ alone (note_shown name.now text.now)) }
{
    Ok(Group::alone(alloc, Element::new(alloc, name).saying(text)?))
}

/// A line of text.
fn written_line(alloc: Global, y: Px, text: &str) -> Result<Group, AllocError>
    ensures { IfOk result (λ group. grouped_of group ≡ alone (line_shown y text.now)) }
{
    Ok(Group::alone(alloc, words(alloc, Point { x: Px(16), y }, text)?))
}

/// How many stills there are, and whether stretches are shown by their last state.
fn stills_said(alloc: Global, said: FilmHead) -> Result<String, AllocError>
    ensures { IfOk result (λ text. string_bytes text ≡ stills_text said) }
{
    let stills = said.stills;
    if said.crowded {
        format!(in alloc;
            "{stills} stills, fewer than moments that count: each is the last of a stretch"
        )
    } else {
        format!(in alloc; "{stills} stills; calm stretches are shown by their last moment")
    }
}

/// The background.
fn film_ground(alloc: Global, stage: &Stage) -> Result<Group, AllocError> {
    let ground = Element::new(alloc, "rect")
        .with(alloc, "class", "ground")?
        .with_number(alloc, "width", stage.width.0)?
        .with_number(alloc, "height", (stage.floor + BELOW).0)?
        .with(alloc, "fill", "#ffffff")?;
    Ok(Group::alone(alloc, ground))
}

/// The signs of the legend: of each, its symbol, its place from the left, and what it means.
const SIGNS: [(&str, u32, &str); 4] = [
    ("#p", 34, "distance and parent true"),
    ("#w", 252, "one of them wrong"),
    ("#g", 440, "privileged"),
    ("#l", 566, "lends the lock"),
];

/// Draws the legend.
fn put_legend(alloc: Global, groups: &mut Vec<Group>) -> Result<(), AllocError> {
    for sign in &SIGNS {
        let (name, x, text) = *sign;
        groups.push(sign_mark(alloc, name, x)?)?;
        groups.push(sign_words(alloc, x, text)?)?;
    }
    Ok(())
}

/// The symbol of a sign, at a place from the left.
fn sign_mark(alloc: Global, name: &str, x: u32) -> Result<Group, AllocError> {
    let mark = Element::new(alloc, "use")
        .with(alloc, "href", name)?
        .with_number(alloc, "x", x)?
        .with_number(alloc, "y", 76)?;
    Ok(Group::alone(alloc, mark))
}

/// What a sign means, beside its symbol.
fn sign_words(alloc: Global, x: u32, text: &str) -> Result<Group, AllocError> {
    let at = Point {
        x: Px(x) + Px(26),
        y: Px(81),
    };
    Ok(Group::alone(alloc, words(alloc, at, text)?))
}
