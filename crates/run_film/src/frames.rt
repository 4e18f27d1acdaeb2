//! The frames: each is a dot that travels along the half of its edge on which an event shows it, and rests near
//! the middle while it is under way.
ghost use Rattle.std.specs.Prelude.{◌≡◌, IfOk, OnOk, IsTrue, codes};
ghost use Rattle.std.specs.List.{list_any};
ghost use Rattle.svg_drawing.specs.Grouped.{grouped_of};
ghost use Rattle.run_film.specs.Beats.{film_of};
ghost use Rattle.run_film.specs.Films.{drawn, Keeps};
ghost use Rattle.run_film.specs.Shapes.{symbol_shown};
ghost use Rattle.run_film.specs.Symbols.{deed_code, done_in, is_done, is_framed};
ghost use Rattle.run_film.specs.Symbols.{HasFrame, HasFrames, IsDefined};
ghost use Rattle.run_film.specs.Tracks.{pair_code};

use crate::curve::{between_of, first_quarter, last_quarter, middle_of};
use crate::material::Material;
use crate::pace::Shown;
use crate::pairs::{Paired, put_pairs};
use crate::shapes::{outline, symbol};
use crate::stage::Stage;
use crate::symbols::put_symbol;
use crate::track::repeated;
use crate::waiting::put_waiting_symbol;
use run_recording::{Event, MOST_FRAMED, Still};
use std::alloc::{AllocError, Global};
use std::fmt::Write;
use svg_drawing::{Element, Group, Point};

/// The most beats for which a dot travels; then it rests at the end of its way.
const MOST_TRAVELLED: usize = 10;

/// What an event does with a frame.
#[derive(Clone, Copy)]
pub enum FrameDeed {
    /// It is sent.
    Sent,
    /// It is taken.
    Taken,
    /// It is lost.
    Lost,
}

/// Adds the symbols of what the last event of some still does with a frame, if the network is small enough to
/// show it.
pub fn put_frame_symbols(material: Material<'_>, groups: &mut Vec<Group>) -> Result<(), AllocError>
    ensures frames { OnOk result (IsTrue (is_framed material.entry.net.now)
        → HasFrames (drawn groups.new.items) (film_of material.entry.shown) material.entry.net.now) }
    ensures keeps { OnOk result (Keeps (drawn groups.old.items) (drawn groups.new.items)) }
{
    if material.net.nodes() <= MOST_FRAMED {
        put_pairs(material, groups, Paired::Frames)?;
    }
    Ok(())
}

/// Adds the symbols of the frames from a node to another: one that is sent goes to the middle of the edge, one
/// that is taken comes from there, one that waits rests just past it, and a cross stands in the middle if one is
/// lost.
pub fn put_frames_between(
    material: Material<'_>,
    groups: &mut Vec<Group>,
    from: u16,
    to: u16,
) -> Result<(), AllocError>
    ensures frames { OnOk result (HasFrame (drawn groups.new.items) (film_of material.entry.shown) from to) }
    ensures keeps { OnOk result (Keeps (drawn groups.old.items) (drawn groups.new.items)) }
{
    put_frame(material, groups, FrameDeed::Sent, from, to)?;
    put_frame(material, groups, FrameDeed::Taken, from, to)?;
    put_frame(material, groups, FrameDeed::Lost, from, to)?;
    put_waiting_symbol(material, groups, from, to)?;
    Ok(())
}

/// Adds the symbol of what is done with a frame from a node to another, if the last event of some still does it.
fn put_frame(
    material: Material<'_>,
    groups: &mut Vec<Group>,
    deed: FrameDeed,
    from: u16,
    to: u16,
) -> Result<(), AllocError>
    ensures frame { OnOk result (IsTrue (done_in (film_of material.entry.shown) deed from to)
        → IsDefined (drawn groups.new.items) (pair_code (deed_code deed) from to)) }
    ensures keeps { OnOk result (Keeps (drawn groups.old.items) (drawn groups.new.items)) }
{
    if is_done_in(material.shown, deed, from, to) {
        put_symbol(groups, frame_symbol(material, deed, from, to)?)?;
    }
    Ok(())
}

/// Whether an event does this with a frame from a node to another.
fn is_done(deed: FrameDeed, event: Option<Event>, u: u16, v: u16) -> bool
    ensures { result ≡ is_done deed event u v }
{
    match (deed, event) {
        (FrameDeed::Sent, Some(Event::Send { from, to })) => from == u && to == v,
        (FrameDeed::Taken, Some(Event::Take { from, to })) => from == u && to == v,
        (FrameDeed::Lost, Some(Event::Lose { from, to, .. })) => from == u && to == v,
        _ => false,
    }
}

/// Whether the last event of some still does it.
fn is_done_in(shown: Shown<'_>, deed: FrameDeed, u: u16, v: u16) -> bool
    ensures { result ≡ done_in (film_of shown.entry) deed u v }
{
    is_done(deed, shown.opening().event, u, v) || any_does(shown.later(), deed, u, v)
}

/// Whether the last event of some of these stills does it.
fn any_does(stills: &[Still], deed: FrameDeed, u: u16, v: u16) -> bool
    ensures { result ≡ list_any (λ still. is_done deed still.event u v) stills.now }
{
    stills.iter().any(|still| is_done(deed, still.event, u, v))
}

/// The symbol of what is done with a frame from a node to another.
fn frame_symbol(
    material: Material<'_>,
    deed: FrameDeed,
    from: u16,
    to: u16,
) -> Result<Group, AllocError>
    ensures { IfOk result (λ group. (grouped_of group).element ≡ symbol_shown (pair_code (deed_code deed) from to)) }
{
    match deed {
        FrameDeed::Sent => sent_frame(material, from, to),
        FrameDeed::Taken => taken_frame(material, from, to),
        FrameDeed::Lost => loss(material.alloc, material.stage, from, to),
    }
}

/// A frame that is sent: it goes from a node to the middle of the line to another.
fn sent_frame(material: Material<'_>, from: u16, to: u16) -> Result<Group, AllocError>
    ensures { IfOk result (λ group. (grouped_of group).element ≡ symbol_shown (pair_code (codes "o") from to)) }
{
    let (alloc, stage) = (material.alloc, material.stage);
    let way = [
        stage.at(from),
        between_of(stage, from, to),
        middle_of(stage, from, to),
    ];
    let travel = Travel::new(FrameDeed::Sent, from, to, way);
    let name = format!(in alloc; "o{from}-{to}")?;
    let steps = first_quarter(alloc, stage, from, to)?;
    frame(material, travel, name.as_str(), steps.as_str())
}

/// A frame that is taken: it goes from the middle of the line between two nodes to the second.
fn taken_frame(material: Material<'_>, from: u16, to: u16) -> Result<Group, AllocError>
    ensures { IfOk result (λ group. (grouped_of group).element ≡ symbol_shown (pair_code (codes "i") from to)) }
{
    let (alloc, stage) = (material.alloc, material.stage);
    let way = [
        middle_of(stage, from, to),
        between_of(stage, to, from),
        stage.at(to),
    ];
    let travel = Travel::new(FrameDeed::Taken, from, to, way);
    let name = format!(in alloc; "i{from}-{to}")?;
    let steps = last_quarter(alloc, stage, from, to)?;
    frame(material, travel, name.as_str(), steps.as_str())
}

/// A frame as a dot at the end of the way that it has come. It travels while the film plays, and stands where it
/// turns if nothing plays.
fn frame(
    material: Material<'_>,
    travel: Travel,
    name: &str,
    steps: &str,
) -> Result<Group, AllocError>
    ensures { IfOk result (λ group. (grouped_of group).element ≡ symbol_shown name.now) }
{
    let id = format!(in material.alloc; "{name}w")?;
    let way = outline(material.alloc, steps, "way", "#22262a", 2)?
        .with(material.alloc, "marker-end", "url(#f)")?
        .with(material.alloc, "id", id.as_str())?;
    symbol(material.alloc, name)?.holding(way)?.holding(travel.animation(
        material.alloc,
        material.shown,
        id.as_str(),
    )?)
}

/// How a dot travels in each still whose last event does this with a frame.
#[derive(Clone, Copy)]
struct Travel {
    /// What is done.
    deed: FrameDeed,
    /// Where the frame comes from.
    from: u16,
    /// Where it goes.
    to: u16,
    /// Where it begins.
    start: Point,
    /// Where it is in the middle of its time.
    between: Point,
    /// Where it ends.
    end: Point,
}

impl Travel {
    /// A frame that travels from the first of these places to the last.
    fn new(deed: FrameDeed, from: u16, to: u16, way: [Point; 3]) -> Travel {
        let [start, between, end] = way;
        Travel {
            deed,
            from,
            to,
            start,
            between,
            end,
        }
    }

    /// The animation of the way that a dot has come, which has this id.
    fn animation(self, alloc: Global, shown: Shown<'_>, id: &str) -> Result<Element, AllocError> {
        let way = format!(in alloc; "#{id}")?;
        let times = self.key_times(alloc, shown)?;
        let steps = self.key_ways(alloc, shown)?;
        let play = Element::new(alloc, "animate")
            .with(alloc, "href", way.as_str())?
            .with(alloc, "attributeName", "d")?
            .with(alloc, "keyTimes", times.as_str())?
            .with(alloc, "values", steps.as_str())?;
        repeated(alloc, play, shown)
    }

    /// When the dot begins, turns and ends, in each of these stills, as parts of the film.
    fn key_times(self, alloc: Global, shown: Shown<'_>) -> Result<String, AllocError> {
        let mut text = format!(in alloc; "0")?;
        let mut done = shown.beats_at(0);
        if self.is_shown_in(shown.opening()) {
            push_times(&mut text, shown, 0, done)?;
        }
        for (place, still) in shown.later().iter().enumerate() {
            let beats = shown.beats_at(place.saturating_add(1));
            if self.is_shown_in(still) {
                push_times(&mut text, shown, done, beats)?;
            }
            done = done.saturating_add(beats);
        }
        text.push_str(";1")?;
        Ok(text)
    }

    /// The way that it has come at these times, with what is before the first and after the last of them.
    fn key_ways(self, alloc: Global, shown: Shown<'_>) -> Result<String, AllocError> {
        let mut text = String::new(alloc);
        self.push_way(&mut text, self.start, self.start)?;
        if self.is_shown_in(shown.opening()) {
            self.push_ways(&mut text)?;
        }
        for still in shown.later() {
            if self.is_shown_in(still) {
                self.push_ways(&mut text)?;
            }
        }
        text.push_str(";")?;
        self.push_way(&mut text, self.between, self.end)?;
        Ok(text)
    }

    /// Whether a still shows it.
    fn is_shown_in(self, still: &Still) -> bool {
        is_done(self.deed, still.event, self.from, self.to)
    }

    /// Adds the way that it has come at its beginning, at its turn, and at its end.
    fn push_ways(self, text: &mut String) -> Result<(), AllocError> {
        text.push_str(";")?;
        self.push_way(text, self.start, self.start)?;
        text.push_str(";")?;
        self.push_way(text, self.between, self.between)?;
        text.push_str(";")?;
        self.push_way(text, self.between, self.end)
    }

    /// Adds the way from its beginning to a place and on to another.
    fn push_way(self, text: &mut String, by: Point, to: Point) -> Result<(), AllocError> {
        let (x, y) = (self.start.x.0, self.start.y.0);
        write!(text, "M{x} {y}L{} {}L{} {}", by.x.0, by.y.0, to.x.0, to.y.0)
    }
}

/// Adds when a dot begins, turns and ends, in a still of `beats` beats that comes after `done` beats.
fn push_times(
    text: &mut String,
    shown: Shown<'_>,
    done: usize,
    beats: usize,
) -> Result<(), AllocError> {
    let start = done.saturating_mul(2);
    let travelled = beats.min(MOST_TRAVELLED);
    push_time(text, shown, start)?;
    push_time(text, shown, start.saturating_add(travelled))?;
    push_time(
        text,
        shown,
        start.saturating_add(travelled.saturating_mul(2)),
    )
}

/// Adds which part of the film is over after `halves` halves of a beat.
fn push_time(text: &mut String, shown: Shown<'_>, halves: usize) -> Result<(), AllocError> {
    let all = (shown.pace().all().max(1) as u64).saturating_mul(2);
    let part = (halves as u64).saturating_mul(100_000) / all.max(1);
    if part < 100_000 {
        write!(text, ";0.{part:05}")
    } else {
        text.push_str(";1")
    }
}

/// A cross where a frame from a node to another is lost.
fn loss(alloc: Global, stage: &Stage, from: u16, to: u16) -> Result<Group, AllocError>
    ensures { IfOk result (λ group. (grouped_of group).element ≡ symbol_shown (pair_code (codes "x") from to)) }
{
    let name = format!(in alloc; "x{from}-{to}")?;
    let Point { x, y } = middle_of(stage, from, to);
    let steps = format!(in alloc; "M{} {}m-6 -6l12 12m0 -12l-12 12", x.0, y.0)?;
    let cross = outline(alloc, steps.as_str(), "cross", "#c3263f", 4)?;
    symbol(alloc, name.as_str())?.holding(cross)
}
