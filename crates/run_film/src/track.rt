//! What one element shows of a still, beat by beat.
ghost use Rattle.std.specs.Prelude.{◌≡◌, ◌++◌, IfOk, OnOk, replicate, string_bytes};
ghost use Rattle.svg_drawing.specs.Drawn.{shown_of};
ghost use Rattle.svg_drawing.specs.Grouped.{grouped_of};
ghost use Rattle.run_film.specs.Tracks.{look_in, mark_code, strikes, place_of, value_of};
ghost use Rattle.run_film.specs.Tracks.{values_of, more_values, repeated_shown, track_shown};
ghost use Rattle.run_film.specs.Tracks.{edge_code, frame_code, is_named, is_strong, true_parent};
ghost use Rattle.run_film.specs.Tracks.{is_waiting, waiting_code};
ghost use Rattle.topology.specs.Network.{are_joined};
ghost use Rattle.run_film.specs.Beats.{beats_of, film_of, later_beats, last_of};

use crate::pace::Shown;
use crate::waiting::is_waiting;
use run_recording::{Event, Harm, Look, Place, Still};
use std::alloc::{AllocError, Global};
use std::fmt::Write;
use svg_drawing::{Element, Group};

/// What an element shows of a still. Each value is the name of a symbol.
#[derive(Clone, Copy)]
pub enum Track {
    /// How a node stands.
    Mark(u16),
    /// The distance that a node has.
    Distance(u16),
    /// The parent that a node has.
    Parent(u16),
    /// The ticket to which a node lends.
    Ticket(u16),
    /// Whether damage strikes a node.
    Strike(u16),
    /// Whether there was damage.
    Damage,
    /// The sweeps since the last damage.
    Sweeps,
    /// The edge between two nodes.
    Edge(u16, u16),
    /// The frame that the last event sends, takes or loses.
    Frame,
    /// Whether a frame waits on its way from a node to another.
    Waiting(u16, u16),
}

/// What a still shows of a node.
pub fn look_of(still: &Still, v: u16) -> Look
    ensures { result ≡ look_in still.now v }
{
    still
        .looks
        .get(usize::from(v))
        .copied()
        .unwrap_or(Look::NOTHING)
}

/// The symbol of how a node stands.
fn mark(look: Look) -> &'static str
    ensures { result.now ≡ mark_code look }
{
    match look.lent {
        Some(_) => "#l",
        None if look.privileged => "#g",
        None if look.settled => "#p",
        None => "#w",
    }
}

/// Whether damage at a node is the last event of a still.
fn strikes(still: &Still, v: u16) -> bool
    ensures { result ≡ strikes still.now v }
{
    match still.event {
        Some(Event::Damage(harm)) => still.damaged && place_of(harm) == v,
        _ => false,
    }
}

/// At which node a harm is shown.
fn place_of(harm: Harm) -> u16
    ensures { result ≡ place_of harm }
{
    match harm {
        Harm::Own { node, .. }
        | Harm::Counters { node, .. }
        | Harm::Staged { node, .. }
        | Harm::Copy { node, .. }
        | Harm::Value { node, .. }
        | Harm::Desk { node, .. }
        | Harm::Join { node, .. }
        | Harm::Part { node, .. } => node,
        Harm::Item { to, .. } | Harm::Empty { to, .. } => to,
    }
}

/// Adds the name of the symbol of what an event does with a frame.
fn push_frame(text: &mut String, event: Option<Event>) -> Result<(), AllocError>
    ensures { OnOk result (string_bytes text.new ≡ string_bytes text.old ++ frame_code event) }
{
    match event {
        Some(Event::Send { from, to }) => write!(text, "#o{from}-{to}"),
        Some(Event::Take { from, to }) => write!(text, "#i{from}-{to}"),
        Some(Event::Lose { from, to, .. }) => write!(text, "#x{from}-{to}"),
        _ => text.push_str("#n"),
    }
}

/// The true parent of a node in a still.
fn true_parent(still: &Still, v: u16) -> Option<u16>
    ensures { result ≡ true_parent still.now v }
{
    still
        .places
        .get(usize::from(v))
        .copied()
        .unwrap_or(Place::NOWHERE)
        .parent
}

/// Whether this parent is a given node.
pub fn is_named(parent: Option<u16>, v: u16) -> bool
    ensures { result ≡ is_named parent v }
{
    match parent {
        Some(w) => w == v,
        None => false,
    }
}

/// Whether the edge between two nodes is one of the true tree in a still.
fn is_strong(still: &Still, v: u16, w: u16) -> bool
    ensures { result ≡ is_strong still.now v w }
{
    is_named(true_parent(still, v), w) || is_named(true_parent(still, w), v)
}

/// Adds the name of the symbol of the edge between two nodes.
fn push_edge(text: &mut String, still: &Still, v: u16, w: u16) -> Result<(), AllocError>
    ensures { OnOk result (string_bytes text.new ≡ string_bytes text.old
        ++ edge_code (are_joined still.now.edges v w) (is_strong still.now v w) v w) }
{
    match (still.joins(v, w), is_strong(still, v, w)) {
        (true, true) => write!(text, "#b{v}-{w}"),
        (true, false) => write!(text, "#e{v}-{w}"),
        _ => text.push_str("#n"),
    }
}

/// Adds the name of the symbol of a frame that waits, or of none.
fn push_waiting(text: &mut String, still: &Still, u: u16, v: u16) -> Result<(), AllocError>
    ensures { OnOk result (string_bytes text.new ≡ string_bytes text.old
        ++ waiting_code (is_waiting still.now u v) u v) }
{
    if is_waiting(still, u, v) {
        write!(text, "#m{u}-{v}")
    } else {
        text.push_str("#n")
    }
}

impl Track {
    /// Adds the name of the symbol that it shows of a still.
    fn push_value(self, text: &mut String, still: &Still) -> Result<(), AllocError>
        ensures { OnOk result (string_bytes text.new
            ≡ string_bytes text.old ++ value_of self still.now) }
    {
        match self {
            Track::Mark(v) => text.push_str(mark(look_of(still, v))),
            Track::Distance(v) => write!(text, "#d{}", look_of(still, v).own.distance),
            Track::Parent(v) => match look_of(still, v).own.parent {
                Some(parent) => write!(text, "#a{v}-{parent}"),
                None => text.push_str("#n"),
            },
            Track::Ticket(v) => match look_of(still, v).lent {
                Some(ticket) => write!(text, "#t{ticket}"),
                None => text.push_str("#n"),
            },
            Track::Strike(v) => text.push_str(if strikes(still, v) { "#z" } else { "#n" }),
            Track::Damage => text.push_str(if still.damaged { "#y" } else { "#n" }),
            Track::Sweeps => write!(text, "#s{}", still.sweeps),
            Track::Edge(v, w) => push_edge(text, still, v, w),
            Track::Frame => push_frame(text, still.event),
            Track::Waiting(u, v) => push_waiting(text, still, u, v),
        }
    }

    /// Adds what it shows of a still, once for each beat, each time after a semicolon.
    fn push_beats(self, text: &mut String, still: &Still, beats: usize) -> Result<(), AllocError>
        ensures { OnOk result (string_bytes text.new
            ≡ string_bytes text.old ++ more_values self (replicate beats still.now)) }
    {
        for _ in 0..beats {
            text.push_str(";")?;
            self.push_value(text, still)?;
        }
        Ok(())
    }

    /// What it shows, beat by beat.
    fn values(self, alloc: Global, shown: Shown<'_>) -> Result<String, AllocError>
        ensures { IfOk result (λ text. string_bytes text ≡ values_of self (beats_of (film_of shown.entry))) }
    {
        let mut text = String::new(alloc);
        self.push_value(&mut text, shown.opening())?;
        self.push_beats(
            &mut text,
            shown.opening(),
            shown.beats_at(0).saturating_sub(1),
        )?;
        self.push_later(&mut text, shown)?;
        Ok(text)
    }

    /// Adds what it shows of the stills after the first.
    fn push_later(self, text: &mut String, shown: Shown<'_>) -> Result<(), AllocError>
        ensures { OnOk result (string_bytes text.new
            ≡ string_bytes text.old ++ more_values self (later_beats (film_of shown.entry) 1 shown.entry.later.now)) }
    {
        let later = shown.later();
        for place in 0..later.len() {
            let beats = shown.beats_at(place + 1);
            self.push_beats(text, &later[place], beats)?;
        }
        Ok(())
    }

    /// What it shows at the end.
    fn last(self, alloc: Global, shown: Shown<'_>) -> Result<String, AllocError>
        ensures { IfOk result (λ text. string_bytes text ≡ value_of self (last_of (film_of shown.entry))) }
    {
        let mut text = String::new(alloc);
        self.push_value(&mut text, shown.last())?;
        Ok(text)
    }

    /// The element that shows it at a place; if nothing plays, it shows the last still.
    pub fn group(self, alloc: Global, shown: Shown<'_>, x: u32, y: u32) -> Result<Group, AllocError>
        ensures { IfOk result (λ group. grouped_of group ≡ track_shown self (film_of shown.entry) x y) }
    {
        let last = self.last(alloc, shown)?;
        let element = Element::new(alloc, "use")
            .with(alloc, "href", last.as_str())?
            .with_number(alloc, "x", x)?
            .with_number(alloc, "y", y)?;
        let values = self.values(alloc, shown)?;
        let play = Element::new(alloc, "animate")
            .with(alloc, "attributeName", "href")?
            .with(alloc, "calcMode", "discrete")?
            .with(alloc, "values", values.as_str())?;
        Group::alone(alloc, element).holding(repeated(alloc, play, shown)?)
    }
}

/// An animation that lasts as long as the film, again and again.
pub fn repeated(alloc: Global, play: Element, shown: Shown<'_>) -> Result<Element, AllocError>
    ensures { IfOk result (λ element. shown_of element ≡ repeated_shown (shown_of play) shown.entry.pace) }
{
    let milliseconds = shown.pace().milliseconds();
    let long = format!(in alloc; "{milliseconds}ms")?;
    play.with(alloc, "dur", long.as_str())?
        .with(alloc, "repeatCount", "indefinite")
}
