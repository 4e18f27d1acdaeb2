//! Frames that wait: they are under way, and the last event did not just send them.
ghost use Rattle.std.specs.Prelude.{◌≡◌, IfOk, OnOk, IsTrue, codes};
ghost use Rattle.std.specs.List.{list_any};
ghost use Rattle.svg_drawing.specs.Grouped.{grouped_of};
ghost use Rattle.run_film.specs.Beats.{film_of};
ghost use Rattle.run_film.specs.Films.{drawn, Keeps};
ghost use Rattle.run_film.specs.Shapes.{symbol_shown};
ghost use Rattle.run_film.specs.Symbols.{IsDefined};
ghost use Rattle.run_film.specs.Tracks.{frames_between, is_waiting, pair_code, sends, waits_in};

use crate::curve::waiting_place;
use crate::material::Material;
use crate::pace::Shown;
use crate::shapes::{circle, symbol};
use crate::stage::Stage;
use crate::symbols::put_symbol;
use run_recording::{Event, Still};
use std::alloc::{AllocError, Global};
use svg_drawing::Group;

/// Whether a frame waits on its way from a node to another: one is under way besides the one that the last event
/// of the still sends.
pub fn is_waiting(still: &Still, u: u16, v: u16) -> bool
    ensures { result ≡ is_waiting still.now u v }
{
    u16::from(sends(still.event, u, v)) < frames_between(still, u, v)
}

/// How many frames are under way from a node to another, in a small network.
fn frames_between(still: &Still, u: u16, v: u16) -> u16
    ensures { result ≡ frames_between still.now u v }
{
    let place = 12 * usize::from(u) + usize::from(v);
    still.under_way.get(place).copied().unwrap_or(0)
}

/// Whether an event sends a frame from a node to another.
fn sends(event: Option<Event>, u: u16, v: u16) -> bool
    ensures { result ≡ sends event u v }
{
    match event {
        Some(Event::Send { from, to }) => from == u && to == v,
        _ => false,
    }
}

/// Whether a frame waits between two nodes in some still.
pub fn waits_in(shown: Shown<'_>, u: u16, v: u16) -> bool
    ensures { result ≡ waits_in (film_of shown.entry) u v }
{
    is_waiting(shown.opening(), u, v) || any_waits(shown.later(), u, v)
}

/// Whether a frame waits between two nodes in some of these stills.
fn any_waits(stills: &[Still], u: u16, v: u16) -> bool
    ensures { result ≡ list_any (λ still. is_waiting still u v) stills.now }
{
    stills.iter().any(|still| is_waiting(still, u, v))
}

/// Adds the symbol of a frame that waits between two nodes, if one does so in some still.
pub fn put_waiting_symbol(
    material: Material<'_>,
    groups: &mut Vec<Group>,
    u: u16,
    v: u16,
) -> Result<(), AllocError>
    ensures waiting { OnOk result (IsTrue (waits_in (film_of material.entry.shown) u v)
        → IsDefined (drawn groups.new.items) (pair_code (codes "m") u v)) }
    ensures keeps { OnOk result (Keeps (drawn groups.old.items) (drawn groups.new.items)) }
{
    if waits_in(material.shown, u, v) {
        put_symbol(
            groups,
            waiting_symbol(material.alloc, material.stage, u, v)?,
        )?;
    }
    Ok(())
}

/// A dot that rests, however many frames wait.
fn waiting_symbol(alloc: Global, stage: &Stage, u: u16, v: u16) -> Result<Group, AllocError>
    ensures { IfOk result (λ group. (grouped_of group).element ≡ symbol_shown (pair_code (codes "m") u v)) }
{
    let name = format!(in alloc; "m{u}-{v}")?;
    let dot = circle(alloc, waiting_place(stage, u, v), 4, "dot", "#22262a")?;
    symbol(alloc, name.as_str())?.holding(dot)
}
