//! The frames and the nodes.
ghost use Rattle.std.specs.Prelude.{◌≡◌, ◌∷◌, ◌++◌, [], OnOk, IsTrue};
ghost use Rattle.run_film.specs.declared.track.Track.TheVariants.{Parent};
ghost use Rattle.run_film.specs.declared.track.Track.TheVariants.{Sweeps, Damage};
ghost use Rattle.run_film.specs.Beats.{film_of};
ghost use Rattle.run_film.specs.Films.{drawn, AddsNode, IsPlayed, Keeps, ShowsFrames, ShowsNodes};
ghost use Rattle.run_film.specs.Symbols.{is_framed};
ghost use Rattle.run_film.specs.Tracks.{track_shown};

use crate::material::Material;
use crate::pairs::{Paired, put_pairs};
use crate::stage::Stage;
use crate::tickets::ticket_place;
use crate::track::Track;
use crate::words::words;
use run_recording::MOST_FRAMED;
use std::alloc::{AllocError, Global};
use svg_drawing::{Group, Point, Px};

/// Where symbols are put that are already drawn at their places.
pub const ORIGIN: Point = Point { x: Px(0), y: Px(0) };

/// Draws a part of the film at a place.
pub fn put_track(
    material: Material<'_>,
    groups: &mut Vec<Group>,
    track: Track,
    at: Point,
) -> Result<(), AllocError>
    ensures { OnOk result (drawn groups.new.items
        ≡ drawn groups.old.items ++ track_shown track (film_of material.entry.shown) at.x.0 at.y.0 ∷ []) }
{
    groups.push(track.group(material.alloc, material.shown, at.x.0, at.y.0)?)?;
    Ok(())
}

/// Draws the frames, if the network is small enough.
pub fn put_frames(material: Material<'_>, groups: &mut Vec<Group>) -> Result<(), AllocError>
    ensures frames { OnOk result (IsTrue (is_framed material.entry.net.now)
        → ShowsFrames (drawn groups.new.items) (film_of material.entry.shown) material.entry.net.now) }
    ensures keeps { OnOk result (Keeps (drawn groups.old.items) (drawn groups.new.items)) }
{
    if material.net.nodes() <= MOST_FRAMED {
        put_pairs(material, groups, Paired::Waiting)?;
        put_track(material, groups, Track::Frame, ORIGIN)?;
    }
    Ok(())
}

/// Says how many sweeps there were, and whether there was damage.
pub fn put_said(material: Material<'_>, groups: &mut Vec<Group>) -> Result<(), AllocError>
    ensures sweeps { OnOk result (IsPlayed (drawn groups.new.items) (track_shown Sweeps (film_of material.entry.shown))) }
    ensures damage { OnOk result (IsPlayed (drawn groups.new.items) (track_shown Damage (film_of material.entry.shown))) }
    ensures keeps { OnOk result (Keeps (drawn groups.old.items) (drawn groups.new.items)) }
{
    let y = material.stage.floor + Px(20);
    put_track(material, groups, Track::Sweeps, Point { x: Px(40), y })?;
    let x = material.stage.width - Px(110);
    put_track(material, groups, Track::Damage, Point { x, y })?;
    Ok(())
}

/// Draws the nodes, and beneath them the arrow of each towards its parent.
pub fn put_nodes(material: Material<'_>, groups: &mut Vec<Group>) -> Result<(), AllocError>
    ensures nodes { OnOk result (ShowsNodes (drawn groups.new.items) (film_of material.entry.shown) material.entry.net.now) }
    ensures keeps { OnOk result (Keeps (drawn groups.old.items) (drawn groups.new.items)) }
{
    for v in 0..material.net.nodes() {
        put_track(material, groups, Track::Parent(v), ORIGIN)?;
    }
    for v in 0..material.net.nodes() {
        put_node(material, groups, v)?;
    }
    Ok(())
}

/// Draws a node: how it stands, its distance, the ticket that it lends to, and what strikes it.
fn put_node(material: Material<'_>, groups: &mut Vec<Group>, v: u16) -> Result<(), AllocError>
    ensures { OnOk result (AddsNode (drawn groups.old.items) (drawn groups.new.items) (film_of material.entry.shown) v) }
{
    let at = material.stage.at(v);
    let beside = ticket_place(material.net, material.stage, v);
    put_track(material, groups, Track::Mark(v), at)?;
    put_track(material, groups, Track::Distance(v), at)?;
    put_track(material, groups, Track::Ticket(v), beside)?;
    put_track(material, groups, Track::Strike(v), at)?;
    groups.push(node_name(material.alloc, material.stage, v)?)?;
    Ok(())
}

/// The name of a node: beside it, or below it if its neighbours are near.
fn node_name(alloc: Global, stage: &Stage, v: u16) -> Result<Group, AllocError> {
    let name = if stage.is_wide() {
        format!(in alloc; "node {v}")?
    } else {
        format!(in alloc; "{v}")?
    };
    let text = words(alloc, name_place(stage, v), name.as_str())?;
    Ok(Group::alone(alloc, text))
}

/// Where the name of a node begins.
fn name_place(stage: &Stage, v: u16) -> Point {
    let Point { x, y } = stage.at(v);
    if stage.is_narrow() {
        Point {
            x: x + Px(4),
            y: y + Px(34),
        }
    } else {
        Point {
            x: x + Px(26),
            y: y - Px(8),
        }
    }
}
