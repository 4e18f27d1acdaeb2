//! A whole film.
ghost use Rattle.std.specs.Prelude.{◌≡◌, ◌≤◌, Some, IfOk, OnOk, length};
ghost use Rattle.run_recording.specs.declared.still.Still.{Still};
ghost use Rattle.run_recording.specs.Reels.{ReelView};
ghost use Rattle.svg_drawing.specs.Grouped.{scene_shown};
ghost use Rattle.run_film.specs.Beats.{film_of};
ghost use Rattle.run_film.specs.Films.{drawn, Keeps, ShowsFilm, ShowsParts};
ghost use Rattle.run_film.specs.Pages.{ShowsPage};

use crate::counts::counts;
use crate::head::{FilmHead, attributes, head};
use crate::material::Material;
use crate::nodes::{put_frames, put_nodes, put_said};
use crate::pace::{EMPTY, FilmPace, Shown};
use crate::page::{controls, page_head};
use crate::pairs::{Paired, put_pairs};
use crate::stage::Stage;
use crate::symbols::put_symbols;
use run_recording::{Recording, Reel, Still, first_visits};
use std::alloc::{AllocError, Global};
use svg_drawing::{Document, Group, GroupedDrawing};
use topology::Net;

/// The film of a run that was recorded for it, at a pace. If the recording's window holds no
/// moment, the film shows a network of which nothing is seen; the contract says nothing of this
/// case.
pub fn film(
    alloc: Global,
    net: &Net,
    recording: &Recording,
    pace: FilmPace,
) -> Result<GroupedDrawing, AllocError>
    ensures plays { (reel : ReelView) (opening : Still) → recording.now.reel ≡ Some reel
        → reel.opening ≡ Some opening
        → IfOk result (λ scene. ShowsFilm (scene_shown scene)
        (record { opening = opening; later = reel.stills; pace = pace }) net.now) }
    ensures few { (reel : ReelView) → recording.now.reel ≡ Some reel → length reel.stills ≤ reel.limit }
{
    let empty = EMPTY;
    scene(alloc, net, recording, shown_of(recording, &empty, pace))
}

/// A page with that film, its controls, and a sentence for each still.
pub fn page(
    alloc: Global,
    net: &Net,
    recording: &Recording,
    pace: FilmPace,
) -> Result<Document, AllocError>
    ensures plays { (reel : ReelView) (opening : Still) → recording.now.reel ≡ Some reel
        → reel.opening ≡ Some opening
        → IfOk result (λ page. ShowsPage page
        (record { opening = opening; later = reel.stills; pace = pace }) net.now) }
    ensures few { (reel : ReelView) → recording.now.reel ≡ Some reel → length reel.stills ≤ reel.limit }
{
    let empty = EMPTY;
    let shown = shown_of(recording, &empty, pace);
    Ok(Document {
        before: page_head(alloc)?,
        scene: scene(alloc, net, recording, shown)?,
        after: controls(alloc, shown)?,
    })
}

/// What is shown of a recording; if its window holds no moment, this still.
fn shown_of<'a>(recording: &'a Recording, empty: &'a Still, pace: FilmPace) -> Shown<'a>
    ensures shown { (reel : ReelView) (opening : Still) → recording.now.reel ≡ Some reel
        → reel.opening ≡ Some opening
        → film_of result ≡ record { opening = opening; later = reel.stills; pace = pace } }
    ensures few { (reel : ReelView) → recording.now.reel ≡ Some reel → length reel.stills ≤ reel.limit }
{
    match recording.reel() {
        Some(reel) => Shown::new(opening_of(reel, empty), reel.stills(), pace),
        None => Shown::new(empty, &[], pace),
    }
}

/// The first still of a reel; if it has none, this one.
fn opening_of<'a>(reel: &'a Reel, empty: &'a Still) -> &'a Still
    ensures { (opening : Still) → reel.now.opening ≡ Some opening → result.now ≡ opening }
{
    match reel.opening() {
        Some(opening) => opening,
        None => empty,
    }
}

/// The drawing of these stills.
fn scene(
    alloc: Global,
    net: &Net,
    recording: &Recording,
    shown: Shown<'_>,
) -> Result<GroupedDrawing, AllocError>
    ensures { IfOk result (λ scene. ShowsFilm (scene_shown scene) (film_of shown.entry) net.now) }
{
    let order = first_visits(alloc, net)?;
    let stage = Stage::of(net, order.as_slice());
    let said = FilmHead {
        nodes: net.nodes(),
        events: recording.events(),
        refused: recording.refused(),
        stills: shown.later().len().saturating_add(1),
        crowded: recording.reel().is_some_and(|reel| reel.is_crowded()),
    };
    let material = Material {
        alloc,
        net,
        stage: &stage,
        shown,
    };
    let mut groups = head(alloc, &stage, said)?;
    groups.extend(counts(alloc, &stage, shown)?)?;
    put_symbols(material, &mut groups)?;
    put_parts(material, &mut groups)?;
    Ok(GroupedDrawing {
        attributes: attributes(alloc, &stage)?,
        groups,
    })
}

/// Draws what changes from still to still.
fn put_parts(material: Material<'_>, groups: &mut Vec<Group>) -> Result<(), AllocError>
    ensures plays { OnOk result (ShowsParts (drawn groups.new.items) (film_of material.entry.shown) material.entry.net.now) }
    ensures keeps { OnOk result (Keeps (drawn groups.old.items) (drawn groups.new.items)) }
{
    put_said(material, groups)?;
    put_pairs(material, groups, Paired::Edge)?;
    put_frames(material, groups)?;
    put_nodes(material, groups)?;
    Ok(())
}
