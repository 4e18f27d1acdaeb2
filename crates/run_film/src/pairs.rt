//! What a film has for each pair of nodes.
ghost use Rattle.std.specs.Prelude.{◌≡◌, ◌<◌, ℕ, OnOk, IsTrue};
ghost use Rattle.run_film.specs.Beats.{film_of};
ghost use Rattle.run_film.specs.Films.{drawn, Keeps};
ghost use Rattle.run_film.specs.Pairs.{is_seen, ShowsPaired, ShowsPairs};

use crate::frames::put_frames_between;
use crate::material::Material;
use crate::nodes::{ORIGIN, put_track};
use crate::pace::Shown;
use crate::symbols::{arrow, is_parent, put_lines, put_symbol};
use crate::track::Track;
use crate::waiting::waits_in;
use std::alloc::AllocError;
use svg_drawing::Group;

/// What two nodes may have in a still.
#[derive(Clone, Copy)]
pub enum Paired {
    /// The edge from the second node to the first, whose id is greater, as a drawing.
    Edge,
    /// The symbols of that edge: a thin line, and a strong one for the time when it is part of the
    /// true tree.
    Lines,
    /// The symbol of the arrow from the first to the second, its parent.
    Arrow,
    /// The symbols of the frames from the first to the second.
    Frames,
    /// The frames that wait on their way from the first to the second, as a drawing.
    Waiting,
}

/// Adds this for each pair of nodes that has it in some still.
pub fn put_pairs(
    material: Material<'_>,
    groups: &mut Vec<Group>,
    paired: Paired,
) -> Result<(), AllocError>
    ensures pairs { OnOk result (ShowsPairs paired (drawn groups.new.items) (film_of material.entry.shown) material.entry.net.now) }
    ensures keeps { OnOk result (Keeps (drawn groups.old.items) (drawn groups.new.items)) }
{
    for v in 0..material.net.nodes() {
        put_pairs_of(material, groups, paired, v)?;
    }
    Ok(())
}

/// Adds this for a node and each other node, if they have it in some still.
fn put_pairs_of(
    material: Material<'_>,
    groups: &mut Vec<Group>,
    paired: Paired,
    v: u16,
) -> Result<(), AllocError>
    ensures pairs { OnOk result ((w : ℕ) → w < material.entry.net.now.nodes
        → IsTrue (is_seen paired (film_of material.entry.shown) v w)
        → ShowsPaired paired (drawn groups.new.items) (film_of material.entry.shown) v w) }
    ensures keeps { OnOk result (Keeps (drawn groups.old.items) (drawn groups.new.items)) }
{
    for w in 0..material.net.nodes() {
        put_pair(material, groups, paired, v, w)?;
    }
    Ok(())
}

/// Adds this for two nodes, if they have it in some still.
fn put_pair(
    material: Material<'_>,
    groups: &mut Vec<Group>,
    paired: Paired,
    v: u16,
    w: u16,
) -> Result<(), AllocError>
    ensures pair { OnOk result (IsTrue (is_seen paired (film_of material.entry.shown) v w)
        → ShowsPaired paired (drawn groups.new.items) (film_of material.entry.shown) v w) }
    ensures keeps { OnOk result (Keeps (drawn groups.old.items) (drawn groups.new.items)) }
{
    if is_seen(material.shown, paired, v, w) {
        put_seen(material, groups, paired, v, w)?;
    }
    Ok(())
}

/// Whether two nodes have this in some still.
fn is_seen(shown: Shown<'_>, paired: Paired, v: u16, w: u16) -> bool
    ensures { result ≡ is_seen paired (film_of shown.entry) v w }
{
    match paired {
        Paired::Edge => w < v && shown.joins(w, v),
        Paired::Lines => w < v && shown.joins(w, v),
        Paired::Arrow => is_parent(shown, v, w),
        Paired::Frames => true,
        Paired::Waiting => waits_in(shown, v, w),
    }
}

/// Adds this for two nodes.
fn put_seen(
    material: Material<'_>,
    groups: &mut Vec<Group>,
    paired: Paired,
    v: u16,
    w: u16,
) -> Result<(), AllocError>
    ensures seen { OnOk result (ShowsPaired paired (drawn groups.new.items) (film_of material.entry.shown) v w) }
    ensures keeps { OnOk result (Keeps (drawn groups.old.items) (drawn groups.new.items)) }
{
    match paired {
        Paired::Edge => put_track(material, groups, Track::Edge(w, v), ORIGIN),
        Paired::Lines => put_lines(material, groups, w, v),
        Paired::Arrow => put_symbol(groups, arrow(material.alloc, material.stage, v, w)?),
        Paired::Frames => put_frames_between(material, groups, v, w),
        Paired::Waiting => put_track(material, groups, Track::Waiting(v, w), ORIGIN),
    }
}
