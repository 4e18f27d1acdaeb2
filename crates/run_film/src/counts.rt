//! Below the graph: how many nodes are privileged, and how many lend, beat by beat.
ghost use Rattle.std.specs.Prelude.{◌≡◌, IfOk, map};
ghost use Rattle.svg_drawing.specs.Grouped.{grouped_of};
ghost use Rattle.run_film.specs.Curves.{cursor_shown, IsCounted};

use crate::pace::Shown;
use crate::stage::Stage;
use crate::track::repeated;
use crate::words::words;
use run_recording::Still;
use std::alloc::{AllocError, Global};
use std::fmt::Write;
use svg_drawing::{Element, Fixed, Group, Point, Px};

/// Which nodes a curve counts.
#[derive(Clone, Copy)]
enum CountedNodes {
    /// The privileged ones.
    Privileged,
    /// Those that lend.
    Lending,
}

impl CountedNodes {
    /// How many it counts in a still.
    fn counted(self, still: &Still) -> usize {
        match self {
            CountedNodes::Privileged => still.privileged,
            CountedNodes::Lending => still.lending,
        }
    }

    /// How it is drawn.
    fn looks(self) -> &'static [Fixed] {
        match self {
            CountedNodes::Privileged => &PRIVILEGED,
            CountedNodes::Lending => &LENDING,
        }
    }
}

/// How the curve of the privileged nodes is drawn.
const PRIVILEGED: [Fixed; 4] = [
    Fixed("fill", "none"),
    Fixed("class", "curve-privileged"),
    Fixed("stroke", "#f2b705"),
    Fixed("stroke-width", "2"),
];

/// How the curve of those that lend is drawn.
const LENDING: [Fixed; 5] = [
    Fixed("fill", "none"),
    Fixed("class", "curve-lending"),
    Fixed("stroke", "#c3263f"),
    Fixed("stroke-width", "2"),
    Fixed("stroke-dasharray", "4 2"),
];

/// Where the curves begin.
const LEFT: Px = Px(40);

/// How high the curves are.
const HEIGHT: u32 = 60;

/// The frame of the curves.
#[derive(Clone, Copy)]
struct Chart {
    /// The height that stands for a count of 0.
    ground: Px,
    /// How wide all beats are.
    width: Px,
    /// How much higher a curve is for each node.
    node: Px,
}

/// What stands below the graph: the cursor, which goes along the curves as the film plays, and stands
/// at the end if nothing plays; the curves; and what they are.
pub fn counts(alloc: Global, stage: &Stage, shown: Shown<'_>) -> Result<Vec<Group>, AllocError>
    ensures { IfOk result (λ groups. IsCounted (map grouped_of groups.items) stage.now shown.entry.pace) }
{
    let mut groups = under_cursor(alloc, stage, shown)?;
    groups.push(cursor(alloc, stage, shown)?)?;
    Ok(groups)
}

/// The curves, and what they are.
fn under_cursor(alloc: Global, stage: &Stage, shown: Shown<'_>) -> Result<Vec<Group>, AllocError> {
    let chart = chart_of(stage, shown);
    let mut groups = Vec::new(alloc);
    groups.push(curve_line(alloc, chart, shown, CountedNodes::Privileged)?)?;
    groups.push(curve_line(alloc, chart, shown, CountedNodes::Lending)?)?;
    let at = Point {
        x: LEFT,
        y: chart.ground + Px(20),
    };
    let text = "privileged nodes: whole line; lending nodes: dashes";
    groups.push(Group::alone(alloc, words(alloc, at, text)?))?;
    Ok(groups)
}

/// The line that goes along the curves.
fn cursor(alloc: Global, stage: &Stage, shown: Shown<'_>) -> Result<Group, AllocError>
    ensures { IfOk result (λ group. grouped_of group ≡ cursor_shown stage.now shown.entry.pace) }
{
    let end = (stage.width - LEFT).0;
    let cursor = Element::new(alloc, "rect")
        .with(alloc, "class", "ink")?
        .with_number(alloc, "x", end)?
        .with_number(alloc, "y", (stage.floor + LEFT).0)?
        .with(alloc, "width", "2")?
        .with_number(alloc, "height", HEIGHT)?
        .with(alloc, "fill", "#22262a")?;
    let way = format!(in alloc; "40;{end}")?;
    let play = Element::new(alloc, "animate")
        .with(alloc, "attributeName", "x")?
        .with(alloc, "values", way.as_str())?;
    Group::alone(alloc, cursor).holding(repeated(alloc, play, shown)?)
}

/// The most nodes that are privileged, or lend, in any still; at least 1.
fn most_nodes(shown: Shown<'_>) -> usize {
    let first = shown.opening();
    let mut most = first.privileged.max(first.lending).max(1);
    for still in shown.later() {
        most = most.max(still.privileged.max(still.lending));
    }
    most
}

/// The chart of a film.
fn chart_of(stage: &Stage, shown: Shown<'_>) -> Chart {
    let node = HEIGHT as usize / most_nodes(shown).max(1);
    Chart {
        ground: stage.floor + Px(100),
        width: stage.width - Px(80),
        node: Px(node.min(20).max(1) as u32),
    }
}

/// How far from the left a curve is once this many beats are over.
fn curve_x_at(chart: Chart, shown: Shown<'_>, beats: usize) -> u32 {
    let wide = u64::from(chart.width.0).saturating_mul(beats as u64);
    let all = shown.pace().all().max(1) as u64;
    let x = wide / all;
    (LEFT + Px(x.min(100_000) as u32)).0
}

/// A curve: each still is as high as its count, and as wide as it has beats.
fn curve_line(
    alloc: Global,
    chart: Chart,
    shown: Shown<'_>,
    curve: CountedNodes,
) -> Result<Group, AllocError> {
    let mut done = shown.beats_at(0);
    let start = (chart.ground - chart.node * curve.counted(shown.opening())).0;
    let mut steps = format!(in alloc; "M{} {start}H{}", LEFT.0, curve_x_at(chart, shown, done))?;
    for (place, still) in shown.later().iter().enumerate() {
        done = done.saturating_add(shown.beats_at(place.saturating_add(1)));
        let y = (chart.ground - chart.node * curve.counted(still)).0;
        write!(steps, "V{y}H{}", curve_x_at(chart, shown, done))?;
    }
    let line = Element::new(alloc, "path")
        .with(alloc, "d", steps.as_str())?
        .with_all(alloc, curve.looks())?;
    Ok(Group::alone(alloc, line))
}
