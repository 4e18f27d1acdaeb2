//! The network, beside the lanes: each node in its lane, as far to the right as it is from the
//! root.
ghost use Rattle.std.specs.Prelude.{◌≡◌, ◌∷◌, ◌++◌, [], IfOk, OnOk, string_bytes};
ghost use Rattle.std.specs.List.{flat_map};
ghost use Rattle.svg_drawing.specs.Drawn.{drawn};
ghost use Rattle.run_picture.specs.Page.{y_of};
ghost use Rattle.run_picture.specs.Tree.{lane_of, tree_x, corner_steps, bow_steps, bow_width};
ghost use Rattle.run_picture.specs.Tree.{line_down, edge_shown, node_shown, nodes_shown};
ghost use Rattle.run_picture.specs.Tree.{tree_shown};
ghost use Rattle.run_picture.specs.Words.{node_name};

use super::page::Page;
use run_recording::is_tree_edge;
use std::alloc::{AllocError, Global};
use svg_drawing::{Anchor, Canvas, Colour, Point, Px, Stroke};
use topology::Net;

/// A node in its lane.
#[derive(Clone, Copy)]
struct Standing {
    node: u16,
    lane: usize,
}

/// Draws the network; `order` names the nodes of the lanes from the top.
pub fn draw_tree(
    canvas: &mut Canvas,
    page: Page,
    net: &Net,
    order: &[u16],
) -> Result<(), AllocError>
    ensures { OnOk result (drawn canvas.new
        ≡ drawn canvas.old ++ tree_shown page net.now order.now) }
{
    draw_edges(canvas, page, net, order, net.edges())?;
    draw_nodes(canvas, page, net, order)
}

/// Draws edges.
fn draw_edges(
    canvas: &mut Canvas,
    page: Page,
    net: &Net,
    order: &[u16],
    edges: &[(u16, u16)],
) -> Result<(), AllocError>
    ensures { OnOk result (drawn canvas.new
        ≡ drawn canvas.old ++ flat_map (edge_shown page net.now order.now) edges.now) }
{
    for edge in edges {
        draw_edge(canvas, page, net, order, *edge)?;
    }
    Ok(())
}

/// Draws the nodes, from the top.
fn draw_nodes(canvas: &mut Canvas, page: Page, net: &Net, order: &[u16]) -> Result<(), AllocError>
    ensures { OnOk result (drawn canvas.new
        ≡ drawn canvas.old ++ nodes_shown page net.now 0 order.now) }
{
    for lane in 0..order.len() {
        let node = order[lane];
        draw_node(canvas, page, net, Standing { node, lane })?;
    }
    Ok(())
}

/// Draws a node, with its name.
fn draw_node(
    canvas: &mut Canvas,
    page: Page,
    net: &Net,
    standing: Standing,
) -> Result<(), AllocError>
    ensures { OnOk result (drawn canvas.new
        ≡ drawn canvas.old ++ node_shown page net.now standing.lane standing.node) }
{
    let at = place_of(page, net, standing);
    canvas.circle(at, Px(5), Colour::Ink)?;
    let text = node_name(canvas.alloc(), standing.node)?;
    let name = Point {
        x: page.left - Px(8),
        y: at.y + Px(4),
    };
    canvas.words(name, Anchor::End, Colour::Ink, text.as_str())
}

/// The name of a node.
fn node_name(alloc: Global, v: u16) -> Result<String, AllocError>
    ensures { IfOk result (λ words. string_bytes words ≡ node_name v) }
{
    format!(in alloc; "node {v}")
}

/// The place of a node in its lane.
fn place_of(page: Page, net: &Net, standing: Standing) -> Point
    ensures x { result.x.0 ≡ tree_x page net.now standing.node }
    ensures y { result.y.0 ≡ y_of page standing.lane }
{
    let Standing { node, lane } = standing;
    let depth = if node < net.nodes() {
        usize::from(net.distance(node))
    } else {
        0
    };
    page.node(lane, depth)
}

/// The lane of a node.
fn lane_of(order: &[u16], v: u16) -> Option<usize>
    ensures { result ≡ lane_of order.now v }
{
    order.iter().position(|u| *u == v)
}

/// Draws an edge, if each of its nodes has a lane.
fn draw_edge(
    canvas: &mut Canvas,
    page: Page,
    net: &Net,
    order: &[u16],
    edge: (u16, u16),
) -> Result<(), AllocError>
    ensures { OnOk result (drawn canvas.new
        ≡ drawn canvas.old ++ edge_shown page net.now order.now edge) }
{
    let (v, w) = edge;
    let (Some(a), Some(b)) = (lane_of(order, v), lane_of(order, w)) else {
        return Ok(());
    };
    let first = Standing { node: v, lane: a };
    let second = Standing { node: w, lane: b };
    if a < b {
        draw_down(canvas, page, net, first, second)
    } else {
        draw_down(canvas, page, net, second, first)
    }
}

/// Draws an edge from its upper node: thick and with a corner if it is one of the tree, else thin
/// and round.
fn draw_down(
    canvas: &mut Canvas,
    page: Page,
    net: &Net,
    upper: Standing,
    lower: Standing,
) -> Result<(), AllocError>
    ensures { OnOk result (drawn canvas.new ≡ drawn canvas.old
        ++ line_down page net.now upper.node lower.node upper.lane lower.lane ∷ []) }
{
    let from = place_of(page, net, upper);
    let to = place_of(page, net, lower);
    if is_tree_edge(net, upper.node, lower.node) {
        let steps = corner(canvas.alloc(), from, to)?;
        canvas.path(steps.as_str(), Stroke::whole(Colour::Ink, 3))
    } else {
        let steps = bow(canvas.alloc(), from, to)?;
        canvas.path(steps.as_str(), Stroke::whole(Colour::Faint, 1))
    }
}

/// The steps of a line with a corner.
fn corner(alloc: Global, from: Point, to: Point) -> Result<String, AllocError>
    ensures { IfOk result (λ steps. string_bytes steps
        ≡ corner_steps from.x.0 from.y.0 to.x.0 to.y.0) }
{
    let (x, y, end_x, end_y) = (from.x.0, from.y.0, to.x.0, to.y.0);
    format!(in alloc; "M{x} {y}V{end_y}H{end_x}")
}

/// The steps of a bow to the right.
fn bow(alloc: Global, from: Point, to: Point) -> Result<String, AllocError>
    ensures { IfOk result (λ steps. string_bytes steps
        ≡ bow_steps from.x.0 from.y.0 to.x.0 to.y.0) }
{
    let (x, y, end_x, end_y) = (from.x.0, from.y.0, to.x.0, to.y.0);
    let high = to.y - from.y;
    let turn = (Px(x.max(end_x)) + bow_width(high)).0;
    let middle = (from.y + high.half()).0;
    format!(in alloc; "M{x} {y}Q{turn} {middle} {end_x} {end_y}")
}

/// How far a bow goes to the right of its ends.
fn bow_width(high: Px) -> Px
    ensures { result.0 ≡ bow_width high.0 }
{
    Px((high.0 / 3).min(40).max(8))
}
