//! Where the parts of a picture stand on the page.
ghost use Rattle.std.specs.Prelude.{◌≡◌};
ghost use Rattle.run_picture.specs.Page.{column_width, lane_height, x_of, right_of, middle_of};
ghost use Rattle.run_picture.specs.Page.{y_of, top_of, ground_of, level_of};
ghost use Rattle.run_picture.specs.Page.{page_width, page_height, page_of, indent_of, node_x};

use svg_drawing::{Point, Px};
use topology::Net;

/// How wide the legend of the tree's edges and the nodes' names is.
const NAMES: u32 = 104;

/// The least width of the page, wide enough for the legend.
const LEAST_WIDTH: u32 = 800;

/// Where the parts of a picture stand. From the top: title, legend, the line of damage and that of
/// sweeps, the lanes, the curves with their axis. The tree stands left of the lanes.
#[derive(Clone, Copy, Debug)]
pub struct Page {
    /// The left end of the columns.
    pub left: Px,
    /// The width of a column.
    pub column: Px,
    /// How many columns there are.
    pub columns: usize,
    /// The height of a lane.
    pub lane: Px,
    /// How many lanes there are.
    pub lanes: usize,
    /// How far a node is to the right of its parent in the tree.
    pub indent: Px,
}

impl Page {
    /// The top of the lanes.
    pub const TOP: Px = Px(176);

    /// The left end of titles and legend, and of the tree.
    pub const MARGIN: Px = Px(16);

    /// The height of the curves.
    pub const CURVES: Px = Px(64);

    /// The page for a network and this many columns.
    pub fn new(net: &Net, columns: usize) -> Page
        ensures { result ≡ page_of net.now columns }
    {
        let depth = usize::from(net.eccentricity());
        let indent = Px(indent_of(depth));
        let lanes = usize::from(net.nodes());
        Page {
            left: Page::MARGIN + indent * depth.max(1) + Px(NAMES),
            column: Px(column_width(columns)),
            columns,
            lane: Px(lane_height(lanes)),
            lanes,
            indent,
        }
    }

    /// The left end of a column.
    pub fn x(self, column: usize) -> Px
        ensures { result.0 ≡ x_of self column }
    {
        self.left + self.column * column
    }

    /// The middle of a column.
    pub fn middle(self, column: usize) -> Px
        ensures { result.0 ≡ middle_of self column }
    {
        self.x(column) + self.column.half()
    }

    /// The right end of the columns.
    pub fn right(self) -> Px
        ensures { result.0 ≡ right_of self }
    {
        self.x(self.columns)
    }

    /// The middle of a lane.
    pub fn y(self, lane: usize) -> Px
        ensures { result.0 ≡ y_of self lane }
    {
        self.top(lane) + self.lane.half()
    }

    /// The upper end of a lane.
    fn top(self, lane: usize) -> Px
        ensures { result.0 ≡ top_of self lane }
    {
        Page::TOP + self.lane * lane
    }

    /// The line of the curves at 0 nodes.
    pub fn ground(self) -> Px
        ensures { result.0 ≡ ground_of self }
    {
        self.top(self.lanes) + Px(24) + Page::CURVES
    }

    /// The line of the curves at `count` nodes, each of which is `node` high.
    pub fn level(self, node: Px, count: usize) -> Px
        ensures { result.0 ≡ level_of self node.0 count }
    {
        self.ground() - node * count
    }

    /// The width of the page.
    pub fn width(self) -> Px
        ensures { result.0 ≡ page_width self }
    {
        let width = self.right() + Px(48);
        Px(width.0.max(LEAST_WIDTH))
    }

    /// The height of the page.
    pub fn height(self) -> Px
        ensures { result.0 ≡ page_height self }
    {
        self.ground() + Px(64)
    }

    /// The place of a node of the tree.
    pub fn node(self, lane: usize, depth: usize) -> Point
        ensures x { result.x.0 ≡ node_x self depth }
        ensures y { result.y.0 ≡ y_of self lane }
    {
        Point {
            x: Page::MARGIN + Px(8) + self.indent * depth,
            y: self.y(lane),
        }
    }
}

/// How far a node is to the right of its parent, in a tree of this depth.
fn indent_of(depth: usize) -> u32
    ensures { result ≡ indent_of depth }
{
    let indent = 200 / depth.max(1);
    indent.min(22).max(3) as u32
}

/// The width of a column, if there are this many.
fn column_width(columns: usize) -> u32
    ensures { result ≡ column_width columns }
{
    let width = 1200 / columns.max(1);
    width.min(24).max(1) as u32
}

/// The height of a lane, if there are this many.
fn lane_height(lanes: usize) -> u32
    ensures { result ≡ lane_height lanes }
{
    let height = 640 / lanes.max(1);
    height.min(32).max(12) as u32
}
