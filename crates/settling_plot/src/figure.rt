//! What is plotted.
ghost use Rattle.std.specs.Prelude.{◌≡◌};
ghost use Rattle.svg_drawing.specs.Drawn.{pen_of};
ghost use Rattle.settling_plot.specs.Figures.{layer_words, layer_pen, row_of, last_bound};

use svg_drawing::{Colour, Px, Stroke};

/// When a layer held permanently, run by run.
#[derive(Drop)]
pub struct Distribution {
    /// The number of sweeps after which it held permanently, in each run that counts.
    pub sweeps: Vec<u64>,
    /// The number of sweeps by which it is proved to hold in every run.
    pub bound: u32,
}

/// When each of the four layers held permanently in many runs.
#[derive(Drop)]
pub struct Figure {
    /// How many nodes the network has.
    pub nodes: u16,
    /// How many runs there were. A run that does not count for a layer is missing from its curve.
    pub runs: u32,
    /// The first run's seed.
    pub seed: u32,
    /// When every link was stable.
    pub links: Distribution,
    /// When the tree was reached.
    pub tree: Distribution,
    /// When the token ring was good.
    pub ring: Distribution,
    /// When the network served.
    pub served: Distribution,
}

impl Figure {
    /// The greatest of the four bounds.
    pub(crate) fn last_bound(&self) -> u32
        ensures { result ≡ last_bound self.now }
    {
        let lower = self.links.bound.max(self.tree.bound);
        lower.max(self.ring.bound.max(self.served.bound))
    }
}

/// A layer of the proof.
#[derive(Clone, Copy)]
pub enum PlottedLayer {
    /// Every link is stable.
    Links,
    /// The tree is reached.
    Tree,
    /// The token ring is good.
    Ring,
    /// The network serves.
    Served,
}

impl PlottedLayer {
    /// What the legend calls it.
    pub(crate) fn words(self) -> &'static str
        ensures { result.now ≡ layer_words self }
    {
        match self {
            PlottedLayer::Links => "links stable",
            PlottedLayer::Tree => "tree reached",
            PlottedLayer::Ring => "token ring good",
            PlottedLayer::Served => "network serves",
        }
    }

    /// How its curve is drawn: in a colour, and with dashes, of its own.
    pub(crate) fn stroke(self) -> Stroke
        ensures { pen_of result ≡ layer_pen self }
    {
        match self {
            PlottedLayer::Links => stroke(Colour::Sky, "none"),
            PlottedLayer::Tree => stroke(Colour::Green, "9 3"),
            PlottedLayer::Ring => stroke(Colour::Purple, "5 2"),
            PlottedLayer::Served => stroke(Colour::Vermilion, "2 2"),
        }
    }

    /// Its place among the four, from below.
    pub(crate) fn row(self) -> usize
        ensures { result ≡ row_of self }
    {
        match self {
            PlottedLayer::Links => 0,
            PlottedLayer::Tree => 1,
            PlottedLayer::Ring => 2,
            PlottedLayer::Served => 3,
        }
    }
}

/// The line of a curve.
fn stroke(colour: Colour, dashes: &'static str) -> Stroke
    ensures { pen_of result ≡ record { colour = colour; width = 2; dashes = dashes.now } }
{
    Stroke {
        colour,
        width: Px(2),
        dashes,
    }
}
