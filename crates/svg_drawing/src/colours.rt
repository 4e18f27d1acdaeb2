//! The colours of a picture.
ghost use Rattle.std.specs.Prelude.{◌≡◌};
ghost use Rattle.svg_drawing.specs.Colours.{colour_code};

/// A colour. Those of the marks grow darker in the order pale, gold, grey, red, so that a reader
/// can distinguish them without any colour, too.
#[derive(Clone, Copy)]
pub enum Colour {
    /// A node whose distance and parent are true.
    Pale,
    /// A node whose distance or parent is wrong.
    Grey,
    /// A privileged node.
    Gold,
    /// A node that lends, and damage.
    Red,
    /// Texts, sweeps and the edges of the tree.
    Ink,
    /// The lines from which the guarantee holds.
    Blue,
    /// Other edges, and lines that only help to read.
    Faint,
    /// The background.
    Paper,
    /// The links, the first of the four layers of the proof. The colours of these four are from the
    /// palette that Okabe and Ito made so that the colour-blind can distinguish them.
    Sky,
    /// The tree, the second layer.
    Green,
    /// The token ring, the third layer.
    Purple,
    /// The loans and the service, the fourth layer.
    Vermilion,
}

impl Colour {
    /// The colour as SVG writes it.
    pub fn code(self) -> &'static str
        ensures { result.now ≡ colour_code self }
    {
        match self {
            Colour::Pale => "#e6edf2",
            Colour::Grey => "#8a8f94",
            Colour::Gold => "#f2b705",
            Colour::Red => "#a3142e",
            Colour::Ink => "#22262a",
            Colour::Blue => "#0b5394",
            Colour::Faint => "#b4bac0",
            Colour::Paper => "#ffffff",
            Colour::Sky => "#56b4e9",
            Colour::Green => "#009e73",
            Colour::Purple => "#cc79a7",
            Colour::Vermilion => "#d55e00",
        }
    }
}
