//! When the layers of many runs held permanently, as a plot beside the proved bounds.
//!
//! A [`Figure`] has, for each of four layers, the numbers of sweeps after which the runs had it
//! permanently, and the number by which every run is proved to have it. [`plotted`] draws the four
//! distributions as curves, and returns SVG 1.1:
//!
//! ```
//! let figure = Figure { nodes, runs, seed, links, tree, ring, served };
//! let text = plotted(alloc, &figure)?;       // bytes of a file that a browser shows
//! ```
//!
//! Each layer has a curve of its own: its height over a number of sweeps is the share of all runs
//! that had the layer permanently by then. An upright line of the same colour marks its bound.
//!
//! It takes numbers and returns a text. It knows nothing about networks, and makes no runs.
//!
//! The trap: on the axis of sweeps each step doubles the number, so that both the runs, which
//! settle quickly, and the bounds, which are far away, can be seen. Between two numbers on the axis
//! the scale is even.
#![tactic(auto)]

mod axis;
mod curves;
mod figure;
mod ground;
mod heading;
mod legend;
mod limits;
mod plot;
mod tally;

pub use axis::Axis;
pub use figure::{Distribution, Figure, PlottedLayer};
pub use plot::{draw, plotted};
