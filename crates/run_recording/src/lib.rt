//! What is seen of a run: which nodes were wrong, privileged or lending, and when.
//!
//! [`record`] reads an events text, lets its events happen, and keeps for each moment the [`Mark`]
//! of each node, and how many nodes are privileged and how many lend. It keeps at most the given
//! number of [`Column`]s: if there are more moments, a column shows the worst of several.
//! [`runs_of`] gives the marks of a node as [`Run`]s of one mark, and [`first_visits`] the order of
//! the nodes:
//!
//! ```
//! let recording = record(alloc, &net, &mut source, 1200, Window::ALL)?;
//! let runs = runs_of(alloc, recording.strip().columns(), 0)?;
//! ```
//!
//! A moment is the start, or the time after an event, refused or not; so there is one more moment
//! than there are events. Nothing here knows about pages, colours or SVG.
//!
//! For films, a [`Look`] is what is seen of one node, a [`Still`] what is seen of all nodes at a
//! moment. A [`Reel`] takes the moments of a run one by one, and keeps no more stills than it was
//! made for. Neighbouring moments whose nodes and edges look the same may share a still; if that is
//! not enough, a still stands for a stretch of moments and shows the last of them. Calm stretches
//! are joined first. A moment is *weighty* if there was damage, or if two nodes are privileged or
//! two lend; its nodes and edges are shown as they were, unless there are so many such moments that
//! the reel is *crowded*.
//!
//! The traps: a still's counts are the greatest of its moments, but its looks are those of the last
//! one. A node's distance and parent are compared with the present network, whose edges may join
//! and part; but [`first_visits`] and [`is_tree_edge`] use the given network.
#![tactic(auto)]

mod change;
mod column;
mod lanes;
mod look;
mod mark;
mod recording;
mod reel;
mod runs;
mod sight;
mod still;
mod strip;
mod tour;
mod under_way;
mod window;

pub use change::Change;
pub use column::{Column, Counts};
pub use lanes::Lanes;
pub use layers::Layers;
pub use look::{Look, Place};
pub use mark::Mark;
pub use recording::{Before, Recording, record, record_film, record_layers};
pub use reel::Reel;
pub use runs::{Run, runs_of};
pub use sight::NodesSight;
pub use still::{MOST_EDGES, MOST_FRAMED, MOST_NODES, MOST_WAYS, NO_EDGE, Still};
pub use strip::Strip;
pub use tour::{first_visits, is_tree_edge};
pub use window::Window;
pub use world::simulation::SimFault;
pub use world::{Configuration, Event, EventLine, Harm};
