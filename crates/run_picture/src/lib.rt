//! A run of a network, as a picture: which nodes were wrong, privileged or lending, and when.
//!
//! [`draw`] lays out on a page what [`record`] has kept of a run, and [`spelled`] writes that as
//! SVG 1.1:
//!
//! ```
//! let recording = record(alloc, &net, &mut source, 1200, Window::ALL)?;
//! let drawing = draw(alloc, &net, &recording)?;
//! let text = spelled(alloc, &drawing)?;      // bytes of a file that a browser shows
//! ```
//!
//! Only the layout is made here. What is kept of a run is defined by `run_recording`, and what a
//! drawing is by `svg_drawing`; their names are re-exported. [`command`] is the command `draw`,
//! which prints a picture of the run that a file of events makes.
//!
//! The trap: the lanes and the tree are those of the given network, even if edges join and part;
//! but whether a node's distance and parent are true is judged by the network at that moment.
#![tactic(auto)]

pub mod command;
mod layout;

pub use byte_streams::Source;
pub use layout::{draw, draw_layered};
pub use run_recording::{
    Before, Column, Layers, Mark, Recording, Strip, Window, first_visits, record, record_layers,
};
pub use svg_drawing::{Attribute, Drawing, Element, spelled};
pub use topology::Net;
