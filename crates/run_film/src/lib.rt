//! A run of a network as a film: a drawing that plays, and a page that holds it.
//!
//! [`film`] draws the stills that a recording has kept. The network is a graph, with the root at the
//! top and each node as far below as its true distance. In each node is the distance that it has, and
//! an arrow points towards the parent that it has. The film plays by the animation elements of SVG,
//! without any script; a program that plays no animation shows the last still:
//!
//! ```
//! let recording = record_film(alloc, &net, &mut source, FilmPace::of(&net, 20).most(), Window::ALL)?;
//! let scene = film(alloc, &net, &recording, FilmPace::of(&net, 20))?;
//! let text = spelled_scene(alloc, &scene)?;      // bytes of a file that a browser plays
//! ```
//!
//! Each still is shown for some *beats*, a part of a second each. What changes from still to still
//! is a [`Track`]: its values, beat by beat.
//!
//! Contracts say which symbol a part shows at each beat. They do not say where on the page a part
//! stands, nor what is drawn in a symbol.
//!
//! The trap: nodes stand where the network that is given has them, even after edges join and part.
#![tactic(auto)]

mod counts;
mod curve;
mod frames;
mod head;
mod material;
mod nodes;
mod pace;
mod page;
mod pairs;
mod playing;
mod shapes;
mod stage;
mod symbols;
mod text;
mod tickets;
mod track;
mod waiting;
mod words;

pub use pace::{FilmPace, Shown};
pub use playing::film;
pub use run_recording::{Look, Place, Recording, Reel, SimFault, Still, Window, record_film};
pub use svg_drawing::{Document, GroupedDrawing, spelled_document, spelled_scene};
pub use text::{FilmText, WantedFilm, film_text, page_text};
pub use track::Track;
