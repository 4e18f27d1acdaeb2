//! A film as the text of a file.
ghost use Rattle.std.specs.Prelude.{ℕ, ◌≡◌, List, Some, IfOk};
ghost use Rattle.run_recording.specs.SimulatedText.{events_of};
ghost use Rattle.run_film.specs.FilmTexts.{IsFilm, IsPage};

use crate::pace::FilmPace;
use crate::playing::{film, page};
use byte_streams::Source;
use run_recording::{SimFault, Window, record_film};
use std::alloc::Global;
use svg_drawing::{spelled_document, spelled_scene};
use topology::Net;

/// Which film is made of a run.
#[derive(Clone, Copy)]
pub struct WantedFilm {
    /// For how many seconds it plays, 2 to 600.
    pub seconds: u16,
    /// The moments that are shown.
    pub window: Window,
    /// Whether it is in a page, with controls.
    pub page: bool,
}

/// A film, or a page that holds it.
#[derive(Drop)]
pub struct FilmText {
    /// What a browser plays: an SVG document, or an HTML one.
    pub text: Vec<u8>,
    /// How many lines of the events text were refused.
    pub refused: u64,
}

/// The film of what the events from a source lead to on a network.
///
/// # Errors
/// If memory runs out, the source fails, or it gives too many bytes.
pub fn film_text<S: Source>(
    alloc: Global,
    net: &Net,
    source: &mut S,
    wanted: WantedFilm,
) -> Result<FilmText, SimFault>
    ensures { (bytes : List ℕ) → S.rest source.old ≡ Some bytes
        → IfOk result (λ made. IsFilm net.now wanted.window (events_of bytes) made.text.items) }
{
    let pace = FilmPace::of(net, wanted.seconds);
    let recording = record_film(alloc, net, source, pace.most(), wanted.window)?;
    let scene = film(alloc, net, &recording, pace)?;
    Ok(FilmText {
        text: spelled_scene(alloc, &scene)?,
        refused: recording.refused(),
    })
}

/// The page that holds the film of what the events from a source lead to on a network.
///
/// # Errors
/// As [`film_text`].
pub fn page_text<S: Source>(
    alloc: Global,
    net: &Net,
    source: &mut S,
    wanted: WantedFilm,
) -> Result<FilmText, SimFault>
    ensures { (bytes : List ℕ) → S.rest source.old ≡ Some bytes
        → IfOk result (λ made. IsPage net.now wanted.window (events_of bytes) made.text.items) }
{
    let pace = FilmPace::of(net, wanted.seconds);
    let recording = record_film(alloc, net, source, pace.most(), wanted.window)?;
    let page = page(alloc, net, &recording, pace)?;
    Ok(FilmText {
        text: spelled_document(alloc, &page)?,
        refused: recording.refused(),
    })
}
