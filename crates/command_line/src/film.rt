//! `draw FILE EVENTS --film`: a film of the run that a list of events makes on a network.

use run_film::{WantedFilm, film_text, page_text};
use run_picture::command::{Drawn, Draws};
use run_picture::{Net, Source};
use std::alloc::Global;
use subcommands::{Fault, simulation_fault};

/// The film that is asked for.
#[derive(Clone, Copy)]
pub struct Film(pub WantedFilm);

impl Draws for Film {
    fn drawn<S: Source>(self, alloc: Global, net: &Net, source: &mut S) -> Result<Drawn, Fault> {
        let film = if self.0.page {
            page_text(alloc, net, source, self.0)
        } else {
            film_text(alloc, net, source, self.0)
        };
        let film = film.map_err(|fault| simulation_fault(fault))?;
        Ok(Drawn {
            text: film.text,
            refused: film.refused,
        })
    }
}
