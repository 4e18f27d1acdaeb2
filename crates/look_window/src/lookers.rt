//! Which lookers are shown a line.
ghost use Rattle.std.specs.Prelude.{◌≡◌, ◌<◌, length, nat_lt};
ghost use Rattle.look_window.specs.Lookers.{IsShown, is_whole};

use node_connections::{Pipe, WriteAnswer};

/// The most lookers that are shown a line between two turns.
pub const LOOKERS: u8 = 64;

/// The most lookers that are let in or closed between two turns; others wait.
pub const COMERS: u8 = 128;

/// Whether the looker that came after `place` others since the last turn is shown the line.
pub fn is_let_in(place: u8) -> bool
    ensures { result ≡ nat_lt place 64 }
{
    place < LOOKERS
}

/// Writes the line to a looker, once. Returns whether the looker took all of it.
pub fn show<P: Pipe>(looker: &mut P, line: &[u8]) -> bool
    requires { 0 < length line.now }
    ensures shown { IsShown P.took P.counts line.now looker.old looker.new result }
    // Nothing is read from it.
    ensures gave { P.gave looker.new ≡ P.gave looker.old }
{
    match looker.try_write(line) {
        WriteAnswer::Wrote(count) => count == line.len(),
        WriteAnswer::Later | WriteAnswer::Failed => false,
    }
}
