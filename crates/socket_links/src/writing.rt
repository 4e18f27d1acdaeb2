//! Writing to a pipe.
ghost use Rattle.std.specs.Prelude.{◌≡◌, ◌≤◌, length};
ghost use Rattle.socket_links.specs.Writing.{WritesLine};

use crate::pipe::{Pipe, WriteAnswer};

/// How far a push got.
#[derive(Clone, Copy, PartialEq, Eq)]
pub enum Flow {
    /// Nothing of an accepted line is left.
    Done,
    /// The pipe has no room now.
    Later,
    /// The pipe failed, and was let go.
    Broken,
}

/// Writes these bytes as far as the pipe takes them. Returns how many it took, and how that ended.
pub(crate) fn write_line<P: Pipe>(pipe: &mut P, bytes: &[u8]) -> (usize, Flow)
    ensures count { result.0 ≤ length bytes.now }
    ensures wrote { WritesLine bytes.now (P.took pipe.old) (P.took pipe.new)
        (P.counts pipe.old) (P.counts pipe.new) result.0 result.1 }
    // A write reads nothing.
    ensures gave { P.gave pipe.new ≡ P.gave pipe.old }
{
    let mut count = 0;
    while count < bytes.len() {
        match pipe.try_write(&bytes[count..]) {
            WriteAnswer::Wrote(more) => count += more,
            WriteAnswer::Later => return (count, Flow::Later),
            WriteAnswer::Failed => return (count, Flow::Broken),
        }
    }
    (count, Flow::Done)
}
