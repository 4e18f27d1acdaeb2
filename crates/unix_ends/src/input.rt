//! When standard input is at its end.
ghost use Rattle.std.specs.Prelude.{◌≡◌};
ghost use Rattle.unix_ends.specs.InputSights.{input_sight};

use mio::unix::SourceFd;
use mio::{Interest, Registry, Token};
use std::io;
use std::io::{ErrorKind, Input, Read};

/// The descriptor of standard input.
const STANDARD_INPUT: i32 = 0;

/// The state of standard input.
#[derive(Clone, Copy)]
pub enum InputSight {
    /// It is open.
    Open,
    /// It is at its end.
    Ended,
    /// It cannot be read, for instance a terminal by a process in the background.
    Unreadable,
}

/// Makes a poll report, under this token, when standard input can be read or is at its end. Each
/// call makes it report again.
///
/// # Errors
/// If standard input is closed, or is a file or `/dev/null`, for which no poll waits.
pub fn watch_input(registry: &Registry, token: Token, is_first: bool) -> io::Result<()> {
    let mut input = SourceFd(&STANDARD_INPUT);
    if is_first {
        registry.register(&mut input, token, Interest::READABLE)
    } else {
        registry.reregister(&mut input, token, Interest::READABLE)
    }
}

/// The most bytes of standard input that are read at a time.
const PIECE: usize = 512;

/// Reads standard input, which a poll has reported, and returns its state.
pub fn read_input<R: Input>(rt: &R) -> InputSight {
    let mut buffer = [0; PIECE];
    input_sight(&rt.reader().read(&mut buffer))
}

/// The state of standard input, by what a read of it returned.
fn input_sight(answer: &io::Result<usize>) -> InputSight
    ensures { result ≡ input_sight answer.now }
{
    match answer {
        Ok(0) => InputSight::Ended,
        Ok(_) => InputSight::Open,
        Err(error) if error.kind() == ErrorKind::Interrupted => InputSight::Open,
        Err(_) => InputSight::Unreadable,
    }
}
