//! How long to wait for what happens next.
ghost use Rattle.std.specs.Prelude.{◌≡◌, ◌≤◌};
ghost use Rattle.lock_command.specs.Rest.{rest_of, longest_of, child_rest};

/// The least and the most milliseconds between two looks at a command that runs.
const LEAST: u64 = 1;

const MOST: u64 = 25;

/// The most milliseconds of any rest, and of one between two looks at held signals.
const LONGEST: u64 = 1000;

const SIGNALS: u64 = 100;

/// How many milliseconds to wait if the command has run for `age` (none if no command runs) and
/// something is due in `left` (none if nothing is). A socket ends the wait at once; the end of a
/// command and a held signal do not.
pub fn rest(age: Option<u64>, left: Option<u64>, holds_signals_back: bool) -> u64
    ensures { result ≡ rest_of age left holds_signals_back }
{
    let longest = longest(age, holds_signals_back);
    match left {
        Some(left) => left.min(longest),
        None => longest,
    }
}

/// How many milliseconds to wait if nothing is due.
fn longest(age: Option<u64>, holds_signals_back: bool) -> u64
    ensures { result ≡ longest_of age holds_signals_back }
{
    match age {
        Some(age) => child_rest(age),
        None if holds_signals_back => SIGNALS,
        None => LONGEST,
    }
}

/// How many milliseconds pass between two looks at a command that has run for `age`: a sixteenth of
/// its age, but at least 1 and at most 25. So the end of a short command shows at once, and a long
/// command costs little.
fn child_rest(age: u64) -> u64
    ensures value { result ≡ child_rest age }
    ensures least { 1 ≤ result }
    ensures most { result ≤ 25 }
{
    (age / 16).clamp(LEAST, MOST)
}
