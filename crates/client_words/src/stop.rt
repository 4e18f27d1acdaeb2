//! The words of `stop`.
ghost use Rattle.std.specs.Prelude.{◌≡◌, codes};

use crate::status::{IDS, ids};
use clap::ArgMatches;
use command_grammar::{FREE, Grammar, Number, Parameter, given_number, word};
use command_words::program::{DIR, Runtime};
use command_words::refusal::Refusal;
pub use node_stopping::warn_of_runner;
use std::process::ExitCode;

/// What `stop` takes.
static STOP: Grammar<'static> = Grammar {
    name: "stop",
    about: "Ends nodes that run as processes, and waits until they have ended",
    help: "\
Makes the file DIR/stop-ID for each node, as `help node` says, and waits until
the node has saved its state and ended:

  $ tokentree stop run 1
  node 1 has ended

Such a stop is no damage. To stop nodes that `up` keeps running, end `up`.

Statuses: 0 each node ran, and has ended; 1 one did not run or has not ended in
time, and a line on standard error says why; 2 invalid arguments.",
    parameters: &[
        Parameter::ValueOr(
            "timeout",
            "SECONDS",
            "10",
            "How long to wait for each, 0 to 65535",
        ),
        DIR,
        IDS,
    ],
    ..FREE
};

/// What `stop` takes, for the parser.
pub fn grammar() -> &'static Grammar<'static>
    ensures { result.now.name.now ≡ codes "stop" }
{
    &STOP
}

/// How many seconds `stop` waits for a node.
const TIMEOUT: Number<'static> = Number {
    id: "timeout",
    name: "--timeout",
    least: 0,
    most: 65_535,
};

/// Does what the words of `stop` say.
pub fn run<R: Runtime>(rt: &R, given: &ArgMatches) -> Result<ExitCode, Refusal> {
    let seconds = given_number(given, TIMEOUT)? as u16;
    let nodes = ids(rt.alloc(), given.get_strs("ID").unwrap_or(&[]))?;
    let status = node_stopping::run(rt, word(given, "DIR")?, nodes.as_slice(), seconds);
    Ok(ExitCode::from(status))
}
