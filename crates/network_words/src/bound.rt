//! The words of `bound`.
ghost use Rattle.std.specs.Prelude.{◌≡◌, codes};
ghost use Rattle.command_words.specs.command_faults.Ends.{DoneMeansZero};

use clap::ArgMatches;
use command_grammar::{FREE, Grammar, Parameter, word};
use command_words::program::FILE;
use command_words::refusal::Refusal;
use network_commands::{bound, bound_json};
use recovery_times::{PremiseWords, Premises, TimeFault};
use std::process::ExitCode;
use std::rt::Files;

/// What `bound` takes.
static BOUND: Grammar<'static> = Grammar {
    name: "bound",
    about: "Shows a network's numbers, and after how many sweeps its lock works",
    help: "\
A network file names its nodes 0 to nodes-1, the root, how many items each
direction of an edge holds, the most ticks of a loan of the lock (0: no limit),
and the edges:

  nodes = 2
  root = 0
  capacity = 1
  lease = 0
  edges = [[0, 1]]

  $ tokentree bound two-nodes.toml
  nodes 2
  edges 1
  capacity 1
  counter 5
  ring 7
  distances 0 1
  parents none 0
  sweeps 69

counter and ring are the moduli of the links' counters and of the token's
values; distances and parents are those of the nodes 0, 1, .. in the tree to the
root. From any state, the lock works after 69 sweeps. A sweep is a stretch of a
run: in it every node makes a full tick, after which it lends to nobody, and
takes from each neighbour an item that was sent within the stretch. --sharp adds
one line, here sharp 35: a bound that does not depend on the capacity, and is
never above the other one.

--time adds three lines, here for the default times:

  window 12.5 ms
  recovers within 438 ms
  lends within 200 ms

They hold if the machine keeps these premises. Each node gets a whole turn in
each stretch of --turn. A node sends its frame again after --repeat at the
latest. A frame is taken in the first turn that begins --delay after it was
sent, so every connection is up. A loan ends within --loan, as its node sees it,
also one that a fault forged. The default is the longest loan that leaves the
window as it is: --repeat plus --delay, up to an hour. With --loan 0 no node
lends, and the second time says nothing. Then each window holds a sweep. So
after the last fault the lock works within the first time, from any state. From
then on a client that waits alone is granted the lock within the second. Times
are milliseconds up to 3600000 (an hour), with at most 3 decimals; --turn and
--repeat are above 0. The times shown are rounded up.

With --json it prints one JSON object. The names are those of the lines, with
window_us in microseconds, and recovers_within_ms and lends_within_ms.",
    parameters: &[
        FILE,
        Parameter::Flag("sharp", "Also show the bound without the capacity"),
        Parameter::Flag("json", "Print one JSON object, on one line"),
        Parameter::Flag("time", "Also show how long recovery and a grant take"),
        Parameter::Value(
            "turn",
            MILLISECONDS,
            "Each node gets a turn in this time [default: 2.2]",
        ),
        Parameter::Value(
            "delay",
            MILLISECONDS,
            "A frame arrives within this time [default: 0.1]",
        ),
        Parameter::Value(
            "loan",
            MILLISECONDS,
            "A loan ends within this time [default: repeat + delay]",
        ),
        Parameter::Value(
            "repeat",
            MILLISECONDS,
            "A frame is repeated after this time [default: 8]",
        ),
    ],
    needs: &[
        ("turn", "time"),
        ("delay", "time"),
        ("loan", "time"),
        ("repeat", "time"),
    ],
    ..FREE
};

/// What `bound` takes, for the parser.
pub fn grammar() -> &'static Grammar<'static>
    ensures { result.now.name.now ≡ codes "bound" }
{
    &BOUND
}

/// The name of a time in the help.
const MILLISECONDS: &str = "MILLISECONDS";

/// Does what the words of `bound` say.
pub fn run<R: Files + Print + Eprint + AllocGlobal>(
    rt: &R,
    given: &ArgMatches,
) -> Result<ExitCode, Refusal>
    ensures { DoneMeansZero result }
{
    let path = word(given, "FILE")?;
    let (sharp, premises) = (given.get_flag("sharp"), premises(given)?);
    if given.get_flag("json") {
        return Ok(bound_json::run(rt, path, sharp, premises)?);
    }
    Ok(bound::run(rt, path, sharp, premises)?)
}

/// The premises, if times are asked for.
fn premises(given: &ArgMatches) -> Result<Option<Premises>, TimeFault> {
    if !given.get_flag("time") {
        return Ok(None);
    }
    let words = PremiseWords {
        turn: given.get_str("turn"),
        delay: given.get_str("delay"),
        loan: given.get_str("loan"),
        repeat: given.get_str("repeat"),
    };
    words.read().map(Some)
}
