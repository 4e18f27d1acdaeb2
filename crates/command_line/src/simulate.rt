//! The words of `simulate`.
ghost use Rattle.std.specs.Prelude.{◌≡◌, codes};
ghost use Rattle.command_words.specs.command_faults.Ends.{DoneMeansZeroOr};

use clap::ArgMatches;
use command_grammar::{FREE, Grammar, Parameter, word};
use command_words::program::{EVENTS, FILE};
use command_words::refusal::Refusal;
use std::io::Input;
use std::process::ExitCode;
use std::rt::Files;
use subcommands::simulate;

/// What `simulate` takes.
static SIMULATE: Grammar<'static> = Grammar {
    name: "simulate",
    about: "Replays a list of events, and shows the state that they lead to",
    help: "\
Replays the events of a text, one a line, from fresh nodes and empty links:

  tick 0                   node 0 does its part: its place, its desk, the token
  send 0 1                 node 0 sends a frame to node 1; a full link loses it
  take 0 1                 node 1 takes the oldest item from node 0, if any
  lose 0 1 2               item 2 of that link is lost; item 0 is the oldest
  ask 1 7                  ticket 7 asks at node 1 for the lock
  leave 1 7                ticket 7 releases the lock, or waits no longer

Lines that begin with harm write any state, as a fault would:

  harm own 1 2 none        node 1 has distance 2 and no parent
  harm counters 1 0 3 4    its port to node 0 sends under 3, and last heard 4
  harm staged 1 0 2 none 5 what it sends there: distance, parent, ring value
  harm copy 1 0 0 none 6   what it has copied from there: the same three
  harm value 1 0 5         its machine that comes in from node 0 has the value 5
  harm desk 1 7 0 no       its desk lends to ticket 7 for 0 more ticks, and has
                           not served (yes or no)
  harm desk 1 none 0 yes   its desk lends to nobody, and has served
  harm frame 0 1 4 3 0 none 6
                           a frame is on the link from node 0 to node 1: number
                           4, acknowledging 3, then distance, parent, ring value
  harm junk 0 1            noise on that link
  harm empty 0 1           nothing is on that link any more

Edges may join and go too, with up to 8 edges more than the network's at a time:

  harm join 0 2            an edge joins nodes 0 and 2; its links are empty, and
                           their other ports stay
  harm part 0 1            the edge between nodes 0 and 1 goes, with its ports
                           and what is on its links

Exactly one space stands between two words. A number is decimal, 0 to 65535,
with no leading zero. An empty line, and a line that begins with #, is skipped,
but counted. The text may have 1,073,741,824 bytes.

A refused line changes nothing, and is named by its number: 'line 4: Unread' if
it spells no event (or has more than 64 bytes), else the first of these that
holds:

  NoNode        there is no such node
  NoLink        the two nodes are not neighbours
  NoItem        there is no such item to lose
  OutOfRange    no state has such a value; a frame or noise is for a full
                link; or the two nodes to join are one, or are joined already,
                or there are 256 edges
  Full          64 tickets already wait
  Twice         the ticket already waits, or has the lock
  Stranger      the ticket neither waits nor has the lock
  NoSpare       8 edges have joined more than have gone
  Apart         without that edge some node cannot reach the root

After the last line it shows the state: each node; how many items are on each
link; how many nodes are privileged, that is, have the token, and how many lend;
and last the sweeps, as in `sweeps 331 of 69`. 331 sweeps have passed since the
last damage, and 69 are proved to be enough (see bound), so the network has had
more than it needs. No sweep ends while a node lends. If the network has no
lease, only a leave ends a loan.

A line on standard error says so if such a loan holds up the sweeps. So does one
if lines were refused and the text has carriage returns, as at the end of CRLF
lines.

  $ printf 'tick 0\\ntick 2\\n' | tokentree simulate two-nodes.toml -
  line 2: NoNode
  node 0 distance 0 parent none token no lent none waiting 0
  node 1 distance 2 parent none token no lent none waiting 0
  link 0 1 items 0
  link 1 0 items 0
  privileged 0 lending 0
  sweeps 0 of 69

With --layers six lines more show what has settled at the end, each layer on top
of those before it, and each as the proof means it:

  links 2 of 4 stable                    how many links count rightly, an edge
                                         being one in each direction
  distances right up to stage 1 of 3     each distance below 1 is right, where
                                         it is written, sent and copied, and
                                         each other is at least 1; stage 3: all
  tree no                                all distances and parents are right
  ring no                                the values round the tree are one, and
                                         then the one before it: one token
  loans yes                              each node that lends has the token
  legitimate no                          all of these: the network serves until
                                         something is damaged

The output is buffered: refusals come when the buffer is full, and at the end.

Statuses: 0 done; 1 a file, memory or standard output failed, and a line on
standard error says which; 2 invalid arguments; 3 done, and some lines were
refused.",
    parameters: &[
        FILE,
        EVENTS,
        Parameter::Flag("layers", "Show what has settled at the end, too"),
    ],
    ..FREE
};

/// What `simulate` takes, for the parser.
pub fn grammar() -> &'static Grammar<'static>
    ensures { result.now.name.now ≡ codes "simulate" }
{
    &SIMULATE
}

/// Does what the words of `simulate` say.
pub fn run<R: Files + Input + Print + Eprint + AllocGlobal>(
    rt: &R,
    given: &ArgMatches,
) -> Result<ExitCode, Refusal>
    ensures { DoneMeansZeroOr 3 result }
{
    Ok(simulate::run(
        rt,
        word(given, "FILE")?,
        word(given, "EVENTS")?,
        given.get_flag("layers"),
    )?)
}
