//! The words of `node`.
ghost use Rattle.std.specs.Prelude.{◌≡◌, IfOk, IfErr, codes};
ghost use Rattle.clap.specs.Matches.{found_of};
ghost use Rattle.process_words.specs.NodeWords.{IsNodeOf, AreNodeWordsRefused};
ghost use Rattle.command_words.specs.command_faults.Ends.{DoneMeansZeroOr};

use crate::options::{DIR, OPTIONS, ended};
use crate::up;
use clap::ArgMatches;
use command_grammar::{FREE, Grammar, Parameter, given_number};
use command_words::program::{FILE, ID, Runtime, VERSION};
use command_words::refusal::Refusal;
use process_parts::{NodeWords, NodeWork};
use std::process::ExitCode;

/// What `node` takes.
static NODE: Grammar<'static> = Grammar {
    name: "node",
    about: "Runs one node of a network as a process, until it is stopped",
    help: "\
FILE is a network file, as `help bound` shows. Node ID keeps these files in DIR.
If DIR is missing, the node makes it, for its owner alone:

  state-ID.tkt   its state
  node-ID.sock   other nodes connect here
  desk-ID.sock   clients connect here
  look-ID.sock   shows a line of JSON to whoever connects: how the node stands,
                 its links, loans and turns

All nodes of the network run like this in one DIR. They may start and end in any
order, at any time.

  $ tokentree node examples/ring-of-three.toml 0 run
  start default Absent
  ready

It prints what it starts from: its state, or the default state and why. It
prints ready once its sockets listen. A client writes the lines lock, unlock and
status to desk-ID.sock, and reads granted, lost, released and others.

Make the file DIR/stop-ID to end the node. It ends with status 0 within 256
turns, at most half a second:

  $ touch run/stop-0

As often, it saves its state and reads FILE again. Edges may join and go while
it runs, and it says which did. It ignores any other change, and says why.

What is proved assumes that no more frames are under way than the network's
capacity. On a link of two processes 36 frames may be under way, so give it 64
or more.

--hold is how long a node keeps news to itself while nobody asks for the lock.
--repeat is the time after which it sends a frame again. Both are in
microseconds; less means more work and less waiting. For lookers, the node
counts late turns. A turn is late if it ends more than --turn milliseconds after
the turn before (0.001 to 3600000, with at most 3 decimals).

Whoever may write in DIR can stop nodes, and whoever can open desk-ID.sock can
take the lock. With --group-locks the user's group may enter DIR and open
desk-ID.sock. All else is for the user alone.

With --log the node says on standard error what happens, a line each. Level 4
has what is wrong: a link is down, a client has lost the lock, clients are
refused since 64 wait or closed since 128 are connected, or its distance or
parent has been wrong for 2 seconds. Level 5 adds its begin and end, and what is
well again; level 6 adds who is granted the lock and who releases it. It says at
most 20 lines a second, and how many it left out. If JOURNAL_STREAM is set, a
line begins with its priority, as <4>.

With --record the node keeps a record of what it does, in DIR/record-ID.0 and
DIR/record-ID.1. Each has at most --record-size bytes (65536 to 1073741824). The
node writes them in turn, so the last one to two of that size are there. A file
begins with the node's whole state, and goes on with what the node takes, sends
and ticks, which clients ask and leave, and which links come and go, each with
its instant. If a file cannot be written, the record ends with a line on
standard error, and the node runs on. The network's text stands beside the
records, in DIR/record.toml.

Statuses: 0 ended by the stop file; 1 it cannot run, and a line on standard
error says why; 2 invalid arguments.",
    shared: OPTIONS,
    parameters: &[
        FILE,
        Parameter::Place("ID", "The node, 0 to nodes-1"),
        DIR,
        Parameter::Flag("child", "For `up`: name the node, and end with its input"),
    ],
    needs: &[("record-size", "record")],
    ..FREE
};

/// What `node` takes, for the parser.
pub fn grammar() -> &'static Grammar<'static>
    ensures { result.now.name.now ≡ codes "node" }
{
    &NODE
}

/// What the words of `node` ask for.
///
/// # Errors
/// If a word spells no number, or no time, in its range.
pub fn asked<'a>(given: &ArgMatches<'a>) -> Result<NodeWords<'a>, Refusal>
    ensures ok { IfOk result (IsNodeOf (found_of given.now)) }
    ensures err { IfErr result (AreNodeWordsRefused (found_of given.now)) }
{
    let id = given_number(given, ID)? as u16;
    // Besides these, it takes what `up` takes.
    let words = up::asked(given)?;
    Ok(NodeWords {
        file: words.file,
        id,
        dir: words.dir,
        manner: words.manner,
        turn: words.turn,
        version: VERSION,
        rights: words.rights,
        log: words.log,
        record_size: words.record_size,
        is_child: given.get_flag("child"),
    })
}

/// Does what the words of `node` say: `nodes` runs the node.
///
/// # Errors
/// If a word spells no number, or no time, in its range.
pub fn run<R: Runtime, N: NodeWork<R>>(
    rt: &R,
    given: &ArgMatches,
    nodes: &N,
) -> Result<ExitCode, Refusal>
    ensures ok { DoneMeansZeroOr 1 result }
    ensures err { IfErr result (AreNodeWordsRefused (found_of given.now)) }
{
    let words = asked(given)?;
    let done = nodes.run(rt, &words);
    Ok(ended(rt, words.file, words.dir, words.id, done))
}
