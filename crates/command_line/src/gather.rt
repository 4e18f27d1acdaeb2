//! The words of `gather`.
ghost use Rattle.std.specs.Prelude.{◌≡◌, IfErr, IfOk, codes};
ghost use Rattle.command_words.specs.command_faults.Ends.{DoneMeansZeroOr};
ghost use Rattle.clap.specs.Matches.{found_of};
ghost use Rattle.command_line.specs.Gather.{IsStretchOf, IsStretchRefused};

use clap::ArgMatches;
use command_grammar::{FREE, Grammar, Number, Parameter, WordFault, number_if_given, word};
use command_words::refusal::Refusal;
use gather_command::{TimeStretch, command};
use std::process::ExitCode;
use std::rt::Files;

/// What `gather` takes.
static GATHER: Grammar<'static> = Grammar {
    name: "gather",
    about: "Prints what nodes did, by their records, as a list of events",
    help: "\
Reads the records of all nodes of a network, the files DIR/record-ID.0 and
DIR/record-ID.1 of each node ID, and prints what the nodes did as one list of
events, for simulate and draw. The nodes kept their network in DIR/record.toml,
as it stood last:

  $ tokentree gather run > events.txt
  $ tokentree draw run/record.toml events.txt > run.svg

What a node did is its event. A frame is taken after it was sent, and frames in
front of it were lost. Else the earliest comes next, by the clocks of the nodes;
on one machine they agree. Whoever replays the list finds each node wherever its
record says that it stood.

A record begins with the whole state of its node, and the state comes again
whenever what was noted does not lead to it. If it differs from where the list
leads, lines of harm set it right. At first they only show how the node stood
when its record began. Later ones show damage, and a line on standard error
names the field that differs:

  tokentree: node 1 differs at microsecond 73519946: parent

The fields are distance and parent; the number of what the node sends to a
neighbour, the last number from there, the payloads for it and from it, and the
ring value from it; the tickets that wait, the ticket of the loan, its ticks
left, and whether the desk served. A frame is named too if its neighbour's
record does not have it. So it is if the neighbour did not send it, and also if
that record begins later or ends earlier: a node that runs writes 4 KiB at once,
and the rest when it stops. A node that is killed loses the rest. The first 64
are named. Four lines sum it all up:

  tokentree: nodes 3, events 1200, time 5000000 microseconds
  tokentree: frames lost 3, harms 2, frames that nobody sent 0
  tokentree: differences 1
  tokentree: longest turn 2500 microseconds, longest delay 900, loans 7,
             longest loan 90000 microseconds to ticket 7 at node 1

With --from or --last, 0 to 4294967295 seconds, the list begins later: lines of
harm first set each node, edge and frame under way as it stood then. The numbers
are those of this list, harms and all, but nothing from before counts. The
records are read from their beginnings all the same. Two records of different
length begin at different times; until the later one begins, its node's frames
count as sent by nobody, so begin after that.

The time is that from the first entry to the last one. A frame counts as lost
once a later one was taken. A turn is the time from one tick of a node to its
next one. A delay is the time from the turn in which a frame was sent to the one
in which it was taken, by the clocks of both nodes. A loan counts when it
begins; the longest is one that ended.

Give the network capacity 64 or more, as processes need: if more frames are
under way than its capacity, the list loses some, and they count as lost or sent
by nobody.

Nothing is printed if a node has no record, or if a file cannot be read, is none
of this version, or is the record of another node or network; nor if no network
is given and the nodes kept none. A file that ends within an entry, as after a
crash, or is spoiled from a place on, is read up to there: a line on standard
error says where, and the status is 1. No file is changed.

Statuses: 0 done; 1 a file, memory or standard output failed, or a file was not
read to its end, and a line on standard error says which; 2 invalid arguments.",
    parameters: &[
        Parameter::Place("DIR", "The folder of the nodes' records"),
        Parameter::Value(
            "network",
            "FILE",
            "The network file (TOML); DIR/record.toml if left out",
        ),
        Parameter::Value(
            "from",
            "SECONDS",
            "Begin this many seconds after the first entry",
        ),
        Parameter::Value(
            "last",
            "SECONDS",
            "Begin this many seconds before the last entry",
        ),
    ],
    excludes: &[("from", "last")],
    ..FREE
};

/// What `gather` takes, for the parser.
pub fn grammar() -> &'static Grammar<'static>
    ensures { result.now.name.now ≡ codes "gather" }
{
    &GATHER
}

/// Seconds after the first entry.
const FROM: Number<'static> = Number {
    id: "from",
    name: "--from",
    least: 0,
    most: 4_294_967_295,
};

/// Seconds before the last entry.
const LAST: Number<'static> = Number {
    id: "last",
    name: "--last",
    least: 0,
    most: 4_294_967_295,
};

/// Does what the words of `gather` say.
pub fn run<R: Files + Print + Eprint + AllocGlobal>(
    rt: &R,
    given: &ArgMatches,
) -> Result<ExitCode, Refusal>
    ensures { DoneMeansZeroOr 1 result }
{
    let dir = word(given, "DIR")?;
    let network = given.get_str("network");
    Ok(command::run(rt, dir, network, stretch(given)?)?)
}

/// Which part of the records is gathered, by the words of `gather`.
///
/// # Errors
/// If a word spells no number in its range.
fn stretch(given: &ArgMatches) -> Result<TimeStretch, WordFault<'static>>
    ensures ok { IfOk result (IsStretchOf (found_of given.now)) }
    ensures err { IfErr result (IsStretchRefused (found_of given.now)) }
{
    if let Some(seconds) = number_if_given(given, FROM)? {
        return Ok(TimeStretch::From(seconds as u32));
    }
    match number_if_given(given, LAST)? {
        Some(seconds) => Ok(TimeStretch::Last(seconds as u32)),
        None => Ok(TimeStretch::Whole),
    }
}
