//! The words of `schedule`.
ghost use Rattle.std.specs.Prelude.{◌≡◌, IfOk, IfErr, codes};
ghost use Rattle.command_words.specs.command_faults.Ends.{DoneMeansZero};
ghost use Rattle.clap.specs.Matches.{found_of};
ghost use Rattle.command_grammar.specs.Given.{IsGiven, IsRefused};
ghost use Rattle.command_line.specs.Turns.{AreTurnsOf, AreTurnsRefused};

use clap::ArgMatches;
use command_grammar::{
    Choice, FREE, Grammar, Number, Parameter, WordFault, given_number, number_if_given, word,
};
use command_words::program::{FILE, SEED};
use command_words::refusal::Refusal;
use std::process::ExitCode;
use std::rt::Files;
use subcommands::schedule::Turns;
use subcommands::{Chances, schedule};

/// What `schedule` takes. Options for random steps also conflict with `--rounds`, since beside it
/// the parser does not require `--random`.
static SCHEDULE: Grammar<'static> = Grammar {
    name: "schedule",
    about: "Prints a list of events for simulate: damage, rounds, random steps",
    help: "\
If the network has no lease (lease = 0), give --give-back 1 with --scramble: a
scramble may write a loan that nobody ends, and then there are no sweeps.

  $ tokentree schedule ring.toml --scramble 7 --rounds 100 --give-back 1 |
      tokentree simulate ring.toml -

A round: each node ticks, by ascending id. Then come sends and takes in turn on
each direction of each edge, by ascending source and destination: one of each
more than the link holds items. A round is a sweep if no node lends the lock
after its tick.

With --give-back, a client releases the lock once its node has lent it for this
many ticks in a row: after the round, or right after that tick among random
steps. --rounds with --give-back 1 is a run as measure makes it.

Random steps: each is a tick, a send or a take, all equally likely, at a node or
a direction of an edge. With --loss some takes are losses of the oldest item.
With --clients a fourth kind is as likely: a client with one of 16 tickets asks
at a node, or leaves. A step that would be refused (a loss with nothing under
way, say) becomes a tick of its node. The words of the generator (PCG32, from
the seed) are used in this order, each modulo how many there are to choose from:
the kind, 3 or 4; of a tick the node; of the others the edge as the file lists
it and 2 for its direction; of a take 100 for the loss; of a client the node, 16
for the ticket, and 2 for asking or leaving.

--scramble begins with harms that write every part of the world, drawn from its
own seed. No event is refused, and the same words give the same text on any
machine. SEED, N and EVENTS are 0 to 4294967295.

Statuses: 0 done; 1 a file, memory or standard output failed, and a line on
standard error says which; 2 invalid arguments.",
    parameters: &[
        FILE,
        Parameter::Value(
            "scramble",
            "SEED",
            "Begin with damage to everything, drawn from this seed",
        ),
        Parameter::Value("rounds", "N", "Rounds; in each every node and link acts"),
        Parameter::Value("random", "EVENTS", "Random steps: ticks, sends and takes"),
        Parameter::Value("seed", "SEED", "The seed of the random steps"),
        Parameter::Value(
            "loss",
            "PERCENT",
            "How many of a hundred takes are losses, 0 to 100",
        ),
        Parameter::Flag("clients", "Random steps of clients too: they ask and leave"),
        Parameter::Value(
            "give-back",
            "TICKS",
            "Release the lock after this many ticks, 1 to 65535",
        ),
    ],
    needs: &[
        ("random", "seed"),
        ("seed", "random"),
        ("loss", "random"),
        ("clients", "random"),
    ],
    excludes: &[
        ("seed", "rounds"),
        ("loss", "rounds"),
        ("clients", "rounds"),
    ],
    choice: Some(Choice {
        name: "turns",
        of: &["rounds", "random"],
    }),
    ..FREE
};

/// What `schedule` takes, for the parser.
pub fn grammar() -> &'static Grammar<'static>
    ensures { result.now.name.now ≡ codes "schedule" }
{
    &SCHEDULE
}

/// The seeds of a scramble.
const SCRAMBLE: Number<'static> = Number {
    id: "scramble",
    name: "--scramble",
    least: 0,
    most: 4_294_967_295,
};

/// How many rounds a schedule has.
const ROUNDS: Number<'static> = Number {
    id: "rounds",
    name: "--rounds",
    least: 0,
    most: 4_294_967_295,
};

/// How many random steps a schedule has.
const RANDOM: Number<'static> = Number {
    id: "random",
    name: "--random",
    least: 0,
    most: 4_294_967_295,
};

/// How many of a hundred random takes are losses.
const LOSS: Number<'static> = Number {
    id: "loss",
    name: "--loss",
    least: 0,
    most: 100,
};

/// After how many ticks the lock is released.
const GIVE_BACK: Number<'static> = Number {
    id: "give-back",
    name: "--give-back",
    least: 1,
    most: 65_535,
};

/// Does what the words of `schedule` say.
pub fn run<R: Files + Print + Eprint + AllocGlobal>(
    rt: &R,
    given: &ArgMatches,
) -> Result<ExitCode, Refusal>
    ensures { DoneMeansZero result }
{
    let network = word(given, "FILE")?;
    let scramble = number_if_given(given, SCRAMBLE)?.map(|seed| seed as u32);
    let loan = loan(given)?;
    Ok(schedule::run(rt, network, scramble, loan, turns(given)?)?)
}

/// After how many ticks the lock is released, if that is asked for.
///
/// # Errors
/// If the word spells no number in its range.
fn loan(given: &ArgMatches) -> Result<Option<u16>, WordFault<'static>>
    ensures ok { IfOk result (IsGiven (found_of given.now) (codes "give-back") 1 65535) }
    ensures err { IfErr result (IsRefused (found_of given.now) (codes "give-back") 1 65535) }
{
    match number_if_given(given, GIVE_BACK)? {
        None => Ok(None),
        Some(ticks) => Ok(Some(ticks as u16)),
    }
}

/// The turns, by the words of `schedule`.
///
/// # Errors
/// If a word spells no number in its range.
fn turns(given: &ArgMatches) -> Result<Turns, WordFault<'static>>
    ensures ok { IfOk result (AreTurnsOf (found_of given.now)) }
    ensures err { IfErr result (AreTurnsRefused (found_of given.now)) }
{
    if let Some(count) = number_if_given(given, ROUNDS)? {
        return Ok(Turns::Rounds(count as u32));
    }
    let loss = number_if_given(given, LOSS)?.unwrap_or(0) as u16;
    Ok(Turns::Random {
        steps: given_number(given, RANDOM)? as u32,
        seed: given_number(given, SEED)? as u32,
        chances: Chances {
            loss,
            clients: given.get_flag("clients"),
        },
    })
}
