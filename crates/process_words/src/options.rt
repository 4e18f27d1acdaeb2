//! What `node` and `up` share: options, and how they end.
ghost use Rattle.std.specs.Prelude.{◌≡◌, IfOk, IfErr, if◌then◌else◌, is_ok, codes};
ghost use Rattle.std.specs.Process.{exit_status};
ghost use Rattle.clap.specs.Matches.{found_of};
ghost use Rattle.command_grammar.specs.Given.{IsGivenOr, IsRefused};
ghost use Rattle.process_words.specs.GivenRights.{AreRightsOf};
ghost use Rattle.process_words.specs.LogAndRecord.{IsLogOf, IsSizeOf};
ghost use Rattle.process_words.specs.Manner.{IsMannerOf, IsMannerRefused};
ghost use Rattle.process_words.specs.Manner.{IsLimitOf, IsLimitRefused};

use clap::ArgMatches;
use command_grammar::{Number, Parameter, WordFault, number_if_given};
use command_words::{explain_network, explain_swap};
use node_log::Level;
use pace::Manner;
use process_parts::{NodeFault, ProcessRefusal, RecordSize, Rights, USUAL_SIZE};
use recovery_times::{TimeFault, micros_of};
use std::process::ExitCode;
use std::rt::Files;
use turn_watch::USUAL_LIMIT;

/// The folder of a network.
pub const DIR: Parameter<'static> = Parameter::Place(
    "DIR",
    "The folder of the network's files and sockets",
);

/// The options that both take.
pub const OPTIONS: &[Parameter<'static>] = &[
    Parameter::Value(
        "hold",
        "MICROSECONDS",
        "How long quiet news waits, 0-2000 [default: 2000]",
    ),
    Parameter::Value(
        "repeat",
        "MICROSECONDS",
        "When to repeat a frame, 0-100000 [default: 8000]",
    ),
    Parameter::Value(
        "turn",
        "MILLISECONDS",
        "When a turn counts as late [default: 2.2]",
    ),
    Parameter::Flag(
        "group-locks",
        "Let the group take the lock, and do nothing else",
    ),
    Parameter::Value(
        "log",
        "LEVEL",
        "Log 4 what is wrong, 5 links too, 6 grants too",
    ),
    Parameter::Flag("record", "Keep a record of what the node does"),
    Parameter::Value(
        "record-size",
        "BYTES",
        "Bytes in each of its files [default: 8388608]",
    ),
];

/// How long a node holds quiet news, in microseconds.
const HOLD: Number<'static> = Number {
    id: "hold",
    name: "--hold",
    least: 0,
    most: 2_000,
};

/// After how many microseconds a frame is repeated.
const REPEAT: Number<'static> = Number {
    id: "repeat",
    name: "--repeat",
    least: 0,
    most: 100_000,
};

/// The lowest level of a node's log, by the numbers of syslog.
const LOG: Number<'static> = Number {
    id: "log",
    name: "--log",
    least: 4,
    most: 6,
};

/// The size of each of the two files of a record, in bytes.
const RECORD_SIZE: Number<'static> = Number {
    id: "record-size",
    name: "--record-size",
    least: 65_536,
    most: 1_073_741_824,
};

/// The level of the log, by the words of `node` or `up`; none if they set none.
///
/// # Errors
/// If a word spells no number from 4 to 6.
pub fn log_level(given: &ArgMatches) -> Result<Option<Level>, WordFault<'static>>
    ensures ok { IfOk result (IsLogOf (found_of given.now)) }
    ensures err { IfErr result (IsRefused (found_of given.now) (codes "log") 4 6) }
{
    match number_if_given(given, LOG)? {
        Some(priority) => Ok(Level::of_priority(priority)),
        None => Ok(None),
    }
}

/// The size of the files of a node's record, by the words of `node` or `up`; none if they ask for no
/// record.
///
/// # Errors
/// If a word spells no number from 65536 to 1073741824.
pub fn record_size(given: &ArgMatches) -> Result<Option<RecordSize>, WordFault<'static>>
    ensures ok { IfOk result (IsSizeOf (found_of given.now)) }
    ensures err { IfErr result (IsRefused (found_of given.now) (codes "record-size") 65536 1073741824) }
{
    let size = RecordSize {
        bytes: number_or(given, RECORD_SIZE, USUAL_SIZE.bytes)?,
    };
    Ok(given.get_flag("record").then_some(size))
}

/// Who may use the folder and the sockets, by the words of `node` or `up`.
pub fn rights(given: &ArgMatches) -> Rights
    ensures { AreRightsOf (found_of given.now) result }
{
    if given.get_flag("group-locks") {
        Rights::GroupLocks
    } else {
        Rights::Usual
    }
}

/// After how many microseconds a turn is late, by the words of `node` or `up`; 2200 if they set
/// none.
///
/// # Errors
/// [`TimeFault::Turn`] if the word is no time from 0.001 milliseconds to an hour.
pub fn late_after(given: &ArgMatches) -> Result<u64, TimeFault>
    ensures ok { IfOk result (IsLimitOf (found_of given.now)) }
    ensures err { IfErr result (IsLimitRefused (found_of given.now)) }
{
    match given.get_str("turn") {
        None => Ok(USUAL_LIMIT),
        Some(word) => match micros_of(word.as_bytes()) {
            Some(micros) if micros > 0 => Ok(u64::from(micros)),
            _ => Err(TimeFault::Turn),
        },
    }
}

/// The manner, by the words of `node` or `up`, with defaults for what they leave out.
///
/// # Errors
/// If a word spells no number in its range.
pub fn manner(given: &ArgMatches) -> Result<Manner, WordFault<'static>>
    ensures ok { IfOk result (IsMannerOf (found_of given.now)) }
    ensures err { IfErr result (IsMannerRefused (found_of given.now)) }
{
    let usual = Manner::usual();
    Ok(Manner {
        hold: number_or(given, HOLD, usual.hold)?,
        repeat: number_or(given, REPEAT, usual.repeat)?,
    })
}

/// The number of an option, or this usual one if the words leave it out.
fn number_or(
    given: &ArgMatches,
    number: Number<'static>,
    usual: u64,
) -> Result<u64, WordFault<'static>>
    ensures ok { IfOk result (IsGivenOr (found_of given.now)
        number.entry.id.now number.entry.least number.entry.most usual) }
    ensures err { IfErr result (IsRefused (found_of given.now)
        number.entry.id.now number.entry.least number.entry.most) }
{
    Ok(number_if_given(given, number)?.unwrap_or(usual))
}

/// The status of a finished command; after a fault, prints its line and returns 1.
pub fn ended<R: Files + Eprint + AllocGlobal>(
    rt: &R,
    file: &str,
    dir: &str,
    id: u16,
    done: Result<(), NodeFault>,
) -> ExitCode
    ensures { exit_status result ≡ (if is_ok done then 0 else 1) }
{
    match done {
        Ok(()) => ExitCode::SUCCESS,
        Err(fault) => {
            if let NodeFault::Network(fault) = fault {
                explain_network(rt, file, fault);
                explain_swap(rt, file, dir);
            }
            let refusal = ProcessRefusal {
                file,
                dir,
                id,
                fault,
            };
            let _ = eprintln!(rt; "tokentree: {refusal}");
            ExitCode::FAILURE
        }
    }
}
