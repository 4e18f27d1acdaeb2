//! Why a command line fails, and how the program ends then.
ghost use Rattle.std.specs.Prelude.{◌≡◌, IfOk, IfErr};
ghost use Rattle.std.specs.Process.{exit_status};
ghost use Rattle.command_words.specs.Ends.{status_of};

use command_grammar::WordFault;
use program_ends::{
    Fault, INVALID_ARGUMENTS, PathFault, PathFaultLine, explain_network, explain_writing, fails,
    fault_status,
};
use recovery_times::TimeFault;
use std::fmt;
use std::process::ExitCode;
use std::rt::Files;

/// Why the words of `network` describe no network.
#[derive(Clone, Copy, Drop)]
pub enum KindFault {
    /// There is no such kind.
    Unknown,
    /// A grid has no number of columns, or more than one.
    NoColumns,
    /// Another kind has a second number.
    OneNumber,
    /// Another kind has options for random graphs.
    RandomAlone,
}

/// Prints the message without the program's name.
impl fmt::Display for KindFault {
    ghost use Rattle.std.specs.Prelude.{Some};
    ghost use Rattle.command_words.specs.Ends.{kind_fault_text};

    ghost output = { λ fault. Some (kind_fault_text fault) };

    fn fmt<W: fmt::Write>(&self, f: &mut fmt::Formatter<W>) -> fmt::Result {
        f.write_str(match *self {
            KindFault::Unknown => {
                "KIND is none of line, ring, star, complete, tree, grid and random"
            }
            KindFault::NoColumns => "a grid takes two numbers, of rows and of columns",
            KindFault::OneNumber => "this kind takes one number, of nodes",
            KindFault::RandomAlone => "--edges and --seed are for random alone",
        })
    }
}

/// Why `measure` takes no such order of events.
#[derive(Clone, Copy, Drop)]
pub enum ScheduleFault {
    /// There is no order of that name.
    Unknown,
    /// A share is given for an order in which nothing is slow.
    SlowAlone,
}

/// Prints the message without the program's name.
impl fmt::Display for ScheduleFault {
    ghost use Rattle.std.specs.Prelude.{Some};
    ghost use Rattle.command_words.specs.Ends.{schedule_fault_text};

    ghost output = { λ fault. Some (schedule_fault_text fault) };

    fn fmt<W: fmt::Write>(&self, f: &mut fmt::Formatter<W>) -> fmt::Result {
        f.write_str(match *self {
            ScheduleFault::Unknown => {
                "--schedule is none of rounds, random, slow-link and slow-node"
            }
            ScheduleFault::SlowAlone => "--share is for slow-link and slow-node alone",
        })
    }
}

/// Why a command line fails.
#[derive(Clone, Copy, Drop)]
pub enum Refusal {
    /// A word that the parser took is invalid.
    Word(WordFault<'static>),
    /// A word is no valid time for its option.
    Time(TimeFault),
    /// The word of `--timeout` is no valid time.
    Limit,
    /// No command follows the `--` of `lock`.
    NoWords,
    /// The window of a picture ends before it begins.
    Window,
    /// The kind of a network is unknown, or does not go with the other words.
    Kind(KindFault),
    /// The order of a measured run's events is unknown, or takes no share.
    Schedule(ScheduleFault),
    /// The program has no such command. The parser rules that out.
    NoCommand,
    /// The command ended with this fault.
    Fault(Fault),
}

impl From<Fault> for Refusal {
    ghost use Rattle.std.specs.Prelude.{◌≡◌};
    ghost use Rattle.command_words.specs.declared.refusal.Refusal.TheVariants as refusal;

    ghost from_gives = { λ fault refused. refused ≡ refusal.Fault fault };

    fn from(fault: Fault) -> Refusal {
        Refusal::Fault(fault)
    }
}

impl From<WordFault<'static>> for Refusal {
    ghost use Rattle.std.specs.Prelude.{◌≡◌};
    ghost use Rattle.command_words.specs.declared.refusal.Refusal.TheVariants as refusal;

    ghost from_gives = { λ fault refused. refused ≡ refusal.Word fault };

    fn from(fault: WordFault<'static>) -> Refusal {
        Refusal::Word(fault)
    }
}

impl From<TimeFault> for Refusal {
    ghost use Rattle.std.specs.Prelude.{◌≡◌};
    ghost use Rattle.command_words.specs.declared.refusal.Refusal.TheVariants as refusal;

    ghost from_gives = { λ fault refused. refused ≡ refusal.Time fault };

    fn from(fault: TimeFault) -> Refusal {
        Refusal::Time(fault)
    }
}

/// Prints the message without the program's name.
impl fmt::Display for Refusal {
    ghost use Rattle.std.specs.Prelude.{Some};
    ghost use Rattle.command_words.specs.Ends.{refusal_text};

    ghost output = { λ refusal. Some (refusal_text refusal) };

    fn fmt<W: fmt::Write>(&self, f: &mut fmt::Formatter<W>) -> fmt::Result {
        match *self {
            Refusal::Word(fault) => f.write(fault),
            Refusal::Time(fault) => f.write(fault),
            Refusal::Limit => f.write_str(
                "--timeout is no time from 0 to 65535 seconds, with at most 3 decimals",
            ),
            Refusal::NoWords => f.write_str(
                "no command follows --: leave -- out to hold the lock until standard input ends",
            ),
            Refusal::Window => f.write_str("--from is greater than --to"),
            Refusal::Kind(fault) => f.write(fault),
            Refusal::Schedule(fault) => f.write(fault),
            Refusal::NoCommand => f.write_str("no command"),
            Refusal::Fault(fault) => f.write(fault),
        }
    }
}

/// The status of a command line. If it fails, a line on standard error says why, and names the
/// command's help if words are invalid; but it ends quietly if the reader of standard output is gone.
pub fn status<R: Eprint>(
    rt: &R,
    done: Result<ExitCode, Refusal>,
    is_lock: bool,
    command: Option<&str>,
) -> ExitCode
    ensures { exit_status result ≡ status_of is_lock done }
{
    match done {
        Ok(status) => status,
        Err(Refusal::Fault(fault)) => fails(rt, fault, fault_status(is_lock)),
        Err(refusal) => {
            let command = command.unwrap_or("");
            let _ = eprintln!(rt; "tokentree: {refusal}; try: tokentree help {command}");
            ExitCode::from(INVALID_ARGUMENTS)
        }
    }
}

/// The status of a command that changes a file. If it fails, a line on standard error says why,
/// after one that says what is wrong with the network file.
pub fn ended<R: Files + Eprint + AllocGlobal>(
    rt: &R,
    file: &str,
    done: Result<ExitCode, PathFault>,
) -> ExitCode
    ensures done { IfOk done.entry (λ code. result ≡ code) }
    ensures fault { IfErr done.entry (λ _. exit_status result ≡ 1) }
{
    match done {
        Ok(code) => code,
        Err(fault) => {
            explain(rt, file, fault);
            let _ = rt.eprintln(PathFaultLine(fault));
            ExitCode::FAILURE
        }
    }
}

/// Before a fault's own line, says what is wrong with the network file, or with the file to be written.
fn explain<R: Files + Eprint + AllocGlobal>(rt: &R, file: &str, fault: PathFault) {
    match fault {
        PathFault::Fault(Fault::Network(fault)) => explain_network(rt, file, fault),
        PathFault::Fault(_) => {}
        PathFault::Unwritable(path) => explain_writing(rt, path),
    }
}
