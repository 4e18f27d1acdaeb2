//! What is said of records on standard error.
ghost use Rattle.std.specs.Prelude.{◌≡◌};
ghost use Rattle.flight_recorder.specs.Names.{side_number};

use crate::damage::Difference;
use crate::fault::{Flaw, FlawKind, GatherFault, RecordFile};
use crate::summary::{Lasted, RecordingSummary};
use flight_recorder::Side;
use record_gathering::{EventCounts, Field};
use std::fmt;

/// The number of a file of a record.
fn side_number(side: Side) -> u8
    ensures { result ≡ side_number side }
{
    match side {
        Side::First => 0,
        Side::Second => 1,
    }
}

/// The name of a file of a record, in its folder.
#[derive(Clone, Copy)]
struct RecordFileName<'a> {
    dir: &'a str,
    file: RecordFile,
}

impl fmt::Display for RecordFileName<'_> {
    ghost use Rattle.std.specs.Prelude.{Some};
    ghost use Rattle.gather_command.specs.Lines.{file_name};

    ghost output = { λ name. Some (file_name name.dir.now name.file) };

    fn fmt<W: fmt::Write>(&self, f: &mut fmt::Formatter<W>) -> fmt::Result {
        let (dir, node) = (self.dir, self.file.node);
        let number = side_number(self.file.side);
        write!(f, "{dir}/record-{node}.{number}")
    }
}

/// Why the records of a folder give no list of events, as a line without its newline.
#[derive(Clone, Copy)]
pub struct GatherFaultLine<'a> {
    /// The folder.
    pub dir: &'a str,
    /// Why.
    pub fault: GatherFault,
}

impl fmt::Display for GatherFaultLine<'_> {
    ghost use Rattle.std.specs.Prelude.{Some};
    ghost use Rattle.gather_command.specs.Lines.{fault_line};

    ghost output = { λ line. Some (fault_line line.dir.now line.fault) };

    fn fmt<W: fmt::Write>(&self, f: &mut fmt::Formatter<W>) -> fmt::Result {
        let dir = self.dir;
        match self.fault {
            GatherFault::Absent(node) => write!(f, "node {node} has no record in {dir}"),
            GatherFault::Unreadable(file) => write!(
                f,
                "cannot read {}",
                RecordFileName { dir, file }
            ),
            GatherFault::NoRecord(file) => {
                write!(
                    f,
                    "{} is no record of this version",
                    RecordFileName { dir, file }
                )
            }
            GatherFault::OtherNetwork(file) => {
                write!(f, "{} is of another network", RecordFileName { dir, file })
            }
            GatherFault::OtherNode(file, node) => {
                f.write(RecordFileName { dir, file })?;
                f.write_str(" is the record of node ")?;
                f.write(node)
            }
            GatherFault::Output => f.write_str("standard output cannot be written"),
            GatherFault::Memory => f.write_str("out of memory"),
            GatherFault::TooMany => write!(f, "too many entries in {dir}"),
        }
    }
}

/// Where a file of a folder was not read to its end, as a line without its newline.
#[derive(Clone, Copy)]
pub struct FlawLine<'a> {
    /// The folder.
    pub dir: &'a str,
    /// The flaw.
    pub flaw: Flaw,
}

impl fmt::Display for FlawLine<'_> {
    ghost use Rattle.std.specs.Prelude.{Some};
    ghost use Rattle.gather_command.specs.Lines.{flaw_line};

    ghost output = { λ line. Some (flaw_line line.dir.now line.flaw) };

    fn fmt<W: fmt::Write>(&self, f: &mut fmt::Formatter<W>) -> fmt::Result {
        let name = RecordFileName {
            dir: self.dir,
            file: self.flaw.file,
        };
        let instant = self.flaw.instant;
        match self.flaw.kind {
            FlawKind::Torn => write!(
                f,
                "{name} ends within an entry, after microsecond {instant}"
            ),
            FlawKind::Spoiled => write!(f, "{name} is damaged after microsecond {instant}"),
            FlawKind::Unreadable => write!(f, "cannot read {name} after microsecond {instant}"),
        }
    }
}

/// How much was gathered, as a line without its newline.
#[derive(Clone, Copy)]
pub struct StretchLine(pub RecordingSummary);

impl fmt::Display for StretchLine {
    ghost use Rattle.std.specs.Prelude.{Some};
    ghost use Rattle.gather_command.specs.Lines.{stretch_line};

    ghost output = { λ line. Some (stretch_line line.0) };

    fn fmt<W: fmt::Write>(&self, f: &mut fmt::Formatter<W>) -> fmt::Result {
        let (nodes, events, stretch) = (self.0.nodes, self.0.found.events, self.0.stretch);
        write!(
            f,
            "nodes {nodes}, events {events}, time {stretch} microseconds"
        )
    }
}

/// What is wrong according to the records, in numbers, as a line without its newline.
#[derive(Clone, Copy)]
pub struct FoundLine(pub EventCounts);

impl fmt::Display for FoundLine {
    ghost use Rattle.std.specs.Prelude.{Some};
    ghost use Rattle.gather_command.specs.Lines.{found_line};

    ghost output = { λ line. Some (found_line line.0) };

    fn fmt<W: fmt::Write>(&self, f: &mut fmt::Formatter<W>) -> fmt::Result {
        let (lost, harms, forged) = (self.0.lost, self.0.harms, self.0.forged);
        write!(
            f,
            "frames lost {lost}, harms {harms}, frames that nobody sent {forged}"
        )
    }
}

/// Which loan was the longest, if there is one.
#[derive(Clone, Copy)]
struct LastedText(Option<Lasted>);

impl fmt::Display for LastedText {
    ghost use Rattle.std.specs.Prelude.{Some};
    ghost use Rattle.gather_command.specs.Lines.{lasted_text};

    ghost output = { λ text. Some (lasted_text text.0) };

    fn fmt<W: fmt::Write>(&self, f: &mut fmt::Formatter<W>) -> fmt::Result {
        let Some(lasted) = self.0 else {
            return Ok(());
        };
        let (time, ticket, node) = (lasted.time, lasted.ticket, lasted.node);
        write!(
            f,
            ", longest loan {time} microseconds to ticket {ticket} at node {node}"
        )
    }
}

/// How long turns, frames and loans took, as a line without its newline.
#[derive(Clone, Copy)]
pub struct LoansLine(pub RecordingSummary);

impl fmt::Display for LoansLine {
    ghost use Rattle.std.specs.Prelude.{Some};
    ghost use Rattle.gather_command.specs.Lines.{loans_line};

    ghost output = { λ line. Some (loans_line line.0) };

    fn fmt<W: fmt::Write>(&self, f: &mut fmt::Formatter<W>) -> fmt::Result {
        let (turn, delay) = (self.0.longest_turn, self.0.longest_delay);
        let (loans, lasted) = (self.0.loans, LastedText(self.0.longest_loan));
        write!(
            f,
            "longest turn {turn} microseconds, longest delay {delay}, loans {loans}{lasted}"
        )
    }
}

/// A field, by its name.
#[derive(Clone, Copy)]
struct FieldText(Field);

impl fmt::Display for FieldText {
    ghost use Rattle.std.specs.Prelude.{Some};
    ghost use Rattle.gather_command.specs.Lines.{field_text};

    ghost output = { λ text. Some (field_text text.0) };

    fn fmt<W: fmt::Write>(&self, f: &mut fmt::Formatter<W>) -> fmt::Result {
        match self.0 {
            Field::Distance => f.write_str("distance"),
            Field::Parent => f.write_str("parent"),
            Field::Number { neighbour } => {
                write!(f, "number of what it sends to node {neighbour}")
            }
            Field::Last { neighbour } => write!(f, "last number from node {neighbour}"),
            Field::Staged { neighbour } => write!(f, "payload for node {neighbour}"),
            Field::Copied { neighbour } => write!(f, "payload from node {neighbour}"),
            Field::Value { neighbour } => write!(f, "ring value from node {neighbour}"),
            Field::Waiting => f.write_str("tickets that wait"),
            Field::Lent => f.write_str("ticket of the loan"),
            Field::Left => f.write_str("ticks left of the loan"),
            Field::Served => f.write_str("whether it served"),
            Field::Taken { neighbour } => {
                write!(f, "a frame that node {neighbour} did not send")
            }
        }
    }
}

/// Which field of which node differed from what the node's record led to, and when, as a line
/// without its newline.
#[derive(Clone, Copy)]
pub struct DifferenceLine(pub Difference);

impl fmt::Display for DifferenceLine {
    ghost use Rattle.std.specs.Prelude.{Some};
    ghost use Rattle.gather_command.specs.Lines.{difference_line};

    ghost output = { λ line. Some (difference_line line.0) };

    fn fmt<W: fmt::Write>(&self, f: &mut fmt::Formatter<W>) -> fmt::Result {
        let (node, instant) = (self.0.node, self.0.instant);
        let field = FieldText(self.0.field);
        write!(f, "node {node} differs at microsecond {instant}: {field}")
    }
}

/// How many fields differed, and how many of them are named, as a line without its newline.
#[derive(Clone, Copy)]
pub struct DifferencesLine {
    /// How many fields differed.
    pub count: u64,
    /// How many of them are named.
    pub named: usize,
}

impl fmt::Display for DifferencesLine {
    ghost use Rattle.std.specs.Prelude.{Some};
    ghost use Rattle.gather_command.specs.Lines.{differences_line};

    ghost output = { λ line. Some (differences_line line.count line.named) };

    fn fmt<W: fmt::Write>(&self, f: &mut fmt::Formatter<W>) -> fmt::Result {
        let (count, named) = (self.count, self.named);
        if count == named as u64 {
            write!(f, "differences {count}")
        } else {
            write!(
                f,
                "differences {count}, of which the first {named} are named"
            )
        }
    }
}
