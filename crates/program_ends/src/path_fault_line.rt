//! The line that reports a fault of a command that changes a file.
use command_faults::PathFault;
use std::fmt;

/// A fault of a command that changes a file, which prints as its line on standard error.
#[derive(Drop)]
pub struct PathFaultLine<'a>(pub PathFault<'a>);

impl fmt::Display for PathFaultLine<'_> {
    ghost use Rattle.std.specs.Prelude.{Some};
    ghost use Rattle.program_ends.specs.FaultLine.{path_fault_line};

    ghost output = { λ line. Some (path_fault_line line.0) };

    fn fmt<W: fmt::Write>(&self, f: &mut fmt::Formatter<W>) -> fmt::Result {
        write!(f, "tokentree: {}", self.0)
    }
}
