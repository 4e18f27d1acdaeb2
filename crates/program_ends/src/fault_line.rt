//! The line that reports a fault.
use command_faults::Fault;
use std::fmt;

/// A fault, which prints as its line on standard error: the program's name, what failed, and the
/// fault's name.
#[derive(Drop)]
pub struct FaultLine(pub Fault);

impl fmt::Display for FaultLine {
    ghost use Rattle.std.specs.Prelude.{Some};
    ghost use Rattle.program_ends.specs.FaultLine.{fault_line};

    ghost output = { λ line. Some (fault_line line.0) };

    fn fmt<W: fmt::Write>(&self, f: &mut fmt::Formatter<W>) -> fmt::Result {
        write!(f, "tokentree: {}", self.0)
    }
}
