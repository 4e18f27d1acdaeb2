//! What a node's line for whoever looks at it says of its turns, and what `status --premises`
//! prints of it.
ghost use Rattle.std.specs.Prelude.{◌≡◌, ◌++◌, IfOk, OnOk, codes, string_bytes, Some};
ghost use Rattle.serde_json.specs.View.{view};
ghost use Rattle.status_readings.specs.PremisesText.{turns_said, line_said};
ghost use Rattle.status_readings.specs.PremisesText.{premises_line, premises_text};

use crate::looks::{member_number, value_of};
use node_texts::Thousandths;
use serde_json::Value;
use std::alloc::{AllocError, Global};
use std::fmt;
use std::fmt::Write;

/// The turns of a node, as its line for whoever looks at it says. Times are in microseconds.
#[derive(Clone, Copy, Drop)]
pub struct TurnsSaid {
    /// The turns so far.
    pub count: u64,
    /// The longest time between the ends of two turns, one after the other.
    pub longest: u64,
    /// The longest such time in the last minute.
    pub lately: u64,
    /// How many turns were late.
    pub late: u64,
}

impl TurnsSaid {
    /// What a line says, if it is a JSON object whose member `turns` has these four numbers. Other
    /// members do not matter.
    ///
    /// # Errors
    /// If memory runs out.
    pub fn read(alloc: Global, line: &str) -> Result<Option<TurnsSaid>, AllocError>
        ensures { IfOk result (λ said. said ≡ line_said line.now) }
    {
        let value = value_of(alloc, line)?;
        Ok(value.as_ref().and_then(turns_said))
    }
}

/// What a value says of a node's turns.
fn turns_said(value: &Value) -> Option<TurnsSaid>
    ensures { result ≡ turns_said (view value.now) }
{
    let turns = value.get("turns")?;
    Some(TurnsSaid {
        count: member_number(turns, "count")?,
        longest: member_number(turns, "longest_us")?,
        lately: member_number(turns, "lately_us")?,
        late: member_number(turns, "late")?,
    })
}

/// What `status --premises` prints: a line for each node.
///
/// # Errors
/// If memory runs out.
pub fn premises_report(alloc: Global, lines: &[PremisesLine]) -> Result<String, AllocError>
    ensures { IfOk result (λ text. string_bytes text ≡ premises_text lines.now) }
{
    let mut text = String::new(alloc);
    push_all(&mut text, lines)?;
    Ok(text)
}

/// Adds the line of each node.
fn push_all(text: &mut String, lines: &[PremisesLine]) -> Result<(), AllocError>
    ensures { OnOk result (string_bytes text.new
        ≡ string_bytes text.old ++ premises_text lines.now) }
{
    for line in lines {
        push_line(text, line)?;
    }
    Ok(())
}

/// Adds the line of a node.
fn push_line(text: &mut String, line: &PremisesLine) -> Result<(), AllocError>
    ensures { OnOk result (string_bytes text.new
        ≡ string_bytes text.old ++ (premises_line line.now.node line.now.said ++ codes "\n")) }
{
    writeln!(text, "{line}")
}

/// The line of `status --premises` for a node: its turns, or that it gave no answer. Printed, it has no
/// newline; times are in milliseconds.
#[derive(Clone, Copy, Drop)]
pub struct PremisesLine {
    /// The node.
    pub node: u16,
    /// What it said of its turns.
    pub said: Option<TurnsSaid>,
}

impl fmt::Display for PremisesLine {
    ghost output = { λ line. Some (premises_line line.node line.said) };

    fn fmt<W: fmt::Write>(&self, f: &mut fmt::Formatter<W>) -> fmt::Result {
        let node = self.node;
        let Some(said) = self.said else {
            return write!(f, "node {node} no answer");
        };
        let (count, late) = (said.count, said.late);
        let (longest, lately) = (Thousandths(said.longest), Thousandths(said.lately));
        write!(
            f,
            "node {node} turns {count} longest {longest} ms lately {lately} ms late {late}"
        )
    }
}
