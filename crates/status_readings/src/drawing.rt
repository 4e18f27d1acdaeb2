//! What a watch shows at one time.
ghost use Rattle.std.specs.Prelude.{◌≡◌, ◌++◌, IfOk, OnOk, length, filter, string_bytes, Some};
ghost use Rattle.status_readings.specs.Picture.{indent, said_text, lent_text, waiting_text, row_text, row_lines};
ghost use Rattle.status_readings.specs.Picture.{loans_line, rounds_line, rates_lines, picture_text};
ghost use Rattle.status_readings.specs.Picture.{tenths_text};

use crate::answers::{NodeAnswer, push_counts};
use crate::counts::{lending, privileged};
use crate::minute::{NodeLoans, Rates, present_at};
use crate::tree::{Row, rows};
use node_texts::{StatusLine, Thousandths};
use std::alloc::{AllocError, Global};
use std::fmt;
use std::fmt::Write;

/// The lines of a reading: a line for each node, under its parent; how many nodes are privileged,
/// and how many lend; and the loans of the last minute and how often the token came round in it, if
/// these are known.
///
/// # Errors
/// If memory runs out.
pub fn picture(
    alloc: Global,
    answers: &[NodeAnswer],
    loans: &[NodeLoans],
    rates: Option<Rates>,
) -> Result<String, AllocError>
    ensures { IfOk result (λ text. string_bytes text ≡ picture_text answers.now loans.now rates) }
{
    let rows = rows(alloc, answers)?;
    let mut text = String::new(alloc);
    push_rows(&mut text, rows.as_slice(), loans)?;
    push_counts(&mut text, privileged(answers), lending(answers))?;
    push_rates(&mut text, rates)?;
    Ok(text)
}

/// Adds the lines of rows.
fn push_rows(text: &mut String, rows: &[Row], loans: &[NodeLoans]) -> Result<(), AllocError>
    ensures { OnOk result (string_bytes text.new
        ≡ string_bytes text.old ++ row_lines loans.now rows.now) }
{
    for row in rows {
        push_row(text, row, loans)?;
    }
    Ok(())
}

/// Adds the line of a row.
fn push_row(text: &mut String, row: &Row, loans: &[NodeLoans]) -> Result<(), AllocError>
    ensures { OnOk result (string_bytes text.new
        ≡ string_bytes text.old ++ row_text loans.now row.now) }
{
    push_indent(text, row.depth)?;
    write!(text, "node {}", row.answer.node)?;
    match row.answer.line {
        Some(line) => push_said(text, &line, present_at(loans, row.answer.node))?,
        None => text.push_str(" no answer")?,
    }
    text.push_str("\n")
}

/// Adds two spaces for each node above.
fn push_indent(text: &mut String, depth: usize) -> Result<(), AllocError>
    ensures { OnOk result (string_bytes text.new ≡ string_bytes text.old ++ indent depth) }
{
    for _ in 0..depth {
        text.push_str("  ")?;
    }
    Ok(())
}

/// Adds what a node says.
fn push_said(text: &mut String, line: &StatusLine, present: Option<u64>) -> Result<(), AllocError>
    ensures { OnOk result (string_bytes text.new
        ≡ string_bytes text.old ++ said_text line.now present) }
{
    let token = if line.token { " token" } else { "" };
    write!(text, " distance {}{token}", line.distance)?;
    push_lent(text, line.lent, present)?;
    push_waiting(text, line.waiting)
}

/// Adds to whom a node lends, and for how long it has.
fn push_lent(text: &mut String, lent: Option<u16>, present: Option<u64>) -> Result<(), AllocError>
    ensures { OnOk result (string_bytes text.new ≡ string_bytes text.old ++ lent_text lent present) }
{
    match (lent, present) {
        (None, _) => Ok(()),
        (Some(ticket), None) => write!(text, " lent {ticket}"),
        (Some(ticket), Some(micros)) => {
            let time = Thousandths(micros / 1000);
            write!(text, " lent {ticket} for {time} s")
        }
    }
}

/// Adds how many tickets wait, if any.
fn push_waiting(text: &mut String, waiting: u16) -> Result<(), AllocError>
    ensures { OnOk result (string_bytes text.new ≡ string_bytes text.old ++ waiting_text waiting) }
{
    match waiting {
        0 => Ok(()),
        _ => write!(text, " waiting {waiting}"),
    }
}

/// Adds the loans of the last minute and how often the token came round, if they are known.
fn push_rates(text: &mut String, rates: Option<Rates>) -> Result<(), AllocError>
    ensures { OnOk result (string_bytes text.new ≡ string_bytes text.old ++ rates_lines rates) }
{
    match rates {
        Some(rates) => {
            push_loans(text, rates)?;
            push_rounds(text, rates)
        }
        None => Ok(()),
    }
}

/// Adds how many loans there were, and how long the longest was.
fn push_loans(text: &mut String, rates: Rates) -> Result<(), AllocError>
    ensures { OnOk result (string_bytes text.new ≡ string_bytes text.old ++ loans_line rates) }
{
    let (loans, longest) = (Tenths(rates.tenths), Thousandths(rates.longest / 1000));
    writeln!(
        text,
        "last minute: {loans} loans a second, longest {longest} s"
    )
}

/// Adds how often the token came round.
fn push_rounds(text: &mut String, rates: Rates) -> Result<(), AllocError>
    ensures { OnOk result (string_bytes text.new ≡ string_bytes text.old ++ rounds_line rates) }
{
    let rounds = Tenths(rates.rounds);
    writeln!(
        text,
        "last minute: the token came round {rounds} times a second"
    )
}

/// A number of tenths, printed with one decimal.
#[derive(Drop)]
struct Tenths(u64);

impl fmt::Display for Tenths {
    ghost output = { λ tenths. Some (tenths_text tenths.0) };

    fn fmt<W: fmt::Write>(&self, f: &mut fmt::Formatter<W>) -> fmt::Result {
        write!(f, "{}.{}", self.0 / 10, self.0 % 10)
    }
}
