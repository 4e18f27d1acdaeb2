//! `bound FILE`, with `--sharp`, with `--time`, or without: what the lock's guarantee costs on a
//! network.
ghost use Rattle.std.specs.Prelude.{◌≡◌, ◌↔◌, ◌<◌, ◌++◌, Err, IfOk, IfErr, IsOk, OnOk, string_bytes};
ghost use Rattle.std.specs.Prelude.{codes};
ghost use Rattle.command_faults.specs.Ends.{DoneMeansZero};
ghost use Rattle.network_commands.specs.Bound.{number_line, nodes_line, parent_word, bound_text};
ghost use Rattle.network_commands.specs.Bound.{column_word, shown_text, timed_text};
ghost use Rattle.network_commands.specs.Faults.{IsUnprinted};

use command_faults::{Fault, printed, read_network};
use recovery_times::{Premises, times_text};
use std::alloc::{AllocError, Global};
use std::fmt::Write;
use std::process::ExitCode;
use std::rt::Files;
use topology::Net;

/// Prints the text of the network of a file, with the line of the sharp bound if asked for, and
/// the lines of times if premises are given.
///
/// # Errors
/// If the file gives no network, memory runs out, or standard output fails.
pub fn run<R: Files + Print + Eprint + AllocGlobal>(
    rt: &R,
    path: &str,
    sharp: bool,
    premises: Option<Premises>,
) -> Result<ExitCode, Fault>
    ensures ok { DoneMeansZero result }
    ensures err { IfErr result IsUnprinted }
{
    let net = read_network(rt, path)?;
    let text = timed_text(rt.alloc(), &net, sharp, premises).map_err(|_| Fault::Memory)?;
    done(printed(rt, rt.print(text.as_str())))
}

/// How the command ends, by the result of printing its text.
pub fn done(printed: Result<(), Fault>) -> Result<ExitCode, Fault>
    ensures printed { IsOk printed ↔ IsOk result }
    ensures ok { DoneMeansZero result }
    ensures err { IfErr result (λ fault. printed ≡ Err fault) }
{
    printed?;
    Ok(ExitCode::SUCCESS)
}

/// The lines of a network and, if premises are given, those of the times that follow from them.
pub fn timed_text(
    alloc: Global,
    net: &Net,
    sharp: bool,
    premises: Option<Premises>,
) -> Result<String, AllocError>
    ensures { IfOk result (λ text. string_bytes text ≡ timed_text net.now sharp premises) }
{
    let mut text = shown_text(alloc, net, sharp)?;
    if let Some(premises) = premises {
        let times = times_text(alloc, net, &premises)?;
        text.push_str(times.as_str())?;
    }
    Ok(text)
}

/// The eight lines of a network and, if it is asked for, the line of its sharp bound.
pub fn shown_text(alloc: Global, net: &Net, sharp: bool) -> Result<String, AllocError>
    ensures { IfOk result (λ text. string_bytes text ≡ shown_text net.now sharp) }
{
    let mut text = bound_text(alloc, net)?;
    if sharp {
        push_number(&mut text, "sharp", net.sharp_bound())?;
    }
    Ok(text)
}

/// The eight lines of a network.
pub fn bound_text(alloc: Global, net: &Net) -> Result<String, AllocError>
    ensures { IfOk result (λ text. string_bytes text ≡ bound_text net.now) }
{
    let mut text = String::new(alloc);
    push_number(&mut text, "nodes", u32::from(net.nodes()))?;
    push_number(&mut text, "edges", net.edges().len() as u32)?;
    push_number(&mut text, "capacity", u32::from(net.capacity()))?;
    push_number(&mut text, "counter", u32::from(net.counter()))?;
    push_number(&mut text, "ring", u32::from(net.ring()))?;
    push_column(&mut text, "distances", net, NodeColumn::Distances)?;
    push_column(&mut text, "parents", net, NodeColumn::Parents)?;
    push_number(&mut text, "sweeps", net.bound())?;
    Ok(text)
}

/// Adds a line of a word and a number.
pub fn push_number(text: &mut String, word: &str, number: u32) -> Result<(), AllocError>
    ensures { OnOk result (string_bytes text.new
        ≡ string_bytes text.old ++ number_line word.now number) }
{
    writeln!(text, "{word} {number}")
}

/// What a line says of each node.
#[derive(Clone, Copy)]
pub(crate) enum NodeColumn {
    /// Its distance.
    Distances,
    /// Its true parent.
    Parents,
}

/// Adds a line of a word, and of what a column says of each node.
fn push_column(
    text: &mut String,
    word: &str,
    net: &Net,
    column: NodeColumn,
) -> Result<(), AllocError>
    ensures { OnOk result (string_bytes text.new
        ≡ string_bytes text.old ++ nodes_line word.now net.now.nodes (column_word column net.now)) }
{
    text.push_str(word)?;
    for v in 0..net.nodes() {
        push_word(text, net, column, v)?;
    }
    text.push_str("\n")
}

/// Adds a space, and what a column says of a node.
fn push_word(text: &mut String, net: &Net, column: NodeColumn, v: u16) -> Result<(), AllocError>
    requires { v < net.now.nodes }
    ensures { OnOk result (string_bytes text.new
        ≡ string_bytes text.old ++ (codes " " ++ column_word column net.now v)) }
{
    match column {
        NodeColumn::Distances => write!(text, " {}", net.distance(v)),
        NodeColumn::Parents => push_parent(text, net.parent(v)),
    }
}

/// Adds a space, and a parent's id or `none`.
fn push_parent(text: &mut String, parent: Option<u16>) -> Result<(), AllocError>
    ensures { OnOk result (string_bytes text.new
        ≡ string_bytes text.old ++ (codes " " ++ parent_word parent)) }
{
    match parent {
        Some(parent) => write!(text, " {parent}"),
        None => text.push_str(" none"),
    }
}
