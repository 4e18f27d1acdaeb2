//! The parser of a program, made from its table.
ghost use Rattle.std.specs.Prelude.{◌≡◌};
ghost use Rattle.clap.specs.Walk.{rule_of};
ghost use Rattle.command_grammar.specs.Parsers.{IsArgOf, rule_for, several, valued};

use crate::grammar::{Choice, Grammar, Parameter, Program};
use clap::{Arg, ArgAction, ArgGroup, Command};
use std::alloc::{AllocError, Global};

/// The parser of a program's command lines, with these commands, which the help shows in this order.
///
/// # Errors
/// If memory runs out.
pub fn parser<'a>(
    alloc: Global,
    program: &Program<'a>,
    commands: &[&Grammar<'a>],
) -> Result<Command<'a>, AllocError> {
    let mut parser = Command::new(alloc, program.name)
        .about(program.about)
        .after_help(program.help)
        .version(program.version)
        .subcommand_required(true);
    for grammar in commands {
        parser = parser.subcommand(command_of(alloc, grammar)?)?;
    }
    Ok(parser)
}

/// The parser of a command.
fn command_of<'a>(alloc: Global, grammar: &Grammar<'a>) -> Result<Command<'a>, AllocError> {
    let command = Command::new(alloc, grammar.name)
        .about(grammar.about)
        .after_help(grammar.help);
    let command = with_parameters(command, alloc, grammar.shared, grammar)?;
    let command = with_parameters(command, alloc, grammar.parameters, grammar)?;
    match grammar.choice {
        Some(choice) => command.group(group_of(alloc, choice)?),
        None => Ok(command),
    }
}

/// A command that takes these parameters of its grammar, too.
fn with_parameters<'a>(
    mut command: Command<'a>,
    alloc: Global,
    parameters: &[Parameter<'a>],
    grammar: &Grammar<'a>,
) -> Result<Command<'a>, AllocError> {
    for parameter in parameters {
        command = command.arg(bound_arg(alloc, *parameter, grammar)?)?;
    }
    Ok(command)
}

/// The group of parameters of which one must be given.
fn group_of<'a>(alloc: Global, choice: Choice<'a>) -> Result<ArgGroup<'a>, AllocError> {
    ArgGroup::new(alloc, choice.name)
        .required(true)
        .args(choice.of)
}

/// A parameter, with what the grammar asks of others given with it.
fn bound_arg<'a>(
    alloc: Global,
    parameter: Parameter<'a>,
    grammar: &Grammar<'a>,
) -> Result<Arg<'a>, AllocError> {
    let mut arg = arg_of(alloc, parameter);
    let id = arg.get_id();
    for (needy, other) in grammar.needs {
        if *needy == id {
            arg = beside(arg.requires_arg(other)?, other, grammar)?;
        }
    }
    for (excluded, other) in grammar.excludes {
        if *excluded == id {
            arg = arg.conflicts_with(other)?;
        }
    }
    Ok(arg)
}

/// A parameter that needs this other one. What excludes the other one excludes this one too, since the
/// parser does not ask for a parameter that is excluded.
fn beside<'a>(
    mut arg: Arg<'a>,
    needed: &'a str,
    grammar: &Grammar<'a>,
) -> Result<Arg<'a>, AllocError> {
    for (excluded, other) in grammar.excludes {
        if *excluded == needed {
            arg = arg.conflicts_with(other)?;
        } else if *other == needed {
            arg = arg.conflicts_with(excluded)?;
        }
    }
    Ok(arg)
}

/// A parameter by itself, with its help.
fn arg_of<'a>(alloc: Global, parameter: Parameter<'a>) -> Arg<'a>
    ensures { IsArgOf parameter.entry result }
{
    shaped(alloc, parameter)
        .help(parameter.help())
        .hide(parameter.is_hidden())
}

/// A parameter by itself, without its help.
fn shaped<'a>(alloc: Global, parameter: Parameter<'a>) -> Arg<'a>
    ensures { rule_of result ≡ rule_for parameter.entry }
{
    match parameter {
        Parameter::Place(id, _) => Arg::new(alloc, id).required(true).action(ArgAction::Set),
        Parameter::Places(id, _) => several(alloc, id),
        Parameter::Rest(id, _) => several(alloc, id).trailing_var_arg(true),
        Parameter::Value(id, name, _) => valued(alloc, id).value_name(name),
        Parameter::ValueOr(id, name, default, _) => {
            valued(alloc, id).value_name(name).default_value(default)
        }
        Parameter::Flag(id, _) | Parameter::HiddenFlag(id) => {
            Arg::new(alloc, id).long(id).action(ArgAction::SetTrue)
        }
    }
}

/// An option of that name, with a value.
fn valued<'a>(alloc: Global, id: &'a str) -> Arg<'a>
    ensures { rule_of result ≡ valued id.entry.now }
{
    Arg::new(alloc, id).long(id).action(ArgAction::Set)
}

/// Any number of words.
fn several<'a>(alloc: Global, id: &'a str) -> Arg<'a>
    ensures { rule_of result ≡ several id.entry.now }
{
    Arg::new(alloc, id).action(ArgAction::Append).num_args(0..)
}
