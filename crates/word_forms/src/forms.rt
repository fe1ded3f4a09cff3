//! The forms that words have, as clap has them.

use clap::{Arg, ArgAction, Command};
use std::alloc::{AllocError, Global};

/// A form: a command, by the names of its words.
pub struct Form {
    /// The command's name, the first word.
    pub name: &'static str,
    /// How it is typed, behind the program's name.
    pub usage: &'static str,
    /// What it does.
    pub about: &'static str,
    /// The names of the words behind it, one word each.
    pub words: &'static [&'static str],
    /// Whether one to eight paths stand behind the words.
    pub has_paths: bool,
    /// The names that stand behind them, each with one to eight paths, from the last one on: none, two or five. A form with such names has no paths
    /// before them.
    pub behind: &'static [&'static str],
}

/// A command without its words.
fn bare<'a>(alloc: Global, name: &'a str) -> Command<'a> {
    Command::new(alloc, name).disable_help_subcommand(true)
}

/// A command of which its form tells. The words behind it stand in its usage.
fn told<'a>(alloc: Global, form: &Form) -> Command<'a> {
    bare(alloc, form.name)
        .about(form.about)
        .override_usage(form.usage)
}

fn word<'a>(alloc: Global, name: &'a str) -> Arg<'a> {
    Arg::new(alloc, name)
        .required(true)
        .action(ArgAction::Set)
        .hide(true)
}

fn one_to_eight(arg: Arg<'_>) -> Arg<'_> {
    arg.num_args(1..=8)
}

/// One to eight paths.
fn paths<'a>(alloc: Global) -> Arg<'a> {
    one_to_eight(word(alloc, "paths"))
}

fn with_arg<'a>(command: Command<'a>, arg: Arg<'a>) -> Result<Command<'a>, AllocError> {
    command.arg(arg)
}

fn with_command<'a>(command: Command<'a>, behind: Command<'a>) -> Result<Command<'a>, AllocError> {
    command.subcommand(behind)
}

/// A command of paths, of which one is the next command's name only where it has a folder before it.
fn over_paths<'a>(alloc: Global, name: &'a str) -> Result<Command<'a>, AllocError> {
    let command = bare(alloc, name)
        .subcommand_precedence_over_arg(true)
        .hide(true);
    with_arg(command, paths(alloc))
}

/// The command with these commands of paths behind it, one behind the other, of which the first is the last.
fn with_behind<'a>(
    alloc: Global,
    command: Command<'a>,
    names: &[&'static str],
) -> Result<Command<'a>, AllocError> {
    let Some((last, before)) = names.split_first() else {
        return Ok(command);
    };
    let mut behind = over_paths(alloc, last)?;
    for name in before {
        behind = with_command(over_paths(alloc, name)?, behind)?;
    }
    with_command(command, behind)
}

fn command_of<'a>(alloc: Global, form: &Form) -> Result<Command<'a>, AllocError> {
    let mut command = told(alloc, form);
    for name in form.words {
        command = with_arg(command, word(alloc, name))?;
    }
    if form.has_paths {
        return with_arg(command, paths(alloc));
    }
    with_behind(alloc, command, form.behind)
}

/// A program of these forms.
pub(crate) fn program<'a>(
    alloc: Global,
    name: &'a str,
    forms: &'static [Form],
) -> Result<Command<'a>, AllocError> {
    let mut program = bare(alloc, name).no_binary_name(true);
    for form in forms {
        program = with_command(program, command_of(alloc, form)?)?;
    }
    Ok(program)
}
