//! The arguments of a command, as clap takes them.
use clap::{Arg, ArgAction, Command};
use std::alloc::{AllocError, Global};

/// How an argument is given. The first text is shown for its value in the help; the second, where there is one, is its default.
#[derive(Clone, Copy)]
pub enum Form {
    /// By its place, and never left out.
    Place(&'static str),
    /// As an option that is never left out.
    Required(&'static str),
    /// As an option that may be left out.
    Optional(&'static str),
    /// As an option that has a default.
    Text(&'static str, &'static str),
    /// The same of a number; one below zero is read too, so that its refusal says which numbers there are.
    Number(&'static str, &'static str),
    /// As an option without a value.
    Flag,
}

/// An argument of a subcommand.
pub struct Argument {
    /// Its name, which is that of its option too.
    pub name: &'static str,
    pub form: Form,
    /// The group of which at most one is given.
    pub group: Option<&'static str>,
    pub help: &'static str,
}

/// An option that takes a value.
fn option<'a>(arg: Arg<'a>, name: &'a str, value: &'a str) -> Arg<'a> {
    arg.long(name).value_name(value)
}

/// The argument, for clap.
fn described<'a>(alloc: Global, argument: &Argument) -> Arg<'a> {
    let name = argument.name;
    let arg = Arg::new(alloc, name).help(argument.help);
    match argument.form {
        Form::Place(value) => arg.value_name(value).required(true),
        Form::Required(value) => option(arg, name, value).required(true),
        Form::Optional(value) => option(arg, name, value),
        Form::Text(value, default) => option(arg, name, value).default_value(default),
        Form::Number(value, default) => option(arg, name, value)
            .allow_negative_numbers(true)
            .default_value(default),
        Form::Flag => arg.long(name).action(ArgAction::SetTrue),
    }
}

/// The same, in its group where it has one.
fn grouped<'a>(alloc: Global, argument: &Argument) -> Result<Arg<'a>, AllocError> {
    let arg = described(alloc, argument);
    match argument.group {
        Some(group) => arg.group(group),
        None => Ok(arg),
    }
}

/// The command with these arguments. The only error is out of memory.
pub fn with_arguments<'a>(
    alloc: Global,
    command: Command<'a>,
    arguments: &[Argument],
) -> Result<Command<'a>, AllocError> {
    let mut command = command;
    for argument in arguments {
        command = command.arg(grouped(alloc, argument)?)?;
    }
    Ok(command)
}
