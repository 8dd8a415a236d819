//! The arguments of a run.
use crate::arguments_error::ArgumentsError;
use crate::command_line::command;
use crate::create::Create;
use crate::export::Export;
use crate::reading::{List, Reading};
use crate::rekey::Rekey;
use clap::ArgMatches;
use std::alloc::Global;

/// What the command is asked for.
#[derive(Drop)]
pub enum Request<'a> {
    Check(Reading<'a>),
    Create(Create<'a>),
    Export(Export<'a>),
    List(List<'a>),
    Rekey(Rekey<'a>),
    SelfTest,
}

/// What these matches ask for.
fn matched<'a>(alloc: Global, matches: &ArgMatches<'a>) -> Result<Request<'a>, ArgumentsError> {
    let Some((name, inner)) = matches.subcommand() else {
        return Err(no_subcommand());
    };
    match name {
        "export" => Ok(Request::Export(Export::of(alloc, inner)?)),
        "create" => Ok(Request::Create(Create::of(alloc, inner)?)),
        "check" => Ok(Request::Check(Reading::of(alloc, inner)?)),
        "list" => Ok(Request::List(List::of(alloc, inner)?)),
        "rekey" => Ok(Request::Rekey(Rekey::of(alloc, inner)?)),
        "self-test" => Ok(Request::SelfTest),
        _ => Err(no_subcommand()),
    }
}

fn no_subcommand() -> ArgumentsError {
    ArgumentsError::new("give export, check, list, rekey, create or self-test; see --help")
}

/// What the arguments of a run ask for, of which the first is the program's name. `Shown` where that is help or the version,
/// and `Wrong` where they are those of no subcommand, or a number among them is outside its bounds.
pub fn request_of<'a>(
    alloc: Global,
    arguments: &'a [String],
) -> Result<Request<'a>, ArgumentsError> {
    let command = command(alloc)?;
    match command.try_get_matches_from(arguments) {
        Ok(matches) => matched(alloc, &matches),
        Err(error) => Err(ArgumentsError::of(alloc, &error)),
    }
}
