//! Why there is nothing to do.
ghost use Rattle.std.specs.Prelude.{◌≡◌};
ghost use Rattle.pkcs12_arguments.specs.Pairs.{IsWrong};
ghost use Rattle.pkcs12_arguments.specs.declared.arguments_error.ArgumentsError.TheVariants.{Memory};

use clap::error::ErrorKind;
use command_base::{Message, refusal_text};
use std::alloc::{AllocError, AllocFailed, Global};

/// What to do after an argument that clap does not know.
const UNKNOWN_ARGUMENT: &str = "\
See pkcs12 --help, and pkcs12 SUBCOMMAND --help. A store whose name begins with - is given \
as ./-NAME.";

/// The usage, where nothing was asked for.
const SHORT_USAGE: &str = "\
Usage:
    pkcs12 check STORE.p12
    pkcs12 export STORE.p12 --out DIR
    pkcs12 --help";

/// Why the arguments ask for none of the subcommands.
#[derive(Drop)]
pub enum ArgumentsError {
    /// Help or the version is asked for: its text, for the standard output.
    Shown(String),
    /// What is wrong, and what to do, where that is more than the exit number's advice.
    Wrong(Message, Option<&'static str>),
    /// There was not enough memory.
    Memory,
}

impl ArgumentsError {
    /// The arguments are wrong as this text says.
    pub(crate) fn new(text: &'static str) -> ArgumentsError
        ensures { IsWrong result }
    {
        ArgumentsError::Wrong(Message::Fixed(text), None)
    }

    /// The same of a text that was made for it, where there was memory for it.
    pub(crate) fn told(text: Result<String, AllocError>) -> ArgumentsError {
        match text {
            Ok(text) => ArgumentsError::Wrong(Message::Made(text), None),
            Err(_) => ArgumentsError::Memory,
        }
    }

    /// The error with this advice.
    fn advised(self, advice: &'static str) -> ArgumentsError {
        match self {
            ArgumentsError::Wrong(message, _) => ArgumentsError::Wrong(message, Some(advice)),
            other => other,
        }
    }

    /// What clap says of arguments of which it makes no matches.
    pub(crate) fn of(alloc: Global, error: &clap::Error) -> ArgumentsError {
        match error.kind() {
            ErrorKind::OutOfMemory => ArgumentsError::Memory,
            ErrorKind::DisplayHelp | ErrorKind::DisplayVersion => {
                match format!(in alloc; "{error}") {
                    Ok(text) => ArgumentsError::Shown(text),
                    Err(_) => ArgumentsError::Memory,
                }
            }
            ErrorKind::DisplayHelpOnMissingArgumentOrSubcommand | ErrorKind::MissingSubcommand => {
                ArgumentsError::new(
                    "give a subcommand: check, list, export, rekey, create or self-test",
                ).advised(SHORT_USAGE)
            }
            ErrorKind::UnknownArgument => {
                ArgumentsError::told(refusal_text(alloc, error)).advised(UNKNOWN_ARGUMENT)
            }
            _ => ArgumentsError::told(refusal_text(alloc, error)),
        }
    }
}

impl From<AllocError> for ArgumentsError {
    ghost from_gives = { λ _ e. e ≡ Memory };

    fn from(_refused: AllocError) -> ArgumentsError {
        ArgumentsError::Memory
    }
}

impl<T: Drop> From<AllocFailed<T>> for ArgumentsError {
    ghost from_gives = { λ _ e. e ≡ Memory };

    fn from(_refused: AllocFailed<T>) -> ArgumentsError {
        ArgumentsError::Memory
    }
}
