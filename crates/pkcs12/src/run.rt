//! The command, from its arguments to its end.
use crate::check::run_check;
use crate::create::run_create;
use crate::export::run_export;
use crate::list::run_list;
use crate::rekey::run_rekey;
use crate::self_test::self_test;
use command_base::{Message, arguments};
use pkcs12_arguments::{ArgumentsError, Request, request_of};
use pkcs12_opening::{ASKING, Ending, Failure, Surroundings, printed, without_password_argument};
use std::alloc::AllocError;
use std::fs::File;
use std::rt::{Env, Runtime};
use std::{env, io};

fn run_self_test<R: Print + AllocGlobal>(rt: &R) -> Result<(), Failure> {
    let lines = self_test(rt.alloc())?;
    printed(rt.alloc(), print!(rt; "{lines}"))
}

/// Prints what help or the version is, or returns the failure of arguments that ask for nothing.
fn shown<R: Print + AllocGlobal>(rt: &R, error: ArgumentsError) -> Result<(), Failure> {
    match error {
        ArgumentsError::Shown(text) => printed(rt.alloc(), rt.print(text.as_str())),
        ArgumentsError::Wrong(message, advice) => Err(Failure {
            ending: Ending::Usage,
            message,
            advice: match advice {
                Some(advice) => Some(Message::Fixed(advice)),
                None => None,
            },
        }),
        ArgumentsError::Memory => Err(Failure::from(AllocError)),
    }
}

/// Does what is asked for.
fn answer<R: Runtime<File = File> + AllocGlobal>(
    rt: &R,
    around: Surroundings,
    request: &Request<'_>,
) -> Result<(), Failure> {
    match request {
        Request::Check(asked) => run_check(rt, around, asked),
        Request::Create(asked) => run_create(rt, around, asked),
        Request::Export(asked) => run_export(rt, around, asked),
        Request::List(asked) => run_list(rt, around, asked),
        Request::Rekey(asked) => run_rekey(rt, around, asked),
        Request::SelfTest => run_self_test(rt),
    }
}

/// Does what the arguments ask for.
pub fn run<R: Runtime<File = File> + AllocGlobal>(
    rt: &R,
    around: Surroundings,
) -> Result<(), Failure> {
    let Some(arguments) = arguments(rt)? else {
        return Err(Failure::new(Ending::Usage, "an argument is not UTF-8"));
    };
    without_password_argument(arguments.as_slice())?;
    match request_of(rt.alloc(), arguments.as_slice()) {
        Ok(request) => answer(rt, around, &request),
        Err(error) => shown(rt, error),
    }
}

/// Whether the script that started the program asks for what is missing.
fn is_asked_for<R: Env + AllocGlobal>(rt: &R, ending: Ending) -> bool {
    match ending {
        Ending::PasswordMissing | Ending::NewPasswordMissing => env::var(rt, ASKING).is_ok(),
        _ => false,
    }
}

/// Says on the standard error what failed, and what to do.
pub fn explain<R: Env + Eprint + AllocGlobal>(rt: &R, failure: &Failure) -> io::Result<()> {
    let ending = failure.ending;
    if is_asked_for(rt, ending) {
        return Ok(());
    }
    let code = ending.code();
    let message = failure.message.as_str();
    let name = ending.name();
    let advice = match &failure.advice {
        Some(advice) => advice.as_str(),
        None => ending.advice(),
    };
    eprintln!(rt; "pkcs12: {name} ({code}): {message}\n{advice}")
}
