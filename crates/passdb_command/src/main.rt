//! The command for people: `passdb add`, `check`, `change`, `reset`, `remove` and `list`.
#![tactic(auto)]

mod command_line;
mod decoy;
mod ending;
mod file;
mod listing;
mod lock;
mod malformed;
mod order;
mod origins;
mod password;
mod request;
mod run;
mod work;

use std::process;
use std::process::ExitCode;

fn main(rt: HostRuntime) -> ExitCode {
    let process = process::id(rt.process());
    match run::run(&rt, process) {
        Ok(()) => ExitCode::from(0),
        Err(failure) => {
            let code = failure.ending.code();
            // Where even the standard error is gone, the exit number still tells.
            match run::explain(&rt, &failure) {
                Ok(()) | Err(_) => ExitCode::from(code),
            }
        }
    }
}
