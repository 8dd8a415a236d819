//! The command for people: `pkcs12 check STORE`, `list`, `export`, `rekey`,
//! `create` and `self-test`.
#![tactic(auto)]

mod check;
mod clock;
mod create;
mod export;
mod list;
mod new_work;
mod reading;
mod rekey;
mod run;
mod self_test;

use pkcs12_opening::Surroundings;
use std::io::IsTerminal;
use std::process;
use std::process::ExitCode;

fn main(rt: HostRuntime) -> ExitCode {
    let around = Surroundings {
        process: process::id(rt.process()),
        at_terminal: rt.stderr().is_terminal(),
    };
    match run::run(&rt, around) {
        Ok(()) => ExitCode::from(0),
        Err(failure) => {
            let code = failure.ending.code();
            // Where even the standard error is gone, the exit number still tells.
            match run::explain(&rt, &failure) {
                Ok(()) | Err(_) => ExitCode::from(code),
            }
        }
    }
}
