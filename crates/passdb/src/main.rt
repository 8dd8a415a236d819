//! The program `passdb`: `passdb_run` on standard input, the system's random octets and standard output.
#![tactic(auto)]

ghost use Rattle.std.specs.Prelude.{◌≡◌, ◌<◌};

use frame::Status;
use octet_core::{Draw, FileDraw, ReadSource, Sink, Source, WriteSink};
use passdb_core::passdb_run;
use std::alloc::Global;
use std::marker::Brand;
use std::process::ExitCode;
use std::rt::Env;
use std::sync::ledger::{Blank, Ledger};
use std::{env, io};
use steps::Steps;

/// The file of the system's random octets. It is opened by the first draw.
const RANDOM: &str = "/dev/urandom";

/// The exit status where the arguments cannot be read.
const NO_ARGUMENTS: u8 = 7;

/// The arguments after the program's name.
fn arguments_after_name<R: Env + Alloc<A = Global>>(rt: &R) -> io::Result<Vec<String>> {
    let mut arguments = Vec::new(rt.alloc());
    for argument in env::args(rt)?.skip(1) {
        arguments.push(argument)?;
    }
    Ok(arguments)
}

/// `passdb_run` with a counter of steps of its own.
fn run_from<I: Source, D: Draw, O: Sink, L: Ledger>(
    alloc: Global,
    arguments: &[String],
    input: &mut I,
    draw: &mut D,
    output: &mut O,
    blank: Blank,
) -> Status
    requires name { blank.name ≡ L.name }
    requires parts { blank.parts ≡ L.parts }
    requires some { 0 < blank.parts }
{
    let mut steps = Steps::<L>::open(blank);
    passdb_run(alloc, arguments, input, draw, output, &mut steps)
}

fn main(rt: HostRuntime) -> ExitCode {
    let Ok(arguments) = arguments_after_name(&rt) else {
        return ExitCode::from(NO_ARGUMENTS);
    };
    let mut input = ReadSource::new(rt.stdin());
    let mut output = WriteSink::new(rt.stdout());
    let mut draw = FileDraw::new(&rt, RANDOM);
    let blank = Blank::new(1);
    let status = run_from::<_, _, _, Brand>(
        rt.alloc(),
        arguments.as_slice(),
        &mut input,
        &mut draw,
        &mut output,
        blank,
    );
    ExitCode::from(status.code())
}
