//! The program: the top call on standard input, the system's random octets and standard output.
#![tactic(auto)]

ghost use Rattle.std.specs.Prelude.{◌≡◌, ◌<◌};

use octet_core::{Draw, FileDraw};
use std::alloc::Global;
use std::marker::Brand;
use std::process::ExitCode;
use std::rt::Env;
use std::sync::ledger::{Blank, Ledger};
use std::{env, io};
use steps::Steps;
use transfer::{ReadSource, Sink, Source, Status, WriteSink, run};

/// The file of the system's random octets. It is opened by the first draw.
const RANDOM: &str = "/dev/urandom";

/// What the program ends with where the arguments themselves cannot be had.
const NO_WORDS: u8 = 7;

/// The arguments after the program's name.
fn words_after_name<R: Env + Alloc<A = Global>>(rt: &R) -> io::Result<Vec<String>> {
    let mut words = Vec::new(rt.alloc());
    for word in env::args(rt)?.skip(1) {
        words.push(word)?;
    }
    Ok(words)
}

/// The top call with a step counter of its own.
fn run_from<I: Source, D: Draw, O: Sink, L: Ledger>(
    alloc: Global,
    words: &[String],
    input: &mut I,
    draw: &mut D,
    output: &mut O,
    blank: Blank,
) -> Status
    requires name { blank.name ≡ L.name }
    requires parts { blank.parts ≡ L.parts }
    requires some { 0 < blank.parts }
{
    let mut steps = Steps::<L>::open(blank);
    run(alloc, words, input, draw, output, &mut steps)
}

fn main(rt: HostRuntime) -> ExitCode {
    let Ok(words) = words_after_name(&rt) else {
        return ExitCode::from(NO_WORDS);
    };
    let mut input = ReadSource::new(rt.stdin());
    let mut output = WriteSink::new(rt.stdout());
    let mut draw = FileDraw::new(&rt, RANDOM);
    let blank = Blank::new(1);
    let words = words.as_slice();
    let status = run_from::<_, _, _, Brand>(
        rt.alloc(),
        words,
        &mut input,
        &mut draw,
        &mut output,
        blank,
    );
    ExitCode::from(status.code())
}
