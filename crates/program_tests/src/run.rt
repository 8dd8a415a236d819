//! Runs of the three programs over memory.
ghost use Rattle.std.specs.Prelude.{◌≡◌, ◌<◌};

use frame::Status;
use inventory_core::inventory_run;
use octet_core::{DrawnBytes, FailingDraw, Items, MemorySink, MemorySource, Octets};
use passdb_core::passdb_run;
use rekey_core::rekey_run;
use std::alloc::{AllocError, Global};
use std::marker::Brand;
use std::sync::ledger::{Blank, Ledger};
use steps::Steps;

/// A number that no read, no write and no draw has here.
pub(crate) const NEVER: u64 = 1000;

/// The octets 40 to 6f, for a draw.
pub(crate) const DRAWN: &[u8] = b"@ABCDEFGHIJKLMNOPQRSTUVWXYZ[\\]^_`abcdefghijklmno";

/// A run of the program that the first argument names, over an input in two parts, in pieces of 200
/// octets. The read, the write and the draw of these numbers fail. The run has to end in the status and
/// to write the texts, one after the other.
#[derive(Clone, Copy)]
pub(crate) struct Case<'a> {
    pub(crate) arguments: &'a str,
    pub(crate) input: &'a str,
    pub(crate) more_input: &'a str,
    pub(crate) drawn: &'a [u8],
    pub(crate) failing_read: u64,
    pub(crate) failing_write: u64,
    pub(crate) failing_draw: u64,
    pub(crate) status: Status,
    pub(crate) due: &'a [&'a str],
}

/// A run whose calls do not fail, on the octets 40 to 6f for the draw.
pub(crate) const QUIET: Case<'static> = Case {
    arguments: "",
    input: "",
    more_input: "",
    drawn: DRAWN,
    failing_read: NEVER,
    failing_write: NEVER,
    failing_draw: NEVER,
    status: Status::Done,
    due: &[],
};

/// What a run works on.
#[derive(Drop)]
struct Streams {
    arguments: Vec<String>,
    source: MemorySource,
    sink: MemorySink,
    draw: FailingDraw<DrawnBytes>,
}

/// The arguments of a line.
fn arguments_of(alloc: Global, line: &str) -> Result<Vec<String>, AllocError> {
    let mut arguments = Vec::new(alloc);
    for argument in line.split(' ') {
        arguments.push(String::from_str(alloc, argument)?)?;
    }
    Ok(arguments)
}

/// A list of one number.
fn list_of(alloc: Global, number: u64) -> Result<Items<u64>, AllocError> {
    let mut numbers = Items::new(alloc);
    numbers.push(number)?;
    Ok(numbers)
}

/// The input of a case.
fn source_of(alloc: Global, case: &Case<'_>) -> Result<MemorySource, AllocError> {
    let failing = list_of(alloc, case.failing_read)?;
    let mut input = Octets::from_slice(alloc, case.input.as_bytes())?;
    input.extend(case.more_input.as_bytes())?;
    Ok(MemorySource::new(input, 200, failing))
}

/// The draw of a case.
fn draw_of(alloc: Global, case: &Case<'_>) -> Result<FailingDraw<DrawnBytes>, AllocError> {
    let failing = list_of(alloc, case.failing_draw)?;
    let drawn = Octets::from_slice(alloc, case.drawn)?;
    Ok(FailingDraw::new(DrawnBytes::new(drawn), failing))
}

/// All that a case works on.
fn streams_of(alloc: Global, case: &Case<'_>) -> Result<Streams, AllocError> {
    let arguments = arguments_of(alloc, case.arguments)?;
    let source = source_of(alloc, case)?;
    let draw = draw_of(alloc, case)?;
    let sink = MemorySink::new(alloc, 4000, list_of(alloc, case.failing_write)?)?;
    Ok(Streams {
        arguments,
        source,
        sink,
        draw,
    })
}

/// The status of a run of the program that the first argument names.
fn status_of<L: Ledger>(
    alloc: Global,
    program: &str,
    streams: &mut Streams,
    steps: &mut Steps<L>,
) -> Status {
    let arguments = streams.arguments.as_slice();
    let source = &mut streams.source;
    let draw = &mut streams.draw;
    let sink = &mut streams.sink;
    if program.starts_with("rekey") {
        rekey_run(alloc, arguments, source, draw, sink, steps)
    } else if program.starts_with("inventory") {
        inventory_run(alloc, arguments, source, sink, steps)
    } else {
        passdb_run(alloc, arguments, source, draw, sink, steps)
    }
}

/// Whether the octets are these texts, one after the other.
fn are_joined(octets: &[u8], due: &[&str]) -> bool {
    let mut rest = octets;
    for text in due {
        match rest.strip_prefix(text.as_bytes()) {
            Some(more) => rest = more,
            None => return false,
        }
    }
    rest.is_empty()
}

/// Whether a run of the case ends and writes as it has to.
fn runs<L: Ledger>(alloc: Global, case: &Case<'_>, streams: &mut Streams, blank: Blank) -> bool
    requires name { blank.name ≡ L.name }
    requires parts { blank.parts ≡ L.parts }
    requires some { 0 < blank.parts }
{
    let mut steps = Steps::<L>::open(blank);
    let status = status_of(alloc, case.arguments, streams, &mut steps);
    status == case.status && are_joined(streams.sink.octets(), case.due)
}

/// The same over streams of its own.
pub(crate) fn holds(alloc: Global, case: &Case<'_>) -> bool {
    match streams_of(alloc, case) {
        Ok(mut streams) => runs::<Brand>(alloc, case, &mut streams, Blank::new(1)),
        Err(_) => false,
    }
}
