//! What every program does: it reads its input to the end, does its work on it, and writes what is due.
ghost use Rattle.std.specs.Prelude.{◌≡◌, ◌≢◌, ◌≤◌, List, ℕ, Some, None, IfSome};
ghost use Rattle.frame.specs.Calls.{IsWritten, call_of};
ghost use Rattle.frame.specs.Deciding.{Decides};
ghost use Rattle.frame.specs.Input.{status_unread};
ghost use Rattle.frame.specs.Programs.{Answers, asks};
ghost use Rattle.frame.specs.Status.{status_in, text_in};
ghost use Rattle.frame.specs.Stream.{stream_of};

use crate::due_text::{DueText, write_error};
use crate::input::{InputError, read_input};
use crate::job::Job;
use crate::status::Status;
use octet_core::{Draw, Sink, Source};
use std::alloc::Global;
use std::sync::ledger::Ledger;
use steps::Steps;

/// The status of an input that was not read whole.
fn input_status(error: InputError) -> Status
    ensures { result ≡ status_unread error }
{
    match error {
        InputError::ReadFault => Status::ReadFault,
        InputError::InputTooLong => Status::InputTooLong,
        InputError::Memory => Status::Memory,
    }
}

/// Writes what is due for a decision, the text of what was made or `error: ` and the name of the status, and returns its
/// status, or `WriteFault` where a write failed.
pub fn write_decision<T: DueText + Drop, O: Sink>(
    output: &mut O,
    decision: Result<T, Status>,
) -> Status
    ensures count { O.faults output.old ≤ O.faults output.new }
    ensures written { let written = stream_of O.written O.faults output.old output.new in
        IsWritten written (status_in decision) (text_in T.text decision) result }
{
    match decision {
        Ok(made) => match made.write_to(output) {
            Ok(()) => Status::Done,
            Err(_) => Status::WriteFault,
        },
        Err(status) => match write_error(output, status) {
            Ok(()) => status,
            Err(_) => Status::WriteFault,
        },
    }
}

/// What the job makes of the input, or the status that is returned in its place.
fn decide<J: Job + Drop, I: Source, D: Draw, L: Ledger>(
    alloc: Global,
    asked: Option<J>,
    input: &mut I,
    draw: &mut D,
    steps: &mut Steps<L>,
) -> Result<J::Made, Status>
    ensures decides { let read = stream_of I.left I.faults input.old input.new in
        let drawn = stream_of D.left D.faults draw.old draw.new in
        Decides (asks asked J.makes J.refuses J.exact J.limit)
        (call_of read drawn steps.old steps.new) (status_in result) (text_in J.Made.text result) }
    ensures untouched { asked ≡ None → (input.new ≡ input.old) × (draw.new ≡ draw.old)
        × (steps.new ≡ steps.old) }
    ensures kept { (j : J) → asked ≡ Some j
        → IfSome (I.left input.old) (λ x. J.keeps j x → draw.new ≡ draw.old) }
    ensures kept_on { (j : J) → asked ≡ Some j → J.keeps_on j (status_in result)
        → draw.new ≡ draw.old }
{
    let Some(job) = asked else {
        return Err(Status::Usage);
    };
    let octets = match read_input(alloc, input) {
        Ok(octets) => octets,
        Err(error) => return Err(input_status(error)),
    };
    job.work(alloc, octets, draw, steps)
}

/// Reads the input to its end, does the work of the job on it, and writes what is due: the text of what was made, or
/// `error: ` and the name of the status. `asked` is the command that the arguments gave; where they gave none the result is
/// `Usage`, and nothing is read, drawn or counted.
///
/// `Usage`, `ReadFault`, `InputTooLong` (more than 67,108,864 octets), `WriteFault` and `Memory` are outputs of every
/// program; any other refusal is the job's.
pub fn answer<J: Job + Drop, I: Source, O: Sink, D: Draw, L: Ledger>(
    alloc: Global,
    asked: Option<J>,
    input: &mut I,
    draw: &mut D,
    output: &mut O,
    steps: &mut Steps<L>,
) -> Status
    // The causes of each status, where each has to come, what is written and the steps.
    ensures answers { let read = stream_of I.left I.faults input.old input.new in
        let drawn = stream_of D.left D.faults draw.old draw.new in
        let written = stream_of O.written O.faults output.old output.new in
        Answers (asks asked J.makes J.refuses J.exact J.limit)
        (call_of read drawn steps.old steps.new) written result }
    // With no job nothing is read, drawn or counted.
    ensures untouched { asked ≡ None → (input.new ≡ input.old) × (draw.new ≡ draw.old)
        × (steps.new ≡ steps.old) }
    // On an input on which the job keeps the draw it is as it was, and so it is on such a status.
    ensures kept { (j : J) → asked ≡ Some j
        → IfSome (I.left input.old) (λ x. J.keeps j x → draw.new ≡ draw.old) }
    ensures kept_on { (j : J) → asked ≡ Some j → J.keeps_on j result → result ≢ Status.WriteFault
        → draw.new ≡ draw.old }
{
    let decision = decide(alloc, asked, input, draw, steps);
    write_decision(output, decision)
}
