//! The top call.
ghost use Rattle.std.specs.Prelude.{◌≡◌, map};
ghost use Rattle.std.specs.String.{string_bytes};
ghost use Rattle.frame.specs.Calls.{call_of};
ghost use Rattle.frame.specs.Stream.{stream_of};
ghost use Rattle.inventory_core.specs.Answers.{Answers, no_draw};
ghost use Rattle.inventory_core.specs.Words.{IsNoCommand};

use crate::words::command_of;
use frame::{Status, answer};
use octet_core::{DrawnBytes, Octets, Sink, Source};
use std::alloc::Global;
use std::sync::ledger::Ledger;
use steps::Steps;

/// Lists what a store holds, from an input to an output.
///
/// The arguments, without the program's name, are `inventory`, a password of at most 1,024 octets
/// and the most steps (a u64 in decimal). The input is one line of hexadecimal digits, the octets
/// of a store. The output is the text of `inventory`, a line in each write; and on another status
/// than `Done` the line `error: ` with the name of the status.
///
/// `Usage` is returned where the arguments are not of this form, `InputMalformed` where the input
/// is not; else the status is that of the error of `inventory`.
pub fn inventory_run<I: Source, O: Sink, L: Ledger>(
    alloc: Global,
    words: &[String],
    input: &mut I,
    output: &mut O,
    steps: &mut Steps<L>,
) -> Status
    // When each status comes, where each has to come, what is written and the steps.
    ensures answers { let read = stream_of I.left I.faults input.old input.new in
        let written = stream_of O.written O.faults output.old output.new in
        Answers (map string_bytes words.now) (call_of read no_draw steps.old steps.new) written
        result }
    // On `Usage` nothing is read and no step taken.
    ensures untouched { IsNoCommand (map string_bytes words.now) → (input.new ≡ input.old)
        × (steps.new ≡ steps.old) }
{
    let mut draw = DrawnBytes::new(Octets::new(alloc));
    answer(alloc, command_of(words), input, &mut draw, output, steps)
}
