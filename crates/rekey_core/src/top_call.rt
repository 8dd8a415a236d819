//! The top call.
ghost use Rattle.std.specs.Prelude.{◌≡◌, ◌≢◌, List, ℕ, map, IfSome, Some};
ghost use Rattle.std.specs.String.{string_bytes};
ghost use Rattle.frame.specs.Calls.{call_of};
ghost use Rattle.frame.specs.InputText.{IsInput};
ghost use Rattle.frame.specs.Stream.{stream_of};
ghost use Rattle.frame.specs.declared.status.Status.{Status};
ghost use Rattle.rekey_core.specs.Answers.{Answers};
ghost use Rattle.rekey_core.specs.Words.{IsNoCommand};

use crate::words::command_of;
use frame::{Status, answer};
use octet_core::{Draw, Sink, Source};
use std::alloc::Global;
use std::sync::ledger::Ledger;
use steps::Steps;

/// Changes the password of a store, from an input to an output.
///
/// The arguments, without the program's name, are `rekey`, the most steps of a change (a u64 in
/// decimal), and 2 to 17 passwords of at most 1,024 octets: the store is changed from each to the
/// next. The input is a line of hexadecimal digits, the octets of the store, and may have a second
/// such line: octets that are drawn in place of those of `draw`. The output is the line `store `
/// with the lower-case digits of the changed store; and on another status than `Done` the line
/// `error: ` with the name of the status.
///
/// `Usage` is returned where the arguments are not of this form, `InputMalformed` where the input
/// is not; else the status is that of the error of the first change that has one, as `rekey`
/// returns it.
pub fn rekey_run<I: Source, O: Sink, D: Draw, L: Ledger>(
    alloc: Global,
    words: &[String],
    input: &mut I,
    draw: &mut D,
    output: &mut O,
    steps: &mut Steps<L>,
) -> Status
    // When each status comes, where each has to come, what is written and the steps.
    ensures answers { let read = stream_of I.left I.faults input.old input.new in
        let drawn = stream_of D.left D.faults draw.old draw.new in
        let written = stream_of O.written O.faults output.old output.new in
        Answers (map string_bytes words.now) (call_of read drawn steps.old steps.new) written
        result }
    // On `Usage` nothing is read or drawn and no step taken.
    ensures untouched { IsNoCommand (map string_bytes words.now) → (input.new ≡ input.old)
        × (draw.new ≡ draw.old) × (steps.new ≡ steps.old) }
    // Where there is a second line the draw is as it was, and so it is on each status but these
    // five.
    ensures line { IfSome (I.left input.old) (λ x. (store line : List ℕ)
        → IsInput x store (Some line) → draw.new ≡ draw.old) }
    ensures undrawn { result ≢ Status.Done → result ≢ Status.Rng → result ≢ Status.Memory
        → result ≢ Status.TooLong → result ≢ Status.WriteFault → draw.new ≡ draw.old }
{
    answer(alloc, command_of(words), input, draw, output, steps)
}
