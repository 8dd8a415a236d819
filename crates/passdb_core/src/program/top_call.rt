//! The top call.
ghost use Rattle.std.specs.Prelude.{◌≡◌, ◌≢◌, List, ℕ, map, IfSome};
ghost use Rattle.std.specs.String.{string_bytes};
ghost use Rattle.frame.specs.Calls.{call_of};
ghost use Rattle.frame.specs.Programs.{Answers};
ghost use Rattle.frame.specs.Stream.{stream_of};
ghost use Rattle.frame.specs.declared.status.Status.{Status};
ghost use Rattle.passdb_core.specs.Program.{Asked, DrawsOwn, IsAsked, IsNotAsked, on_inputs};

use crate::program::words::command_of;
use frame::{Status, answer};
use octet_core::{Draw, Sink, Source};
use std::alloc::Global;
use std::sync::ledger::Ledger;
use steps::Steps;

/// Does commands on a password file, from an input to an output.
///
/// The arguments, without the program's name, are `passdb`, the rounds of fresh entries (1,000 to
/// 10,000,000, in decimal) and DRAWN, which is `-` for octets of `draw`, or hexadecimal digits of
/// octets that are drawn in place of those. The input is a password file, an empty line and a line
/// for each command: `add NAME PW`, `check NAME PW`, `change NAME PW PW` or `remove NAME`, where PW
/// is 1 to 256 octets from 33 to 126. The output is a line for each reply, an empty line and the
/// new file; and on another status than `Done` the line `error: ` with the name of the status.
///
/// `Usage` is returned where the arguments are not of this form, `InputMalformed` where the input
/// is not, and `Rng` where octets have to be drawn and the draw fails. Nothing is drawn before the
/// whole input was read.
pub fn passdb_run<I: Source, O: Sink, D: Draw, L: Ledger>(
    alloc: Global,
    words: &[String],
    input: &mut I,
    draw: &mut D,
    output: &mut O,
    steps: &mut Steps<L>,
) -> Status
    // When each status comes, where each has to come, what is written and the steps.
    ensures answers { let read = stream_of I.left I.faults input.old input.new in
        let drawn = stream_of D.left D.faults draw.old draw.new in
        let written = stream_of O.written O.faults output.old output.new in
        Answers (on_inputs (map string_bytes words.now)) (call_of read drawn steps.old steps.new)
        written result }
    // On `Usage` nothing is read, drawn or counted.
    ensures untouched { IsNotAsked (map string_bytes words.now) → (input.new ≡ input.old)
        × (draw.new ≡ draw.old) × (steps.new ≡ steps.old) }
    // Where the arguments tell the octets to be drawn, and where the input is not of the form, the
    // draw is as it was.
    ensures kept { IfSome (I.left input.old) (λ x. (a : Asked)
        → IsAsked (map string_bytes words.now) a → DrawsOwn a x → draw.new ≡ draw.old) }
    ensures undrawn { result ≡ Status.InputMalformed → draw.new ≡ draw.old }
{
    answer(alloc, command_of(words), input, draw, output, steps)
}
