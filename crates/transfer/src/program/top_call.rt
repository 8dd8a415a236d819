//! The top call.
ghost use Rattle.std.specs.Prelude.{◌≡◌, ◌≢◌, List, ℕ, map, IfSome};
ghost use Rattle.std.specs.String.{string_bytes};
ghost use Rattle.frame.specs.Calls.{call_of};
ghost use Rattle.frame.specs.InputText.{IsInput};
ghost use Rattle.frame.specs.Stream.{stream_of};
ghost use Rattle.frame.specs.declared.status.Status.{Status};
ghost use Rattle.transfer.specs.Answers.{Answers};
ghost use Rattle.transfer.specs.Sample.{IsNoSample, IsSample, SampleAnswers};
ghost use Rattle.transfer.specs.Words.{IsNoCommand};

use crate::program::words::{command_of, sample_keys};
use crate::sample::lines::sample_lines;
use frame::{Status, answer, write_decision};
use octet_core::{Draw, Sink, Source};
use std::alloc::Global;
use std::sync::ledger::Ledger;
use steps::Steps;

/// Does what the arguments ask for, those after the program's name.
///
/// `transfer`, the password, the new password, the rounds and the limit: reads the input to its end, opens the store that it
/// spells, seals its private keys anew, and writes what is due. The input is a line of hexadecimal digits, the octets of the
/// store, and may have a second line of the same kind: octets to be drawn in place of those of `draw`. For each private key 32
/// octets are drawn, 16 of IV and then 16 of salt. The output is a line `cert ` with lower-case digits for each certificate,
/// then a line `key ` for each private key, with an EncryptedPrivateKeyInfo in DER (RFC 5958 section 3); and on another status
/// than Done the line `error: ` with its name.
///
/// `sample` and a number of keys, 1 to 10,000: makes a store of so many generated keys and certificates, transfers it, and writes
/// five lines about both. It reads no input and draws nothing, and what it writes is the same on every machine.
pub fn run<I: Source, O: Sink, D: Draw, L: Ledger>(
    alloc: Global,
    words: &[String],
    input: &mut I,
    draw: &mut D,
    output: &mut O,
    steps: &mut Steps<L>,
) -> Status
    // Where the arguments are not those of a sample: the causes of each status, where each has to
    // come, what is written and the steps.
    ensures answers { let read = stream_of I.left I.faults input.old input.new in
        let drawn = stream_of D.left D.faults draw.old draw.new in
        let written = stream_of O.written O.faults output.old output.new in
        IsNoSample (map string_bytes words.now)
        → Answers (map string_bytes words.now) (call_of read drawn steps.old steps.new) written
        result }
    // Where they are: what is written, and the steps.
    ensures sample { let written = stream_of O.written O.faults output.old output.new in
        (keys : ℕ) → IsSample (map string_bytes words.now) keys
        → SampleAnswers keys steps.old steps.new written result }
    // Where the arguments are no command's, nothing is read or drawn and no step taken; for a
    // sample nothing is read or drawn.
    ensures untouched { IsNoCommand (map string_bytes words.now) → (input.new ≡ input.old)
        × (draw.new ≡ draw.old)
        × (IsNoSample (map string_bytes words.now) → steps.new ≡ steps.old) }
    // Where there is a second line the draw is as it was, and so it is on each status but these
    // four.
    ensures line { IfSome (I.left input.old) (λ x. (store line : List ℕ)
        → IsInput x store (Some line) → draw.new ≡ draw.old) }
    ensures undrawn { result ≢ Status.Done → result ≢ Status.Rng → result ≢ Status.Memory
        → result ≢ Status.WriteFault → draw.new ≡ draw.old }
{
    match sample_keys(words) {
        Some(keys) => write_decision(output, sample_lines(alloc, keys, steps)),
        None => answer(alloc, command_of(words), input, draw, output, steps),
    }
}
