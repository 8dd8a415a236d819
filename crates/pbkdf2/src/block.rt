//! One block of PBKDF2.
ghost use Rattle.std.specs.Prelude.{◌≡◌, ℕ, ◌+◌, List, [], take, max};
ghost use Rattle.pbkdf2.specs.Pbkdf2.{block};

use block_core::xor_into;
use mac_modes::{Prf, answer_at};
use std::sync::ledger::Ledger;
use steps::Steps;

/// The block of this number, counted from 1, in the first `P::OUTPUT` of 64 octets. `keyed` is the function under the
/// password, before its first piece. Each output of the function is a step.
pub(crate) fn derive_block<P: Prf, L: Ledger>(
    keyed: &P,
    salt: &[u8],
    rounds: u32,
    number: u32,
    steps: &mut Steps<L>,
) -> [u8; 64]
    ensures value { (k : List ℕ) → P.holds keyed.now k [] → take P.OUTPUT result
        ≡ block (P.prf k) salt.now rounds number }
    ensures steps { steps.new ≡ steps.old + max rounds 1 }
{
    let mut last = [0u8; 64];
    let mut first = keyed.copy();
    first.update(salt);
    first.update(&number.to_be_bytes());
    first.finalize_into(&mut last);
    steps.tick();
    let mut sum = last;
    for turn in 0..rounds.max(1) - 1 {
        let message = last;
        answer_at(keyed, &message[..P::OUTPUT], &mut last);
        steps.tick();
        xor_into(&mut sum, &last);
    }
    sum
}
