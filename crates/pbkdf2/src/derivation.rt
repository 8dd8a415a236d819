//! PBKDF2 over any pseudorandom function (RFC 8018 section 5.2).
ghost use Rattle.std.specs.Prelude.{◌≡◌, ◌+◌, ◌*◌, ◌<◌, ◌≤◌, ◌^◌, length, max, IfOk, OnOk, OnErr, true, false};
ghost use Rattle.pbkdf2.specs.Pbkdf2.{block_count, pbkdf2};

use crate::block::derive_block;
use mac_modes::{InvalidLength, Prf};
use std::marker::Brand;
use std::sync::ledger::{Blank, Ledger};
use steps::Steps;

/// Fills `res` with a key that is derived from a password and a salt, in this number of rounds (RFC 8018 section 5.2);
/// 0 rounds run like 1. Each output of the function is a step. `InvalidLength` exactly where the function does not take the password as its
/// key; then nothing changes. Caller: `res` has fewer than 2^32 blocks of `P::OUTPUT` octets.
pub fn pbkdf2_counted<P: Prf, L: Ledger>(
    password: &[u8],
    salt: &[u8],
    rounds: u32,
    res: &mut [u8],
    steps: &mut Steps<L>,
) -> Result<(), InvalidLength>
    requires { block_count (length res.old) P.OUTPUT < 2 ^ 32 }
    ensures key { OnOk result (P.takes_key password.now ≡ true) }
    ensures value { OnOk result (res.new ≡ pbkdf2 (P.prf password.now) P.OUTPUT salt.now rounds
        (length res.old)) }
    ensures steps { OnOk result
        (steps.new ≡ steps.old + max rounds 1 * block_count (length res.old) P.OUTPUT) }
    ensures at_most { steps.new ≤ steps.old + max rounds 1 * block_count (length res.old) P.OUTPUT }
    ensures refused_key { OnErr result (P.takes_key password.now ≡ false) }
    ensures refused_res { OnErr result (res.new ≡ res.old) }
    ensures refused_steps { OnErr result (steps.new ≡ steps.old) }
{
    let keyed = P::new_from_slice(password)?;
    let size = res.len();
    for done in 0..(size + (P::OUTPUT - 1)) / P::OUTPUT {
        let block = derive_block::<P, L>(&keyed, salt, rounds, done as u32 + 1, steps);
        let start = done * P::OUTPUT;
        let len = P::OUTPUT.min(size - start);
        res[start..start + len].copy_from_slice(&block[..len]);
    }
    Ok(())
}

/// `pbkdf2_counted` over a counter of its own.
fn pbkdf2_from<P: Prf, L: Ledger>(
    password: &[u8],
    salt: &[u8],
    rounds: u32,
    res: &mut [u8],
    blank: Blank,
) -> Result<(), InvalidLength>
    requires name { blank.name ≡ L.name }
    requires parts { blank.parts ≡ L.parts }
    requires some { 0 < blank.parts }
    requires few { block_count (length res.old) P.OUTPUT < 2 ^ 32 }
    ensures key { OnOk result (P.takes_key password.now ≡ true) }
    ensures value { OnOk result (res.new ≡ pbkdf2 (P.prf password.now) P.OUTPUT salt.now rounds
        (length res.old)) }
    ensures refused_key { OnErr result (P.takes_key password.now ≡ false) }
    ensures refused_res { OnErr result (res.new ≡ res.old) }
{
    let mut steps = Steps::<L>::open(blank);
    pbkdf2_counted::<P, L>(password, salt, rounds, res, &mut steps)
}

/// Fills `res` with a key that is derived from a password and a salt, in this number of rounds (RFC 8018 section 5.2);
/// 0 rounds run like 1. `InvalidLength` exactly where the function does not take the password as its key; `res` is then unchanged. Caller:
/// `res` has fewer than 2^32 blocks of `P::OUTPUT` octets.
pub fn pbkdf2<P: Prf>(
    password: &[u8],
    salt: &[u8],
    rounds: u32,
    res: &mut [u8],
) -> Result<(), InvalidLength>
    requires { block_count (length res.old) P.OUTPUT < 2 ^ 32 }
    ensures key { OnOk result (P.takes_key password.now ≡ true) }
    ensures value { OnOk result (res.new ≡ pbkdf2 (P.prf password.now) P.OUTPUT salt.now rounds
        (length res.old)) }
    ensures refused_key { OnErr result (P.takes_key password.now ≡ false) }
    ensures refused_res { OnErr result (res.new ≡ res.old) }
{
    pbkdf2_from::<P, Brand>(password, salt, rounds, res, Blank::new(1))
}

/// `pbkdf2` that returns an array of `N` octets. `InvalidLength` as there. Caller: they are fewer than 2^32 blocks of
/// `P::OUTPUT` octets.
pub fn pbkdf2_array<P: Prf, const N: usize>(
    password: &[u8],
    salt: &[u8],
    rounds: u32,
) -> Result<[u8; N], InvalidLength>
    requires { block_count N P.OUTPUT < 2 ^ 32 }
    ensures key { OnOk result (P.takes_key password.now ≡ true) }
    ensures value { IfOk result
        (λ res. res ≡ pbkdf2 (P.prf password.now) P.OUTPUT salt.now rounds N) }
    ensures refused_key { OnErr result (P.takes_key password.now ≡ false) }
{
    let mut res = [0u8; N];
    pbkdf2::<P>(password, salt, rounds, &mut res)?;
    Ok(res)
}
