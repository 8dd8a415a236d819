//! PBKDF2 over HMAC.
ghost use Rattle.std.specs.Prelude.{◌≡◌, ◌+◌, ◌*◌, ◌<◌, ◌^◌, length, max};
ghost use Rattle.mac_modes.specs.Hmac.{hmac};
ghost use Rattle.pbkdf2.specs.Pbkdf2.{block_count, pbkdf2};
ghost use Rattle.pbkdf2.specs.Algorithm.{derived, output_of};

use crate::algorithm::Algorithm;
use crate::derivation::{pbkdf2, pbkdf2_counted};
use crate::params::Params;
use mac_modes::{HashFn, Hmac, Sha256, Sha512};
use std::sync::ledger::Ledger;
use steps::Steps;

/// Fills `res` with a key that is derived from a password and a salt by HMAC over this hash function, in this number of
/// rounds (RFC 8018 section 5.2); 0 rounds run like 1. Caller: `res` has fewer than 2^32 blocks of `H::OUTPUT` octets.
pub fn pbkdf2_hmac<H: HashFn>(password: &[u8], salt: &[u8], rounds: u32, res: &mut [u8])
    requires { block_count (length res.old) H.OUTPUT < 2 ^ 32 }
    ensures { res.new ≡ pbkdf2 (hmac H.digest H.BLOCK password.now) H.OUTPUT salt.now rounds
        (length res.old) }
{
    let _ = pbkdf2::<Hmac<H>>(password, salt, rounds, res);
}

/// `pbkdf2_hmac` that counts each output of HMAC as a step. Caller: as there.
pub fn pbkdf2_hmac_counted<H: HashFn, L: Ledger>(
    password: &[u8],
    salt: &[u8],
    rounds: u32,
    res: &mut [u8],
    steps: &mut Steps<L>,
)
    requires { block_count (length res.old) H.OUTPUT < 2 ^ 32 }
    ensures value { res.new ≡ pbkdf2 (hmac H.digest H.BLOCK password.now) H.OUTPUT salt.now rounds
        (length res.old) }
    ensures steps { steps.new ≡ steps.old + max rounds 1 * block_count (length res.old) H.OUTPUT }
{
    let _ = pbkdf2_counted::<Hmac<H>, L>(password, salt, rounds, res, steps);
}

/// `pbkdf2_hmac` that returns an array of `N` octets. Caller: they are fewer than 2^32 blocks of `H::OUTPUT` octets.
pub fn pbkdf2_hmac_array<H: HashFn, const N: usize>(
    password: &[u8],
    salt: &[u8],
    rounds: u32,
) -> [u8; N]
    requires { block_count N H.OUTPUT < 2 ^ 32 }
    ensures { result ≡ pbkdf2 (hmac H.digest H.BLOCK password.now) H.OUTPUT salt.now rounds N }
{
    let mut res = [0u8; N];
    pbkdf2_hmac::<H>(password, salt, rounds, &mut res);
    res
}

/// Fills `out` with a key that is derived from a password and a salt by this algorithm, in the parameters' number of
/// rounds (RFC 8018 section 5.2). The output length of the parameters does not count: `out` is filled. Caller: `out` has
/// fewer than 2^32 blocks of the algorithm's output.
pub fn pbkdf2_hmac_with_params(
    password: &[u8],
    salt: &[u8],
    algorithm: Algorithm,
    params: Params,
    out: &mut [u8],
)
    requires { block_count (length out.old) (output_of algorithm) < 2 ^ 32 }
    ensures { out.new ≡ derived algorithm password.now salt.now params.rounds (length out.old) }
{
    match algorithm {
        Algorithm::Pbkdf2Sha256 => pbkdf2_hmac::<Sha256>(password, salt, params.rounds(), out),
        Algorithm::Pbkdf2Sha512 => pbkdf2_hmac::<Sha512>(password, salt, params.rounds(), out),
    }
}
