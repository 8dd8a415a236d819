//! The sealing of the private keys of an opened store.
ghost use Rattle.std.specs.Prelude.{◌≡◌, ◌≢◌, ◌⊎◌, ◌≤◌, [], IfOk, IfErr, None};
ghost use Rattle.transfer.specs.Opening.{all_certificates};
ghost use Rattle.transfer.specs.Transferred.{SealsOpened};

use crate::progress::{Progress, end_progress};
use asn1_core::Octets;
use mac_modes::{DrawnBytes, ReadDraw};
use pkcs12_opening::{Ending, Failure, NewPassword, RANDOM, refused, tell_sealing};
use std::alloc::Global;
use std::fs;
use std::rt::Files;
use transfer::{OpenedSafe, TransferError, Transferred};

/// What to do where a new password is needed.
const NEW_PASSWORD: &str = "\
Run pkcs12 at a terminal, where it asks for it, or give it by one of these:
    --new-password-file FILE    --new-password-env NAME    --new-password-stdin
To keep the store's: --same-password. To write the certificates alone: --certificates-only.";

/// Seals the keys of an opened store under the new password, in so many rounds, over the system's
/// random octets. Where `is_shown` is set, the standard error says how many there are and about how
/// long they take, and shows how much is done.
pub fn sealed_store<R: Files + Eprint + AllocGlobal + Drop>(
    rt: &R,
    opened: OpenedSafe,
    new_password: &NewPassword,
    rounds: u32,
    is_shown: bool,
) -> Result<Transferred, Failure>
    requires { (1 ≤ rounds) × (rounds ≤ 100000000) }
    ensures ok { IfOk result (λ t. SealsOpened rounds new_password.now None None
        opened.contents opened.keys t.certificates t.documents) }
    ensures err { IfErr result (λ f. (f.ending ≡ Ending.Memory)
        ⊎ (f.ending ≡ Ending.Refused TransferError.Rng)) }
{
    let random = match fs::open(rt, RANDOM) {
        Ok(random) => random,
        Err(error) => {
            return Err(Failure::io(
                rt.alloc(),
                Ending::Refused(TransferError::Rng),
                "random octets",
                RANDOM,
                error,
            ));
        }
    };
    let keys = opened.number_of_keys();
    if is_shown {
        tell_sealing(rt, keys, rounds);
    }
    let mut draw = Progress::new(rt, ReadDraw::new(random), keys, is_shown);
    let new_password = new_password.as_str().as_bytes();
    let sealed = opened.seal(rt.alloc(), new_password, rounds, &mut draw);
    if is_shown {
        end_progress(rt, keys, sealed.is_ok());
    }
    match sealed {
        Ok(transferred) => Ok(transferred),
        Err(refusal) => Err(refused(refusal)),
    }
}

/// What an opened store gives where there is no new password: it may have no private keys.
pub fn certificates_alone(alloc: Global, opened: OpenedSafe) -> Result<Transferred, Failure>
    ensures keyless { IfOk result (λ t. opened.keys ≡ []) }
    ensures certificates { IfOk result
        (λ t. t.certificates ≡ all_certificates opened.contents) }
    ensures documents { IfOk result (λ t. t.documents ≡ []) }
    ensures err { IfErr result (λ f. (f.ending ≡ Ending.Memory)
        ⊎ ((f.ending ≡ Ending.NewPasswordMissing) × (opened.keys ≢ []))) }
{
    if opened.number_of_keys() > 0 {
        return Err(Failure::new(
            Ending::NewPasswordMissing,
            "the store has private keys, and there is no new password to seal them under",
        )
        .advised(NEW_PASSWORD));
    }
    // Without a key nothing is sealed, and nothing drawn.
    let mut draw = DrawnBytes::new(Octets::new(alloc));
    match opened.seal(alloc, b"", 1, &mut draw) {
        Ok(transferred) => Ok(transferred),
        Err(refusal) => Err(refused(refusal)),
    }
}
