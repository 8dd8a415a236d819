//! The algorithms under which parts are sealed anew.
ghost use Rattle.std.specs.Prelude.{◌≡◌, ◌≤◌, ◌<◌, ◌^◌, ◌+◌, List, ℕ, length, IfOk, IfErr, IfSome, Some, true, ⊤};
ghost use Rattle.p12.specs.AlgorithmIdentifier.{count, openable, unlock};
ghost use Rattle.pkcs5.specs.Kinds as kinds;
ghost use Rattle.rekey_core.specs.Anew.{anew, drawn_for, pbes2_rounds, sha256_anew};
ghost use Rattle.rekey_core.specs.Kinds.{kind_for, renewed};
ghost use Rattle.rekey_core.specs.Like.{IsAnew};
ghost use Rattle.rekey_core.specs.Sealing.{IsKeyAnew, LongOnly};
ghost use Rattle.rekey_core.specs.Size.{sealed_size};
ghost use Rattle.transfer.specs.declared.store.error.TransferError.TheVariants as refusal;

use crate::kinds::Kinds;
use crate::supply::PartSupply;
use asn1_core::Octets;
use p12::{AlgorithmIdentifier, Error, Pkcs12PbeParams};
use pkcs5::pbes2::{
    EncryptionKey, EncryptionScheme, Kdf, Parameters, Pbkdf2Params, Pbkdf2Prf, Salt,
};
use std::alloc::Global;
use transfer::TransferError;

/// The octets of a salt of Triple DES.
const SALT: usize = 8;

/// The octets of the IV and the salt of PBES2.
const IV_AND_SALT: usize = 32;

/// The octets of the IV of PBES2, which are drawn before those of the salt.
pub(crate) const IV: usize = 16;

/// How many octets are drawn for a part that was under this algorithm.
pub(crate) fn drawn_for(to: Kinds, algorithm: &AlgorithmIdentifier) -> usize
    ensures value { result ≡ drawn_for (kind_for to algorithm.now) }
    ensures few { result ≤ 32 }
{
    match to {
        Kinds::Renewed(_) => IV_AND_SALT,
        Kinds::Kept => match algorithm {
            AlgorithmIdentifier::PbeWithSHAAnd3KeyTripleDESCBC(_) => SALT,
            AlgorithmIdentifier::Pbes2(_) => IV_AND_SALT,
            AlgorithmIdentifier::Sha1
            | AlgorithmIdentifier::Sha256
            | AlgorithmIdentifier::PbewithSHAAnd40BitRC2CBC(_)
            | AlgorithmIdentifier::OtherAlg(_) => 0,
        },
    }
}

/// How many rounds of PBKDF2 derive a key.
fn rounds_of(kdf: &Kdf) -> u32
    ensures { result ≡ kinds.rounds_of kdf.now }
{
    match kdf {
        Kdf::Pbkdf2(params) => params.iteration_count,
        Kdf::Scrypt(_) => 0,
    }
}

/// The rounds of PBKDF2 of a part that was under this algorithm, where it is sealed under PBES2.
pub(crate) fn rounds_for(to: Kinds, algorithm: &AlgorithmIdentifier) -> Option<u32>
    ensures { result ≡ pbes2_rounds (kind_for to algorithm.now) }
{
    match to {
        Kinds::Renewed(rounds) => Some(rounds.count()),
        Kinds::Kept => match algorithm {
            AlgorithmIdentifier::Pbes2(parameters) => Some(rounds_of(&parameters.kdf)),
            AlgorithmIdentifier::PbeWithSHAAnd3KeyTripleDESCBC(_)
            | AlgorithmIdentifier::Sha1
            | AlgorithmIdentifier::Sha256
            | AlgorithmIdentifier::PbewithSHAAnd40BitRC2CBC(_)
            | AlgorithmIdentifier::OtherAlg(_) => None,
        },
    }
}

/// PBKDF2 over HMAC-SHA-256 in so many rounds, and AES-256-CBC.
#[tactic(auto, using(crate::proofs::Writing::params_are))]
fn parameters_anew(rounds: u32, drawn: &[u8]) -> Parameters
    requires { length drawn.now ≡ 32 }
    ensures { result ≡ sha256_anew rounds drawn.now }
{
    let mut iv = [0u8; 16];
    let (front, back) = drawn.split_at(IV);
    iv.copy_from_slice(front);
    let Ok(salt) = Salt::new(back) else {
        unreachable!()
    };
    Parameters {
        kdf: Kdf::Pbkdf2(Pbkdf2Params {
            salt,
            iteration_count: rounds,
            key_length: None,
            prf: Pbkdf2Prf::HmacWithSha256,
        }),
        encryption: EncryptionScheme::Aes256Cbc { iv },
    }
}

/// An algorithm of the kind of one, under these drawn octets. The only error is `Memory`.
fn kept_anew(
    alloc: Global,
    algorithm: &AlgorithmIdentifier,
    drawn: &[u8],
) -> Result<AlgorithmIdentifier, TransferError>
    requires opens { openable algorithm.now ≡ true }
    requires drawn { length drawn.now ≡ drawn_for algorithm.now }
    ensures ok { IfOk result (λ a. a ≡ anew algorithm.now drawn.now) }
    ensures err { IfErr result (λ e. e ≡ refusal.Memory) }
{
    match algorithm {
        AlgorithmIdentifier::PbeWithSHAAnd3KeyTripleDESCBC(params) => {
            let salt = Octets::from_slice(alloc, drawn)?;
            Ok(AlgorithmIdentifier::PbeWithSHAAnd3KeyTripleDESCBC(Pkcs12PbeParams {
                salt,
                iterations: params.iterations,
            }))
        }
        AlgorithmIdentifier::Pbes2(parameters) => {
            let rounds = rounds_of(&parameters.kdf);
            Ok(AlgorithmIdentifier::Pbes2(parameters_anew(rounds, drawn)))
        }
        AlgorithmIdentifier::Sha1
        | AlgorithmIdentifier::Sha256
        | AlgorithmIdentifier::PbewithSHAAnd40BitRC2CBC(_)
        | AlgorithmIdentifier::OtherAlg(_) => unreachable!(),
    }
}

/// The algorithm that takes the place of one, under these drawn octets. The only error is `Memory`.
fn anew(
    alloc: Global,
    to: Kinds,
    algorithm: &AlgorithmIdentifier,
    drawn: &[u8],
) -> Result<AlgorithmIdentifier, TransferError>
    requires opens { openable (kind_for to algorithm.now) ≡ true }
    requires drawn { length drawn.now ≡ drawn_for (kind_for to algorithm.now) }
    ensures ok { IfOk result (λ a. IsAnew to drawn.now algorithm.now a) }
    ensures err { IfErr result (λ e. e ≡ refusal.Memory) }
{
    match to {
        Kinds::Renewed(rounds) => {
            Ok(AlgorithmIdentifier::Pbes2(parameters_anew(rounds.count(), drawn)))
        }
        Kinds::Kept => kept_anew(alloc, algorithm, drawn),
    }
}

/// What is sealed of a text.
#[derive(Drop)]
pub(crate) struct Sealed {
    pub(crate) algorithm: AlgorithmIdentifier,
    pub(crate) text: Octets,
}

/// A text, sealed under the algorithm that takes the place of one and the key that is derived from the password.
/// `TooLong` only where it would have 2^32 octets or more; the only other error is `Memory`.
fn seal_by_password(
    alloc: Global,
    to: Kinds,
    algorithm: &AlgorithmIdentifier,
    drawn: &[u8],
    text: &[u8],
    new: &str,
) -> Result<Sealed, TransferError>
    requires opens { openable (kind_for to algorithm.now) ≡ true }
    requires rounds { 0 < count (kind_for to algorithm.now) }
    requires drawn { length drawn.now ≡ drawn_for (kind_for to algorithm.now) }
    requires password { length new.now < 2 ^ 57 }
    ensures anew { IfOk result (λ s. IsAnew to drawn.now algorithm.now s.algorithm) }
    ensures opens { IfOk result (λ s. unlock s.algorithm new.now s.text ≡ Some text.now) }
    ensures size { IfOk result (λ s. length s.text
        ≡ sealed_size (kind_for to algorithm.now) (length text.now)) }
    ensures err { IfErr result (LongOnly
        (2 ^ 32 ≤ sealed_size (kind_for to algorithm.now) (length text.now))) }
{
    let algorithm = anew(alloc, to, algorithm, drawn)?;
    match algorithm.encrypt_text(alloc, text, new) {
        Ok(text) => Ok(Sealed { algorithm, text }),
        Err(Error::TooLong) => Err(TransferError::TooLong),
        Err(Error::Memory) => Err(TransferError::Memory),
        Err(Error::Malformed | Error::Invalid | Error::Rng) => unreachable!(),
    }
}

/// A text, sealed under PBES2 in so many rounds and a key that was derived for it. The only error is `Memory`.
fn seal_by_key(
    alloc: Global,
    rounds: u32,
    drawn: &[u8],
    key: &EncryptionKey,
    text: &[u8],
) -> Result<Sealed, TransferError>
    requires rounds { 0 < rounds }
    requires drawn { length drawn.now ≡ 32 }
    requires key { (q : List ℕ) × IsKeyAnew rounds drawn.now q key.now }
    ensures anew { IfOk result (λ s. s.algorithm
        ≡ AlgorithmIdentifier.Pbes2 (sha256_anew rounds drawn.now)) }
    ensures opens { IfOk result (λ s. (q : List ℕ) → IsKeyAnew rounds drawn.now q key.now
        → unlock s.algorithm q s.text ≡ Some text.now) }
    ensures size { IfOk result (λ s. length s.text
        ≡ sealed_size (renewed rounds) (length text.now)) }
    ensures err { IfErr result (λ e. e ≡ refusal.Memory) }
{
    let parameters = parameters_anew(rounds, drawn);
    match parameters.encrypt_under_key(alloc, key, text) {
        Ok(text) => Ok(Sealed {
            algorithm: AlgorithmIdentifier::Pbes2(parameters),
            text,
        }),
        Err(_) => Err(TransferError::Memory),
    }
}

/// The key that was derived for a part in so many rounds, where it is the one that is supplied.
fn derived_for<'a>(rounds: u32, part: &PartSupply<'a>, new: &str) -> Option<&'a EncryptionKey>
    requires { length part.now.drawn.now ≡ 32 }
    ensures { IfSome result
        (λ key. IsKeyAnew rounds part.now.drawn.now new.now key.now) }
{
    match part.derived {
        Some(derived) => derived.key_from(new, rounds, &part.drawn[IV..]),
        None => None,
    }
}

/// A text, sealed under the algorithm that takes the place of one. `TooLong` only where it would
/// have 2^32 octets or more; the only other error is `Memory`.
pub(crate) fn seal(
    alloc: Global,
    to: Kinds,
    algorithm: &AlgorithmIdentifier,
    part: &PartSupply<'_>,
    text: &[u8],
    new: &str,
) -> Result<Sealed, TransferError>
    requires opens { openable (kind_for to algorithm.now) ≡ true }
    requires rounds { 0 < count (kind_for to algorithm.now) }
    requires drawn { length part.now.drawn.now ≡ drawn_for (kind_for to algorithm.now) }
    requires password { length new.now < 2 ^ 57 }
    ensures anew { IfOk result (λ s. IsAnew to part.now.drawn.now algorithm.now s.algorithm) }
    ensures opens { IfOk result (λ s. unlock s.algorithm new.now s.text ≡ Some text.now) }
    ensures size { IfOk result (λ s. length s.text
        ≡ sealed_size (kind_for to algorithm.now) (length text.now)) }
    ensures err { IfErr result (LongOnly
        (2 ^ 32 ≤ sealed_size (kind_for to algorithm.now) (length text.now))) }
{
    if let Some(rounds) = rounds_for(to, algorithm) {
        if let Some(key) = derived_for(rounds, part, new) {
            return seal_by_key(alloc, rounds, part.drawn, key, text);
        }
    }
    seal_by_password(alloc, to, algorithm, part.drawn, text, new)
}
