//! Keys that are derived from passwords.
ghost use Rattle.std.specs.Prelude.{◌≡◌, ◌+◌, ◌*◌, ◌/◌, ◌≤◌, ◌<◌, ◌^◌, ◌++◌, length, map, take, All, IfOk, IfErr, OnOk, OnErr};
ghost use Rattle.pkcs5.specs.Error.{InvalidOf};
ghost use Rattle.pkcs5.specs.Generation.{pbkdf2_sha256};
ghost use Rattle.pkcs5.specs.Kinds as cipher;
ghost use Rattle.pkcs5.specs.Kinds.{IsScrypt};
ghost use Rattle.pkcs5.specs.Opening.{FitsKey, GivesKey, StatesLength, TakesCosts, derived, key_steps, key_under, opening_steps, sha256_key};
ghost use Rattle.pkcs5.specs.Refusals.{RefusesCosts, RefusesKeyByRounds, RefusesKeyInPlace, RefusesToDerive};
ghost use Rattle.pkcs5.specs.declared.pbes2.encryption_scheme.EncryptionScheme.{EncryptionScheme};
ghost use Rattle.pkcs5.specs.declared.pbes2.kdf.Kdf.TheVariants.{Pbkdf2, Scrypt};

use crate::error::{Error, Result};
use crate::pbes2::identifiers::SCRYPT_OID;
use crate::pbes2::kdf::Kdf;
use crate::pbes2::parameters::Parameters;
use crate::pbes2::pbkdf2_params::Pbkdf2Params;
use crate::pbes2::pbkdf2_prf::Pbkdf2Prf;
use crate::pbes2::salt::Salt;
use crate::pbes2::scrypt_params::{ScryptParams, costs_of};
use asn1_core::Items;
use octet_core::ShortOctets;
use pbkdf2::{PasswordAndSalt, pbkdf2_hmac_array, pbkdf2_hmac_counted, pbkdf2_hmac_sha256_four};
use scrypt_core::scrypt;
use sha1::Sha1;
use sha2::{Sha224, Sha256, Sha384, Sha512};
use std::alloc::Global;
use std::marker::{Brand, Model};
use std::sync::ledger::{Blank, Ledger};
use steps::Steps;

/// A key of a cipher, of at most 32 octets, which a contract sees as a list of numbers below 256.
#[derive(Drop)]
pub struct EncryptionKey {
    octets: ShortOctets<32>,
}

impl Model for EncryptionKey {
    ghost use Rattle.std.specs.Prelude.{ℕ, List};

    ghost Value = { List ℕ };

    ghost view = { λ k. k.octets };
}

/// Fills `out` with the key that PBKDF2 derives from a password, and counts a step for each output of its function.
#[tactic(auto, unfolding(crate::specs::Opening::derived, crate::specs::Opening::prf_of))]
fn derive_by_pbkdf2<L: Ledger>(
    params: &Pbkdf2Params,
    password: &[u8],
    out: &mut [u8],
    steps: &mut Steps<L>,
)
    requires { length out.old ≤ 32 }
    ensures key { out.new ≡ derived (Pbkdf2 params.now) password.now (length out.old) }
    ensures steps { steps.new ≡ steps.old + key_steps (Pbkdf2 params.now) (length out.old) }
{
    let salt = params.salt.as_bytes();
    let rounds = params.iteration_count;
    match params.prf {
        Pbkdf2Prf::HmacWithSha1 => {
            pbkdf2_hmac_counted::<Sha1, L>(password, salt, rounds, out, steps)
        }
        Pbkdf2Prf::HmacWithSha224 => {
            pbkdf2_hmac_counted::<Sha224, L>(password, salt, rounds, out, steps)
        }
        Pbkdf2Prf::HmacWithSha256 => {
            pbkdf2_hmac_counted::<Sha256, L>(password, salt, rounds, out, steps)
        }
        Pbkdf2Prf::HmacWithSha384 => {
            pbkdf2_hmac_counted::<Sha384, L>(password, salt, rounds, out, steps)
        }
        Pbkdf2Prf::HmacWithSha512 => {
            pbkdf2_hmac_counted::<Sha512, L>(password, salt, rounds, out, steps)
        }
    }
}

/// `derive_by_pbkdf2` with a counter of its own.
fn derive_uncounted<L: Ledger>(params: &Pbkdf2Params, password: &[u8], out: &mut [u8], blank: Blank)
    requires name { blank.name ≡ L.name }
    requires parts { blank.parts ≡ L.parts }
    requires some { 0 < blank.parts }
    requires size { length out.old ≤ 32 }
    ensures { out.new ≡ derived (Pbkdf2 params.now) password.now (length out.old) }
{
    let mut steps = Steps::<L>::open(blank);
    derive_by_pbkdf2(params, password, out, &mut steps);
}

/// Fills `out` with the key that scrypt derives from a password. `AlgorithmParametersInvalid` exactly where it does
/// not take the costs; and `Memory`.
#[tactic(auto, unfolding(crate::specs::Opening::derived))]
fn derive_by_scrypt(
    alloc: Global,
    params: &ScryptParams,
    password: &[u8],
    out: &mut [u8],
) -> Result<()>
    requires some { 1 ≤ length out.old }
    requires size { length out.old ≤ 32 }
    ensures key { OnOk result
        (out.new ≡ derived (Scrypt params.now) password.now (length out.old)) }
    ensures costs { OnOk result (TakesCosts (Scrypt params.now)) }
    ensures err { IfErr result (λ e. RefusesCosts (Scrypt params.now) e) }
{
    let costs = costs_of(params)?;
    match scrypt(alloc, password, params.salt.as_bytes(), &costs, out) {
        Ok(()) => Ok(()),
        Err(_) => Err(Error::Memory),
    }
}

/// Fills `out` with the key that is derived from a password.
fn derive(alloc: Global, kdf: &Kdf, password: &[u8], out: &mut [u8]) -> Result<()>
    requires some { IsScrypt kdf.now → 1 ≤ length out.old }
    requires size { length out.old ≤ 32 }
    ensures key { OnOk result (out.new ≡ derived kdf.now password.now (length out.old)) }
    ensures costs { OnOk result (TakesCosts kdf.now) }
    ensures err { IfErr result (λ e. RefusesCosts kdf.now e) }
{
    match kdf {
        Kdf::Pbkdf2(params) => {
            derive_uncounted::<Brand>(params, password, out, Blank::new(1));
            Ok(())
        }
        Kdf::Scrypt(params) => derive_by_scrypt(alloc, params, password, out),
    }
}

/// That a length which is stated is this one. `AlgorithmParametersInvalid` with the function's identifier exactly
/// where it is another.
fn expect_length(kdf: &Kdf, key_size: usize) -> Result<()>
    ensures ok { OnOk result (StatesLength kdf.now key_size) }
    ensures err { IfErr result (λ e. InvalidOf (cipher.kdf_oid kdf.now) e
        × ¬ StatesLength kdf.now key_size) }
{
    if let Some(stated) = kdf.key_length() {
        if usize::from(stated) != key_size {
            return Err(kdf.to_alg_params_invalid());
        }
    }
    Ok(())
}

/// The key of 32 octets that PBKDF2 with HMAC-SHA-256 derives from a password.
fn derive_32(password: &[u8], salt: &Salt, rounds: u32) -> EncryptionKey
    ensures { result ≡ sha256_key rounds password.now salt.now }
{
    let octets = pbkdf2_hmac_array::<Sha256, 32>(password, salt.as_bytes(), rounds);
    EncryptionKey {
        octets: ShortOctets::new(&octets),
    }
}

/// Pushes the four keys of 32 octets that PBKDF2 with HMAC-SHA-256 derives from a password and four salts.
fn push_four(
    keys: &mut Items<EncryptionKey>,
    password: &[u8],
    salts: &[Salt],
    rounds: u32,
) -> Result<()>
    requires { length salts.now ≡ 4 }
    ensures ok { OnOk result
        (keys.new ≡ keys.old ++ map (sha256_key rounds password.now) salts.now) }
    ensures err { IfErr result (λ e. e ≡ Error.Memory) }
{
    let inputs = [
        PasswordAndSalt {
            password,
            salt: salts[0].as_bytes(),
        },
        PasswordAndSalt {
            password,
            salt: salts[1].as_bytes(),
        },
        PasswordAndSalt {
            password,
            salt: salts[2].as_bytes(),
        },
        PasswordAndSalt {
            password,
            salt: salts[3].as_bytes(),
        },
    ];
    for octets in pbkdf2_hmac_sha256_four(&inputs, rounds) {
        keys.push(EncryptionKey {
            octets: ShortOctets::new(&octets),
        })?;
    }
    Ok(())
}

/// The keys of 32 octets of all salts but the last three or fewer, whose number is a multiple of four.
fn derive_in_fours(
    alloc: Global,
    password: &[u8],
    salts: &[Salt],
    rounds: u32,
) -> Result<Items<EncryptionKey>>
    ensures ok { IfOk result (λ keys. keys ≡ map (sha256_key rounds password.now)
        (take (4 * (length salts.now / 4)) salts.now)) }
    ensures err { IfErr result (λ e. e ≡ Error.Memory) }
{
    let mut keys = Items::new(alloc);
    for group in 0..salts.len() / 4 {
        push_four(
            &mut keys,
            password,
            &salts[4 * group..4 * group + 4],
            rounds,
        )?;
    }
    Ok(keys)
}

impl EncryptionKey {
    /// Derives one key of 32 octets from the password with each of `salts`, by PBKDF2 with HMAC-SHA-256 (RFC 8018
    /// section 5.2), and returns the keys in the order of the salts. `rounds` is the iteration count. Such a key is
    /// for a cipher whose keys have 32 octets, as AES-256, with parameters that state its salt and these rounds.
    ///
    /// Four keys are derived in about the time of two one after the other. The only error is `Memory`.
    pub fn derive_each_pbkdf2_sha256(
        alloc: Global,
        password: &[u8],
        salts: &[Salt],
        rounds: u32,
    ) -> Result<Items<EncryptionKey>>
        ensures ok { IfOk result (λ keys. (scheme : EncryptionScheme)
            → cipher.key_size scheme ≡ 32 → keys
            ≡ map (λ salt. key_under (pbkdf2_sha256 rounds salt scheme) password.now) salts.now) }
        ensures length { IfOk result (All (λ key. length key ≡ 32)) }
        ensures err { IfErr result (λ e. e ≡ Error.Memory) }
    {
        let mut keys = derive_in_fours(alloc, password, salts, rounds)?;
        for index in salts.len() / 4 * 4..salts.len() {
            keys.push(derive_32(password, &salts[index], rounds))?;
        }
        Ok(keys)
    }

    /// The key of `key_size` octets that is derived from a password (RFC 8018 section 5.2, RFC 7914 section 6). Only
    /// scrypt takes memory. `AlgorithmParametersInvalid` with the identifier of the key derivation function exactly
    /// where the parameters state another length of the key, or scrypt refuses its costs. Caller: `key_size` is at
    /// most 32, and at least 1 for scrypt.
    pub fn derive_from_password(
        alloc: Global,
        password: &[u8],
        kdf: &Kdf,
        key_size: usize,
    ) -> Result<EncryptionKey>
        requires size { key_size ≤ 32 }
        requires some { IsScrypt kdf.now → 1 ≤ key_size }
        ensures ok { IfOk result (λ k. GivesKey kdf.now key_size
            × (k ≡ derived kdf.now password.now key_size)) }
        ensures length { IfOk result (λ k. length k ≡ key_size) }
        ensures err { IfErr result (λ e. RefusesToDerive kdf.now key_size e) }
    {
        expect_length(kdf, key_size)?;
        let mut octets = [0u8; 32];
        derive(alloc, kdf, password, &mut octets[..key_size])?;
        Ok(EncryptionKey {
            octets: ShortOctets::new(&octets[..key_size]),
        })
    }

    /// The key of these parameters under a password. `AlgorithmParametersInvalid` exactly where the function gives no
    /// key for the cipher.
    #[tactic(auto, unfolding(crate::specs::Opening::key_under))]
    pub(crate) fn of_parameters(
        alloc: Global,
        password: &[u8],
        parameters: &Parameters,
    ) -> Result<EncryptionKey>
        ensures fits { OnOk result (FitsKey parameters.now) }
        ensures key { IfOk result (λ k. k ≡ key_under parameters.now password.now) }
        ensures length { IfOk result (λ k. length k ≡ cipher.key_size parameters.now.encryption) }
        ensures err { IfErr result (λ e. RefusesKeyInPlace parameters.now e) }
    {
        let key_size = parameters.encryption.key_size();
        EncryptionKey::derive_from_password(alloc, password, &parameters.kdf, key_size)
    }

    /// The key that PBKDF2 derives for these parameters under a password, with a step for each output of its
    /// function, and none where it refuses. `AlgorithmParametersInvalid` exactly where a length of the key is stated
    /// that is not the cipher's; then `UnsupportedAlgorithm` exactly where the function is scrypt.
    #[tactic(auto, unfolding(crate::specs::Opening::key_under))]
    pub(crate) fn of_parameters_counted<L: Ledger>(
        password: &[u8],
        parameters: &Parameters,
        steps: &mut Steps<L>,
    ) -> Result<EncryptionKey>
        ensures fits { OnOk result (FitsKey parameters.now × ¬ IsScrypt parameters.now.kdf) }
        ensures key { IfOk result (λ k. k ≡ key_under parameters.now password.now) }
        ensures length { IfOk result (λ k. length k ≡ cipher.key_size parameters.now.encryption) }
        ensures err { IfErr result (λ e. RefusesKeyByRounds parameters.now e) }
        ensures steps { OnOk result (steps.new ≡ steps.old + opening_steps parameters.now) }
        ensures refused { OnErr result (steps.new ≡ steps.old) }
    {
        let key_size = parameters.encryption.key_size();
        expect_length(&parameters.kdf, key_size)?;
        match &parameters.kdf {
            Kdf::Pbkdf2(params) => {
                let mut octets = [0u8; 32];
                let key = &mut octets[..key_size];
                derive_by_pbkdf2(params, password, key, steps);
                Ok(EncryptionKey {
                    octets: ShortOctets::new(key),
                })
            }
            Kdf::Scrypt(_) => Err(Error::UnsupportedAlgorithm { oid: SCRYPT_OID }),
        }
    }

    /// The octets of the key.
    pub fn as_slice(&self) -> &[u8]
        ensures { result.now ≡ self.now }
    {
        self.octets.as_slice()
    }
}
