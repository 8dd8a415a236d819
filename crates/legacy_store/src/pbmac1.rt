//! PBMAC1 (RFC 8018 section 7.1 and appendix A.5) as the MAC of a store (RFC 9579).
ghost use Rattle.std.specs.Prelude.{◌≡◌, ◌+◌, ◌≤◌, length, take, IfOk, OnOk, OnErr};
ghost use Rattle.std.specs.Str.{bytes_eq};
ghost use Rattle.asn1_core.specs.Gives.{Gives, ReadsAs};
ghost use Rattle.asn1_core.specs.Reading.{whole};
ghost use Rattle.mac_modes.specs.Hmac.{hmac};
ghost use Rattle.pbkdf2.specs.Pbkdf2.{block_count};
ghost use Rattle.pkcs5.specs.Opening.{derived, key_steps, prf_of, prf_output};
ghost use Rattle.pkcs5.specs.declared.pbes2.kdf.Kdf.TheVariants as kdf;
ghost use Rattle.legacy_store.specs.Pbmac1.{by_pbkdf2, found_pbmac1, pbmac1_cost, pbmac1_in, pbmac1_key, pbmac1_params_at, pbmac1_value, with_length};

use asn1_core::{Octets, Reader, SliceReader, Tag, read_inner};
use der_core::Decode;
use mac_modes::{HashFn, Hmac, Prf, Sha1, Sha224, Sha256, Sha384, Sha512};
use pbkdf2::pbkdf2_hmac_counted;
use pkcs5::pbes2::{Kdf, Pbkdf2Params, Pbkdf2Prf};
use std::alloc::{AllocError, Global};
use std::sync::ledger::Ledger;
use steps::Steps;

/// The least octets of a key: as many as the shortest digest has, SHA-1's.
const LEAST_KEY_OCTETS: u16 = 20;

/// The parameters of PBMAC1 (RFC 8018 appendix A.5).
///
/// ```text
/// PBMAC1-params ::= SEQUENCE {
///     keyDerivationFunc AlgorithmIdentifier {{PBMAC1-KDFs}},
///     messageAuthScheme AlgorithmIdentifier {{PBMAC1-MACs}} }
/// ```
#[derive(Clone, Copy, Drop)]
pub(crate) struct Pbmac1Params {
    kdf: Kdf,
    /// The identifiers of HMAC are those of the pseudorandom functions of PBKDF2.
    hmac: Pbkdf2Prf,
}

/// HMAC under a key that PBKDF2 derives, whose length is stated.
#[derive(Clone, Copy, Drop)]
pub(crate) struct Pbmac1 {
    derivation: Pbkdf2Params,
    key_length: u16,
    hmac: Pbkdf2Prf,
}

// ---- reading

/// The parameters that come next.
#[tactic(auto, unfolding(crate::specs::Pbmac1::pbmac1_params_at))]
fn read_params(r: &mut SliceReader<'_>) -> Result<Pbmac1Params, asn1_core::Error>
    ensures { ReadsAs pbmac1_params_at (λ p. p) r.old.rest.now r.new.rest.now result }
{
    let mut ahead = *r;
    let mut body = read_inner(&mut ahead, Tag::SEQUENCE)?;
    let kdf = Kdf::decode(&mut body)?;
    let hmac = Pbkdf2Prf::decode(&mut body)?;
    body.finish()?;
    *r = ahead;
    Ok(Pbmac1Params { kdf, hmac })
}

/// The parameters that a whole element writes.
fn whole_params(mut element: SliceReader<'_>) -> Result<Pbmac1Params, asn1_core::Error>
    ensures { Gives (λ p. p) result (whole pbmac1_params_at element.entry.rest.now) }
{
    let params = read_params(&mut element)?;
    element.finish()?;
    Ok(params)
}

/// HMAC under a key of PBKDF2, if a length of the key is stated, as RFC 9579 asks for, and is not less than the least.
fn with_length(derivation: &Pbkdf2Params, hmac: Pbkdf2Prf) -> Option<Pbmac1>
    ensures { result ≡ with_length derivation.now hmac derivation.now.key_length }
{
    match derivation.key_length {
        Some(key_length) if key_length >= LEAST_KEY_OCTETS => Some(Pbmac1 {
            derivation: *derivation,
            key_length,
            hmac,
        }),
        Some(_) | None => None,
    }
}

/// HMAC under a key of this function, if that is PBKDF2.
fn by_pbkdf2(kdf: &Kdf, hmac: Pbkdf2Prf) -> Option<Pbmac1>
    ensures { result ≡ by_pbkdf2 kdf.now hmac }
{
    match kdf {
        Kdf::Pbkdf2(derivation) => with_length(derivation, hmac),
        Kdf::Scrypt(_) => None,
    }
}

/// The MAC whose parameters these octets write, if it can be tested.
fn pbmac1_written(octets: &[u8]) -> Option<Pbmac1>
    ensures { result ≡ found_pbmac1 (whole pbmac1_params_at octets.now) }
{
    match whole_params(SliceReader::new(octets)) {
        Ok(params) => by_pbkdf2(&params.kdf, params.hmac),
        Err(_) => None,
    }
}

/// The MAC with these parameters of its algorithm, if it can be tested.
pub(crate) fn pbmac1_in(params: &Option<Octets>) -> Option<Pbmac1>
    ensures { result ≡ pbmac1_in params.now }
{
    match params {
        Some(octets) => pbmac1_written(octets.as_slice()),
        None => None,
    }
}

// ---- testing

/// How many octets a pseudorandom function returns.
fn prf_output(prf: Pbkdf2Prf) -> u64
    ensures value { result ≡ prf_output prf }
    ensures some { 20 ≤ result }
    ensures few { result ≤ 64 }
{
    match prf {
        Pbkdf2Prf::HmacWithSha1 => 20,
        Pbkdf2Prf::HmacWithSha224 => 28,
        Pbkdf2Prf::HmacWithSha256 => 32,
        Pbkdf2Prf::HmacWithSha384 => 48,
        Pbkdf2Prf::HmacWithSha512 => 64,
    }
}

/// Fills `out` with the key that PBKDF2 derives from a password, with a step for each output of its function.
#[tactic(auto, unfolding(pkcs5::specs::Opening::derived, pkcs5::specs::Opening::prf_of))]
fn derive<L: Ledger>(params: &Pbkdf2Params, password: &[u8], out: &mut [u8], steps: &mut Steps<L>)
    requires { length out.old ≤ 65535 }
    ensures key { out.new ≡ derived (kdf.Pbkdf2 params.now) password.now (length out.old) }
    ensures steps { steps.new ≡ steps.old + key_steps (kdf.Pbkdf2 params.now) (length out.old) }
{
    let salt = params.salt.as_bytes();
    let rounds = params.iteration_count;
    match params.prf {
        Pbkdf2Prf::HmacWithSha1 => {
            pbkdf2_hmac_counted::<Sha1, L>(password, salt, rounds, out, steps)
        }
        Pbkdf2Prf::HmacWithSha224 => {
            pbkdf2_hmac_counted::<Sha224, L>(password, salt, rounds, out, steps)
        }
        Pbkdf2Prf::HmacWithSha256 => {
            pbkdf2_hmac_counted::<Sha256, L>(password, salt, rounds, out, steps)
        }
        Pbkdf2Prf::HmacWithSha384 => {
            pbkdf2_hmac_counted::<Sha384, L>(password, salt, rounds, out, steps)
        }
        Pbkdf2Prf::HmacWithSha512 => {
            pbkdf2_hmac_counted::<Sha512, L>(password, salt, rounds, out, steps)
        }
    }
}

/// HMAC over a hash of one piece.
fn hmac_of<H: HashFn>(key: &[u8], content: &[u8]) -> [u8; 64]
    ensures { take H.OUTPUT result ≡ hmac H.digest H.BLOCK key.now content.now }
{
    let mut out = [0u8; 64];
    if let Ok(mut keyed) = Hmac::<H>::new_from_slice(key) {
        keyed.update(content);
        keyed.finalize_into(&mut out);
    } else {
        unreachable!();
    }
    out
}

/// Whether the digest is HMAC over a hash of the content.
fn is_hmac<H: HashFn>(key: &[u8], content: &[u8], digest: &[u8]) -> bool
    ensures { result ≡ bytes_eq (hmac H.digest H.BLOCK key.now content.now) digest.now }
{
    let made = hmac_of::<H>(key, content);
    &made[..H::OUTPUT] == digest
}

/// Whether the digest is HMAC over the hash that a function names.
#[tactic(auto, unfolding(pkcs5::specs::Opening::prf_of))]
fn is_digest(function: Pbkdf2Prf, key: &[u8], content: &[u8], digest: &[u8]) -> bool
    ensures { result ≡ bytes_eq (prf_of function key.now content.now) digest.now }
{
    match function {
        Pbkdf2Prf::HmacWithSha1 => is_hmac::<Sha1>(key, content, digest),
        Pbkdf2Prf::HmacWithSha224 => is_hmac::<Sha224>(key, content, digest),
        Pbkdf2Prf::HmacWithSha256 => is_hmac::<Sha256>(key, content, digest),
        Pbkdf2Prf::HmacWithSha384 => is_hmac::<Sha384>(key, content, digest),
        Pbkdf2Prf::HmacWithSha512 => is_hmac::<Sha512>(key, content, digest),
    }
}

impl Pbmac1 {
    /// The rounds of PBKDF2.
    pub(crate) fn count(&self) -> u32
        ensures { result ≡ self.now.derivation.iteration_count }
    {
        self.derivation.iteration_count
    }

    /// The outputs of the pseudorandom function that a round takes.
    fn blocks(&self) -> u64
        ensures value { result
            ≡ block_count self.now.key_length (prf_output self.now.derivation.prf) }
        ensures few { result ≤ 65535 }
    {
        let output = prf_output(self.derivation.prf);
        (u64::from(self.key_length) + (output - 1)) / output
    }

    /// The steps of testing the MAC: the outputs of the pseudorandom function that make the key.
    pub(crate) fn cost(&self) -> u128
        ensures { result ≡ pbmac1_cost self.now }
    {
        u128::from(u64::from(self.derivation.iteration_count) * self.blocks())
    }

    /// The key that is derived from a password, with a count of at least 1. The only error is out of memory, and then no step was taken.
    fn key<L: Ledger>(
        &self,
        alloc: Global,
        password: &[u8],
        steps: &mut Steps<L>,
    ) -> Result<Octets, AllocError>
        requires rounds { 1 ≤ self.now.derivation.iteration_count }
        ensures value { IfOk result (λ key. key ≡ pbmac1_key self.now password.now) }
        ensures steps { OnOk result (steps.new ≡ steps.old + pbmac1_cost self.now) }
        ensures none { OnErr result (steps.new ≡ steps.old) }
    {
        let mut key = vec![in alloc; 0u8; usize::from(self.key_length)]?;
        derive(&self.derivation, password, key.as_mut_slice(), steps);
        Ok(Octets::from_vec(key))
    }

    /// Whether the digest is the MAC of the content under a password in UTF-8, with a count of at least 1. The only error is out of memory.
    pub(crate) fn agrees<L: Ledger>(
        &self,
        alloc: Global,
        content: &[u8],
        password: &[u8],
        digest: &[u8],
        steps: &mut Steps<L>,
    ) -> Result<bool, AllocError>
        requires rounds { 1 ≤ self.now.derivation.iteration_count }
        ensures value { IfOk result (λ agrees. agrees
            ≡ bytes_eq (pbmac1_value self.now password.now content.now) digest.now) }
        ensures steps { OnOk result (steps.new ≡ steps.old + pbmac1_cost self.now) }
        ensures at_most { (steps.old ≤ steps.new)
            × (steps.new ≤ steps.old + pbmac1_cost self.now) }
    {
        let key = self.key(alloc, password, steps)?;
        Ok(is_digest(self.hmac, key.as_slice(), content, digest))
    }
}
