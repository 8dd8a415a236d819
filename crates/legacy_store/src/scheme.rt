//! The scheme that a text is encrypted under.
ghost use Rattle.std.specs.Prelude.{◌≡◌, ◌+◌, ◌*◌, option_map, length};
ghost use Rattle.asn1_core.specs.Gives.{Gives, ReadsAs};
ghost use Rattle.asn1_core.specs.Oid.{oid_octets};
ghost use Rattle.asn1_core.specs.Reading.{whole};
ghost use Rattle.asn1_core.specs.Texts.{seen_option};
ghost use Rattle.p12.specs.Reading.{params_at};
ghost use Rattle.legacy_store.specs.Algorithm.{own_scheme, scheme_cost, scheme_count, scheme_of, scheme_openable, seen_scheme};
ghost use Rattle.legacy_store.specs.Scheme.{cipher_named, found_params, key_octets, old_scheme, opens_with, other_scheme, params_in, seen_old, seen_params, with_cipher};

use crate::identifiers::{PBE_WITH_SHA1_AND_2KEY_TRIPLE_DES_CBC, PBE_WITH_SHA1_AND_128BIT_RC2_CBC};
use crate::scrypt_text;
use asn1_core::{ObjectIdentifier, Octets, Reader, SliceReader, Tag, read_inner, read_uint};
use p12::{AlgorithmIdentifier, OtherAlgorithmIdentifier};
use pkcs5::pbes2::{Kdf, Parameters};

/// More octets than a salt in a store has.
pub(crate) const SALT_LIMIT: usize = 16_777_216;

/// A cipher of RFC 7292 appendix C that p12 does not open.
#[derive(Clone, Copy)]
pub(crate) enum OldCipher {
    /// RC2 with a key of 40 bits.
    Rc2Of40,
    /// RC2 with a key of 128 bits.
    Rc2Of128,
    /// Triple DES with two keys, of which the first is the third too.
    TwoKeyTripleDes,
}

impl OldCipher {
    /// The octets of a key.
    pub(crate) fn key_octets(self) -> usize
        ensures { result ≡ key_octets self }
    {
        match self {
            OldCipher::Rc2Of40 => 5,
            OldCipher::Rc2Of128 | OldCipher::TwoKeyTripleDes => 16,
        }
    }

    /// Whether texts under it are opened, with a MAC or without one.
    pub(crate) fn opens_with(self, has_mac: bool) -> bool
        ensures { result ≡ opens_with has_mac self }
    {
        match self {
            OldCipher::Rc2Of40 => has_mac,
            OldCipher::Rc2Of128 | OldCipher::TwoKeyTripleDes => true,
        }
    }
}

/// A cipher, and what its key and initialization vector are derived from.
#[derive(Clone, Copy, Drop)]
pub(crate) struct OldScheme<'a> {
    pub(crate) cipher: OldCipher,
    pub(crate) salt: &'a [u8],
    pub(crate) iterations: u64,
}

/// The scheme of a text.
#[derive(Clone, Copy, Drop)]
pub(crate) enum Scheme<'a> {
    /// One that p12 does not open.
    Old(OldScheme<'a>),
    /// PBES2 with scrypt.
    Scrypt(&'a Parameters),
    /// An algorithm as p12 opens it, or does not.
    Own(&'a AlgorithmIdentifier),
}

/// The parameters of a password-based scheme (pkcs-12PbeParams of RFC 7292 appendix C), which lend the salt.
#[derive(Clone, Copy, Drop)]
pub(crate) struct Params<'a> {
    pub(crate) salt: &'a [u8],
    pub(crate) iterations: u64,
}

/// The parameters that come next.
#[tactic(auto, unfolding(p12::specs::Reading::params_at))]
fn read_params<'a>(r: &mut SliceReader<'a>) -> Result<Params<'a>, asn1_core::Error>
    ensures exact { ReadsAs params_at seen_params r.old.rest.now r.new.rest.now result }
{
    let mut ahead = *r;
    let mut body = read_inner(&mut ahead, Tag::SEQUENCE)?;
    let salt = read_inner(&mut body, Tag::OCTET_STRING)?.rest;
    let iterations = read_uint(&mut body, u64::MAX)?;
    body.finish()?;
    *r = ahead;
    Ok(Params { salt, iterations })
}

/// The parameters that a whole element writes.
fn whole_params<'a>(mut element: SliceReader<'a>) -> Result<Params<'a>, asn1_core::Error>
    ensures { Gives seen_params result (whole params_at element.entry.rest.now) }
{
    let params = read_params(&mut element)?;
    element.finish()?;
    Ok(params)
}

/// The parameters that these octets write, if they are those of a password-based scheme.
fn params_written(octets: &[u8]) -> Option<Params<'_>>
    ensures { seen_option seen_params result ≡ found_params (whole params_at octets.now) }
{
    match whole_params(SliceReader::new(octets)) {
        Ok(params) => Some(params),
        Err(_) => None,
    }
}

/// The parameters in an algorithm without a variant of its own, if they are those of a password-based scheme.
fn params_in(params: &Option<Octets>) -> Option<Params<'_>>
    ensures { seen_option seen_params result ≡ params_in params.now }
{
    match params {
        Some(octets) => params_written(octets.as_slice()),
        None => None,
    }
}

/// A cipher with the parameters, if there are some.
fn with_cipher<'a>(cipher: OldCipher, params: Option<Params<'a>>) -> Option<OldScheme<'a>>
    ensures { seen_option seen_old result
        ≡ option_map (with_cipher cipher) (seen_option seen_params params.entry) }
{
    match params {
        Some(found) => Some(OldScheme {
            cipher,
            salt: found.salt,
            iterations: found.iterations,
        }),
        None => None,
    }
}

/// The cipher of an identifier, if it is one of those without a variant of their own.
fn cipher_named(oid: &ObjectIdentifier) -> Option<OldCipher>
    ensures { result ≡ cipher_named (oid_octets oid.now) }
{
    if *oid == PBE_WITH_SHA1_AND_128BIT_RC2_CBC {
        Some(OldCipher::Rc2Of128)
    } else if *oid == PBE_WITH_SHA1_AND_2KEY_TRIPLE_DES_CBC {
        Some(OldCipher::TwoKeyTripleDes)
    } else {
        None
    }
}

/// The scheme of an algorithm without a variant of its own, if it is an old one.
fn other_scheme(other: &OtherAlgorithmIdentifier) -> Option<OldScheme<'_>>
    ensures { seen_option seen_old result ≡ other_scheme other.now }
{
    match cipher_named(&other.algorithm_type) {
        Some(cipher) => with_cipher(cipher, params_in(&other.params)),
        None => None,
    }
}

/// The scheme of an algorithm, if it is an old one.
fn old_scheme(algorithm: &AlgorithmIdentifier) -> Option<OldScheme<'_>>
    ensures { seen_option seen_old result ≡ old_scheme algorithm.now }
{
    match algorithm {
        AlgorithmIdentifier::PbewithSHAAnd40BitRC2CBC(params) => Some(OldScheme {
            cipher: OldCipher::Rc2Of40,
            salt: params.salt.as_slice(),
            iterations: params.iterations,
        }),
        AlgorithmIdentifier::OtherAlg(other) => other_scheme(other),
        AlgorithmIdentifier::Sha1
        | AlgorithmIdentifier::Sha256
        | AlgorithmIdentifier::PbeWithSHAAnd3KeyTripleDESCBC(_)
        | AlgorithmIdentifier::Pbes2(_) => None,
    }
}

/// The scheme of an algorithm that is no old one.
fn own_scheme(algorithm: &AlgorithmIdentifier) -> Scheme<'_>
    ensures { seen_scheme result ≡ own_scheme algorithm.now }
{
    match algorithm {
        AlgorithmIdentifier::Pbes2(parameters) => match &parameters.kdf {
            Kdf::Pbkdf2(_) => Scheme::Own(algorithm),
            Kdf::Scrypt(_) => Scheme::Scrypt(parameters),
        },
        AlgorithmIdentifier::Sha1
        | AlgorithmIdentifier::Sha256
        | AlgorithmIdentifier::PbewithSHAAnd40BitRC2CBC(_)
        | AlgorithmIdentifier::PbeWithSHAAnd3KeyTripleDESCBC(_)
        | AlgorithmIdentifier::OtherAlg(_) => Scheme::Own(algorithm),
    }
}

impl<'a> Scheme<'a> {
    /// The scheme of an algorithm.
    #[tactic(auto, unfolding(crate::specs::Algorithm::scheme_of))]
    pub(crate) fn of(algorithm: &'a AlgorithmIdentifier) -> Scheme<'a>
        ensures { seen_scheme result ≡ scheme_of algorithm.now }
    {
        match old_scheme(algorithm) {
            Some(scheme) => Scheme::Old(scheme),
            None => own_scheme(algorithm),
        }
    }

    /// Whether a text under it can be opened, with a MAC or without one.
    #[tactic(auto, unfolding(crate::specs::Algorithm::scheme_openable))]
    pub(crate) fn is_openable(&self, has_mac: bool) -> bool
        ensures { result ≡ scheme_openable has_mac (seen_scheme self.now) }
    {
        match self {
            Scheme::Old(scheme) => scheme.cipher.opens_with(has_mac)
                && scheme.salt.len() < SALT_LIMIT,
            Scheme::Scrypt(parameters) => scrypt_text::is_openable(parameters),
            Scheme::Own(algorithm) => algorithm.is_openable(),
        }
    }

    /// How many rounds derive the key. That of scrypt is the one round of PBKDF2 in it (RFC 7914 section 6).
    #[tactic(auto, unfolding(crate::specs::Algorithm::scheme_count))]
    pub(crate) fn count(&self) -> u64
        ensures { result ≡ scheme_count (seen_scheme self.now) }
    {
        match self {
            Scheme::Old(scheme) => scheme.iterations,
            Scheme::Scrypt(_) => 1,
            Scheme::Own(algorithm) => algorithm.count(),
        }
    }

    /// The steps of opening a text.
    #[tactic(auto, unfolding(crate::specs::Algorithm::scheme_cost))]
    pub(crate) fn cost(&self) -> u128
        ensures { result ≡ scheme_cost (seen_scheme self.now) }
    {
        match self {
            Scheme::Old(scheme) => 2 * u128::from(scheme.iterations),
            Scheme::Scrypt(parameters) => scrypt_text::cost(parameters),
            Scheme::Own(algorithm) => algorithm.cost(),
        }
    }
}
