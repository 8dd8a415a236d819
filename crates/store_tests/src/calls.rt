//! Answers of `p12` compared with what is wanted. An answer is handed over as it comes, and taken apart here: the prover follows
//! each value that may have to be dropped to the end of the function that takes it apart, so one such place for each kind of
//! answer is proved much sooner than one in each test.
ghost use Rattle.std.specs.Prelude.{◌≡◌, ◌<◌, ◌^◌, length, true, IfOk};
ghost use Rattle.p12.specs.AlgorithmIdentifier.{salt_of};
ghost use Rattle.p12.specs.Pfx.{OpeningFits};

use asn1_core::{Items, Octets, SliceReader, Text};
use p12::{AlgorithmIdentifier, EncryptedPrivateKeyInfo, Error, PFX};
use std::alloc::Global;

/// Whether the result is these octets.
pub fn gives(answer: Result<Octets, Error>, wanted: &[u8]) -> bool {
    match answer {
        Ok(octets) => octets.as_slice() == wanted,
        Err(_) => false,
    }
}

/// Whether something was opened, and is these octets.
pub fn opens_to(answer: Result<Option<Octets>, Error>, wanted: &[u8]) -> bool {
    match answer {
        Ok(Some(octets)) => octets.as_slice() == wanted,
        _ => false,
    }
}

/// Whether the result is that nothing can be opened.
pub fn stays_closed(answer: Result<Option<Octets>, Error>) -> bool {
    matches!(answer, Ok(None))
}

/// Whether there is a text, and it is this one.
pub fn is_text(answer: Result<Option<Text>, Error>, wanted: &str) -> bool {
    match answer {
        Ok(Some(text)) => text.as_str() == wanted,
        _ => false,
    }
}

/// Whether the result is these octets, in order.
fn are_octets(answer: Result<Items<Octets>, Error>, wanted: &[&[u8]]) -> bool {
    match answer {
        Ok(found) => are_equal(found.as_slice(), wanted),
        Err(_) => false,
    }
}

/// Whether both are the same octets, in order.
fn are_equal(found: &[Octets], wanted: &[&[u8]]) -> bool {
    if found.len() != wanted.len() {
        return false;
    }
    for (octets, wanted) in found.iter().zip(wanted) {
        if octets.as_slice() != *wanted {
            return false;
        }
    }
    true
}

/// Whether the result is one text, this one, or no text where none is wanted.
fn is_sdsi(answer: Result<Items<Text>, Error>, wanted: Option<&str>) -> bool {
    let Ok(texts) = answer else {
        return false;
    };
    match (texts.as_slice(), wanted) {
        ([text], Some(wanted)) => text.as_str() == wanted,
        ([], None) => true,
        _ => false,
    }
}

/// What is in a store: its X.509 certificates, its SDSI certificate, if any, and its private keys, in order; and whether it
/// has a MAC.
#[derive(Clone, Copy)]
pub struct Held<'a> {
    pub has_mac: bool,
    pub certificates: &'a [&'a [u8]],
    pub sdsi: Option<&'a str>,
    pub keys: &'a [&'a [u8]],
}

/// Whether this is in a store, by each of the calls that collect its certificates and keys.
fn holds(alloc: Global, store: &PFX, password: &str, held: &Held<'_>) -> bool
    requires fits { OpeningFits store.now }
    requires password { length password.now < 2 ^ 57 }
{
    are_octets(store.cert_x509_bags(alloc, password), held.certificates)
        && are_octets(store.cert_bags(alloc, password), held.certificates)
        && is_sdsi(store.cert_sdsi_bags(alloc, password), held.sdsi)
        && are_octets(store.key_bags(alloc, password), held.keys)
}

/// Whether this is in a store under a password, and its MAC agrees; and under the other password only where it has none.
pub fn is_filled(
    alloc: Global,
    answer: Result<PFX, Error>,
    password: &str,
    other: &str,
    held: &Held<'_>,
) -> bool
    requires fits { IfOk answer OpeningFits }
    requires password { length password.now < 2 ^ 57 }
    requires other { length other.now < 2 ^ 57 }
{
    match answer {
        Ok(store) => {
            holds(alloc, &store, password, held)
                && agrees(alloc, &store, password, true)
                && agrees(alloc, &store, other, !held.has_mac)
        }
        Err(_) => false,
    }
}

/// Whether a store returns this, when it is asked whether its MAC agrees.
fn agrees(alloc: Global, store: &PFX, password: &str, wanted: bool) -> bool
    requires fits { OpeningFits store.now }
    requires password { length password.now < 2 ^ 57 }
{
    store.verify_mac(alloc, password) == Ok(wanted)
}

/// Reads a store.
pub fn store(alloc: Global, text: &[u8]) -> Result<PFX, Error>
    ensures { IfOk result OpeningFits }
{
    PFX::parse(alloc, text)
}

/// Reads an EncryptedPrivateKeyInfo.
pub fn encrypted_key(alloc: Global, text: &[u8]) -> Result<EncryptedPrivateKeyInfo, Error> {
    EncryptedPrivateKeyInfo::parse(alloc, &mut SliceReader::new(text))
}

/// Reads an AlgorithmIdentifier.
pub fn algorithm(alloc: Global, text: &[u8]) -> Result<AlgorithmIdentifier, Error> {
    AlgorithmIdentifier::parse(alloc, &mut SliceReader::new(text))
}

/// Whether an encrypted key is as short as the calls that open it want.
pub fn is_short(key: &EncryptedPrivateKeyInfo) -> bool
    ensures text { result ≡ true → length key.now.encrypted_data < 2 ^ 32 }
    ensures salt { result ≡ true → length (salt_of key.now.encryption_algorithm) < 2 ^ 59 }
{
    key.encrypted_data.len() < 1 << 32 && has_short_salt(&key.encryption_algorithm)
}

/// Whether the salt of an algorithm is as short as the calls that open wants.
pub fn has_short_salt(algorithm: &AlgorithmIdentifier) -> bool
    ensures { result ≡ true → length (salt_of algorithm.now) < 2 ^ 59 }
{
    match algorithm {
        AlgorithmIdentifier::PbewithSHAAnd40BitRC2CBC(params)
        | AlgorithmIdentifier::PbeWithSHAAnd3KeyTripleDESCBC(params) => {
            params.salt.len() < 1 << 59
        }
        AlgorithmIdentifier::Sha1
        | AlgorithmIdentifier::Sha256
        | AlgorithmIdentifier::Pbes2(_)
        | AlgorithmIdentifier::OtherAlg(_) => true,
    }
}

/// Whether an algorithm is Triple DES with these rounds and a salt of 8 octets.
pub fn is_triple_des(algorithm: &AlgorithmIdentifier, rounds: u64) -> bool
    ensures { result ≡ true → length (salt_of algorithm.now) ≡ 8 }
{
    match algorithm {
        AlgorithmIdentifier::PbeWithSHAAnd3KeyTripleDESCBC(params) => {
            params.salt.len() == 8 && params.iterations == rounds
        }
        _ => false,
    }
}
