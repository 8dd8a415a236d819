//! Whether a certificate is of a private key.
ghost use Rattle.std.specs.Prelude.{◌≡◌, ◌≢◌, ◌↔◌, IsTrue, Some};
ghost use Rattle.std.specs.List.{slice_get};
ghost use Rattle.asn1_core.specs.Texts.{seen_option};
ghost use Rattle.der_core.specs.BitString.{seen_bits};
ghost use Rattle.spki.specs.Seen.{borrowed_any, seen_public_key};
ghost use Rattle.pkcs8.specs.Seen.{seen_private_key};
ghost use Rattle.key_files.specs.Matching.{IsEcMatch, IsMatch, IsOtherMatch, IsRsaMatch};

use crate::algorithms::{AlgorithmKind, kind_of};
use crate::ec_private_key::read_ec_private_key;
use crate::rsa_private_key::{RsaNumbers, read_rsa_private_key};
use crate::rsa_public_key::read_rsa_public_key;
use der_core::BitStringRef;
use pkcs8::PrivateKeyInfoRef;
use spki::SubjectPublicKeyInfoRef;

/// Whether a public key is that of a private key.
#[derive(Clone, Copy, Debug, PartialEq, Eq)]
pub enum Match {
    /// It is.
    Own,
    /// It is that of another one.
    Another,
    /// The text of the private key does not tell, and only arithmetic would.
    Untold,
}

/// Whether two keys have the same numbers.
fn are_same(one: RsaNumbers<'_>, other: RsaNumbers<'_>) -> bool
    ensures { IsTrue result ↔ ((one.entry.modulus.now ≡ other.entry.modulus.now)
        × (one.entry.exponent.now ≡ other.entry.exponent.now)) }
{
    one.modulus == other.modulus && one.exponent == other.exponent
}

/// Of RSA: `key` are the octets of the private key, and `public` are those of the public one.
fn rsa_match(key: &[u8], public: &BitStringRef<'_>) -> Match
    ensures { IsRsaMatch key.now (seen_bits public.now.unused_bits public.now.octets.now) result }
{
    let Ok(numbers) = read_rsa_private_key(key) else {
        return Match::Untold;
    };
    if public.unused_bits() != 0 {
        return Match::Another;
    }
    let Ok(others) = read_rsa_public_key(public.raw_bytes()) else {
        return Match::Another;
    };
    if are_same(numbers, others) {
        Match::Own
    } else {
        Match::Another
    }
}

/// Whether a point of a curve is written with both coordinates (SEC 1 section 2.3.3).
fn is_uncompressed(point: &[u8]) -> bool
    ensures { IsTrue result ↔ (slice_get point.now 0 ≡ Some 4) }
{
    point.first().copied() == Some(4)
}

/// Of elliptic curves: the same.
fn ec_match(key: &[u8], public: &BitStringRef<'_>) -> Match
    ensures { IsEcMatch key.now (seen_bits public.now.unused_bits public.now.octets.now) result }
{
    let Ok(read) = read_ec_private_key(key) else {
        return Match::Untold;
    };
    let Some(told) = read.public_key else {
        return Match::Untold;
    };
    if told == *public {
        Match::Own
    } else if is_uncompressed(told.raw_bytes()) && is_uncompressed(public.raw_bytes()) {
        Match::Another
    } else {
        Match::Untold
    }
}

/// Of all others: the public key that may stand beside the private one.
fn other_match(told: &Option<BitStringRef<'_>>, public: &BitStringRef<'_>) -> Match
    ensures { IsOtherMatch (seen_option (λ s. seen_bits s.unused_bits s.octets.now) told.now)
        (seen_bits public.now.unused_bits public.now.octets.now) result }
{
    match told {
        Some(told) if *told == *public => Match::Own,
        Some(_) => Match::Another,
        None => Match::Untold,
    }
}

/// Whether the public key of a certificate is that of a private key, as far as its text tells: of RSA by the modulus and the public
/// exponent, of elliptic curves by the public key in it, and of others by the public key beside it. Points of curves of which one is
/// compressed and that differ are not told.
pub fn match_of(key: &PrivateKeyInfoRef<'_>, public: &SubjectPublicKeyInfoRef<'_>) -> Match
    ensures { IsMatch (seen_private_key borrowed_any (λ s. s.octets.now)
        (λ s. seen_bits s.unused_bits s.octets.now) key.now)
        (seen_public_key borrowed_any (λ s. seen_bits s.unused_bits s.octets.now) public.now)
        result }
{
    if key.algorithm.oid.as_bytes() != public.algorithm.oid.as_bytes() {
        return Match::Another;
    }
    match kind_of(&key.algorithm.oid) {
        AlgorithmKind::Rsa => rsa_match(key.private_key.as_bytes(), &public.subject_public_key),
        AlgorithmKind::Ec => ec_match(key.private_key.as_bytes(), &public.subject_public_key),
        AlgorithmKind::Other => other_match(&key.public_key, &public.subject_public_key),
    }
}
