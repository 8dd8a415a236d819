//! The MAC of an old store: that of RFC 7292 appendix B.4, and PBMAC1.
ghost use Rattle.std.specs.Prelude.{◌≡◌, ◌+◌, ◌≤◌, ◌<◌, ◌^◌, length, is_some, true, IfOk, OnOk};
ghost use Rattle.std.specs.Str.{bytes_eq};
ghost use Rattle.asn1_core.specs.Oid.{oid_octets};
ghost use Rattle.pkcs12_kdf.specs.Mac.{mac_under_in};
ghost use Rattle.legacy_store.specs.Forms.{seen_forms};
ghost use Rattle.legacy_store.specs.Mac.{hash_mac, hash_named, is_legacy_digest, legacy_agrees, mac_cost, mac_count, mac_scheme, no_params, other_hash, other_mac};

use crate::identifiers::{PBMAC1, SHA224, SHA384, SHA512};
use crate::pbmac1::{Pbmac1, pbmac1_in};
use crate::secret::Secret;
use asn1_core::{ObjectIdentifier, Octets};
use mac_modes::{HashFn, Sha1, Sha224, Sha256, Sha384, Sha512};
use p12::{AlgorithmIdentifier, MacData, OtherAlgorithmIdentifier};
use pkcs12_kdf::Derivation;
use std::alloc::{AllocError, Global};
use std::sync::ledger::Ledger;
use steps::Steps;

/// A hash function of MACs.
#[derive(Clone, Copy)]
pub(crate) enum MacHash {
    Sha1,
    Sha224,
    Sha256,
    Sha384,
    Sha512,
}

/// How a MAC is made.
#[derive(Clone, Copy, Drop)]
pub(crate) enum MacScheme {
    /// By a hash function (RFC 7292 appendix B.4).
    ByHash(MacHash),
    /// By PBMAC1 (RFC 9579).
    ByPbmac1(Pbmac1),
}

/// The element NULL.
const NULL: &[u8] = &[0x05, 0x00];

/// Whether the parameters of a digest are left out, or NULL.
fn no_params(params: &Option<Octets>) -> bool
    ensures { result ≡ no_params params.now }
{
    match params {
        Some(octets) => octets.as_slice() == NULL,
        None => true,
    }
}

/// The hash function of an identifier, if it is one of those without a variant of their own.
fn hash_named(oid: &ObjectIdentifier) -> Option<MacHash>
    ensures { result ≡ hash_named (oid_octets oid.now) }
{
    if *oid == SHA224 {
        Some(MacHash::Sha224)
    } else if *oid == SHA384 {
        Some(MacHash::Sha384)
    } else if *oid == SHA512 {
        Some(MacHash::Sha512)
    } else {
        None
    }
}

/// The hash function of a digest without a variant of its own, if a MAC under it can be tested.
#[tactic(auto, unfolding(crate::specs::Mac::other_hash))]
fn other_hash(other: &OtherAlgorithmIdentifier) -> Option<MacHash>
    ensures { result ≡ other_hash other.now }
{
    if no_params(&other.params) {
        hash_named(&other.algorithm_type)
    } else {
        None
    }
}

/// How a MAC under a digest without a variant of its own is made, if it can be tested.
#[tactic(auto, unfolding(crate::specs::Mac::other_mac))]
fn other_mac(other: &OtherAlgorithmIdentifier) -> Option<MacScheme>
    ensures { result ≡ other_mac other.now }
{
    if other.algorithm_type == PBMAC1 {
        match pbmac1_in(&other.params) {
            Some(scheme) => Some(MacScheme::ByPbmac1(scheme)),
            None => None,
        }
    } else {
        match other_hash(other) {
            Some(hash) => Some(MacScheme::ByHash(hash)),
            None => None,
        }
    }
}

/// How a MAC under a digest is made, if it can be tested.
#[tactic(auto, unfolding(crate::specs::Mac::mac_scheme))]
fn mac_scheme(digest: &AlgorithmIdentifier) -> Option<MacScheme>
    ensures { result ≡ mac_scheme digest.now }
{
    match digest {
        AlgorithmIdentifier::Sha1 => Some(MacScheme::ByHash(MacHash::Sha1)),
        AlgorithmIdentifier::Sha256 => Some(MacScheme::ByHash(MacHash::Sha256)),
        AlgorithmIdentifier::OtherAlg(other) => other_mac(other),
        AlgorithmIdentifier::PbewithSHAAnd40BitRC2CBC(_)
        | AlgorithmIdentifier::PbeWithSHAAnd3KeyTripleDESCBC(_)
        | AlgorithmIdentifier::Pbes2(_) => None,
    }
}

/// Whether a MAC under this digest can be tested.
pub(crate) fn is_legacy_digest(digest: &AlgorithmIdentifier) -> bool
    ensures { result ≡ is_legacy_digest digest.now }
{
    mac_scheme(digest).is_some()
}

/// The count of rounds: that of MacData, and under PBMAC1 that of PBKDF2.
#[tactic(auto, unfolding(crate::specs::Mac::mac_count))]
pub(crate) fn mac_count(mac: &MacData) -> u32
    ensures { result ≡ mac_count mac.now }
{
    match mac_scheme(&mac.mac.digest_algorithm) {
        Some(MacScheme::ByPbmac1(scheme)) => scheme.count(),
        Some(MacScheme::ByHash(_)) | None => mac.iterations,
    }
}

/// The steps of testing a MAC.
#[tactic(auto, unfolding(crate::specs::Mac::mac_cost))]
pub(crate) fn mac_cost(mac: &MacData) -> u128
    ensures { result ≡ mac_cost mac.now }
{
    match mac_scheme(&mac.mac.digest_algorithm) {
        Some(MacScheme::ByPbmac1(scheme)) => scheme.cost(),
        Some(MacScheme::ByHash(_)) | None => u128::from(mac.iterations),
    }
}

/// Whether the digest is the MAC of the text under the hash `H`, with a count of at least 1.
fn agrees_under<H: HashFn, L: Ledger>(
    alloc: Global,
    mac: &MacData,
    text: &[u8],
    units: &[u8],
    steps: &mut Steps<L>,
) -> Result<bool, AllocError>
    requires rounds { 1 ≤ mac.now.iterations }
    requires salt { length mac.now.salt < 2 ^ 59 }
    requires units { length units.now < 2 ^ 59 }
    ensures value { IfOk result (λ agrees. agrees ≡ bytes_eq (mac_under_in H.BLOCK H.digest
        H.OUTPUT units.now mac.now.salt mac.now.iterations text.now) mac.now.mac.digest) }
    ensures steps { OnOk result (steps.new ≡ steps.old + mac.now.iterations) }
    ensures at_most { (steps.old ≤ steps.new) × (steps.new ≤ steps.old + mac.now.iterations) }
{
    let derivation = Derivation {
        password: units,
        salt: mac.salt.as_slice(),
        rounds: u64::from(mac.iterations),
    };
    let made = derivation.mac_by_block_counted::<H, L>(alloc, text, steps)?;
    Ok(made.as_slice() == mac.mac.digest.as_slice())
}

/// Whether the digest is the MAC of the text under a hash function, with a count of at least 1.
#[tactic(auto, unfolding(crate::specs::Mac::hash_mac))]
fn agrees_by<L: Ledger>(
    alloc: Global,
    hash: MacHash,
    mac: &MacData,
    text: &[u8],
    units: &[u8],
    steps: &mut Steps<L>,
) -> Result<bool, AllocError>
    requires rounds { 1 ≤ mac.now.iterations }
    requires salt { length mac.now.salt < 2 ^ 59 }
    requires units { length units.now < 2 ^ 59 }
    ensures value { IfOk result (λ agrees. agrees ≡ bytes_eq (hash_mac hash units.now
        mac.now.salt mac.now.iterations text.now) mac.now.mac.digest) }
    ensures steps { OnOk result (steps.new ≡ steps.old + mac.now.iterations) }
    ensures at_most { (steps.old ≤ steps.new) × (steps.new ≤ steps.old + mac.now.iterations) }
{
    match hash {
        MacHash::Sha1 => agrees_under::<Sha1, L>(alloc, mac, text, units, steps),
        MacHash::Sha224 => agrees_under::<Sha224, L>(alloc, mac, text, units, steps),
        MacHash::Sha256 => agrees_under::<Sha256, L>(alloc, mac, text, units, steps),
        MacHash::Sha384 => agrees_under::<Sha384, L>(alloc, mac, text, units, steps),
        MacHash::Sha512 => agrees_under::<Sha512, L>(alloc, mac, text, units, steps),
    }
}

/// Whether the MAC of the text agrees under a password. The only error is out of memory.
pub(crate) fn agrees<L: Ledger>(
    alloc: Global,
    mac: &MacData,
    text: &[u8],
    secret: &Secret<'_>,
    steps: &mut Steps<L>,
) -> Result<bool, AllocError>
    requires known { is_legacy_digest mac.now.mac.digest_algorithm ≡ true }
    requires rounds { 1 ≤ mac_count mac.now }
    requires salt { length mac.now.salt < 2 ^ 59 }
    requires units { length secret.now.units.now < 2 ^ 59 }
    ensures value { IfOk result
        (λ agrees. agrees ≡ legacy_agrees mac.now (seen_forms secret.now) text.now) }
    ensures steps { OnOk result (steps.new ≡ steps.old + mac_cost mac.now) }
    ensures at_most { (steps.old ≤ steps.new) × (steps.new ≤ steps.old + mac_cost mac.now) }
{
    match mac_scheme(&mac.mac.digest_algorithm) {
        Some(MacScheme::ByHash(hash)) => agrees_by(alloc, hash, mac, text, secret.units, steps),
        Some(MacScheme::ByPbmac1(scheme)) => {
            let digest = mac.mac.digest.as_slice();
            scheme.agrees(alloc, text, secret.text.as_bytes(), digest, steps)
        }
        None => unreachable!(),
    }
}
